//! The rows of a listing, and their order.
ghost use Rattle.std.specs.Prelude.{◌≡◌, refl};
ghost use Rattle.std.specs.Cmp.{eq_by_cmp_equiv, partial_equiv_from_equiv, po};
ghost use Rattle.std.specs.Ordering.{as_partial_cmp, eq_by_cmp};
ghost use Rattle.report_text.specs.Labels.{row_cmp};
ghost use Rattle.report_text.specs.Orders.{row_total};

use crate::labels::Label;
use std::cmp::Ordering;
use std::marker::Model;

/// A row of a listing.
#[derive(Drop)]
pub struct Row {
    /// How many samples, at least 1.
    pub count: u128,
    /// What they lie in.
    pub label: Label,
}

/// The rows of a listing.
#[derive(Drop)]
pub struct Rows {
    /// The sum of the counts.
    pub total: u128,
    /// The rows, in the order in which they are listed.
    pub rows: Vec<Row>,
}

impl Model for Rows {
    ghost use Rattle.report_text.specs.Reports.{Report};

    ghost Value = { Report };

    ghost view = { λ r. record { total = r.total; rows = r.rows.items } };
}

/// The largest count stands first, ties by label.
impl Ord for Row {
    ghost cmp = { row_cmp };

    ghost total = { row_total };

    ghost matches_partial_cmp = { λ a b. refl };

    ghost matches_eq = { λ a b. refl };

    fn cmp(&self, other: &Row) -> Ordering {
        other
            .count
            .cmp(&self.count)
            .then(self.label.cmp(&other.label))
    }
}

impl PartialOrd for Row {
    ghost partial_cmp = { as_partial_cmp row_cmp };

    ghost laws = { po row_total (λ a b. refl) };

    fn partial_cmp(&self, other: &Row) -> Option<Ordering> {
        Some(self.cmp(other))
    }
}

impl Eq for Row {
    ghost laws = { eq_by_cmp_equiv row_total };
}

impl PartialEq for Row {
    ghost eq = { eq_by_cmp row_cmp };

    ghost laws = { partial_equiv_from_equiv (eq_by_cmp_equiv row_total) };

    fn eq(&self, other: &Row) -> bool {
        self.cmp(other).is_eq()
    }
}
