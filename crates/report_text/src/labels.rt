//! The labels of a listing's rows, and their order.
ghost use Rattle.std.specs.Prelude.{◌≡◌, refl};
ghost use Rattle.std.specs.Cmp.{eq_by_cmp_equiv, partial_equiv_from_equiv, po};
ghost use Rattle.std.specs.Ordering.{as_partial_cmp, eq_by_cmp};
ghost use Rattle.report_text.specs.Labels.{image_of, kind_of, label_cmp, last_of, procedure_of};
ghost use Rattle.report_text.specs.Orders.{label_total};

use std::cmp::Ordering;
use text_num::Name;

/// What a row of a listing counts.
#[derive(Drop)]
pub enum Label {
    /// An image, in a listing by image.
    Image(Name),
    /// A procedure of an image.
    Procedure {
        /// The image.
        image: Name,
        /// The procedure.
        name: Name,
    },
    /// What lies in an image and in none of its procedures.
    NoSymbol {
        /// The image.
        image: Name,
    },
    /// The samples with no known mapping.
    Unknown,
}

impl Label {
    // The image, or no bytes.
    fn image(&self) -> &[u8]
        ensures { result.now ≡ image_of self.now }
    {
        match self {
            Label::Image(image) => image.bytes(),
            Label::Procedure { image, name: _ } => image.bytes(),
            Label::NoSymbol { image } => image.bytes(),
            Label::Unknown => &[],
        }
    }

    // The procedure, or no bytes.
    fn procedure(&self) -> &[u8]
        ensures { result.now ≡ procedure_of self.now }
    {
        match self {
            Label::Image(_) => &[],
            Label::Procedure { image: _, name } => name.bytes(),
            Label::NoSymbol { image: _ } => &[],
            Label::Unknown => &[],
        }
    }

    fn kind(&self) -> u8
        ensures { result ≡ kind_of self.now }
    {
        match self {
            Label::Image(_) => 0,
            Label::NoSymbol { image: _ } => 1,
            Label::Procedure { image: _, name: _ } => 2,
            Label::Unknown => 3,
        }
    }

    // 1 for the unknown samples, which stand last.
    fn last(&self) -> u8
        ensures { result ≡ last_of self.now }
    {
        match self {
            Label::Image(_) => 0,
            Label::NoSymbol { image: _ } => 0,
            Label::Procedure { image: _, name: _ } => 0,
            Label::Unknown => 1,
        }
    }
}

/// Labels stand by image in bytes; within an image what lies in no procedure stands first, then procedures in bytes; the
/// unknown samples stand last.
impl Ord for Label {
    ghost cmp = { label_cmp };

    ghost total = { label_total };

    ghost matches_partial_cmp = { λ a b. refl };

    ghost matches_eq = { λ a b. refl };

    fn cmp(&self, other: &Label) -> Ordering {
        let ends = self
            .procedure()
            .cmp(other.procedure())
            .then(self.kind().cmp(&other.kind()));
        let names = self.image().cmp(other.image()).then(ends);
        self.last().cmp(&other.last()).then(names)
    }
}

impl PartialOrd for Label {
    ghost partial_cmp = { as_partial_cmp label_cmp };

    ghost laws = { po label_total (λ a b. refl) };

    fn partial_cmp(&self, other: &Label) -> Option<Ordering> {
        Some(self.cmp(other))
    }
}

impl Eq for Label {
    ghost laws = { eq_by_cmp_equiv label_total };
}

impl PartialEq for Label {
    ghost eq = { eq_by_cmp label_cmp };

    ghost laws = { partial_equiv_from_equiv (eq_by_cmp_equiv label_total) };

    fn eq(&self, other: &Label) -> bool {
        self.cmp(other).is_eq()
    }
}
