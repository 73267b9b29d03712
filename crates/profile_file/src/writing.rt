//! Writing a profile as bytes.

ghost use Rattle.std.specs.Prelude.{◌≡◌, ◌++◌, [], IfOk, OnOk};
ghost use Rattle.var_bytes.specs.Numbers.{spell};
ghost use Rattle.var_bytes.specs.Forms.{Spells, fields_after};
ghost use Rattle.database_model.specs.Ranges.{AreRows};
ghost use Rattle.database_model.specs.ProfileForm.{row_fields, format1};

use crate::profiles::Profile;
use database_model::ProfileRow;
use std::alloc::{AllocError, Global};
use var_bytes::put_numbers;

/// Writes a profile in format 1.
pub fn write_profile(alloc: Global, p: &Profile) -> Result<Vec<u8>, AllocError>
    ensures { IfOk result (λ bytes. Spells format1 bytes.items p.now) }
{
    let rows = p.rows();
    let mut out = Vec::new(alloc);
    put_numbers(&mut out, &[1, rows.len() as u64])?;
    put_rows(&mut out, rows)?;
    Ok(out)
}

fn put_rows(out: &mut Vec<u8>, rows: &[ProfileRow]) -> Result<(), AllocError>
    requires { AreRows rows.now }
    ensures { OnOk result (out.new.items
        ≡ out.old.items ++ spell (fields_after row_fields [] rows.now)) }
{
    let mut last: u64 = 0;
    for row in rows {
        let position = row.offset / 4;
        put_numbers(out, &[position - last, row.count])?;
        last = position;
    }
    Ok(())
}
