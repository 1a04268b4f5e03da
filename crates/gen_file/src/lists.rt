//! Lists of numbers, of which lines are made.
ghost use Rattle.std.specs.Prelude.{◌≡◌, ◌++◌, OnOk, string_bytes};
ghost use Rattle.gen_file.specs.Lists.{listed};

use gen_types::{GeneralNo, NumberSet};
use std::alloc::AllocError;

/// Appends the numbers of generals, parted by commas, or a minus where there are none.
pub fn push_generals(out: &mut String, generals: &[GeneralNo]) -> Result<(), AllocError>
    ensures { OnOk result (string_bytes out.new ≡ string_bytes out.old ++ listed generals.now) }
{
    let Some((first, rest)) = generals.split_first() else {
        return out.push_str("-");
    };
    let number = first.get();
    write!(out, "{number}")?;
    for general in rest {
        let number = general.get();
        write!(out, ",{number}")?;
    }
    Ok(())
}

/// Appends the members of a set, parted by commas, or a minus where there are none.
pub fn push_members<K>(out: &mut String, set: NumberSet<K>) -> Result<(), AllocError>
    ensures { OnOk result (string_bytes out.new ≡ string_bytes out.old ++ listed set) }
{
    let mut members = set.iter();
    let Some(first) = members.next() else {
        return out.push_str("-");
    };
    let number = first.get();
    write!(out, "{number}")?;
    for member in members {
        let number = member.get();
        write!(out, ",{number}")?;
    }
    Ok(())
}
