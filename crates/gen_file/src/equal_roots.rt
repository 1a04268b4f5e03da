//! Pairs of generals that have the same root, as lines.
ghost use Rattle.std.specs.Prelude.{◌≡◌, ◌++◌, OnOk, string_bytes};
ghost use Rattle.gen_file.specs.EqualRootsText.{equal_roots_line, equal_roots_lines};

use gen_types::GeneralNo;
use std::alloc::AllocError;

/// Appends the line of two generals that have the same root.
#[tactic(auto, unfolding(crate::specs::EqualRootsText::equal_roots_line))]
fn push_pair(out: &mut String, pair: &(GeneralNo, GeneralNo)) -> Result<(), AllocError>
    ensures { OnOk result
        (string_bytes out.new ≡ string_bytes out.old ++ equal_roots_line pair.now) }
{
    let first = pair.0.get();
    let second = pair.1.get();
    write!(out, "equal roots {first} {second}\n")
}

/// Appends a line for each of these pairs of generals that have the same root.
///
/// # Errors
///
/// `AllocError` where memory is refused.
pub fn push_equal_roots(
    out: &mut String,
    pairs: &[(GeneralNo, GeneralNo)],
) -> Result<(), AllocError>
    ensures { OnOk result
        (string_bytes out.new ≡ string_bytes out.old ++ equal_roots_lines pairs.now) }
{
    for pair in pairs {
        push_pair(out, pair)?;
    }
    Ok(())
}
