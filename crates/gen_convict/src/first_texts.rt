//! Finds the first text of a list with some property. Two texts are unlike if they have one subject and differ.
ghost use Rattle.std.specs.Prelude.{◌≡◌, map};
ghost use Rattle.std.specs.Option.{option_map};
ghost use Rattle.std.specs.List.{find};
ghost use Rattle.gen_convict.specs.Finding as finds;

use crate::text_likeness::{are_orders, is_unlike};
use gen_local::SignedText;

/// Returns the first text that is unlike this one.
pub fn first_unlike<'a>(text: &SignedText, texts: &[&'a SignedText]) -> Option<&'a SignedText>
    ensures { option_map (λ t. t.now) result
        ≡ find (λ x. finds.is_unlike text.now.text x.text) (map (λ t. t.now) texts.now) }
{
    for other in texts {
        if is_unlike(&text.text, &other.text) {
            return Some(other);
        }
    }
    None
}

/// Returns the first statement of another order, if both statements have the path of the commander alone.
pub fn first_other_order<'a>(text: &SignedText, texts: &[&'a SignedText]) -> Option<&'a SignedText>
    ensures { option_map (λ t. t.now) result
        ≡ find (λ x. finds.are_orders text.now.text x.text) (map (λ t. t.now) texts.now) }
{
    for other in texts {
        if are_orders(&text.text, &other.text) {
            return Some(other);
        }
    }
    None
}
