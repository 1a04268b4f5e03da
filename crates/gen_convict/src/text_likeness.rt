//! Tests which texts contradict each other.
ghost use Rattle.std.specs.Prelude.{◌≡◌};
ghost use Rattle.gen_convict.specs.Finding as finds;

use gen_local::Text;
use gen_log::{Log, has_sign};
use gen_types::Path;

/// Whether two texts have one subject: two statements of one order, or two heads.
pub fn is_like(first: &Text, second: &Text) -> bool
    ensures { result ≡ finds.is_like first.now second.now }
{
    match (first, second) {
        (Text::OfStatement(s), Text::OfStatement(t)) => s.order == t.order,
        (Text::OfHead(_), Text::OfHead(_)) => true,
        _ => false,
    }
}

/// Whether two texts have one subject and differ.
pub fn is_unlike(first: &Text, second: &Text) -> bool
    ensures { result ≡ finds.is_unlike first.now second.now }
{
    match (first, second) {
        (Text::OfStatement(s), Text::OfStatement(t)) => s.order == t.order && s.path != t.path,
        (Text::OfHead(s), Text::OfHead(t)) => *s != *t,
        _ => false,
    }
}

/// Whether a text is a statement whose path is the commander alone.
pub fn is_command(text: &Text) -> bool
    ensures { result ≡ finds.is_command text.now }
{
    match text {
        Text::OfStatement(statement) => statement.path == Path::commander(),
        Text::OfHead(_) => false,
    }
}

/// Whether two texts are statements of different orders, each with the path of the commander alone.
pub fn are_orders(first: &Text, second: &Text) -> bool
    ensures { result ≡ finds.are_orders first.now second.now }
{
    match (first, second) {
        (Text::OfStatement(s), Text::OfStatement(t)) => {
            s.path == Path::commander() && t.path == Path::commander() && s.order != t.order
        }
        _ => false,
    }
}

/// Whether a text is a statement without a SIGN in the log.
pub fn is_unsaid(log: &Log, text: &Text) -> bool
    ensures { result ≡ finds.is_unsaid log.now text.now }
{
    match text {
        Text::OfStatement(statement) => !has_sign(log, statement),
        Text::OfHead(_) => false,
    }
}
