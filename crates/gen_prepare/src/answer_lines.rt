//! The lines of answers.
ghost use Rattle.std.specs.Prelude.{◌≡◌, ◌++◌, IfOk, OnOk, string_bytes};
ghost use Rattle.gen_convict.specs.Answers.{answer_of};
ghost use Rattle.gen_prepare.specs.AnswerLine.{answer_line, signers_said, text_said};

use gen_convict::Refutation;
use gen_local::Text;
use gen_types::Path;
use std::alloc::{AllocError, Global};

/// Appends the generals of a path, parted by commas.
fn push_path(out: &mut String, path: &Path) -> Result<(), AllocError>
    ensures { OnOk result (string_bytes out.new ≡ string_bytes out.old ++ signers_said path.now) }
{
    let Some((first, rest)) = path.generals().split_first() else {
        return out.push_str("-");
    };
    let number = first.get();
    write!(out, "{number}")?;
    for general in rest {
        let number = general.get();
        write!(out, ",{number}")?;
    }
    Ok(())
}

/// Appends what was signed: a statement, or the head of a log.
#[tactic(auto, unfolding(crate::specs::AnswerLine::head_said))]
fn push_text(alloc: Global, out: &mut String, text: &Text) -> Result<(), AllocError>
    ensures { OnOk result (string_bytes out.new ≡ string_bytes out.old ++ text_said text.now) }
{
    match text {
        Text::OfStatement(statement) => {
            out.push_str("statement")?;
            let order = statement.order.get();
            write!(out, " order {order} path ")?;
            push_path(out, &statement.path)
        }
        Text::OfHead(head) => {
            let entries = head.entries;
            let link = hex::encode(alloc, head.last_link)?;
            write!(out, "head entries {entries} link {link}")
        }
    }
}

/// Returns the line of an answer.
pub fn answer_line(alloc: Global, answer: &Refutation) -> Result<Vec<u8>, AllocError>
    ensures { IfOk result (λ v. v.items ≡ answer_line (answer_of answer.now)) }
{
    let mut out = String::new(alloc);
    match answer {
        Refutation::Forged(text) => {
            out.push_str("forged ")?;
            push_text(alloc, &mut out, &text.text)?;
        }
        Refutation::Collision(left, right) => {
            let one = hex::encode(alloc, left.as_slice())?;
            let other = hex::encode(alloc, right.as_slice())?;
            write!(out, "collision {one} {other}")?;
        }
    }
    out.push_str("\n")?;
    Ok(out.into_bytes())
}
