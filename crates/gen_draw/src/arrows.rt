//! The arrows of messages.
ghost use Rattle.std.specs.Prelude.{◌≡◌, ◌++◌, OnOk, string_bytes};
ghost use Rattle.std.specs.List.{flat_map};
ghost use Rattle.gen_draw.specs.Arrows.{
  arrow_line,
  arrow_opening,
  message_stroke,
  path_words,
  told_words,
};

use crate::arrow::{Arrow, ToldBy};
use crate::grid::Grid;
use crate::rows::{middle_of, row_of};
use crate::shapes::push_words;
use gen_types::GeneralNo;
use std::alloc::AllocError;

/// Appends the line of a message from its sender's line to its receiver's.
#[tactic(auto, unfolding(crate::specs::Arrows::message_stroke))]
pub fn push_message_stroke(
    out: &mut String,
    grid: Grid,
    from: u8,
    to: u8,
    round: u16,
    order: u8,
) -> Result<(), AllocError>
    ensures { OnOk result
        (string_bytes out.new ≡ string_bytes out.old ++ message_stroke grid from to round order) }
{
    let x = grid.lane(round, order);
    let y = row_of(from);
    let to_x = x + 2 * grid.half_reach();
    let to_y = row_of(to);
    write!(out, "<path d=\"M{x} {y}L{to_x} {to_y}\"/>")
}

/// Appends the beginning of a message's arrow, which says whether it is solid or dashed, and the colour of its order; and
/// as its title the message in words, without its path.
#[tactic(auto, unfolding(crate::specs::Arrows::arrow_opening))]
fn push_arrow_opening(
    out: &mut String,
    told: ToldBy,
    from: u8,
    to: u8,
    round: u16,
    order: u8,
) -> Result<(), AllocError>
    ensures { OnOk result
        (string_bytes out.new ≡ string_bytes out.old ++ arrow_opening told from to round order) }
{
    match told {
        ToldBy::Both => write!(
            out,
            "<g class=\"both o{order}\"><title>from {from} to {to} round {round} order {order} path"
        ),
        ToldBy::Sender | ToldBy::Receiver => write!(
            out,
            "<g class=\"alone o{order}\"><title>from {from} to {to} round {round} order {order} path"
        ),
    }
}

/// Appends the end of a message's title: the generals of its path, and which logs have it.
#[tactic(auto, unfolding(crate::specs::Arrows::told_words))]
fn push_title_end(
    out: &mut String,
    generals: &[GeneralNo],
    told: ToldBy,
    from: u8,
    to: u8,
) -> Result<(), AllocError>
    ensures { OnOk result (string_bytes out.new
        ≡ string_bytes out.old ++ (path_words generals.now ++ told_words told from to)) }
{
    for general in generals {
        let number = general.get();
        write!(out, " {number}")?;
    }
    match told {
        ToldBy::Both => out.push_str(": both logs have it</title>"),
        ToldBy::Sender => write!(out, ": only the log of {from} has it</title>"),
        ToldBy::Receiver => write!(out, ": only the log of {to} has it</title>"),
    }
}

/// Appends the arrow of a message that some shown log has: its title, which is the message in words with its path and
/// which logs have it, its line, and the number of its order at the middle of the line.
#[tactic(auto, unfolding(crate::specs::Arrows::arrow_line))]
fn push_arrow(out: &mut String, grid: Grid, arrow: &Arrow) -> Result<(), AllocError>
    ensures { OnOk result
        (string_bytes out.new ≡ string_bytes out.old ++ arrow_line grid arrow.now) }
{
    let from = arrow.message.from.get();
    let to = arrow.message.to.get();
    let order = arrow.message.order.get();
    let round = arrow.message.path.len() as u16;
    push_arrow_opening(out, arrow.told, from, to, round, order)?;
    push_title_end(out, arrow.message.path.generals(), arrow.told, from, to)?;
    push_message_stroke(out, grid, from, to, round, order)?;
    push_words(out, grid.middle(round, order), middle_of(from, to))?;
    write!(out, "{order}</text></g>\n")
}

/// Appends the arrows of the messages that shown logs have.
pub fn push_arrows(out: &mut String, grid: Grid, arrows: &[Arrow]) -> Result<(), AllocError>
    ensures { OnOk result
        (string_bytes out.new ≡ string_bytes out.old ++ flat_map (arrow_line grid) arrows.now) }
{
    for arrow in arrows {
        push_arrow(out, grid, arrow)?;
    }
    Ok(())
}
