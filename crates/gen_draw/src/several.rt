//! The picture of the runs of a campaign.
ghost use Rattle.std.specs.Prelude.{◌≡◌, ◌<◌, ◌+◌, ◌*◌, ◌^◌, ◌++◌, IfOk, OnOk, codes, length, map, string_bytes};
ghost use Rattle.std.specs.List.{flat_map};
ghost use Rattle.gen_convict.specs.Evidence.{told_of};
ghost use Rattle.gen_convict.specs.Told.{told};
ghost use Rattle.gen_draw.specs.Grid.{height_of};
ghost use Rattle.gen_draw.specs.Several.{
  across_height,
  across_part,
  across_span,
  across_words,
  both_words,
  bottom_from,
  kind_across,
  place_with,
  place_words,
  run_at,
  runs_from,
  several_picture,
  widest_from,
};

use crate::grid::Grid;
use crate::page::push_heads;
use crate::picture::{grid_of, push_run_part};
use crate::shapes::push_opening;
use crate::style::push_style;
use gen_audit::{Bundle, Judgement};
use gen_convict::{Claim, Evidence};
use gen_net::Header;
use gen_types::limits::{MOST_GENERALS, MOST_ORDERS, MOST_ROUNDS};
use std::alloc::{AllocError, Global};

/// Returns the width of the widest picture of bundles, and how far down the pictures end if they stand below one another
/// from the top; 0 and 0 if there is none.
fn extent_of(bundles: &[Bundle]) -> (u32, u32)
    requires { length bundles.now < 2 ^ 16 }
    ensures width { result.0 ≡ widest_from 0 bundles.now }
    ensures bottom { result.1 ≡ bottom_from 0 bundles.now }
    ensures small { result.1 < 2 ^ 31 }
{
    let mut width = 0u32;
    let mut down = 0u32;
    let mut runs = bundles;
    'runs: while let Some((run, others)) = runs.split_first() {
        let grid = grid_of(run.header().net());
        width = width.max(grid.width());
        down += grid.height();
        runs = others;
    }
    (width, down)
}

/// The most lines for generals that are convicted across runs: one for each general.
const MOST_LINES: usize = MOST_GENERALS as usize;

/// Returns the height of the lines for this many generals that are convicted across runs, of which there are at most
/// 16.
#[tactic(auto, unfolding(crate::specs::Several::across_height))]
fn across_height(count: usize) -> u32
    ensures value { result ≡ across_height count }
    ensures small { result < 2 ^ 10 }
{
    24 + 18 * count.min(MOST_LINES) as u32
}

/// Appends the picture of a run at a height.
#[tactic(auto, unfolding(crate::specs::Several::run_at, crate::specs::Several::run_opening))]
fn push_run_at(
    alloc: Global,
    out: &mut String,
    down: u32,
    bundle: &Bundle,
    judgement: &Judgement,
) -> Result<(), AllocError>
    ensures { OnOk result
        (string_bytes out.new ≡ string_bytes out.old ++ run_at down bundle.now judgement.now) }
{
    let grid = grid_of(bundle.header().net());
    write!(out, "<g transform=\"translate(0 {down})\">\n")?;
    push_opening(out, grid.width(), grid.height())?;
    push_run_part(alloc, out, bundle, judgement)?;
    out.push_str("</g>\n")
}

/// Appends the pictures of runs, each below the one before it, as far as there are judgements.
fn push_runs(
    alloc: Global,
    out: &mut String,
    bundles: &[Bundle],
    judgements: &[Judgement],
) -> Result<(), AllocError>
    requires { length bundles.now < 2 ^ 16 }
    ensures { OnOk result (string_bytes out.new
        ≡ string_bytes out.old ++ runs_from 0 bundles.now judgements.now) }
{
    let mut down = 0u32;
    let mut runs = bundles;
    let mut rest = judgements;
    'runs: while let Some((run, others)) = runs.split_first() {
        let Some((judgement, more)) = rest.split_first() else {
            return Ok(());
        };
        push_run_at(alloc, out, down, run, judgement)?;
        down += grid_of(run.header().net()).height();
        runs = others;
        rest = more;
    }
    Ok(())
}

/// Returns the place of the first run with this header, counted from 0; none if there is no such run.
fn place_with(bundles: &[Bundle], header: &Header) -> Option<usize>
    ensures { result ≡ place_with bundles.now header.now }
{
    bundles.iter().position(|run| run.header() == header)
}

/// Appends the place of a run, if it has one.
fn push_place(out: &mut String, place: Option<usize>) -> Result<(), AllocError>
    ensures { OnOk result (string_bytes out.new ≡ string_bytes out.old ++ place_words place) }
{
    match place {
        None => Ok(()),
        Some(place) => write!(out, " {place}"),
    }
}

/// Appends the places of the two runs that a claim is across; nothing for a claim within one run.
#[tactic(auto, unfolding(crate::specs::Several::across_words))]
fn push_across_words(out: &mut String, bundles: &[Bundle], claim: &Claim) -> Result<(), AllocError>
    ensures { OnOk result (string_bytes out.new
        ≡ string_bytes out.old ++ across_words bundles.now (told claim.now)) }
{
    match claim {
        Claim::Across { first, second } => {
            out.push_str(" across")?;
            push_place(out, place_with(bundles, &first.header))?;
            push_place(out, place_with(bundles, &second.header))
        }
        Claim::Texts { .. }
        | Claim::Orders { .. }
        | Claim::Missing { .. }
        | Claim::Departing { .. } => Ok(()),
    }
}

/// Returns the number of the kind by which the verdict names a claim. Two texts under one leaf are of kind 1 across two
/// runs too.
fn kind_across(claim: &Claim) -> u8
    ensures { result ≡ kind_across (told claim.now) }
{
    match claim {
        Claim::Across { .. } => 1,
        Claim::Texts { .. }
        | Claim::Orders { .. }
        | Claim::Missing { .. }
        | Claim::Departing { .. } => claim.kind(),
    }
}

/// Appends which general is convicted, by which kind of claim, and across which runs.
#[tactic(auto, unfolding(crate::specs::Several::convicted_words))]
fn push_both_words(
    out: &mut String,
    bundles: &[Bundle],
    evidence: &Evidence,
) -> Result<(), AllocError>
    ensures { OnOk result (string_bytes out.new
        ≡ string_bytes out.old ++ both_words bundles.now (told_of evidence.now)) }
{
    let accused = evidence.accused.get();
    let kind = kind_across(&evidence.claim);
    write!(out, "general {accused} is convicted by K{kind}")?;
    push_across_words(out, bundles, &evidence.claim)
}

/// Appends the line of a general that is convicted across runs.
#[tactic(auto, unfolding(crate::specs::Several::across_span))]
fn push_across_span(
    out: &mut String,
    bundles: &[Bundle],
    evidence: &Evidence,
) -> Result<(), AllocError>
    ensures { OnOk result (string_bytes out.new
        ≡ string_bytes out.old ++ across_span bundles.now (told_of evidence.now)) }
{
    out.push_str("<tspan class=\"found\" x=\"16\" dy=\"18\"><title>")?;
    push_both_words(out, bundles, evidence)?;
    out.push_str("</title>")?;
    push_both_words(out, bundles, evidence)?;
    out.push_str("</tspan>\n")
}

/// Appends the lines of the generals that are convicted across runs, at a height, and the end of the text.
#[tactic(auto, unfolding(crate::specs::Several::across_part, crate::specs::Several::across_opening))]
fn push_across(
    out: &mut String,
    down: u32,
    bundles: &[Bundle],
    across: &[Evidence],
) -> Result<(), AllocError>
    ensures { OnOk result (string_bytes out.new
        ≡ string_bytes out.old ++ across_part down bundles.now (map told_of across.now)) }
{
    write!(out, "<text x=\"16\" y=\"{down}\">\n")?;
    for evidence in across {
        push_across_span(out, bundles, evidence)?;
    }
    out.push_str("</text>\n</svg>\n")
}

/// Returns the picture of a campaign as one SVG text. The pictures that `draw` makes of its bundles and of the
/// judgements on them stand one below the other. Below them stands in red which generals are convicted across runs,
/// with the places of the runs, counted from 0. The judgements are meant to be those of an audit of the campaign, one
/// for each bundle and in their order. If there are fewer, the bundles without one are left out.
///
/// The text is well-formed XML, fetches nothing and runs nothing, and its size is linear in the number of entries.
///
/// # Errors
///
/// `AllocError` if memory is refused.
#[tactic(auto, unfolding(crate::specs::Several::several_picture, crate::specs::Several::several_front, crate::specs::Several::several_title))]
pub fn draw_campaign(
    alloc: Global,
    bundles: &[Bundle],
    judgements: &[Judgement],
    across: &[Evidence],
) -> Result<Vec<u8>, AllocError>
    requires { length bundles.now < 2 ^ 16 }
    ensures { IfOk result (λ v. v.items
        ≡ several_picture bundles.now judgements.now (map told_of across.now)) }
{
    let (width, down) = extent_of(bundles);
    let largest = Grid {
        generals: MOST_GENERALS,
        orders: MOST_ORDERS,
        rounds: MOST_ROUNDS,
    };
    let count = bundles.len();
    let mut out = String::new(alloc);
    push_opening(&mut out, width, down + across_height(across.len()))?;
    push_style(&mut out)?;
    push_heads(&mut out, largest)?;
    write!(out, "<title>campaign of {count} runs</title>\n")?;
    push_runs(alloc, &mut out, bundles, judgements)?;
    push_across(&mut out, down, bundles, across)?;
    Ok(out.into_bytes())
}
