//! Reading campaigns from texts.
ghost use Rattle.std.specs.Prelude.{◌≡◌, List, All, IfOk, Ok};
ghost use Rattle.gen_types.specs.Reading.{Gives};
ghost use Rattle.gen_types.specs.Spelled.{IsRead};
ghost use Rattle.gen_scenario.specs.Scenario.{Scenario, IsScenario};
ghost use Rattle.gen_campaign.specs.CampaignMaking.{TextsMakeCampaigns};
ghost use Rattle.gen_campaign.specs.CampaignText.{OneCampaignText, SpellsCampaignText};
ghost use Rattle.gen_campaign.specs.CampaignTextReading.{
  campaign_text_of,
  like_plain_at,
  like_seed_at,
  text_at,
};

use crate::campaigns::is_run_count;
use crate::likeness::{come_before, have_generals, have_seed};
use gen_scenario::{PlainScenario, SignedPlan};
use gen_text::{Cursor, LineFault, ScenarioFault, read_plain, read_seed, read_signed, read_slot};
use gen_types::ReadError;
use std::alloc::Global;

/// Reads the lines of a network and of an order of a text behind these texts. Returns the two, and the
/// cursor behind the lines. The fault is `Unlike` at the line of the generals if their number is not that
/// of the texts before.
#[tactic(auto, unfolding(crate::specs::CampaignTextReading::like_plain_at))]
fn read_like_plain<'a>(
    alloc: Global,
    before: &[SignedPlan],
    start: &Cursor<'a>,
) -> Result<(PlainScenario, Cursor<'a>), ReadError<ScenarioFault>>
    ensures { IsRead result (like_plain_at before.now start.now) }
{
    let (generals, _behind) = start.numbered(alloc, b"generals")?;
    if !have_generals(before, generals.value) {
        return Err(LineFault::Unlike.refused(generals.line));
    }
    read_plain(alloc, start)
}

/// Reads the line of a seed of a text behind these texts. Returns the seed, and the cursor behind the
/// line. The fault is `Shape` if the line is absent, and `Unlike` if the seed is not that of the texts
/// before.
#[tactic(auto, unfolding(crate::specs::CampaignTextReading::like_seed_at))]
fn read_like_seed<'a>(
    alloc: Global,
    before: &[SignedPlan],
    start: Cursor<'a>,
) -> Result<([u8; 32], Cursor<'a>), ReadError<ScenarioFault>>
    ensures { IsRead result (like_seed_at before.now start.entry) }
{
    let line = start.line();
    let (seed, after) = read_seed(alloc, start)?;
    let Some(master) = seed else {
        return Err(LineFault::Shape.refused(line));
    };
    if !have_seed(before, &master) {
        return Err(LineFault::Unlike.refused(line));
    }
    Ok((master, after))
}

/// Reads a scenario text behind these texts. Returns the scenario, and the cursor behind the last line of
/// its text. The fault is `Shape` at the line of the slot if that is absent, and `Unlike` there if the slot is not greater
/// than those of the texts before.
#[tactic(auto, unfolding(crate::specs::CampaignTextReading::text_at, crate::specs::CampaignTextReading::later_slot_at))]
fn read_text<'a>(
    alloc: Global,
    before: &[SignedPlan],
    start: &Cursor<'a>,
) -> Result<(SignedPlan, Cursor<'a>), ReadError<ScenarioFault>>
    ensures exact { IsRead result (text_at before.now start.now) }
    ensures lawful { IfOk result (λ x. IsScenario x.0) }
{
    let (plain, rest) = read_like_plain(alloc, before, start)?;
    let (master, rest) = read_like_seed(alloc, before, rest)?;
    let line = rest.line();
    let (slot, _behind) = read_slot(alloc, rest.copy())?;
    let Some(slot) = slot else {
        return Err(LineFault::Shape.refused(line));
    };
    if !come_before(before, slot) {
        return Err(LineFault::Unlike.refused(line));
    }
    let (signed, after) = read_signed(alloc, plain, master, rest)?;
    // This read of the scenario makes known to the proof what holds of each scenario.
    let _scripts = signed.scripts();
    Ok((signed, after))
}

/// Reads the text of a campaign line by line.
#[tactic(auto, unfolding(crate::specs::CampaignTextReading::campaign_text_of))]
fn whole(alloc: Global, text: &[u8]) -> Result<Vec<SignedPlan>, ReadError<ScenarioFault>>
    ensures exact { Gives (λ v. v.items) result (campaign_text_of text.now) }
    ensures lawful { IfOk result (λ v. All IsScenario v.items) }
{
    let (count, mut cursor) = Cursor::start(text).numbered(alloc, b"campaign")?;
    if !is_run_count(usize::from(count.value)) {
        return Err(LineFault::RunCount.refused(count.line));
    }
    let mut plans = Vec::new(alloc);
    for _place in 0..count.value {
        let (plan, after) = read_text(alloc, plans.as_slice(), &cursor)?;
        plans.push(plan)?;
        cursor = after;
    }
    if !cursor.is_over() {
        return Err(LineFault::Extra.refused(cursor.line()));
    }
    Ok(plans)
}

/// Returns the scenarios that the text of a campaign spells. The text is a line `campaign N`, N from 1 to
/// 4, and behind it N scenario texts, as `read_scenario` of `gen_text` reads them, each with a seed and
/// a slot. All have the same number of generals and the same seed, and the slots ascend strictly. Lines
/// count through the whole text.
///
/// # Errors
///
/// The text's first fault, with its line. The lines of a scenario text have the faults of `read_scenario`,
/// with these differences. `Unlike`: the number of generals or the seed is not that of a text before, or
/// the slot is not greater than that of a text before. It comes after that line's own faults, and before
/// any fault of a later line. `Shape`: the seed or the slot is absent; the fault is that of the line that
/// stands in its place. `Extra`: bytes follow the last text; what follows any other text is no such fault.
/// `RunCount`: N is not 1 to 4. Memory if memory was refused before a fault was met.
pub fn read_campaign_text(
    alloc: Global,
    text: &[u8],
) -> Result<Vec<SignedPlan>, ReadError<ScenarioFault>>
    // The text spells the scenarios that are returned.
    ensures found { IfOk result (λ v. SpellsCampaignText text.now v.items) }
    // If the text spells scenarios, these are returned, unless memory runs out.
    ensures only { (runs : List Scenario) → SpellsCampaignText text.now runs
        → Gives (λ v. v.items) result (Ok runs) }
    // The scenarios, or the fault and its line, are those of the definition, unless memory runs out.
    ensures exact { Gives (λ v. v.items) result (campaign_text_of text.now) }
{
    whole(alloc, text)
}

/// States that a text spells at most one campaign.
///
/// A law: a function with an empty body, whose caller knows what it ensures.
pub fn one_campaign_text()
    ensures { OneCampaignText }
{}

/// States that the scenarios that the text of a campaign spells make a campaign. `Campaign::new` refuses no
/// scenarios that are made of the plans of such a text, in their order.
///
/// A law: a function with an empty body, whose caller knows what it ensures.
pub fn texts_make_campaigns()
    ensures { TextsMakeCampaigns }
{}
