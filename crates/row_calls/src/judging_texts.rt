//! Texts of scenarios and of campaigns.
use crate::names::Refused;
use crate::rows::Row;
use crate::texts::Answer;
use gen_campaign::read_campaign_text;
use gen_net::Version;
use gen_script::Script;
use gen_text::{ScenarioFault, ScenarioText, read_scenario};
use gen_types::ReadError;
use std::alloc::Global;

/// Tells what a scenario text says, or its first fault.
pub(crate) fn tell_scenario(
    alloc: Global,
    row: Row<'_>,
    answer: &mut Answer,
) -> Result<(), Refused> {
    match read_scenario(alloc, row.rest()?) {
        Ok(told) => tell_read(&told, answer),
        Err(ReadError::Fault(fault)) => tell_fault(fault, answer),
        Err(ReadError::Memory) => return Err(Refused),
    }
    Ok(())
}

/// Tells what the texts of a campaign say, or the first fault.
pub(crate) fn tell_series(alloc: Global, row: Row<'_>, answer: &mut Answer) -> Result<(), Refused> {
    match read_campaign_text(alloc, row.rest()?) {
        Ok(plans) => {
            for plan in plans {
                answer.end_line();
                tell_read(&ScenarioText::Signed(plan), answer);
            }
        }
        Err(ReadError::Fault(fault)) => tell_fault(fault, answer),
        Err(ReadError::Memory) => return Err(Refused),
    }
    Ok(())
}

/// Tells a fault with its line.
pub(crate) fn tell_fault(fault: ScenarioFault, answer: &mut Answer) {
    answer.show(fault.kind);
    answer.field("line", fault.line);
}

/// Tells the network and the order of a text; and where it has a seed that, the version with the slot, and its scripts.
fn tell_read(told: &ScenarioText, answer: &mut Answer) {
    let net = told.net();
    answer.field("generals", net.generals());
    answer.field("edges", net.edges().len());
    answer.field("rounds", net.rounds());
    answer.field("orders", net.orders());
    answer.field("order", told.order());
    if let ScenarioText::Signed(plan) = told {
        answer.word("seed");
        answer.hex(plan.master());
        tell_version(plan.version(), answer);
        tell_scripts(plan.scripts(), answer);
    }
}

/// Tells a version with the slot.
fn tell_version(version: Version, answer: &mut Answer) {
    let (number, slot) = match version {
        Version::One => (1u8, 0u8),
        Version::Two { slot } => (2, slot),
    };
    answer.field("version", number);
    answer.field("slot", slot);
}

/// Tells each general with a script, and how many lines it has.
fn tell_scripts(scripts: &[Script], answer: &mut Answer) {
    answer.word("scripts");
    for script in scripts {
        answer.item(script.general());
        answer.join(":");
        answer.item(script.lines().len());
    }
    answer.end_list();
}
