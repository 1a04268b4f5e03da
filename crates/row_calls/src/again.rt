//! One call of the libraries, or a sequence of calls, made while memory or threads may be refused.
//!
//! Standard input has what the call is made with: the text of a scenario with a seed, the bytes of a bundle, or those of a
//! campaign. The program writes a line before the call, and after it a line with what the call answered. So whatever
//! refuses memory or threads can tell what is asked for in between. If the call was refused, it is made again, and the
//! answer to that is the next line. The last line is a checksum of what was given, which is the same whatever was refused
//! before.
//!
//! A call that changes its receiver is a step of a sequence. If it is refused, it is made again within the sequence, on
//! the same value. If another step is refused, the whole sequence is refused.
use crate::again_answers::{Answer, say, say_answer};
use crate::{again_bundles, again_campaigns, again_scenarios};
use gen_audit::{Bundle, read_bundle};
use gen_scenario::Scenario;
use gen_text::{ScenarioText, read_scenario};
use std::alloc::Global;
use std::io::{self, Read};
use std::sync::Wait;
use std::thread::Threads;

/// Returns the scenario that a text with a seed spells, if it spells one.
fn scenario_of(alloc: Global, input: &[u8]) -> Option<Scenario> {
    match read_scenario(alloc, input) {
        Ok(ScenarioText::Signed(plan)) => match Scenario::of_plan(alloc, plan) {
            Ok(scenario) => Some(scenario),
            Err(_) => None,
        },
        _ => None,
    }
}

/// Makes a call on a bundle, and makes it again if it gave nothing.
fn try_bundle<R: AllocGlobal + Print + Threads + Wait + Sync>(
    rt: &R,
    name: &str,
    bundle: &Bundle,
    input: &[u8],
) -> io::Result<()> {
    say(rt, "call\n")?;
    if say_answer(
        rt,
        &again_bundles::call(rt, rt.alloc(), name, bundle, input),
    )? {
        say_answer(
            rt,
            &again_bundles::call(rt, rt.alloc(), name, bundle, input),
        )?;
    }
    Ok(())
}

/// Makes a call on a scenario, and makes it again if it gave nothing.
fn try_scenario<R: AllocGlobal + Print + Threads + Wait + Sync>(
    rt: &R,
    name: &str,
    scenario: &Scenario,
) -> io::Result<()> {
    say(rt, "call\n")?;
    if say_answer(rt, &again_scenarios::call(rt, rt.alloc(), name, scenario))? {
        say_answer(rt, &again_scenarios::call(rt, rt.alloc(), name, scenario))?;
    }
    Ok(())
}

/// Makes a call on the bytes of a campaign, and makes it again if it gave nothing.
fn try_bytes<R: AllocGlobal + Print>(rt: &R, input: &[u8]) -> io::Result<()> {
    say(rt, "call\n")?;
    if say_answer(rt, &again_campaigns::call(rt.alloc(), input))? {
        say_answer(rt, &again_campaigns::call(rt.alloc(), input))?;
    }
    Ok(())
}

/// Makes a call on the text of a scenario or on other bytes.
fn try_text<R: AllocGlobal + Print + Threads + Wait + Sync>(
    rt: &R,
    name: &str,
    input: &[u8],
) -> io::Result<()> {
    match scenario_of(rt.alloc(), input) {
        Some(scenario) => try_scenario(rt, name, &scenario),
        None => try_bytes(rt, input),
    }
}

/// Makes the call of this name with what standard input has.
pub fn call<R: AllocGlobal + Input + Print + Threads + Wait + Sync>(
    rt: &R,
    name: &str,
) -> io::Result<()> {
    let mut input = Vec::new(rt.alloc());
    rt.reader().read_to_end(&mut input)?;
    match read_bundle(rt.alloc(), input.as_slice()) {
        Ok(bundle) => try_bundle(rt, name, &bundle, input.as_slice()),
        Err(_) => try_text(rt, name, input.as_slice()),
    }
}
