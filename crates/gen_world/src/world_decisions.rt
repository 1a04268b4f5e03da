//! The decisions in the run of a scenario, without its frames and logs.
ghost use Rattle.std.specs.Prelude.{◌≡◌, ◌≢◌, ◌<◌, ◌+◌, ◌++◌, [], ◌∷◌, ℕ, slice_index_or, IfOk, OnOk};
ghost use Rattle.std.specs.List.{range_with_len};
ghost use Rattle.gen_chain.specs.Store.{Serves};
ghost use Rattle.gen_net.specs.Network.{rounds};
ghost use Rattle.gen_scenario.specs.Deciding.{decisions_of};
ghost use Rattle.gen_scenario.specs.Scenario.{header_of};
ghost use Rattle.gen_general.specs.Participant.{Participant};
ghost use Rattle.gen_scenario.specs.SignedLaw.{IsBounded, AreAlike};
ghost use Rattle.gen_general.specs.ParticipantLaws.{IsIn};
ghost use Rattle.gen_general.specs.Driving.{AllStand, AllBegun, hears_of};
ghost use Rattle.gen_scenario.specs.AllAre.{AllAre};
ghost use Rattle.gen_scenario.specs.SignedWorld.{near_of};

use gen_chain::VerifyStore;
use gen_general::{Participant, participant_of};
use gen_scenario::laws::theorem_holds_of_scenarios;
use gen_scenario::{Decision, Scenario};
use gen_tree::close_ring;
use gen_types::GeneralNo;
use std::alloc::{AllocError, Global};

/// Makes the frame from one general to another, and has the receiver hear it, if they are neighbours. A
/// signature that was verified for one general is not verified again for another.
fn hear_one(
    alloc: Global,
    scenario: &Scenario,
    gone: u8,
    parts: &mut Vec<Participant>,
    from: GeneralNo,
    to: GeneralNo,
    store: &mut VerifyStore,
) -> Result<(), AllocError>
    requires gone { gone < rounds scenario.now.net }
    requires from { from < scenario.now.net.generals }
    requires to { to < scenario.now.net.generals }
    requires all { AllAre (IsIn scenario.now gone) scenario.now.net.generals parts.old.items }
    requires serves { Serves (header_of scenario.now) store.old }
    ensures all { OnOk result (AllAre (IsIn scenario.now gone) scenario.now.net.generals parts.new.items) }
    ensures heard { OnOk result ((d : Participant) → (slice_index_or parts.new.items to d).heard
        ≡ (slice_index_or parts.old.items to d).heard
        ++ hears_of scenario.now gone to (near_of scenario.now.net to (from ∷ []))) }
    ensures others { OnOk result ((g : ℕ) (d : Participant) → g ≢ to
        → slice_index_or parts.new.items g d ≡ slice_index_or parts.old.items g d) }
    ensures serves { Serves (header_of scenario.now) store.new }
{
    let _rounds = scenario.header().net().rounds();
    if !scenario.header().net().has_edge(to, from) {
        return Ok(());
    }
    let parcels = parts[usize::from(from.get())].frame_for(alloc, to)?;
    parts[usize::from(to.get())].hear_with(alloc, from, parcels.as_slice(), store)?;
    Ok(())
}

/// Makes all frames of a round to one general, and has it hear them.
fn hear_all_of(
    alloc: Global,
    scenario: &Scenario,
    gone: u8,
    parts: &mut Vec<Participant>,
    to: GeneralNo,
    store: &mut VerifyStore,
) -> Result<(), AllocError>
    requires gone { gone < rounds scenario.now.net }
    requires to { to < scenario.now.net.generals }
    requires all { AllAre (IsIn scenario.now gone) scenario.now.net.generals parts.old.items }
    requires serves { Serves (header_of scenario.now) store.old }
    ensures all { OnOk result (AllAre (IsIn scenario.now gone) scenario.now.net.generals parts.new.items) }
    ensures heard { OnOk result ((d : Participant) → (slice_index_or parts.new.items to d).heard
        ≡ (slice_index_or parts.old.items to d).heard ++ hears_of scenario.now gone to
        (near_of scenario.now.net to (range_with_len 0 scenario.now.net.generals))) }
    ensures others { OnOk result ((g : ℕ) (d : Participant) → g ≢ to
        → slice_index_or parts.new.items g d ≡ slice_index_or parts.old.items g d) }
    ensures serves { Serves (header_of scenario.now) store.new }
{
    'senders: for number in 0..scenario.header().net().generals() {
        let from = GeneralNo::at(number);
        hear_one(alloc, scenario, gone, parts, from, to, store)?;
    }
    Ok(())
}

/// Makes all frames of a round, and has their receivers hear them.
fn hear_all(
    alloc: Global,
    scenario: &Scenario,
    gone: u8,
    parts: &mut Vec<Participant>,
    store: &mut VerifyStore,
) -> Result<(), AllocError>
    requires gone { gone < rounds scenario.now.net }
    requires all { AllBegun scenario.now gone parts.old.items }
    requires serves { Serves (header_of scenario.now) store.old }
    ensures all { OnOk result (AllStand scenario.now (gone + 1) parts.new.items) }
    ensures serves { Serves (header_of scenario.now) store.new }
{
    'receivers: for number in 0..scenario.header().net().generals() {
        let to = GeneralNo::at(number);
        hear_all_of(alloc, scenario, gone, parts, to, store)?;
    }
    Ok(())
}

/// Returns the decisions of all generals without scripts after the last round.
fn decide_all(
    alloc: Global,
    scenario: &Scenario,
    parts: &[Participant],
) -> Result<Vec<Decision>, AllocError>
    requires { AllStand scenario.now (rounds scenario.now.net) parts.now }
    ensures { IfOk result (λ decisions. decisions.items ≡ decisions_of scenario.now) }
{
    let mut decisions = Vec::new(alloc);
    'parts: for index in 0..parts.len() {
        let part = &parts[index];
        if scenario.has_script(part.me()) {
            continue;
        }
        decisions.push(part.decide())?;
    }
    Ok(decisions)
}

/// Makes the generals in this list and runs all rounds. The caller has to close those that are left in the
/// list, also if memory is refused.
fn decide_rounds(
    alloc: Global,
    scenario: &Scenario,
    parts: &mut Vec<Participant>,
) -> Result<Vec<Decision>, AllocError>
    requires { parts.old.items ≡ [] }
    ensures { IfOk result (λ decisions. decisions.items ≡ decisions_of scenario.now) }
{
    let mut store = VerifyStore::new(alloc)?;
    let generals = scenario.header().net().generals();
    parts.reserve(usize::from(generals))?;
    'generals: for number in 0..generals {
        let part = participant_of(alloc, scenario, GeneralNo::at(number))?;
        parts.push(part).unwrap();
    }
    'rounds: for gone in 0..scenario.header().net().rounds() {
        'parts: for index in 0..parts.len() {
            parts[index].begin_round(alloc)?;
        }
        hear_all(alloc, scenario, gone, parts, &mut store)?;
    }
    decide_all(alloc, scenario, parts.as_slice())
}

/// Returns the decisions of the generals without scripts in the run of a scenario, in ascending order of
/// generals. No log is kept, and each frame is dropped once it was heard. One store keeps the verifications
/// of all generals, so each signature of a statement is verified once. All rings are closed, also if memory
/// is refused.
///
/// # Errors
///
/// `AllocError` if memory is refused.
pub fn decide_world(alloc: Global, scenario: &Scenario) -> Result<Vec<Decision>, AllocError>
    ensures decisions { IfOk result (λ decisions. decisions.items ≡ decisions_of scenario.now) }
    // Theorem 4 of the paper of 1982: the rest decide alike. This needs at most m traitors, no raw line in a
    // script, and any two generals of the rest joined inside the rest by at most d edges.
    ensures alike { IsBounded scenario.now
        → IfOk result (λ decisions. AreAlike scenario.now decisions.items) }
{
    theorem_holds_of_scenarios();
    let _lawful = scenario.header();
    let mut parts = Vec::new(alloc);
    let decisions = decide_rounds(alloc, scenario, &mut parts);
    while let Some(part) = parts.pop() {
        close_ring(part.close());
    }
    parts.destroy_empty();
    decisions
}
