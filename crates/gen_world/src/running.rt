//! The run of a plain scenario, round by round.
ghost use Rattle.std.specs.Prelude.{◌≡◌, ◌+◌, ◌<◌, ◌≢◌, [], ◌∷◌, IfOk, OnOk, All, map};
ghost use Rattle.std.specs.List.{range_with_len};
ghost use Rattle.gen_net.specs.Network.{Network, rounds, IsNetwork};
ghost use Rattle.gen_net.specs.Run.{Run, IsRun};
ghost use Rattle.gen_net.specs.Walks.{HasDiameter};
ghost use Rattle.gen_core.specs.Seeing.{HasSeen, AreArrivals};
ghost use Rattle.gen_core.specs.Sending.{Appends};
ghost use Rattle.gen_scenario.specs.Deciding.{AreSignedDecisions};
ghost use Rattle.gen_scenario.specs.World.{IsDecision, IsOutcome};
ghost use Rattle.gen_scenario.specs.WorldFollows.{AllDecide};
ghost use Rattle.gen_world.specs.Loops.Rounds.{IsAmong, RelayedBy, IsReady, AreRelays, numbers_of};

use gen_core::{Commander, Lieutenant, Outgoing, Seen, sends};
use gen_net::{Message, Net};
use gen_scenario::{Decision, PlainRun, PlainScenario};
use gen_types::GeneralNo;
use std::alloc::{AllocError, Global};

/// Returns the chains of these messages that arrive at a general in a round.
fn arrivals(
    alloc: Global,
    messages: &[Message],
    me: GeneralNo,
    round: u8,
) -> Result<Vec<Seen>, AllocError>
    ensures { IfOk result (λ seen. AreArrivals messages.now me round seen.items) }
{
    let mut seen = Vec::new(alloc);
    for message in messages {
        if message.to == me && message.path.len() == round as usize {
            seen.push(Seen {
                from: message.from,
                order: message.order,
                path: message.path,
            })?;
        }
    }
    Ok(seen)
}

/// Appends what a general sends, as messages.
fn push_sends(
    messages: &mut Vec<Message>,
    from: GeneralNo,
    out: &[Outgoing],
) -> Result<(), AllocError>
    ensures { OnOk result (Appends (IsAmong from out.now) messages.old.items messages.new.items) }
{
    for part in out {
        messages.push(Message {
            from,
            to: part.to,
            order: part.order,
            path: part.path,
        })?;
    }
    Ok(())
}

/// Runs one round of one lieutenant: it takes what arrives in the round, and what it sends in the next round
/// is appended to `next`.
fn step(
    alloc: Global,
    net: &Net,
    before: &[Message],
    lieutenant: &mut Lieutenant,
    next: &mut Vec<Message>,
) -> Result<(), AllocError>
    requires network { IsNetwork net.now }
    requires seen { HasSeen net.now before.now lieutenant.old }
    requires left { lieutenant.old.gone < lieutenant.old.rounds }
    ensures me { OnOk result (lieutenant.new.me ≡ lieutenant.old.me) }
    ensures gone { OnOk result (lieutenant.new.gone ≡ lieutenant.old.gone + 1) }
    ensures seen { OnOk result (HasSeen net.now before.now lieutenant.new) }
    ensures sent { OnOk result (Appends
        (RelayedBy net.now before.now lieutenant.old.me (lieutenant.old.gone + 1))
        next.old.items next.new.items) }
{
    let me = lieutenant.me();
    let seen = arrivals(alloc, before, me, lieutenant.gone() + 1)?;
    let adds = lieutenant.round(&seen);
    let out = sends(alloc, net, me, &adds)?;
    push_sends(next, me, &out)?;
    Ok(())
}

/// Runs one round of all lieutenants, and returns what they send in the next round.
fn one_round(
    alloc: Global,
    net: &Net,
    before: &[Message],
    lieutenants: &mut [Lieutenant],
    gone: u8,
) -> Result<Vec<Message>, AllocError>
    requires network { IsNetwork net.now }
    requires left { gone < rounds net.now }
    requires ready { All (IsReady net.now before.now gone) lieutenants.old }
    ensures numbers { OnOk result (numbers_of lieutenants.new ≡ numbers_of lieutenants.old) }
    ensures ready { OnOk result (All (IsReady net.now before.now (gone + 1)) lieutenants.new) }
    ensures sent { IfOk result (λ next.
        AreRelays net.now before.now (gone + 1) (numbers_of lieutenants.old) next.items) }
{
    let mut next = Vec::new(alloc);
    for lieutenant in lieutenants.iter_mut() {
        step(alloc, net, before, lieutenant, &mut next)?;
    }
    Ok(next)
}

/// Returns the decisions of all generals after the last round: the commander's first, then those of these
/// lieutenants in their order.
fn decisions(
    alloc: Global,
    commander: &Commander,
    lieutenants: &[Lieutenant],
) -> Result<Vec<Decision>, AllocError>
    requires { All (λ s. (s.gone ≡ s.rounds) × (s.me ≢ 0)) lieutenants.now }
    ensures generals { IfOk result (λ out.
        map (λ decision. decision.general) out.items ≡ 0 ∷ numbers_of lieutenants.now) }
    ensures each { IfOk result (λ out. (net : Network) (run : Run)
        → All (HasSeen net run) lieutenants.now
        → All (IsDecision net commander.now run) out.items) }
{
    let mut out = Vec::new(alloc);
    let (orders, order) = commander.decide();
    let general = GeneralNo::commander();
    out.push(Decision {
        general,
        orders,
        order,
    })?;
    for lieutenant in lieutenants {
        let general = lieutenant.me();
        let (orders, order) = lieutenant.decide();
        out.push(Decision {
            general,
            orders,
            order,
        })?;
    }
    Ok(out)
}

/// Returns the decisions of all generals in the run of the plain scenario. In it every general follows the
/// algorithm SM of the paper of 1982, and if several messages of a new order arrive in one round, the one
/// from the least sender is picked. If no two generals are more than d edges apart, each decides the
/// commander's order.
///
/// # Errors
///
/// `AllocError` if memory is refused.
pub fn run_plain(alloc: Global, scenario: &PlainScenario) -> Result<PlainRun, AllocError>
    ensures outcome { IfOk result (λ run. IsOutcome scenario.now.net scenario.now.order run) }
    // If no two generals are more than d edges apart, all decide the commander's order.
    ensures obeyed { HasDiameter scenario.now.net []
        → IfOk result (λ run. AllDecide scenario.now.order run) }
    // The decisions are those of the run with signatures in which nobody has a script.
    ensures same { IfOk result (λ run. AreSignedDecisions scenario.now run) }
{
    let net = scenario.net();
    let commander = Commander::new(scenario.order());
    let out = commander.sends(alloc, net)?;
    let mut messages = Vec::new(alloc);
    push_sends(&mut messages, GeneralNo::commander(), &out)?;
    let mut lieutenants = Vec::new(alloc);
    for number in 1..net.generals() {
        lieutenants.push(Lieutenant::new(net, GeneralNo::at(number)))?;
    }
    for gone in 0..net.rounds() {
        let next = one_round(alloc, net, &messages, &mut lieutenants, gone)?;
        messages.extend_from_slice(&next)?;
    }
    let decisions = decisions(alloc, &commander, &lieutenants)?;
    Ok(PlainRun::new(decisions))
}
