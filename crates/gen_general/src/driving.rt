//! Making the generals of a scenario, for whatever code drives them.
ghost use Rattle.std.specs.Prelude.{◌<◌, IfOk};
ghost use Rattle.gen_general.specs.Driving.{StandsAfter};
ghost use Rattle.gen_general.specs.DrivenRecords.{RecordsAfter};

use crate::participants::Participant;
use crate::recording::Recorder;
use gen_scenario::Scenario;
use gen_tree::close_ring;
use gen_types::GeneralNo;
use std::alloc::{AllocError, Global};

/// Makes a general of the scenario, in its state before the first round. The number must be that of a general
/// of the network.
///
/// # Errors
///
/// `AllocError` if memory is refused.
pub fn participant_of(
    alloc: Global,
    scenario: &Scenario,
    general: GeneralNo,
) -> Result<Participant, AllocError>
    requires { general < scenario.now.net.generals }
    ensures { IfOk result (λ part. StandsAfter scenario.now 0 general part) }
{
    let _lawful = scenario.header();
    let part = scenario.part(alloc, general)?;
    let ring = scenario.ring_if_loyal(general)?;
    match Participant::new(alloc, part, ring) {
        Ok(participant) => Ok(participant),
        Err(ring) => {
            close_ring(ring);
            Err(AllocError)
        }
    }
}

/// Makes a general of the scenario that keeps a log, in its state before the first round. The number must be
/// that of a general of the network.
///
/// # Errors
///
/// `AllocError` if memory is refused.
pub fn recorder_of(
    alloc: Global,
    scenario: &Scenario,
    general: GeneralNo,
) -> Result<Recorder, AllocError>
    requires { general < scenario.now.net.generals }
    ensures { IfOk result (λ part. RecordsAfter scenario.now 0 general part) }
{
    let _lawful = scenario.header();
    let part = scenario.part(alloc, general)?;
    let ring = scenario.ring_if_loyal(general)?;
    match Recorder::new(alloc, part, ring) {
        Ok(recorder) => Ok(recorder),
        Err(ring) => {
            close_ring(ring);
            Err(AllocError)
        }
    }
}
