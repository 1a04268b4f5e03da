//! What the thread of a general is given of a scenario.
ghost use Rattle.std.specs.Prelude.{◌≡◌, ◌<◌, IfOk};
ghost use Rattle.gen_scenario.specs.Part.{part_of};
ghost use Rattle.gen_threads.specs.Parts.{IsRunPart};

use gen_scenario::{Part, Scenario};
use gen_types::GeneralNo;
use std::alloc::{AllocError, Global};
use std::marker::Model;
use std::snapshot::Snapshot;

/// What a general alone knows of a run. In contracts, and only there, it names its scenario. It holds nothing
/// of another general's order or of anybody's seed, except that generals with scripts know each other's keys.
#[derive(Drop)]
pub struct RunPart {
    part: Part,
    scenario: Snapshot<Scenario>,
}

impl Model for RunPart {
    ghost use Rattle.gen_threads.specs.Parts.{RunPart, IsRunPart};

    ghost Value = { RunPart };

    ghost view = { λ p. record { scenario = p.scenario.value; me = p.part.me } };

    ghost invariant = { λ p. IsRunPart p.scenario.value p.part };
}

impl RunPart {
    /// Returns the part of a general of the scenario's network.
    ///
    /// # Errors
    ///
    /// `AllocError` if memory is refused.
    pub fn of(alloc: Global, scenario: &Scenario, general: GeneralNo) -> Result<RunPart, AllocError>
        requires { general < scenario.now.net.generals }
        ensures { IfOk result (λ part. part ≡ record { scenario = scenario.now; me = general }) }
    {
        let _lawful = scenario.header();
        let part = scenario.part(alloc, general)?;
        Ok(RunPart {
            part,
            scenario: Snapshot::of(scenario),
        })
    }

    /// Returns what the general knows.
    pub fn part(&self) -> &Part
        ensures value { result.now ≡ part_of self.now.scenario self.now.me }
        ensures lawful { IsRunPart self.now.scenario result.now }
    {
        &self.part
    }
}
