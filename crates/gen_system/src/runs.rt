//! The runs of a system by their numbers.
ghost use Rattle.std.specs.Prelude.{◌≡◌, ◌<◌, ◌≤◌};
ghost use Rattle.gen_system.specs.declared.proposers.Proposer.TheVariants.{Turns};
ghost use Rattle.gen_system.specs.Runs as by_number;

use crate::proposers::Proposer;
use crate::systems::System;
use gen_identity::sizes::MOST_SETS;
use gen_net::{GREATEST_SLOT, Version};
use gen_types::GeneralNo;

/// The number of runs that a set of keys serves in version 2.
const RUNS_OF_SET: u32 = 4;

/// Returns the set of keys of the run with this number: a set serves one run in version 1, and four runs in version 2.
pub fn set_of_run(version: Version, run: u32) -> u32
    ensures { result ≡ by_number.set_of_run version run }
{
    match version {
        Version::One => run,
        Version::Two { .. } => run / RUNS_OF_SET,
    }
}

/// Returns the slot of the run with this number, which is 0 in version 1, and 0 to 3 in version 2.
pub fn slot_of_run(version: Version, run: u32) -> u8
    ensures { result ≡ by_number.slot_of_run version run }
{
    match version {
        Version::One => 0,
        Version::Two { .. } => (run % RUNS_OF_SET) as u8,
    }
}

/// Returns the run of a set with this slot, 0 to 3. In version 1 a set has one run.
pub fn run_by(version: Version, set: u32, slot: u8) -> u32
    requires set { set < MOST_SETS }
    requires slot { slot ≤ GREATEST_SLOT }
    ensures { result ≡ by_number.run_by version set slot }
{
    match version {
        Version::One => set,
        Version::Two { .. } => RUNS_OF_SET * set + u32::from(slot),
    }
}

/// Returns the node that a general is where n nodes propose in turns.
pub fn node_in_turn(n: u8, run: u32, general: u8) -> u8
    requires below { general < n }
    requires few { n ≤ 16 }
    ensures value { result ≡ by_number.node_by Turns n run general }
    ensures below { result < n }
    ensures back { by_number.general_by Turns n run result ≡ general }
{
    let first = (run % u32::from(n)) as u8;
    (first + general) % n
}

/// Returns the general that a node is where n nodes propose in turns.
pub fn general_in_turn(n: u8, run: u32, node: u8) -> u8
    requires below { node < n }
    requires few { n ≤ 16 }
    ensures value { result ≡ by_number.general_by Turns n run node }
    ensures below { result < n }
    ensures back { by_number.node_by Turns n run result ≡ node }
{
    let first = (run % u32::from(n)) as u8;
    (node + (n - first)) % n
}

impl System {
    /// Returns the node that a general of the run with this number is. The general must be one of the network's.
    pub fn node_of(&self, run: u32, general: GeneralNo) -> GeneralNo
        requires { general < self.now.header.network.generals }
        ensures value { result ≡ by_number.node_of self.now run general }
        ensures below { result < self.now.header.network.generals }
        ensures back { by_number.general_of self.now run result ≡ general }
    {
        match self.proposer {
            Proposer::First => general,
            Proposer::Turns => {
                let n = self.header.net().generals();
                GeneralNo::at(node_in_turn(n, run, general.get()))
            }
        }
    }

    /// Returns the general of the run with this number that a node is. The node must be one of the network's.
    pub fn general_of(&self, run: u32, node: GeneralNo) -> GeneralNo
        requires { node < self.now.header.network.generals }
        ensures value { result ≡ by_number.general_of self.now run node }
        ensures below { result < self.now.header.network.generals }
        ensures back { by_number.node_of self.now run result ≡ node }
    {
        match self.proposer {
            Proposer::First => node,
            Proposer::Turns => {
                let n = self.header.net().generals();
                GeneralNo::at(general_in_turn(n, run, node.get()))
            }
        }
    }
}
