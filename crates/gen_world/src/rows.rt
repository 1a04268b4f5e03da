//! What the run of a scenario gives.
ghost use Rattle.std.specs.Prelude.{◌≡◌};

use gen_log::SealedLog;
use gen_scenario::Decision;
use gen_script::Parcel;
use gen_types::GeneralNo;
use std::marker::Model;

/// A frame, with its round, its sender and its receiver.
#[derive(Debug, Drop)]
pub struct FrameRow {
    pub(crate) round: u8,
    pub(crate) from: GeneralNo,
    pub(crate) to: GeneralNo,
    pub(crate) parcels: Vec<Parcel>,
}

impl Model for FrameRow {
    ghost use Rattle.gen_scenario.specs.Rows.{FrameRow};

    ghost Value = { FrameRow };

    ghost view = { λ r. record {
      round = r.round;
      from = r.from;
      to = r.to;
      parcels = r.parcels.items;
    } };
}

impl FrameRow {
    /// Returns the round in which the frame is sent, from 1 on.
    pub fn round(&self) -> u8
        ensures { result ≡ self.now.round }
    {
        self.round
    }

    /// Returns the general that sends the frame.
    pub fn from(&self) -> GeneralNo
        ensures { result ≡ self.now.from }
    {
        self.from
    }

    /// Returns the general that receives the frame.
    pub fn to(&self) -> GeneralNo
        ensures { result ≡ self.now.to }
    {
        self.to
    }

    /// Returns the parcels, in their order.
    pub fn parcels(&self) -> &[Parcel]
        ensures { result.now ≡ self.now.parcels }
    {
        self.parcels.as_slice()
    }
}

/// The run of a scenario. A contract sees the frames, the decisions and the logs.
#[derive(Debug, Drop)]
pub struct WorldRun {
    pub(crate) frames: Vec<FrameRow>,
    pub(crate) decisions: Vec<Decision>,
    pub(crate) logs: Vec<SealedLog>,
}

impl Model for WorldRun {
    ghost use Rattle.gen_scenario.specs.Rows.{WorldRun};

    ghost Value = { WorldRun };

    ghost view = { λ r. record {
      frames = r.frames.items;
      decisions = r.decisions.items;
      logs = r.logs.items;
    } };
}

impl WorldRun {
    /// Returns the frames, ordered by round, then by sender, then by receiver.
    pub fn frames(&self) -> &[FrameRow]
        ensures { result.now ≡ self.now.frames }
    {
        self.frames.as_slice()
    }

    /// Returns the decisions of the generals that have no scripts, in ascending order of generals.
    pub fn decisions(&self) -> &[Decision]
        ensures { result.now ≡ self.now.decisions }
    {
        self.decisions.as_slice()
    }

    /// Returns the logs of all generals, in ascending order of generals. If a general has a second log, it
    /// stands behind its first.
    pub fn logs(&self) -> &[SealedLog]
        ensures { result.now ≡ self.now.logs }
    {
        self.logs.as_slice()
    }

    /// Returns the logs, and drops the frames and the decisions.
    pub fn into_logs(self) -> Vec<SealedLog>
        ensures { result.items ≡ self.logs }
    {
        let WorldRun {
            frames: _,
            decisions: _,
            logs,
        } = self;
        logs
    }
}
