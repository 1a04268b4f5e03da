//! The gate at which generals file their logs.
use crate::places::logs_below;
use crate::stopping::StopWord;
use crate::trays::Tray;
use gen_desk::Desk;
use gen_log::SealedLog;
use gen_scenario::Scenario;
use gen_threads::Gate;
use gen_types::GeneralNo;
use std::sync::Wait;

/// A gate that passes every call on to another gate, and files each sealed log at its place among the logs of the run.
/// The desk shares the log's bytes. If a log can't be filed, the stop word is set.
#[derive(Drop)]
pub(crate) struct FilingGate<'a, R, G> {
    pub(crate) rt: &'a R,
    pub(crate) gate: &'a G,
    pub(crate) scenario: &'a Scenario,
    pub(crate) desk: &'a Desk,
    pub(crate) tray: &'a Tray,
    pub(crate) stop: &'a StopWord,
}

impl<'a, R: Wait, G: Gate> Gate for FilingGate<'a, R, G> {
    fn before_round(&self, general: GeneralNo, round: u8) {
        self.gate.before_round(general, round);
    }

    fn sealed(&self, general: GeneralNo, logs: &[SealedLog]) {
        self.gate.sealed(general, logs);
        let mut place = logs_below(self.scenario, general.get());
        for log in logs {
            match self.tray.take_slip(self.rt, place) {
                Some(slip) => match self.desk.file_shared(self.rt, slip, log) {
                    Ok(receipt) => self.tray.add_receipt(self.rt, receipt),
                    Err((slip, fault)) => {
                        let _place = slip.give_up();
                        self.stop.set_for(self.desk, fault);
                    }
                },
                None => self.stop.set(self.desk),
            }
            place = place.saturating_add(1);
        }
    }
}
