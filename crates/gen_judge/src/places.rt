//! Where each log stands among the logs of a run.
use gen_scenario::Scenario;
use gen_script::ScriptLine;

/// Returns how many logs the generals below a number have: one each, and two if a script says so. This is the place of
/// that general's first log among all logs.
pub(crate) fn logs_below(scenario: &Scenario, number: u8) -> usize {
    let mut count = usize::from(number);
    for script in scenario.scripts() {
        let two = script
            .lines()
            .iter()
            .any(|line| matches!(line, ScriptLine::TwoHeads));
        if script.general().get() < number && two {
            count = count.saturating_add(1);
        }
    }
    count
}
