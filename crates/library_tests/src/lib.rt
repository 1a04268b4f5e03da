//! This crate has the tests of what is no row and no clause says.
//!
//! `standards` and `leighton_micali` have vectors of the standards, `texts` the texts of faults that no row
//! has, `rings` which leaves are taken, and `reports` how many verifications reports make. Runs are made by a
//! machine (`machine`), by threads (`logs_of_runs`, `own_threads`, `early_end`), and judged while they go on
//! (`judged_gates`). `edge_steps` has an edge, and `desk_waits` a desk.
#![tactic(auto)]

#[cfg(test)]
mod desk_waits;
#[cfg(test)]
mod early_end;
#[cfg(test)]
mod edge_frames;
#[cfg(test)]
mod edge_lanes;
#[cfg(test)]
mod edge_steps;
#[cfg(test)]
mod gates;
#[cfg(test)]
mod judged_gates;
#[cfg(test)]
mod leighton_micali;
#[cfg(test)]
mod logs_of_runs;
#[cfg(test)]
mod machine;
#[cfg(test)]
mod own_threads;
#[cfg(test)]
mod reports;
#[cfg(test)]
mod rings;
#[cfg(test)]
mod scenarios;
#[cfg(test)]
mod standards;
#[cfg(test)]
mod texts;
