//! Reads scenarios from text.
//!
//! A scenario text has one line for each number of a network and for each of its edges, and a line for the commander's
//! order. If generals sign, it also has the seed of their keys, perhaps the slot of the run, and the scripts of the
//! traitors. `read_scenario` says exactly which texts are scenarios, and for any other text which fault comes first and
//! in which line. Its parts are public too, for texts in which several scenarios stand one after another: a `Cursor`,
//! and readers that begin at one. So are the readers of the lines of a network, which stand in texts of headers too.
#![tactic(auto)]

mod blocks;
mod cursor;
mod fault;
mod items;
mod keys;
mod lines;
mod numbers;
mod scenario;
mod scenario_text;

pub use cursor::{Cursor, Line, Numbered};
pub use fault::{LineFault, ScenarioFault};
pub use keys::{read_seed, read_slot};
pub use numbers::{
    NetOpening, NetSettings, first_opening, make_network, net_behind, read_plain, read_settings,
};
pub use scenario::{one_scenario, read_scenario, read_signed};
pub use scenario_text::ScenarioText;
