//! The picture of a run as its logs tell it, and of the judgement on it, as an SVG text.
//!
//! Generals are lines from left to right and rounds are columns. Each message that a shown log has is an arrow from its
//! sender's line to its receiver's. Findings, decisions and convictions stand at the generals and messages that they
//! are about.
//!
//! What is promised: the text, line for line (`draw`), and that a message stands in it if and only if a shown log says
//! so (`laws`). What is not promised: how a browser shows it.
#![tactic(auto)]

mod arrow;
mod arrows;
mod grid;
pub mod laws;
mod marks;
mod page;
mod picture;
mod rows;
mod several;
mod shapes;
mod shown;
mod style;
mod telling;

pub use picture::draw;
pub use several::draw_campaign;
