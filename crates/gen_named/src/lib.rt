//! Runs about values of any number, as the definitions of version 3 see them. A value is a number below a bound, which
//! stands for 32 bytes. Each general has names of its own for at most two values, the orders 1 and 2. Under its names
//! it follows the algorithm of versions 1 and 2 in a network of three orders, of which order 0 is RETREAT.
//!
//! The crate has definitions and laws, and no code that runs.
#![tactic(auto)]

pub mod laws;
