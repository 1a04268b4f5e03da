//! Which chain of a new order a lieutenant picks.
ghost use Rattle.std.specs.Prelude.{ℕ, ◌≡◌, ◌↔◌, List, Some, Option, length};
ghost use Rattle.gen_core.specs.Loops.Picking.{AreBest, AreBestPaths};
ghost use Rattle.gen_core.specs.Seeing.{Picked};

use crate::arrivals::Seen;
use gen_types::limits::MOST_GENERALS;
use gen_types::{OrderNo, OrderSet, Path};
use std::marker::Model;

/// The number of places for orders. `OrderNo` has as many numbers as a network has generals at most.
const PLACES: usize = MOST_GENERALS as usize;

/// The orders that a lieutenant adds in a round, each with the path that it picked. A contract sees a path or
/// none for each order.
#[derive(Debug, Drop)]
pub struct Adds {
    picked: [Option<Seen>; PLACES],
}

impl Model for Adds {
    ghost use Rattle.std.specs.Prelude.{ℕ, ◌≡◌, List, Option, length};
    ghost use Rattle.gen_core.specs.Paths.{paths_of};

    ghost Value = { List (Option (List ℕ)) };

    ghost view = { λ a. paths_of a.picked };

    ghost invariant = { λ a. length a.picked ≡ 16 };
}

impl Adds {
    /// Returns the number of orders that there are places for, which is 16.
    pub(crate) fn places(&self) -> u8
        ensures value { result ≡ length self.now }
        ensures all { result ≡ 16 }
    {
        let picked = &self.picked;
        picked.len() as u8
    }

    /// Returns the path that is picked for the order, or None if the order is not added.
    pub fn get(&self, order: OrderNo) -> Option<Path>
        ensures { (path : List ℕ) → (result ≡ Some path) ↔ Picked self.now order path }
    {
        match &self.picked[order.get() as usize] {
            Some(seen) => Some(seen.path),
            None => None,
        }
    }
}

/// Returns the orders of these chains that are not known, each with the path of the chain from its least
/// sender.
pub(crate) fn pick(known: &OrderSet, seen: &[Seen]) -> Adds
    ensures { AreBestPaths known.now seen.now result }
{
    let mut picked: [Option<Seen>; PLACES] = [None; PLACES];
    for chain in seen {
        if !known.contains(chain.order) {
            let order = chain.order.get() as usize;
            let before = picked[order];
            picked[order] = match before {
                Some(other) if other.from <= chain.from => Some(other),
                _ => Some(*chain),
            };
        }
    }
    Adds { picked }
}
