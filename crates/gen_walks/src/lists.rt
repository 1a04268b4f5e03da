//! Walks, and lists of them, as they are handed in and out.
ghost use Rattle.std.specs.Prelude.{◌≡◌, [], ◌∷◌, ◌++◌, OnOk, OnErr};

use gen_types::GeneralNo;
use std::alloc::{AllocError, Global};
use std::marker::Model;

/// A list of generals, each of which is meant to be joined to the general before it by an edge. A contract
/// sees the list of their numbers.
#[derive(Debug, Drop)]
pub struct Walk {
    generals: Vec<GeneralNo>,
}

impl Model for Walk {
    ghost use Rattle.std.specs.Prelude.{ℕ, List};

    ghost Value = { List ℕ };

    ghost view = { λ walk. walk.generals.items };
}

impl Walk {
    /// Returns the walk along these generals. Any list is taken; `check_walks` judges it.
    pub fn new(generals: Vec<GeneralNo>) -> Walk
        ensures { result ≡ generals.items }
    {
        Walk { generals }
    }

    /// Returns the generals from the first to the last.
    pub fn generals(&self) -> &[GeneralNo]
        ensures { result.now ≡ self.now }
    {
        &self.generals
    }
}

impl Clone for Walk {
    ghost is_clone = { λ walk copy. copy ≡ walk };

    /// Returns a walk along the same generals. It fails only if memory was refused.
    fn clone(&self) -> Result<Walk, AllocError> {
        Ok(Walk {
            generals: self.generals.clone()?,
        })
    }
}

/// A list of walks. A contract sees the list of their lists.
#[derive(Debug, Drop)]
pub struct Walks {
    walks: Vec<Walk>,
}

impl Model for Walks {
    ghost use Rattle.std.specs.Prelude.{ℕ, List};

    ghost Value = { List (List ℕ) };

    ghost view = { λ walks. walks.walks.items };
}

impl Walks {
    /// Returns the empty list, which takes no memory yet.
    pub fn new(alloc: Global) -> Walks
        ensures { result ≡ [] }
    {
        Walks {
            walks: Vec::new(alloc),
        }
    }

    /// Appends a walk. It fails only if memory was refused, and then the list is unchanged.
    pub fn push(&mut self, walk: Walk) -> Result<(), AllocError>
        ensures ok { OnOk result (self.new ≡ self.old ++ walk ∷ []) }
        ensures err { OnErr result (self.new ≡ self.old) }
    {
        self.walks.push(walk)?;
        Ok(())
    }

    /// Returns the walks in their order.
    pub fn as_slice(&self) -> &[Walk]
        ensures { result.now ≡ self.now }
    {
        &self.walks
    }
}

impl Clone for Walks {
    ghost is_clone = { λ walks copy. copy ≡ walks };

    /// Returns a list of the same walks. It fails only if memory was refused.
    fn clone(&self) -> Result<Walks, AllocError> {
        Ok(Walks {
            walks: self.walks.clone()?,
        })
    }
}
