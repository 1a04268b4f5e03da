//! Paths: the generals that signed an order, one after another.
ghost use Rattle.std.specs.Prelude.{IsTrue, ◌≡◌, ◌≢◌, ◌<◌, ◌≤◌, ◌-◌, ◌↔◌, ◌++◌, [], ◌∷◌, Contains, AllPairs, All, length, slice_get, OnOk, OnErr};
ghost use Rattle.std.specs.Cmp.{partial_equiv_from_equiv};
ghost use Rattle.std.specs.Cmp.Lexicographic.{pointwise};
ghost use Rattle.std.specs.Bool.{nat_eq};
ghost use Rattle.std.proofs.lemmas.Cmp.{nat_list_eq_equiv};
ghost use Rattle.gen_types.specs.Ends.{BeginsWith, EndsWith};

use crate::limits::GENERALS;
use crate::numbers::GeneralNo;
use std::marker::Model;
use thiserror::Error;

/// Why a general cannot be put at the end of a path.
#[derive(Clone, Copy, PartialEq, Eq, Debug, Error)]
pub enum PathFault {
    /// The path has 16 generals already.
    #[error("the path is full")]
    Full,
    /// The general stands in the path already.
    #[error("the general stands in the path")]
    Repeated,
}

/// A list of at most 16 distinct generals, kept in a fixed array. A contract sees the list of their
/// numbers.
///
/// The message `v:0:j1:..:jk` of section 4 of the paper of 1982 has the path `0, j1, .., jk`. Each general
/// of the path signed the order together with the path up to and with itself.
#[derive(Clone, Copy, Hash, Debug)]
pub struct Path {
    generals: [GeneralNo; GENERALS],
    len: usize,
}

impl Model for Path {
    ghost use Rattle.std.specs.Prelude.{ℕ, List, ◌≤◌, length, take, replicate, ◌-◌, ◌++◌};
    ghost use Rattle.gen_types.specs.PathModel.{IsPath};
    ghost use Rattle.gen_types.specs.PathLaws.{back_of_take, length_of_take};

    ghost Value = { List ℕ };

    ghost view = { λ p. take p.len p.generals };

    ghost invariant = { λ p. IsPath p.generals p.len };

    ghost inverse = { λ xs. record { generals = xs ++ replicate (16 - length xs) 0; len = length xs } };

    ghost inverse_ok = { λ p ok. Prim.rw (back_of_take p.generals p.len ok, length_of_take p.generals p.len ok) };
}

impl Path {
    /// Returns the empty path.
    pub fn new() -> Path
        ensures { result ≡ [] }
    {
        Path {
            generals: [GeneralNo::commander(); GENERALS],
            len: 0,
        }
    }

    /// Returns the path of the commander alone, with which the path of every message of a run begins.
    pub fn commander() -> Path
        ensures { result ≡ 0 ∷ [] }
    {
        let mut path = Path::new();
        path.push_new(GeneralNo::commander());
        path
    }

    /// Returns how many generals the path has, at most 16.
    pub fn len(&self) -> usize
        ensures length { result ≡ length self.now }
        ensures at_most { length self.now ≤ 16 }
        ensures distinct { AllPairs (λ g h. g ≢ h) self.now }
        ensures below { All (λ g. g < 16) self.now }
    {
        self.len
    }

    /// Returns whether the path has no general.
    pub fn is_empty(&self) -> bool
        ensures { IsTrue result ↔ (self.now ≡ []) }
    {
        self.len == 0
    }

    /// Returns the generals, from the first signer to the last.
    pub fn generals(&self) -> &[GeneralNo]
        ensures { result.now ≡ self.now }
    {
        &self.generals[..self.len]
    }

    /// Returns whether the general stands in the path.
    pub fn contains(&self, general: GeneralNo) -> bool
        ensures { IsTrue result ↔ Contains self.now general }
    {
        self.generals().contains(&general)
    }

    /// Returns the last general, and None if the path is empty.
    pub fn last(&self) -> Option<GeneralNo>
        ensures { result ≡ slice_get self.now (length self.now - 1) }
    {
        self.generals().last().copied()
    }

    /// Returns whether the path begins with all generals of `front`, in their order.
    pub fn starts_with(&self, front: &Path) -> bool
        ensures { IsTrue result ↔ BeginsWith self.now front.now }
    {
        self.generals().starts_with(front.generals())
    }

    /// Returns whether the general is the last of the path.
    pub fn ends_with(&self, general: GeneralNo) -> bool
        ensures { IsTrue result ↔ EndsWith self.now general }
    {
        self.generals().ends_with(&[general])
    }

    /// Puts the general at the end of the path, which must have fewer than 16 generals and must not have
    /// this general.
    pub fn push_new(&mut self, general: GeneralNo)
        requires room { length self.old < 16 }
        requires new { ¬ Contains self.old general }
        ensures { self.new ≡ self.old ++ general ∷ [] }
    {
        let _below_16 = general.get();
        self.generals[self.len] = general;
        self.len += 1;
    }

    /// Puts the general at the end of the path.
    ///
    /// # Errors
    ///
    /// Full if the path has 16 generals, else Repeated if the general stands in it. The path is unchanged
    /// in both cases.
    pub fn push(&mut self, general: GeneralNo) -> Result<(), PathFault>
        ensures ok { OnOk result (self.new ≡ self.old ++ general ∷ []) }
        ensures err { OnErr result (self.new ≡ self.old) }
        ensures full { (result ≡ Err PathFault.Full) ↔ (length self.old ≡ 16) }
        ensures repeated { (result ≡ Err PathFault.Repeated) ↔ ((length self.old ≢ 16) × Contains self.old general) }
    {
        if self.len == GENERALS {
            return Err(PathFault::Full);
        }
        if self.contains(general) {
            return Err(PathFault::Repeated);
        }
        self.push_new(general);
        Ok(())
    }
}

impl PartialEq for Path {
    ghost eq = { pointwise nat_eq };

    ghost laws = { partial_equiv_from_equiv nat_list_eq_equiv };

    fn eq(&self, other: &Path) -> bool {
        self.generals() == other.generals()
    }
}

impl Eq for Path {
    ghost laws = { nat_list_eq_equiv };
}
