//! Admissions.
ghost use Rattle.std.specs.Prelude.{◌≡◌, ◌<◌, ◌==◌, true, length};
ghost use Rattle.std.specs.List.{AllByRecursion};
ghost use Rattle.gen_system.specs.Admissions as admissions;
ghost use Rattle.gen_system.specs.Admissions.{IsAdmission, IsOpenedRoot, admission_with, opening_in, root_in};

use crate::admission_fault::AdmissionFault;
use crate::opened_roots::OpenedRoot;
use crate::systems::System;
use gen_types::GeneralNo;
use std::marker::Model;

/// What admits the runs of one set of keys of a system: for each node the root of its set, with the opening. It has the
/// system itself. A contract sees the system, the number of the set, and the roots with their openings as one record.
///
/// Whether it shows anything, `holds` tells.
#[derive(Debug, Drop)]
pub struct Admission {
    pub(crate) system: System,
    pub(crate) set: u32,
    pub(crate) opened: Vec<OpenedRoot>,
}

impl Model for Admission {
    ghost use Rattle.gen_system.specs.Admissions.{SetAdmission, IsAdmission};

    ghost Value = { SetAdmission };

    ghost view = { λ a. record { system = a.system; set = a.set; opened = a.opened.items } };

    ghost invariant = { λ a. IsAdmission
        (record { system = a.system; set = a.set; opened = a.opened.items }) };
}

/// Returns whether an opening has this many siblings.
fn has_levels(levels: u8, one: &OpenedRoot) -> bool
    ensures value { result ≡ (length one.now.opening == levels) }
    ensures opened { result ≡ true → IsOpenedRoot levels one.now }
{
    one.opening.siblings().len() == usize::from(levels)
}

/// Returns whether each opening has this many siblings.
fn have_levels(levels: u8, opened: &[OpenedRoot]) -> bool
    ensures value { result ≡ admissions.have_levels levels opened.now }
    ensures opened { result ≡ true → AllByRecursion (IsOpenedRoot levels) opened.now }
{
    'roots: for one in opened {
        if !has_levels(levels, one) {
            return false;
        }
    }
    true
}

impl Admission {
    /// Returns the admission of the set with this number, with the root and the opening of each node. There must be one
    /// root for each node. It takes no memory.
    ///
    /// # Errors
    ///
    /// SetRange if the number of the set is 2 to the power of the levels or more, else OtherLevels if an opening has not
    /// one sibling for each level. The system and the roots are dropped then.
    #[tactic(auto, unfolding(crate::specs::Admissions::admission_with))]
    pub fn new(
        system: System,
        set: u32,
        opened: Vec<OpenedRoot>,
    ) -> Result<Admission, AdmissionFault>
        requires { length opened.items ≡ system.header.network.generals }
        ensures { result ≡ admission_with system set opened.items }
    {
        let levels = system.levels();
        if set >= 1 << levels {
            return Err(AdmissionFault::SetRange);
        }
        if !have_levels(levels, &opened) {
            return Err(AdmissionFault::OtherLevels);
        }
        Ok(Admission {
            system,
            set,
            opened,
        })
    }

    /// Returns the system.
    pub fn system(&self) -> &System
        ensures value { result.now ≡ self.now.system }
        ensures admission { IsAdmission self.now }
    {
        &self.system
    }

    /// Returns the number of the set.
    pub fn set(&self) -> u32
        ensures { result ≡ self.now.set }
    {
        self.set
    }

    /// Returns the roots of the set with their openings, node by node.
    pub fn opened(&self) -> &[OpenedRoot]
        ensures value { result.now ≡ self.now.opened }
        ensures admission { IsAdmission self.now }
    {
        self.opened.as_slice()
    }

    /// Returns the root of a node's set with its opening. The node must be one of the network's.
    pub fn opened_of(&self, node: GeneralNo) -> &OpenedRoot
        requires { node < self.now.system.header.network.generals }
        ensures root { result.now.root ≡ root_in self.now node }
        ensures opening { result.now.opening ≡ opening_in self.now node }
    {
        &self.opened()[usize::from(node.get())]
    }
}
