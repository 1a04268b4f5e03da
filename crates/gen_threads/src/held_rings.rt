//! Rings of keys that are held until a run needs them.
ghost use Rattle.std.specs.Prelude.{◌≡◌, IfOk};
ghost use Rattle.gen_scenario.specs.AllAre.{AllAre};
ghost use Rattle.gen_threads.specs.HeldRings.{IsUntaken};

use gen_scenario::Scenario;
use gen_tree::KeyRing;
use gen_types::GeneralNo;
use std::alloc::{AllocError, Global};
use std::marker::Model;

/// A ring of keys that is closed when it is dropped, so that no ring is lost, whatever is refused. A contract
/// sees the ring.
pub struct HeldRing {
    ring: KeyRing,
}

impl Model for HeldRing {
    ghost use Rattle.gen_tree.specs.Rings.{Ring};

    ghost Value = { Ring };

    ghost view = { λ h. h.ring };
}

impl Drop for HeldRing {
    fn drop(self) {
        let HeldRing { ring } = self;
        ring.close();
    }
}

impl HeldRing {
    /// Holds a ring.
    pub fn new(ring: KeyRing) -> HeldRing
        ensures { result ≡ ring }
    {
        HeldRing { ring }
    }

    /// Returns the ring, which the caller has to close.
    pub fn into_ring(self) -> KeyRing
        ensures { result ≡ self }
    {
        let HeldRing { ring } = self;
        ring
    }
}

/// Opens the rings of all generals of a scenario, in ascending order of generals, with no leaf taken. Nothing
/// is hashed.
///
/// A second ring of the same general gives each leaf again.
///
/// # Errors
///
/// `AllocError` if memory is refused. The rings that were opened are closed then.
pub fn open_rings(alloc: Global, scenario: &Scenario) -> Result<Vec<HeldRing>, AllocError>
    ensures { IfOk result (λ rings. AllAre (IsUntaken scenario.now) scenario.now.net.generals rings.items) }
{
    let generals = scenario.header().net().generals();
    let mut rings = Vec::with_capacity(alloc, usize::from(generals))?;
    'generals: for number in 0..generals {
        let ring = scenario.ring(GeneralNo::at(number))?;
        rings.push(HeldRing::new(ring))?;
    }
    Ok(rings)
}
