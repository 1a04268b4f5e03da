//! The texts of faults that no row has.
use gen_desk::DeskFault;
use gen_net::HeaderFault;
use gen_types::{PathFault, ReadError};
use gen_walks::WalkFault;
use std::alloc::{AllocError, Global};
use std::fmt::Display;
use std::test::Fail;

/// Whether a fault is shown so.
fn is_shown<F: Display>(alloc: Global, fault: &F, text: &str) -> Result<bool, AllocError> {
    let shown = fault.to_string(alloc)?;
    Ok(shown.as_str() == text)
}

#[test]
fn texts_of_faults(rt: HostRuntime) -> Result<(), Fail> {
    assert!(rt; is_shown(rt.alloc(), &HeaderFault::RootCount, "H8")?);
    assert!(rt; is_shown(rt.alloc(), &PathFault::Full, "the path is full")?);
    assert!(rt;
        is_shown(
            rt.alloc(),
            &PathFault::Repeated,
            "the general stands in the path"
        )?
    );
    assert!(rt; is_shown(rt.alloc(), &ReadError::<char>::Memory, "memory was refused")?);
    assert!(rt; is_shown(rt.alloc(), &WalkFault::Memory, "memory")?);
    assert!(rt; is_shown(rt.alloc(), &DeskFault::Memory, "memory")?);
    Ok(())
}
