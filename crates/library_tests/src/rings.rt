//! Which leaves of a ring can be taken.
use gen_tree::KeyRing;
use gen_types::TreeHeight::{Four, Six};
use std::test::Fail;

/// Returns the number of a leaf that is taken and retired, where it could be taken.
fn retired(ring: &mut KeyRing, leaf: u8) -> Option<u8> {
    ring.take(leaf).map(|key| key.retire())
}

/// Returns whether a ring gives leaf 3 once, its last leaf, and none behind it; and ends the ring.
fn gives_each_once(mut ring: KeyRing, last: u8) -> bool {
    let first = retired(&mut ring, 3) == Some(3) && retired(&mut ring, last) == Some(last);
    let again = retired(&mut ring, 3).is_some() || retired(&mut ring, last).is_some();
    let behind = retired(&mut ring, last.wrapping_add(1)).is_some();
    let leaves = ring.close();
    first && !again && !behind && leaves.len() == 2 && leaves.contains(3) && leaves.contains(last)
}

#[test]
fn leaves_are_taken_once(rt: HostRuntime) -> Result<(), Fail> {
    let four = KeyRing::from_seed(rt.alloc(), &[0; 32], Four)?;
    assert!(rt; gives_each_once(four, 15));
    let six = KeyRing::from_seed(rt.alloc(), &[0; 32], Six)?;
    assert!(rt; gives_each_once(six, 63));
    Ok(())
}
