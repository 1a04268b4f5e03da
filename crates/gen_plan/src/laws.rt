//! Laws of what is asked of a header. Each is a function with an empty body whose contract is the law: a caller that
//! calls it knows the law.
ghost use Rattle.std.specs.Prelude.{ℕ, ◌≡◌, ◌↔◌, List, [], None, Some};
ghost use Rattle.gen_net.specs.Header.{RunHeader};
ghost use Rattle.gen_net.specs.Network.{Network};
ghost use Rattle.gen_net.specs.Walks.{HasDiameter};
ghost use Rattle.gen_plan.specs.EqualRoots.{AreEqualRoots, HasOwnRoots, equal_roots};
ghost use Rattle.gen_plan.specs.Parted.{parted_pair};
ghost use Rattle.gen_plan.specs.Plans.{IsLeastApart};

/// The pairs of equal roots are all pairs a < b of generals that have the same root, and they ascend.
pub fn equal_roots_are_all()
    ensures { (h : RunHeader) → AreEqualRoots h (equal_roots h) }
{}

/// There is no pair of equal roots if and only if each general has a root of its own.
pub fn own_roots_are_no_pairs()
    ensures { (h : RunHeader) → (equal_roots h ≡ []) ↔ HasOwnRoots h }
{}

/// The parted pair is (a, b) if and only if a < b is the least pair of the rest that no walk of at most d edges inside the
/// rest joins (`least`). There is no parted pair if and only if such a walk joins any two of the rest (`none`).
pub fn parted_pairs_are_least()
    ensures least { (net : Network) (faulty : List ℕ) (a b : ℕ)
        → (parted_pair net faulty ≡ Some (a, b)) ↔ IsLeastApart net faulty net.diameter a b }
    ensures none { (net : Network) (faulty : List ℕ)
        → (parted_pair net faulty ≡ None) ↔ HasDiameter net faulty }
{}
