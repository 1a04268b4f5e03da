//! Laws of logs that are matched. Each is a function with an empty body whose contract is the law: a caller
//! that calls it knows the law.
ghost use Rattle.gen_match.specs.Sources.{DerivableAtLast};

/// States that a received chain with a general of the rest in its path is derivable if and only if the path up to its
/// last such general has a source. A source is a shorter path of that order that begins so, and that a general of the
/// rest sent to a faulty general.
pub fn derivable_at_last()
    ensures { DerivableAtLast }
{}
