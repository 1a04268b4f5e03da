//! Laws of the algorithm. Each is a function with an empty body whose contract is the law: a caller that
//! calls it knows the law.
ghost use Rattle.gen_core.specs.Keeping.{LogExists, OneLog};

/// States that a general with a given conduct has a log of each run (`some`), and only one (`one`).
pub fn logs_are_kept()
    ensures some { LogExists }
    ensures one { OneLog }
{}
