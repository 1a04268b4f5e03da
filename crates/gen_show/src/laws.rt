//! Laws of what is shown.
ghost use Rattle.gen_show.specs.Offsets.{OffsetsAreRight};

/// Each entry of a log stands in the file at the byte that its line says, if the log stands at the byte at which it is
/// shown.
#[tactic(auto, using(crate::proofs::Offsets::offsets_are_right))]
pub fn offsets_are_right()
    ensures { OffsetsAreRight }
{}
