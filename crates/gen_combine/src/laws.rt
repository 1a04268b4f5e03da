//! Laws of the value that a rule makes of decided values. Each is a function with an empty body whose contract is the law:
//! a caller that calls it knows the law.
ghost use Rattle.std.specs.Prelude.{ℕ, ◌≡◌, ◌≢◌, ◌<◌, ◌≤◌, ◌*◌, List, length, Contains};
ghost use Rattle.gen_combine.specs.Combined.{IsCombined, differing, outside};

use crate::combining::Combination;

/// If at most m of the values are below a or above b, and there are more than 2m, the median is from a to b. So it is
/// from the least to the greatest value of the correct nodes, if at most m of more than 2m nodes are faulty.
pub fn medians_stay_inside()
    ensures { (decided : List ℕ) (m a b v : ℕ) → outside a b decided ≤ m → 2 * m < length decided
        → IsCombined Combination.Median decided v → (a ≤ v) × (v ≤ b) }
{}

/// If at most m of the values are other than v, and there are more than 2m, the majority is v. So it is the value of the
/// correct nodes, if these have one value and at most m of more than 2m nodes are faulty.
pub fn majorities_stay()
    ensures { (decided : List ℕ) (m v w : ℕ) → differing v decided ≤ m → 2 * m < length decided
        → IsCombined Combination.Majority decided w → w ≡ v }
{}

/// If the rule for all makes v, and v is not 0, each of the values is v. So no value but 0 comes out that is not the value
/// of each correct node.
pub fn all_is_of_each()
    ensures { (decided : List ℕ) (v x : ℕ) → IsCombined Combination.All decided v → v ≢ 0
        → Contains decided x → x ≡ v }
{}

/// Of some values a rule makes at most one value.
pub fn combined_is_one()
    ensures { (rule : Combination) (decided : List ℕ) (v w : ℕ) → 0 < length decided
        → IsCombined rule decided v → IsCombined rule decided w → v ≡ w }
{}
