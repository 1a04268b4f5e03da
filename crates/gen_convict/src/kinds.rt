//! The kinds of claims, by number.
ghost use Rattle.std.specs.Prelude.{◌≡◌};
ghost use Rattle.gen_convict.specs.First.{kind_of};
ghost use Rattle.gen_convict.specs.Told.{told};

use crate::claims::Claim;
use crate::evidence_fields::{ACROSS_KIND, DEPARTING_KIND, MISSING_KIND, ORDERS_KIND, TEXTS_KIND};

impl Claim {
    /// Returns the number of the claim's kind, which stands in evidence and in a verdict's text. It is 1 for two texts
    /// under one leaf, 2 for two orders of the commander and 3 for a log without a SIGN. It is 4 for a log that departs
    /// and 5 for two texts under one leaf in two runs.
    pub fn kind(&self) -> u8
        ensures { result ≡ kind_of (told self.now) }
    {
        match self {
            Claim::Texts { .. } => TEXTS_KIND,
            Claim::Orders { .. } => ORDERS_KIND,
            Claim::Missing { .. } => MISSING_KIND,
            Claim::Departing { .. } => DEPARTING_KIND,
            Claim::Across { .. } => ACROSS_KIND,
        }
    }
}
