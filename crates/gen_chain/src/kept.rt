//! What a store of verifications keeps.
ghost use Rattle.std.specs.Ordering.{as_partial_cmp};
ghost use Rattle.std.specs.Cmp.{partial_order_from_own_ties};
ghost use Rattle.std.specs.Cmp.Rules.{comparing};
ghost use Rattle.std.proofs.Common.{rules};
ghost use Rattle.gen_chain.specs.Keeping.{verified_cmp};

use crate::statements::Statement;
use gen_tree::Signature;
use gen_types::GeneralNo;
use std::cmp::Ordering;

/// What is verified: that a general signed a statement.
#[derive(Clone, Copy, Debug, PartialEq, Eq)]
pub(crate) struct Verified {
    /// The general.
    pub(crate) signer: GeneralNo,
    /// The statement.
    pub(crate) statement: Statement,
}

/// A signature that was verified as a general's signature of a statement, and the answer.
#[derive(Debug, Drop)]
pub(crate) struct Kept {
    /// The signature.
    pub(crate) signature: Signature,
    /// Whether it verifies.
    pub(crate) answer: bool,
}

/// Ordered by signer, then by order, then by path.
impl Ord for Verified {
    ghost cmp = { verified_cmp };

    ghost total = { Prim.search (comparing, rules) };

    ghost matches_partial_cmp = { Prim.search (comparing, rules) };

    ghost matches_eq = { Prim.search (comparing, rules) };

    fn cmp(&self, other: &Verified) -> Ordering {
        let orders = self.statement.order.cmp(&other.statement.order);
        let path = self.statement.path.generals();
        let paths = path.cmp(other.statement.path.generals());
        self.signer.cmp(&other.signer).then(orders).then(paths)
    }
}

impl PartialOrd for Verified {
    ghost partial_cmp = { as_partial_cmp verified_cmp };

    ghost laws = { partial_order_from_own_ties (Prim.search (comparing, rules))
        (Prim.search (comparing, rules)) };

    fn partial_cmp(&self, other: &Verified) -> Option<Ordering> {
        Some(self.cmp(other))
    }
}
