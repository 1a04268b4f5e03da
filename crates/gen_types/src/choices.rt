//! How generals choose one order from a set of orders.
ghost use Rattle.std.specs.Prelude.{ℕ, ◌≡◌, [], ◌∷◌, List, refl};
ghost use Rattle.gen_types.specs.Choices.{only_or_retreat, median};

use crate::numbers::OrderNo;
use crate::sets::OrderSet;

/// The number of RETREAT.
const RETREAT: u8 = 0;

/// The function `choice` of the algorithm (section 4 of the paper of 1982), which depends on the set of
/// orders alone.
///
/// The paper's two laws hold for each implementation: of a set of one order it chooses this order, and of
/// the empty set it chooses RETREAT.
pub trait Choice {
    ghost choice: { Self → List ℕ → ℕ };

    /// Returns the order that is chosen from the set.
    fn choose(&self, orders: OrderSet) -> OrderNo
        ensures { result ≡ choice self.now orders };

    ghost of_one: { (c : Self) (v : ℕ) → choice c (v ∷ []) ≡ v };

    ghost of_none: { (c : Self) → choice c [] ≡ 0 };
}

/// This choice takes the only member of the set, and RETREAT from any other set.
#[derive(Clone, Copy, PartialEq, Eq, Debug)]
pub struct OnlyOrRetreat;

impl Choice for OnlyOrRetreat {
    ghost choice = { λ _. only_or_retreat };

    ghost of_one = { λ _ v. refl };

    ghost of_none = { λ _. refl };

    fn choose(&self, orders: OrderSet) -> OrderNo {
        match (orders.get(0), orders.get(1)) {
            (Some(only), None) => only,
            _ => OrderNo::at(RETREAT),
        }
    }
}

/// This choice takes the member in the middle of the ascending list, the lower of two in the middle, and
/// RETREAT from the empty set. Section 4 of the paper of 1982 names the median as one possible choice.
#[derive(Clone, Copy, PartialEq, Eq, Debug)]
pub struct MedianOrder;

impl Choice for MedianOrder {
    ghost choice = { λ _. median };

    ghost of_one = { λ _ v. refl };

    ghost of_none = { λ _. refl };

    fn choose(&self, orders: OrderSet) -> OrderNo {
        if orders.is_empty() {
            return OrderNo::at(RETREAT);
        }
        orders
            .get((orders.len() - 1) / 2)
            .unwrap_or(OrderNo::at(RETREAT))
    }
}

/// One of the two choices, each of which has a number.
#[derive(Clone, Copy, PartialEq, Eq, Debug)]
pub enum ChoiceKind {
    /// `OnlyOrRetreat`, whose number is 0.
    Only,
    /// `MedianOrder`, whose number is 1.
    Median,
}

impl ChoiceKind {
    ghost use Rattle.gen_types.specs.ChoiceOf.{choice_numbered, choice_number};

    /// Returns the choice of this number, and None if and only if the number is above 1.
    pub fn new(number: u8) -> Option<ChoiceKind>
        ensures { result ≡ choice_numbered number }
    {
        match number {
            0 => Some(ChoiceKind::Only),
            1 => Some(ChoiceKind::Median),
            _ => None,
        }
    }

    /// Returns the number of the choice in texts and bytes, 0 or 1.
    pub fn number(self) -> u8
        ensures { result ≡ choice_number self }
    {
        match self {
            ChoiceKind::Only => 0,
            ChoiceKind::Median => 1,
        }
    }
}

impl Choice for ChoiceKind {
    ghost use Rattle.std.specs.Prelude.{refl};
    ghost use Rattle.gen_types.specs.ChoiceOf.{choice_of, choice_of-one, choice_of-none};

    ghost choice = { choice_of };

    ghost of_one = { choice_of-one };

    ghost of_none = { choice_of-none };

    fn choose(&self, orders: OrderSet) -> OrderNo {
        match self {
            ChoiceKind::Only => OnlyOrRetreat.choose(orders),
            ChoiceKind::Median => MedianOrder.choose(orders),
        }
    }
}
