//! The numbers of generals and of orders.
ghost use Rattle.std.specs.Prelude.{ℕ, ◌≡◌, ◌<◌, Some, decimal};
ghost use Rattle.std.specs.Option.{SomeIff};
ghost use Rattle.std.specs.Result.{OkIff};
ghost use Rattle.gen_types.specs.declared.numbers.NumberFault.TheVariants.{AboveFifteen};

use crate::limits::MOST_GENERALS;
use std::fmt;
use std::marker::{Model, PhantomData};
use thiserror::Error;

/// Why a number is neither a general's nor an order's.
#[derive(Clone, Copy, PartialEq, Eq, Debug, Error)]
pub enum NumberFault {
    /// The number is above 15.
    #[error("the number is above 15")]
    AboveFifteen,
}

/// The kind of the numbers of generals.
pub struct Generals;

/// The kind of the numbers of orders.
pub struct Orders;

/// A number, 0 to 15, of the kind K. Both kinds have as many numbers as a network has generals at most. A
/// contract sees the number alone.
#[derive_where(Clone, Copy, PartialEq, Eq, PartialOrd, Ord, Hash, Debug)]
pub struct Number<K> {
    number: u8,
    #[derive_where(skip)]
    kind: PhantomData<K>,
}

/// The number of a general, 0 to 15. General 0 is the commander.
pub type GeneralNo = Number<Generals>;

/// The number of an order, 0 to 15. Order 0 is RETREAT, which section 4 of the paper of 1982 names as the
/// order of a lieutenant that no order reaches.
pub type OrderNo = Number<Orders>;

impl<K> Model for Number<K> {
    ghost Value = { ℕ };

    ghost view = { λ n. n.number };

    ghost invariant = { λ n. n.number < 16 };

    ghost inverse = { λ n. record { number = n; kind = record {} } };
}

impl<K> Number<K> {
    /// Returns the general or order of this number, and None if and only if the number is above 15.
    pub fn new(number: u8) -> Option<Number<K>>
        ensures { SomeIff result (number < 16) number }
    {
        if number < MOST_GENERALS {
            Some(Number {
                number,
                kind: PhantomData,
            })
        } else {
            None
        }
    }

    /// Returns the general or order of this number, which must be below 16.
    pub fn at(number: u8) -> Number<K>
        requires { number < 16 }
        ensures { result ≡ number }
    {
        Number {
            number,
            kind: PhantomData,
        }
    }

    /// Returns the number of the general or order, which is below 16.
    pub fn get(self) -> u8
        ensures value { result ≡ self }
        ensures below { result < 16 }
    {
        self.number
    }
}

impl GeneralNo {
    /// Returns general 0, the commander.
    pub fn commander() -> GeneralNo
        ensures { result ≡ 0 }
    {
        GeneralNo::at(0)
    }
}

impl<K> TryFrom<u8> for Number<K> {
    type Error = NumberFault;

    ghost try_from_gives = { λ number result. OkIff result (number < 16) number };

    /// # Errors
    ///
    /// `AboveFifteen` if and only if the number is above 15.
    fn try_from(number: u8) -> Result<Number<K>, NumberFault> {
        Number::new(number).ok_or(NumberFault::AboveFifteen)
    }
}

impl<K> fmt::Display for Number<K> {
    ghost output = { λ number. Some (decimal number) };

    /// Writes the number in decimal digits.
    fn fmt<W: fmt::Write>(&self, f: &mut fmt::Formatter<W>) -> fmt::Result {
        let number = self.number;
        write!(f, "{number}")
    }
}
