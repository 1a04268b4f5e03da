//! Sets of generals and of orders, kept as the bits of one number.
ghost use Rattle.std.specs.Prelude.{IsTrue, ℕ, ◌≡◌, ◌<◌, ◌↔◌, ◌⊎◌, [], ◌∷◌, List, Contains, AllPairs, length, slice_get, IsSome};
ghost use Rattle.std.specs.Iterator.{YieldsFirst, item_count};
ghost use Rattle.gen_types.specs.Ascending.{IsListOf};
ghost use Rattle.gen_types.specs.Bits.{members_of, bits_of};
ghost use Rattle.std.specs.Cmp.{partial_equiv_from_equiv};
ghost use Rattle.std.specs.Cmp.Lexicographic.{pointwise};
ghost use Rattle.std.specs.Bool.{nat_eq};
ghost use Rattle.std.proofs.lemmas.Cmp.{nat_list_eq_equiv};

use crate::numbers::{Generals, Number, Orders};
use std::marker::{Model, PhantomData};

/// A set of numbers of the kind K, at most 16. A contract sees the ascending list of its members.
#[derive_where(Clone, Copy, Debug)]
pub struct NumberSet<K> {
    bits: u16,
    #[derive_where(skip)]
    kind: PhantomData<K>,
}

/// A set of generals.
pub type GeneralSet = NumberSet<Generals>;

/// A set of orders.
pub type OrderSet = NumberSet<Orders>;

impl<K> Model for NumberSet<K> {
    ghost use Rattle.std.specs.Prelude.{ℕ, List, ◌<◌, ◌^◌};
    ghost use Rattle.gen_types.specs.Bits.{members_of, bits_of};
    ghost use Rattle.gen_types.specs.BitLaws.{bits_of-members_of};

    ghost Value = { List ℕ };

    ghost view = { λ s. members_of s.bits };

    ghost invariant = { λ s. s.bits < 2 ^ 16 };

    ghost inverse = { λ xs. record { bits = bits_of xs; kind = record {} } };

    ghost inverse_ok = { λ s below. Prim.rw (bits_of-members_of s.bits below) };
}

impl<K> NumberSet<K> {
    /// Returns the empty set.
    pub fn new() -> NumberSet<K>
        ensures { result ≡ [] }
    {
        NumberSet {
            bits: 0,
            kind: PhantomData,
        }
    }

    /// Returns the set of this member alone.
    pub fn only(member: Number<K>) -> NumberSet<K>
        ensures { result ≡ member ∷ [] }
    {
        let mut set = NumberSet::new();
        set.insert(member);
        set
    }

    /// Returns the set of the numbers whose bits are set: bit k is that of number k.
    pub fn from_bits(bits: u16) -> NumberSet<K>
        ensures { result ≡ members_of bits }
    {
        NumberSet {
            bits,
            kind: PhantomData,
        }
    }

    /// Returns the number whose set bits are those of the members: bit k is set if and only if number k is
    /// a member.
    pub fn bits(&self) -> u16
        ensures { result ≡ bits_of self.now }
    {
        self.bits
    }

    /// Returns whether the number is a member.
    pub fn contains(&self, number: Number<K>) -> bool
        ensures { IsTrue result ↔ Contains self.now number }
    {
        (self.bits >> number.get()) & 1 == 1
    }

    /// Makes the number a member, and returns true if and only if it was no member before.
    pub fn insert(&mut self, number: Number<K>) -> bool
        ensures members { IsListOf self.new (λ v. Contains self.old v ⊎ (v ≡ number)) }
        ensures new { IsTrue result ↔ ¬ Contains self.old number }
    {
        let number = number.get();
        let old = (self.bits >> number) & 1 == 1;
        self.bits |= 1 << number;
        !old
    }

    /// Returns how many members the set has, at most 16.
    pub fn len(&self) -> usize
        ensures length { result ≡ length self.now }
        ensures ascending { AllPairs (λ v w. v < w) self.now }
        ensures below { (v : ℕ) → Contains self.now v → v < 16 }
    {
        let mut count = 0;
        for number in 0..16u8 {
            if (self.bits >> number) & 1 == 1 {
                count += 1;
            }
        }
        count
    }

    /// Returns whether the set has no member.
    pub fn is_empty(&self) -> bool
        ensures { IsTrue result ↔ (self.now ≡ []) }
    {
        self.bits == 0
    }

    /// Returns the member at this place of the ascending list, counted from 0, and None past its end.
    pub fn get(&self, index: usize) -> Option<Number<K>>
        ensures member { result ≡ slice_get self.now index }
        ensures room { IsSome result → index < 16 }
    {
        let mut before = 0;
        for number in 0..16u8 {
            if (self.bits >> number) & 1 == 1 {
                if before == index {
                    return Some(Number::at(number));
                }
                before += 1;
            }
        }
        None
    }

    /// Returns the members in ascending order.
    pub fn iter(&self) -> Members<K>
        ensures { result ≡ self.now }
    {
        let set = NumberSet {
            bits: self.bits,
            kind: PhantomData,
        };
        Members { set, next: 0 }
    }
}

impl<K> PartialEq for NumberSet<K> {
    ghost eq = { pointwise nat_eq };

    ghost laws = { partial_equiv_from_equiv nat_list_eq_equiv };

    fn eq(&self, other: &NumberSet<K>) -> bool {
        self.bits == other.bits
    }
}

impl<K> Eq for NumberSet<K> {
    ghost laws = { nat_list_eq_equiv };
}

impl<K> IntoIterator for NumberSet<K> {
    type Item = Number<K>;

    type IntoIter = Members<K>;

    ghost into_iter_gives = { λ set members. members ≡ set };

    fn into_iter(self) -> Members<K> {
        self.iter()
    }
}

impl<K> IntoIterator for &NumberSet<K> {
    type Item = Number<K>;

    type IntoIter = Members<K>;

    ghost into_iter_gives = { λ set members. members ≡ set.now };

    fn into_iter(self) -> Members<K> {
        self.iter()
    }
}

/// The members of a set that are still to come, ascending.
#[derive(Drop)]
#[derive_where(Debug)]
pub struct Members<K> {
    set: NumberSet<K>,
    next: usize,
}

/// The members of a set of generals that are still to come, ascending.
pub type GeneralMembers = Members<Generals>;

/// The members of a set of orders that are still to come, ascending.
pub type OrderMembers = Members<Orders>;

impl<K> Model for Members<K> {
    ghost use Rattle.std.specs.Prelude.{ℕ, List, drop};

    ghost Value = { List ℕ };

    ghost view = { λ m. drop m.next m.set };
}

impl<K> Iterator for Members<K> {
    type Item = Number<K>;

    ghost next_gives = { YieldsFirst (λ m. m) };

    ghost remaining = { item_count (λ m. m) };

    fn next(&mut self) -> Option<Number<K>> {
        let member = self.set.get(self.next)?;
        self.next += 1;
        Some(member)
    }
}
