//! S1.2: sets of graph nodes: bit v of a word stands for node v.
#![tactic(auto)]

ghost use Rattle.std.specs.Prelude.{ℕ, ◌<◌, ◌^◌, min, ◌≡◌, take};
ghost use Rattle.basics.specs.Lists.{range};
ghost use Rattle.nodes.specs.Sets.{members, set_of, is_within};

use std::marker::Model;

/// A set of graph nodes: clauses see it as the number whose bit v stands for node v.
#[derive(Clone, Copy, Debug, PartialEq, Eq)]
pub struct NodeSet {
    bits: u32,
}

impl Model for NodeSet {
    ghost Value = { ℕ };

    ghost view = { λ s. s.bits };

    ghost invariant = { λ s. s.bits < 2 ^ 32 };

    ghost inverse = { λ n. record { bits = n } };
}

/// The set of node v alone.
fn bit(v: u32) -> u32
    requires { v < 32 }
    ensures { result ≡ 2 ^ v }
{
    1 << v
}

impl NodeSet {
    /// The set that a word stands for.
    pub fn from_bits(bits: u32) -> NodeSet
        ensures { result ≡ bits }
    {
        NodeSet { bits }
    }

    /// The word that stands for the set.
    pub fn bits(self) -> u32
        ensures { result ≡ self }
    {
        self.bits
    }

    /// The set of the k lowest nodes: all 32 where k is larger.
    #[tactic(auto, using(crate::proofs::Whole::full_below, crate::proofs::Whole::full_beyond))]
    pub fn full(k: u32) -> NodeSet
        ensures { result ≡ set_of (range 0 (min k 32)) }
    {
        if k <= 32 {
            // Below 2^32, and `u64` has no `From` to `u32`.
            NodeSet::from_bits(((1u64 << k) - 1) as u32)
        } else {
            NodeSet::from_bits(u32::MAX)
        }
    }

    /// Whether every member is a member of the other set.
    #[tactic(auto, using(crate::proofs::Parts::and_eq_is_within))]
    pub fn is_subset(self, other: NodeSet) -> bool
        ensures { result ≡ is_within 32 self other }
    {
        self.bits & other.bits == self.bits
    }

    /// The members, lowest first.
    pub fn iter(self) -> Iter
        ensures { result ≡ members 32 self }
    {
        Iter { rest: self.bits }
    }

    /// The `count` lowest members, or the whole set where it has no more than these.
    #[tactic(auto, using(crate::proofs::Picks::all_lowest))]
    pub fn lowest(self, count: u32) -> NodeSet
        ensures { result ≡ set_of (take count (members 32 self)) }
    {
        if self.bits.count_ones() <= count {
            return self;
        }
        // `u32` has no `From` to `usize`.
        NodeSet::from_bits(self.iter().take(count as usize).map(bit).sum())
    }
}

/// The members of a set that are still to come, lowest first. Clauses see the list of them.
#[derive(Clone, Debug, Drop)]
pub struct Iter {
    rest: u32,
}

impl Model for Iter {
    ghost use Rattle.std.specs.Prelude.{ℕ, List, ◌<◌, ◌^◌};
    ghost use Rattle.nodes.specs.Sets.{members};

    ghost Value = { List ℕ };

    ghost view = { λ m. members 32 m.rest };

    ghost invariant = { λ m. m.rest < 2 ^ 32 };
}

impl Iterator for Iter {
    ghost use Rattle.std.specs.Iterator.{YieldsFirst, item_count};

    type Item = u32;

    ghost next_gives = { YieldsFirst (λ m. m) };

    ghost remaining = { item_count (λ m. m) };

    #[tactic(auto, using(crate::proofs::Trailing::members_end, crate::proofs::Trailing::members_step))]
    fn next(&mut self) -> Option<u32> {
        if self.rest == 0 {
            return None;
        }
        let node = self.rest.trailing_zeros();
        self.rest &= self.rest - 1;
        Some(node)
    }
}
