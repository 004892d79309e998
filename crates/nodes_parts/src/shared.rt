// References that share the octets in front of the numbers of their objects.
ghost use Rattle.std.specs.Prelude.{◌≡◌, ◌++◌, ◌+◌, ◌≤◌, length, take, drop, bytes_eq, IfOk};
ghost use Rattle.nodes_parts.specs.Shared.{IsParted, IsTail, tail_octets};

use crate::objects::NUMBER_PLACE;
use std::alloc::{AllocError, Global};
use std::marker::Model;
use std::rc::Rc;
use std::simd::prelude::*;

/// How many octets a word has.
const WORD: usize = 16;

/// A reference. Its octets from the number of its object on are its own; those in front of them may be shared with others. One
/// that is too short for a number has only these. Contracts see its octets.
#[derive(Drop)]
pub struct SharedReference {
    front: Rc<Vec<u8>>,
    tail: Option<[u8; NUMBER_PLACE]>,
}

impl Model for SharedReference {
    ghost use Rattle.std.specs.Prelude.{List, ℕ, ◌++◌};
    ghost use Rattle.nodes_parts.specs.Shared.{IsTail, tail_octets};

    ghost Value = { List ℕ };

    ghost view = { λ r. r.front.value.items ++ tail_octets r.tail };

    ghost invariant = { λ r. IsTail r.tail };
}

impl SharedReference {
    /// That of these octets, which shares with another one what it can.
    #[tactic(auto, using(crate::proofs::SharedLemmas::same_octets))]
    pub fn like(
        alloc: Global,
        octets: &[u8],
        other: Option<&SharedReference>,
    ) -> Result<SharedReference, AllocError>
        ensures { IfOk result (λ reference. reference ≡ octets.now) }
    {
        let (front, tail) = parts(octets);
        if let Some(other) = other {
            if front == other.front.as_slice() {
                let front = other.front.clone()?;
                return Ok(SharedReference { front, tail });
            }
        }
        let front = Rc::new(alloc, front.to_vec(alloc)?)?;
        Ok(SharedReference { front, tail })
    }

    /// Whether these are its octets.
    #[tactic(auto, using(crate::proofs::SharedLemmas::shorter, crate::proofs::SharedLemmas::other_length))]
    pub fn is(&self, octets: &[u8]) -> bool
        ensures { result ≡ bytes_eq octets.now self.now }
    {
        let front = self.front.as_slice();
        match &self.tail {
            None => octets == front,
            Some(tail) => {
                octets.len() >= NUMBER_PLACE
                    && octets.len() - NUMBER_PLACE == front.len()
                    && has_parts(octets, front, tail)
            }
        }
    }
}

/// Whether octets are these and, behind them, those.
#[tactic(auto, using(crate::proofs::SharedLemmas::in_two))]
fn has_parts(octets: &[u8], front: &[u8], tail: &[u8]) -> bool
    requires long { length octets.now ≡ length front.now + length tail.now }
    ensures { result ≡ bytes_eq octets.now (front.now ++ tail.now) }
{
    let (before, behind) = octets.split_at(front.len());
    are_same_by_words(behind, tail) && are_same_by_words(before, front)
}

/// Whether octets are the same as others that are as many. They are compared a word at a time, and the last word may overlap the
/// one before it.
fn are_same_by_words(octets: &[u8], others: &[u8]) -> bool
    requires { length octets.now ≡ length others.now }
    ensures { result ≡ bytes_eq octets.now others.now }
{
    if octets.len() < WORD {
        return are_same(octets, others);
    }
    let last = octets.len() - WORD;
    let mut at = 0;
    while at < last {
        if !is_same_word(octets, others, at) {
            return false;
        }
        at += WORD;
    }
    is_same_word(octets, others, last)
}

/// Whether octets have the same word at a place as others.
fn is_same_word(octets: &[u8], others: &[u8], at: usize) -> bool
    requires within { at + 16 ≤ length octets.now }
    requires other_within { at + 16 ≤ length others.now }
    ensures { result ≡ bytes_eq (take 16 (drop at octets.now)) (take 16 (drop at others.now)) }
{
    u8x16::from_slice(&octets[at..])
        .simd_ne(u8x16::from_slice(&others[at..]))
        .to_bitmask()
        == 0
}

/// Whether octets are the same as others that are as many. They are few, and are compared one by one.
fn are_same(octets: &[u8], others: &[u8]) -> bool
    requires { length octets.now ≡ length others.now }
    ensures { result ≡ bytes_eq octets.now others.now }
{
    for at in 0..octets.len() {
        if octets[at] != others[at] {
            return false;
        }
    }
    true
}

/// The octets of a reference in front of the number of its object, and those from there on, where it is long enough for one.
fn parts(octets: &[u8]) -> (&[u8], Option<[u8; NUMBER_PLACE]>)
    ensures whole { octets.now ≡ result.0.now ++ tail_octets result.1 }
    ensures tail { IsTail result.1 }
    ensures parted { IsParted octets.now result.1 }
{
    if octets.len() < NUMBER_PLACE {
        return (octets, None);
    }
    let (front, behind) = octets.split_at(octets.len() - NUMBER_PLACE);
    let mut tail = [0; NUMBER_PLACE];
    tail.copy_from_slice(behind);
    (front, Some(tail))
}
