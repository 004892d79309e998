ghost use Rattle.std.specs.Prelude.{◌≡◌, ◌^◌, ◌+◌, ◌&&◌, ◌==◌, [], ◌∷◌, nat_lt, if◌then◌else◌};
ghost use Rattle.std.specs.Char.{is_ascii_hexdigit};
ghost use Rattle.std.specs.List.{list_all, position};
ghost use Rattle.std.specs.Option.{is_some, option_map_or};
ghost use Rattle.std.specs.Str.Parse.{digits_value};
ghost use Rattle.hex.specs.Hex.{decode_of};
ghost use Rattle.ots_model.specs.Name.{is_digit};
ghost use Rattle.ots_world.specs.Limits.{flow_limit};
ghost use Rattle.ots_world.specs.Script.{Gives, HasOctets, decision, flag, image, name, number, number_within, octets_of, relation, whose, words};

use crate::script::{FLOW_LIMIT, IMAGE_LIMIT, Image, Relation, ScriptFault, Whose};
use ots_model::{Decision, Name, Octets};
use std::alloc::Global;

// The first word of a text, and what stands behind the space that ends it, where one does.
pub(super) fn first_word(text: &[u8]) -> (&[u8], Option<&[u8]>)
    ensures { words text.now ≡ result.0.now ∷ option_map_or (λ rest. words rest.now) result.1 [] }
{
    match first_space(text) {
        Some(at) => (&text[..at], Some(&text[at + 1..])),
        None => (text, None),
    }
}

fn first_space(text: &[u8]) -> Option<usize>
    ensures { result ≡ position (λ b. b == 32) text.now }
{
    text.iter().position(|b| *b == b' ')
}

#[tactic(auto, unfolding(crate::specs::Script::name))]
pub(super) fn name(word: &[u8]) -> Option<Name>
    ensures { result ≡ name word.now }
{
    Name::new(word)
}

// The number that the digits write, where it is below 2^64.
fn value_of_digits(digits: &[u8]) -> Option<u64>
    ensures { result
        ≡ (if list_all is_digit digits.now && nat_lt (digits_value 10 digits.now) (2 ^ 64)
        then Some (digits_value 10 digits.now) else None) }
{
    let mut value = 0u64;
    for digit in digits {
        if !digit.is_ascii_digit() {
            return None;
        }
        value = value
            .checked_mul(10)?
            .checked_add(u64::from(*digit - b'0'))?;
    }
    Some(value)
}

#[tactic(auto, unfolding(crate::specs::Script::number_within))]
pub(super) fn number(word: &[u8]) -> Option<u64>
    ensures { result ≡ number word.now }
{
    match word {
        [] | [b'0', _, ..] => None,
        _ => value_of_digits(word),
    }
}

// A number that is not 0.
#[tactic(auto, unfolding(crate::specs::Script::number_within))]
pub(super) fn positive(word: &[u8]) -> Option<u64>
    ensures { result ≡ number_within 1 (2 ^ 64) word.now }
{
    number(word).filter(|n| *n > 0)
}

// How many seconds a transaction has, or 0.
#[tactic(auto, unfolding(crate::specs::Script::number_within))]
pub(super) fn seconds(word: &[u8]) -> Option<u32>
    ensures { result ≡ number_within 0 (2 ^ 32) word.now }
{
    u32::try_from(number(word)?).ok()
}

// How many messages are to be delivered.
#[tactic(auto, unfolding(crate::specs::Script::number_within))]
pub(super) fn quantity(word: &[u8]) -> Option<u32>
    ensures { result ≡ number_within 1 (flow_limit + 1) word.now }
{
    seconds(word).filter(|n| matches!(*n, 1..=FLOW_LIMIT))
}

#[tactic(auto, unfolding(crate::specs::Script::flag))]
pub(super) fn flag(word: &[u8]) -> Option<bool>
    ensures { result ≡ flag word.now }
{
    match word {
        b"0" => Some(false),
        b"1" => Some(true),
        _ => None,
    }
}

#[tactic(auto, unfolding(crate::specs::Script::decision))]
pub(super) fn decision(word: &[u8]) -> Option<Decision>
    ensures { result ≡ decision word.now }
{
    if word == b"commit".as_slice() {
        Some(Decision::Commit)
    } else if word == b"rollback".as_slice() {
        Some(Decision::Rollback)
    } else {
        None
    }
}

#[tactic(auto, unfolding(crate::specs::Script::whose))]
pub(super) fn whose(word: &[u8]) -> Option<Whose>
    ensures { result ≡ whose word.now }
{
    if word == b"own".as_slice() {
        Some(Whose::Own)
    } else if word == b"parent".as_slice() {
        Some(Whose::Parent)
    } else if word == b"top".as_slice() {
        Some(Whose::Top)
    } else {
        None
    }
}

#[tactic(auto, unfolding(crate::specs::Script::relation))]
pub(super) fn relation(word: &[u8]) -> Option<Relation>
    ensures { result ≡ relation word.now }
{
    if word == b"same".as_slice() {
        Some(Relation::Same)
    } else if word == b"ancestor".as_slice() {
        Some(Relation::Ancestor)
    } else if word == b"descendant".as_slice() {
        Some(Relation::Descendant)
    } else if word == b"related".as_slice() {
        Some(Relation::Related)
    } else {
        None
    }
}

#[tactic(auto, unfolding(crate::specs::Script::image))]
pub(super) fn image(alloc: Global, word: &[u8]) -> Result<Image, ScriptFault>
    ensures { Gives HasOctets result (image word.now) }
{
    if word == b"old".as_slice() {
        Ok(Image::Old)
    } else if word == b"new".as_slice() {
        Ok(Image::New)
    } else {
        octets(alloc, word).map(Image::Octets)
    }
}

// The octets that the word spells in hexadecimal, where there is one at least and they are not too many.
fn octets(alloc: Global, word: &[u8]) -> Result<Octets, ScriptFault>
    ensures { Gives (λ _. Unit {0}) result (octets_of (decode_of word.now)) }
{
    if !are_octets(word) {
        return Err(ScriptFault::BadLine);
    }
    match hex::decode(alloc, word) {
        Ok(octets) => Ok(Octets::from_vec(octets)),
        Err(_) => Err(ScriptFault::Memory),
    }
}

// Whether the word spells such octets.
fn are_octets(word: &[u8]) -> bool
    ensures { result ≡ is_some (octets_of (decode_of word.now)) }
{
    let octets = word.len() / 2;
    if word.len() % 2 == 1 || octets < 1 || octets > IMAGE_LIMIT {
        return false;
    }
    are_digits(word)
}

fn are_digits(word: &[u8]) -> bool
    ensures { result ≡ list_all is_ascii_hexdigit word.now }
{
    word.iter().all(|digit| digit.is_ascii_hexdigit())
}
