ghost use Rattle.std.specs.Prelude.{◌≡◌, ◌↔◌, ◌-◌, ◌++◌, length, replicate, IsTrue, IfSome, IfNone};
ghost use Rattle.std.specs.List.{list_all};
ghost use Rattle.ots_model.specs.Limits.{name_limit};
ghost use Rattle.ots_model.specs.Name.{IsName, is_name_octet};

use std::marker::Model;

/// How many octets a name has at most.
pub const NAME_LIMIT: usize = 12;

/// The name of a node, an end, a transaction, a resource: a small letter, and then up to eleven small letters and
/// digits. Contracts see it as the list of its octets.
#[derive(Clone, Copy, Debug, PartialEq, Eq, Hash)]
pub struct Name {
    octets: [u8; NAME_LIMIT],
    length: u8,
}

impl Model for Name {
    ghost use Rattle.std.specs.Prelude.{List, ℕ};

    ghost Value = { List ℕ };

    ghost use Rattle.ots_model.specs.NameInside.{shown, padded, IsPadded, padded-shown};

    ghost view = { shown };

    ghost invariant = { IsPadded };

    ghost inverse = { padded };

    ghost inverse_ok = { padded-shown };
}

impl Name {
    /// The name that these octets spell, where they are a name.
    pub fn new(octets: &[u8]) -> Option<Name>
        ensures found { IfSome result (λ name. (name ≡ octets.now) × IsName octets.now) }
        ensures none { IfNone result (¬ (IsName octets.now)) }
    {
        if !is_name(octets) {
            return None;
        }
        let mut padded = [0u8; NAME_LIMIT];
        padded[..octets.len()].copy_from_slice(octets);
        Some(Name {
            octets: padded,
            length: octets.len() as u8,
        })
    }

    /// The octets of the name.
    pub fn octets(&self) -> &[u8]
        ensures octets { result.now ≡ self.now }
        ensures name { IsName self.now }
    {
        &self.octets[..self.length as usize]
    }

    /// The octets of the name, and zeros behind them.
    pub(crate) fn padded(&self) -> &[u8; NAME_LIMIT]
        ensures { result.now ≡ self.now ++ replicate (name_limit - length self.now) 0 }
    {
        &self.octets
    }
}

fn is_name(octets: &[u8]) -> bool
    ensures { IsTrue result ↔ IsName octets.now }
{
    match octets {
        [] => false,
        [first, others @ ..] => {
            first.is_ascii_lowercase() && others.len() < NAME_LIMIT && are_name_octets(others)
        }
    }
}

fn are_name_octets(octets: &[u8]) -> bool
    ensures { result ≡ list_all is_name_octet octets.now }
{
    octets
        .iter()
        .all(|b| matches!(*b, b'a'..=b'z' | b'0'..=b'9'))
}
