ghost use Rattle.std.specs.Prelude.{◌≡◌, ◌^◌, ◌<◌, length, IfOk};
ghost use Rattle.ior_refs.specs.Fault.{Finds};
ghost use Rattle.ior_refs.specs.Text.{TellsForm, agreeing, digits_in_front, encapsulated, octets_in_text, prefix, reference_in_octets, reference_in_text, text_of};

use crate::fault::IorFault;
use crate::reference::{ObjectRef, read_whole, write_ref};
use cdr_values::{CdrFault, Order, Reader, Writer};
use ots_model::Octets;
use std::alloc::{AllocError, Global};

const PREFIX: &[u8; 4] = b"IOR:";

/// The reference of a text: "IOR:" and the hexadecimal digits, of either case, of an encapsulation (string_to_object).
/// The text is judged first, from its front on and without memory, and then the octets of its digits. Their offsets
/// count from the encapsulation's first octet.
#[tactic(auto, unfolding(crate::specs::Text::reference_in_text))]
pub fn parse_ior(alloc: Global, text: &[u8]) -> Result<ObjectRef, IorFault>
    requires { length text.now < 2 ^ 31 }
    ensures exact { Finds (λ o. o) result (reference_in_text text.now) }
    ensures form { TellsForm text.now result }
{
    let octets = text_octets(alloc, text)?;
    reference_of(alloc, octets.as_slice())
}

/// The text of a reference: big endian, with digits in lower case (object_to_string).
pub fn print_ior(alloc: Global, o: &ObjectRef) -> Result<Octets, AllocError>
    ensures { IfOk result (λ text. text ≡ text_of o.now) }
{
    let octets = encapsulated(alloc, o).map_err(|_| AllocError)?;
    let mut text = PREFIX.to_vec(alloc)?;
    let digits = hex::encode(alloc, octets.bytes())?;
    text.extend_from_slice(digits.as_bytes())?;
    Ok(Octets::from_vec(text))
}

/// The octets of a reference as a big endian encapsulation.
#[tactic(auto, unfolding(crate::specs::Text::encapsulated))]
fn encapsulated(alloc: Global, o: &ObjectRef) -> Result<Octets, CdrFault>
    ensures { IfOk result (λ octets. octets ≡ encapsulated o.now) }
{
    let mut writer = Writer::encapsulation(alloc, Order::Big)?;
    write_ref(&mut writer, o)?;
    Ok(writer.finish())
}

/// The octets of a text's digits.
#[tactic(auto, unfolding(crate::specs::Text::octets_in_text))]
fn text_octets(alloc: Global, text: &[u8]) -> Result<Vec<u8>, IorFault>
    requires { length text.now < 2 ^ 31 }
    ensures exact { Finds (λ octets. octets.items) result (octets_in_text text.now) }
    ensures form { TellsForm text.now result }
    ensures short { IfOk result (λ octets. length octets.items < 2 ^ 31) }
{
    let front = agreeing_front(text);
    if front < PREFIX.len() {
        return Err(IorFault::BadText(front as u32));
    }
    let digits = &text[PREFIX.len()..];
    let good = digits_in_front(digits);
    if good < digits.len() || digits.len() % 2 == 1 {
        return Err(IorFault::BadText((PREFIX.len() + good) as u32));
    }
    match hex::decode(alloc, digits) {
        Ok(octets) => Ok(octets),
        Err(_) => Err(IorFault::Memory),
    }
}

/// How many octets of the text are as the prefix has them, before one that isn't.
fn agreeing_front(text: &[u8]) -> usize
    ensures { result ≡ agreeing prefix text.now }
{
    PREFIX
        .iter()
        .zip(text)
        .take_while(|(wanted, found)| wanted == found)
        .count()
}

/// How many digits stand in front of the first octet that is none.
fn digits_in_front(digits: &[u8]) -> usize
    ensures { result ≡ digits_in_front digits.now }
{
    digits
        .iter()
        .take_while(|digit| digit.is_ascii_hexdigit())
        .count()
}

/// The reference of an encapsulation's octets.
#[tactic(auto, unfolding(crate::specs::Text::reference_in_octets))]
fn reference_of(alloc: Global, octets: &[u8]) -> Result<ObjectRef, IorFault>
    requires { length octets.now < 2 ^ 31 }
    ensures { Finds (λ o. o) result (reference_in_octets octets.now) }
{
    let mut reader = Reader::encapsulation(octets)?;
    read_whole(alloc, &mut reader)
}
