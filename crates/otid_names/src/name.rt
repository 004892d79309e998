ghost use Rattle.std.specs.Prelude.{◌≡◌, IfOk};
ghost use Rattle.otid_names.specs.Otid.{global};
ghost use Rattle.std.specs.List.{fold};
ghost use Rattle.otid_names.specs.Own.{own};
ghost use Rattle.otid_names.specs.Name.{own_words, foreign_words, dotted, name, hash, hashed};

use crate::otid::{Otid, OwnNumbers, own_tid};
use ots_model::Octets;
use std::alloc::{AllocError, Global};

/// The name of the transaction (`get_transaction_name` of Coordinator). Of our own otids that is the four numbers in
/// decimal, joined by dots; of a foreign one the formatID in decimal, a dot, and the tid in hexadecimal.
pub fn name_of(alloc: Global, o: &Otid) -> Result<Octets, AllocError>
    ensures { IfOk result (λ octets. octets ≡ name o.now) }
{
    let text = match o.own_numbers() {
        Some(numbers) => own_text(alloc, numbers)?,
        None => foreign_text(alloc, o)?,
    };
    Ok(Octets::from_vec(text))
}

fn own_text(alloc: Global, numbers: OwnNumbers) -> Result<Vec<u8>, AllocError>
    ensures { IfOk result (λ text. text.items ≡ dotted (own_words numbers)) }
{
    let OwnNumbers {
        service,
        life,
        generation,
        branch,
    } = numbers;
    let text = format!(in alloc; "{service}.{life}.{generation}.{branch}")?;
    Ok(text.into_bytes())
}

fn foreign_text(alloc: Global, o: &Otid) -> Result<Vec<u8>, AllocError>
    ensures { IfOk result (λ text. text.items ≡ dotted (foreign_words o.now)) }
{
    let format = o.format();
    let digits = hex::encode(alloc, o.tid())?;
    let text = format!(in alloc; "{format}.{digits}")?;
    Ok(text.into_bytes())
}

/// The hash of the transaction, over its tid (`hash_transaction` of Coordinator; of the top-level transaction's otid
/// `hash_top_level_tran`).
pub fn hash_of(o: &Otid) -> u32
    ensures { result ≡ hash o.now }
{
    hash_octets(o.tid())
}

/// The hash of our own otid of these numbers. It needs no memory.
pub fn own_hash(numbers: &OwnNumbers) -> u32
    ensures { result ≡ hash (own numbers.now) }
{
    hash_octets(&own_tid(numbers))
}

/// The hash of the octets of a tid.
fn hash_octets(tid: &[u8]) -> u32
    ensures { result ≡ fold hashed 0 tid.now }
{
    tid.iter().fold(
        0,
        |hash: u32, octet| hash.wrapping_mul(31).wrapping_add(u32::from(*octet)),
    )
}

/// The global transaction identifier: the tid without the branch qualifier.
pub fn global_part(o: &Otid) -> &[u8]
    ensures { result.now ≡ global o.now }
{
    let tid = o.tid();
    &tid[..tid.len() - o.bqual() as usize]
}
