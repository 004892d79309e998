ghost use Rattle.std.specs.Prelude.{◌≡◌, ◌≤◌, ◌^◌, ◌<◌, ◌↔◌, ◌++◌, length, IsOk, IfOk, IsErrOf, SomeIff};
ghost use Rattle.byteorder.specs.Endian.{big_bytes, big_number};
ghost use Rattle.otid_names.specs.Limits.{own_length};
ghost use Rattle.otid_names.specs.Otid.{HasLengths, IsOtid};
ghost use Rattle.otid_names.specs.Own.{is_own, IsOwn, own, tid_of, numbers_in};

use byteorder::{BigEndian, ByteOrder};
use ots_model::Octets;
use std::alloc::{AllocError, Global};
use std::marker::Model;

/// How many octets a tid has at most (our profile).
pub const TID_LIMIT: usize = 128;

/// The formatID of our own otids (our profile).
const OWN_FORMAT: i32 = 1_330_926_385;

/// How many octets the tid of our own otids has (our profile).
const OWN_LENGTH: usize = 24;

/// How many octets the branch qualifier of our own otids has (our profile).
const OWN_BQUAL: u32 = 4;

/// Why no otid was made.
#[derive(Clone, Copy, Debug, PartialEq, Eq)]
pub enum OtidFault {
    /// The tid has no octets or too many, or the branch qualifier is longer than the tid.
    BadLength,
    /// Memory ran out.
    Memory,
}

/// The four numbers of which our own otids are made (our profile).
#[derive(Clone, Copy, Debug, PartialEq, Eq)]
pub struct OwnNumbers {
    /// The service that made the transaction.
    pub service: u64,
    /// The life of the service.
    pub life: u32,
    /// The generation of the transaction, within that life.
    pub generation: u64,
    /// The branch.
    pub branch: u32,
}

/// The identifier of a transaction (`otid_t` of module CosTransactions). Its tid has 1 to 128 octets: the global
/// transaction identifier, and behind it the branch qualifier. Contracts see it as its three fields.
#[derive(Drop)]
pub struct Otid {
    format: i32,
    bqual: u32,
    tid: Octets,
}

impl Model for Otid {
    ghost use Rattle.otid_names.specs.Otid.{OtidParts, IsOtid};

    ghost Value = { OtidParts };

    ghost view = { λ o. record { format = o.format; bqual = o.bqual; tid = o.tid } };

    ghost invariant = { λ o. IsOtid (record { format = o.format; bqual = o.bqual; tid = o.tid }) };
}

impl Otid {
    /// The otid with these fields, of which `bqual` is the length of the branch qualifier.
    pub fn new(alloc: Global, format: i32, bqual: u32, tid: &[u8]) -> Result<Otid, OtidFault>
        ensures fields { IfOk result (λ o. o ≡ record { format = format; bqual = bqual; tid = tid.now }) }
        ensures lengths { IsOk result → HasLengths bqual tid.now }
        ensures bad_length { IsErrOf result OtidFault.BadLength ↔ ¬ (HasLengths bqual tid.now) }
    {
        let length = tid.len();
        if length == 0 || length > TID_LIMIT || bqual as usize > length {
            return Err(OtidFault::BadLength);
        }
        match Octets::new(alloc, tid) {
            Ok(tid) => Ok(Otid { format, bqual, tid }),
            Err(_) => Err(OtidFault::Memory),
        }
    }

    /// Our own otid of these four numbers.
    pub fn own(alloc: Global, numbers: &OwnNumbers) -> Result<Otid, AllocError>
        ensures made { IfOk result (λ o. o ≡ own numbers.now) }
    {
        Ok(Otid {
            format: OWN_FORMAT,
            bqual: OWN_BQUAL,
            tid: Octets::new(alloc, &own_tid(numbers))?,
        })
    }

    /// Its formatID.
    pub fn format(&self) -> i32
        ensures { result ≡ self.now.format }
    {
        self.format
    }

    /// Its bqual_length: how many octets the branch qualifier has.
    pub fn bqual(&self) -> u32
        ensures { result ≡ self.now.bqual }
    {
        self.bqual
    }

    /// Its tid.
    pub fn tid(&self) -> &[u8]
        ensures tid { result.now ≡ self.now.tid }
        ensures otid { IsOtid self.now }
    {
        self.tid.bytes()
    }

    /// Whether it is one of our own.
    pub fn is_own(&self) -> bool
        ensures { result ≡ is_own self.now }
    {
        self.format == OWN_FORMAT && self.tid.bytes().len() == OWN_LENGTH && self.bqual == OWN_BQUAL
    }

    /// Its four numbers, where it is one of our own.
    pub fn own_numbers(&self) -> Option<OwnNumbers>
        ensures { SomeIff result (IsOwn self.now) (numbers_in self.now.tid) }
    {
        if self.is_own() {
            Some(numbers_in(self.tid()))
        } else {
            None
        }
    }
}

/// The four numbers of the tid of one of our own otids.
fn numbers_in(tid: &[u8]) -> OwnNumbers
    requires { length tid.now ≡ own_length }
    ensures { result ≡ numbers_in tid.now }
{
    OwnNumbers {
        service: BigEndian::read_u64(tid),
        life: BigEndian::read_u32(&tid[8..]),
        generation: BigEndian::read_u64(&tid[12..]),
        branch: BigEndian::read_u32(&tid[20..]),
    }
}

/// The tid of our own otid of these four numbers.
pub(crate) fn own_tid(numbers: &OwnNumbers) -> [u8; OWN_LENGTH]
    ensures { result ≡ tid_of numbers.now }
{
    let mut tid = [0u8; OWN_LENGTH];
    BigEndian::write_u64(&mut tid[..8], numbers.service);
    BigEndian::write_u32(&mut tid[8..12], numbers.life);
    BigEndian::write_u64(&mut tid[12..20], numbers.generation);
    BigEndian::write_u32(&mut tid[20..], numbers.branch);
    tid
}
