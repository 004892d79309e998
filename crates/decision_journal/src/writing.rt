ghost use Rattle.std.specs.Prelude.{◌≡◌, ℕ, ◌∷◌, ◌++◌, ◌+◌, ◌*◌, ◌<◌, ◌≤◌, ◌^◌, [], Option, List, length, vec_capacity};
ghost use Rattle.std.specs.List.{concat};
ghost use Rattle.decision_journal.specs.Layout.{
  Fits,
  Fits16,
  end_number,
  fields,
  flag,
  key,
  kind,
  put,
  puts,
  record_octets,
  reference,
  registration,
  registrations,
  one,
  two,
  four,
  eight,
};

use crate::record::{CellsEnd, JournalRecord, Put, Puts, Registration, Registrations};
use crate::scan::OPEN;
use ots_model::{RefBytes, RetryKey};

/// Puts octets behind the others, where there is room for them.
pub(crate) fn put_octets(out: &mut Vec<u8>, octets: &[u8])
    requires { length out.old.items + length octets.now ≤ vec_capacity out.old }
    ensures items { out.new.items ≡ out.old.items ++ octets.now }
    ensures room { vec_capacity out.old ≤ vec_capacity out.new }
{
    // There is room, so this isn't refused.
    let _put = out.extend_from_slice(octets);
}

fn put_u8(out: &mut Vec<u8>, number: u8)
    requires { length out.old.items + 1 ≤ vec_capacity out.old }
    ensures items { out.new.items ≡ out.old.items ++ one number }
    ensures room { vec_capacity out.old ≤ vec_capacity out.new }
{
    out.push_reserved(number);
}

fn put_u16(out: &mut Vec<u8>, number: u16)
    requires { length out.old.items + 2 ≤ vec_capacity out.old }
    ensures items { out.new.items ≡ out.old.items ++ two number }
    ensures room { vec_capacity out.old ≤ vec_capacity out.new }
{
    put_octets(out, &number.to_be_bytes());
}

fn put_u32(out: &mut Vec<u8>, number: u32)
    requires { length out.old.items + 4 ≤ vec_capacity out.old }
    ensures items { out.new.items ≡ out.old.items ++ four number }
    ensures room { vec_capacity out.old ≤ vec_capacity out.new }
{
    put_octets(out, &number.to_be_bytes());
}

fn put_u64(out: &mut Vec<u8>, number: u64)
    requires { length out.old.items + 8 ≤ vec_capacity out.old }
    ensures items { out.new.items ≡ out.old.items ++ eight number }
    ensures room { vec_capacity out.old ≤ vec_capacity out.new }
{
    put_octets(out, &number.to_be_bytes());
}

fn put_reference(out: &mut Vec<u8>, octets: &RefBytes)
    requires { length out.old.items + (2 + length octets.now) ≤ vec_capacity out.old }
    ensures items { out.new.items ≡ out.old.items ++ reference octets.now }
    ensures room { vec_capacity out.old ≤ vec_capacity out.new }
{
    let octets = octets.bytes();
    put_u16(out, octets.len() as u16);
    put_octets(out, octets);
}

fn put_registration(out: &mut Vec<u8>, item: &Registration)
    requires { length out.old.items + length (registration item.now) ≤ vec_capacity out.old }
    ensures items { out.new.items ≡ out.old.items ++ registration item.now }
    ensures room { vec_capacity out.old ≤ vec_capacity out.new }
{
    put_u32(out, item.index);
    put_reference(out, &item.reference);
}

fn put_registrations(out: &mut Vec<u8>, items: &Registrations)
    requires few { Fits16 (length items.now) }
    requires room { length out.old.items + length (registrations items.now) ≤ vec_capacity out.old }
    ensures items { out.new.items ≡ out.old.items ++ registrations items.now }
    ensures room { vec_capacity out.old ≤ vec_capacity out.new }
{
    let items = items.items();
    put_u16(out, items.len() as u16);
    for item in items {
        put_registration(out, item);
    }
}

fn put_put(out: &mut Vec<u8>, item: Put)
    requires { length out.old.items + 16 ≤ vec_capacity out.old }
    ensures items { out.new.items ≡ out.old.items ++ put item }
    ensures room { vec_capacity out.old ≤ vec_capacity out.new }
{
    put_u64(out, item.cell);
    put_u64(out, item.value);
}

fn put_puts(out: &mut Vec<u8>, items: &Puts)
    requires few { Fits16 (length items.now) }
    requires room { length out.old.items + (2 + 16 * length items.now) ≤ vec_capacity out.old }
    ensures items { out.new.items ≡ out.old.items ++ puts items.now }
    ensures room { vec_capacity out.old ≤ vec_capacity out.new }
{
    let items = items.items();
    put_u16(out, items.len() as u16);
    for item in items {
        put_put(out, *item);
    }
}

/// Puts a flag, a client and a number. Without a key all are 0.
fn put_key(out: &mut Vec<u8>, of: Option<RetryKey>)
    requires { length out.old.items + 17 ≤ vec_capacity out.old }
    ensures items { out.new.items ≡ out.old.items ++ key of }
    ensures room { vec_capacity out.old ≤ vec_capacity out.new }
{
    match of {
        Some(RetryKey { client, number }) => {
            put_u8(out, 1);
            put_u64(out, client);
            put_u64(out, number);
        }
        None => {
            put_u8(out, 0);
            put_u64(out, 0);
            put_u64(out, 0);
        }
    }
}

/// The number of a flag.
fn flag_of(asked: bool) -> u8
    ensures { result ≡ flag asked }
{
    if asked { 1 } else { 0 }
}

/// The number of an end.
fn number_of(end: CellsEnd) -> u8
    ensures { result ≡ end_number end }
{
    match end {
        CellsEnd::Applied => 1,
        CellsEnd::Undone => 2,
        CellsEnd::ChoseCommit => 3,
        CellsEnd::ChoseRollback => 4,
        CellsEnd::Forgotten => 5,
    }
}

fn put_tree(out: &mut Vec<u8>, life: u32, slot: u32, generation: u64)
    requires { length out.old.items + 16 ≤ vec_capacity out.old }
    ensures items { out.new.items ≡ out.old.items ++ (four life ++ (four slot ++ eight generation)) }
    ensures room { vec_capacity out.old ≤ vec_capacity out.new }
{
    put_u32(out, life);
    put_u32(out, slot);
    put_u64(out, generation);
}

fn put_fields(out: &mut Vec<u8>, item: &JournalRecord)
    requires fits { Fits item.now }
    requires room { length out.old.items + length (concat (fields item.now)) ≤ vec_capacity out.old }
    ensures items { out.new.items ≡ out.old.items ++ concat (fields item.now) }
    ensures room { vec_capacity out.old ≤ vec_capacity out.new }
{
    match item {
        JournalRecord::Life(life) => put_u32(out, *life),
        JournalRecord::Decision(life, slot, generation, key, asked, items) => {
            put_tree(out, *life, *slot, *generation);
            put_key(out, *key);
            put_u8(out, flag_of(*asked));
            put_registrations(out, items);
        }
        JournalRecord::Done(place) => put_u32(out, *place),
        JournalRecord::Prepared(life, slot, generation, recovery, items) => {
            put_tree(out, *life, *slot, *generation);
            put_reference(out, recovery);
            put_registrations(out, items);
        }
        JournalRecord::CellsPrepared(life, number, recovery, items) => {
            put_u32(out, *life);
            put_u64(out, *number);
            put_reference(out, recovery);
            put_puts(out, items);
        }
        JournalRecord::CellsOutcome(place, end) => {
            put_u32(out, *place);
            put_u8(out, number_of(*end));
        }
        JournalRecord::CellsOnePhase(life, number, items) => {
            put_u32(out, *life);
            put_u64(out, *number);
            put_puts(out, items);
        }
    }
}

fn kind_of(item: &JournalRecord) -> u8
    ensures { result ≡ kind item.now }
{
    match item {
        JournalRecord::Life(..) => 1,
        JournalRecord::Decision(..) => 2,
        JournalRecord::Done(..) => 3,
        JournalRecord::Prepared(..) => 4,
        JournalRecord::CellsPrepared(..) => 5,
        JournalRecord::CellsOutcome(..) => 6,
        JournalRecord::CellsOnePhase(..) => 7,
    }
}

/// Puts a record with an open gate behind the octets of a journal. There is room for it.
pub(crate) fn put_record(out: &mut Vec<u8>, item: &JournalRecord)
    requires fits { Fits item.now }
    requires room { length out.old.items + length (record_octets item.now) ≤ vec_capacity out.old }
    ensures items { out.new.items ≡ out.old.items ++ record_octets item.now }
    ensures room { vec_capacity out.old ≤ vec_capacity out.new }
{
    put_u8(out, OPEN);
    put_u32(out, (length_of(item) - 5) as u32);
    put_u8(out, kind_of(item));
    put_fields(out, item);
}

/// How many octets some registrations take.
fn length_of_registrations(items: &[Registration]) -> usize
    requires { Fits16 (length items.now) }
    ensures length { result ≡ length (registrations items.now) }
    ensures small { result < 2 ^ 31 }
{
    let mut total = 2;
    for item in items {
        total += 6 + item.reference.bytes().len();
    }
    total
}

/// How many octets a record takes, its gate among them.
pub(crate) fn length_of(item: &JournalRecord) -> usize
    requires { Fits item.now }
    ensures length { result ≡ length (record_octets item.now) }
    ensures small { result < 2 ^ 32 }
{
    match item {
        JournalRecord::Life(..) | JournalRecord::Done(..) => 10,
        JournalRecord::Decision(_, _, _, _, _, items) => 40
            + length_of_registrations(items.items()),
        JournalRecord::Prepared(_, _, _, recovery, items) => {
            24 + recovery.bytes().len() + length_of_registrations(items.items())
        }
        JournalRecord::CellsPrepared(_, _, recovery, items) => {
            22 + recovery.bytes().len() + 16 * items.items().len()
        }
        JournalRecord::CellsOutcome(..) => 11,
        JournalRecord::CellsOnePhase(_, _, items) => 20 + 16 * items.items().len(),
    }
}
