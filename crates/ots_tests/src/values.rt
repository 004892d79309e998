//! One value of each type, beside octets that were worked out by hand.

use cdr_values::{CdrFault, Order, Reader, Writer};
use ots_model::Octets;
use std::alloc::Global;
use std::test::Fail;

/// An encapsulation of the values that `written` writes.
const BIG: [u8; 40] = [
    0, 7, 1, 2, 1, 0, 0, 0, 1, 2, 3, 4, 0, 0, 0, 3, b'h', b'i', 0, 0, 0, 0, 0, 2, 170, 187, 0, 0,
    0, 0, 0, 0, 1, 2, 3, 4, 5, 6, 7, 8,
];

const LITTLE: [u8; 40] = [
    1, 7, 2, 1, 1, 0, 0, 0, 4, 3, 2, 1, 3, 0, 0, 0, b'h', b'i', 0, 0, 2, 0, 0, 0, 170, 187, 0, 0,
    0, 0, 0, 0, 8, 7, 6, 5, 4, 3, 2, 1,
];

fn written(alloc: Global, order: Order) -> Result<Octets, CdrFault> {
    let mut writer = Writer::encapsulation(alloc, order)?;
    write_all(&mut writer)?;
    Ok(writer.finish())
}

fn write_all(writer: &mut Writer) -> Result<(), CdrFault> {
    writer.octet(7)?;
    writer.ushort(0x0102)?;
    writer.boolean(true)?;
    writer.ulong(0x0102_0304)?;
    writer.string(b"hi")?;
    writer.octets(&[170, 187])?;
    writer.align(8)?;
    writer.ulonglong(0x0102_0304_0506_0708)
}

/// What is read of such an encapsulation.
type Values<'a> = (u8, u16, bool, u32, &'a [u8], &'a [u8], u64);

fn read(octets: &[u8; 40]) -> Result<Values<'_>, CdrFault> {
    let mut reader = Reader::encapsulation(octets)?;
    Ok((
        reader.octet()?,
        reader.ushort()?,
        reader.boolean()?,
        reader.ulong()?,
        reader.string()?,
        reader.octets()?,
        reader.ulonglong()?,
    ))
}

#[test]
fn each_type_is_written_and_read(rt: HostRuntime) -> Result<(), Fail> {
    let values: Values = (
        7,
        0x0102,
        true,
        0x0102_0304,
        b"hi",
        &[170, 187],
        0x0102_0304_0506_0708,
    );
    for (order, octets) in [(Order::Big, &BIG), (Order::Little, &LITTLE)] {
        assert!(rt; written(rt.alloc(), order)?.bytes() == octets.as_slice());
        assert!(rt; read(octets)? == values);
    }
    Ok(())
}
