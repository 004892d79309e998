ghost use Rattle.std.specs.Prelude.{◌≡◌, length, IfOk};
ghost use Rattle.std.specs.List.{flat_map};
ghost use Rattle.cdr_values.specs.Again.{AllFit};
ghost use Rattle.cdr_values.specs.Sequence.{each_at, sequence_values};
ghost use Rattle.cdr_values.specs.Tagged.{tagged_at, tagged_values};
ghost use Rattle.ior_refs.specs.Fault.{fault_of, Gives};
ghost use Rattle.ior_refs.specs.Iiop.{passed};
ghost use Rattle.ior_refs.specs.Reading.{count_at, each_tagged_at};
ghost use Rattle.ior_refs.specs.Writing.{WritesAll};

use crate::fault::IorFault;
use cdr_values::{CdrFault, Reader, Writer, elements_are_read_in_a_loop};
use ots_model::Octets;
use std::alloc::Global;

/// How many profiles or components are read at most (our profile).
const COUNT_LIMIT: u32 = 65_536;

/// Reads how many profiles or components there are.
#[tactic(auto, unfolding(crate::specs::Reading::count_at))]
fn read_count(reader: &mut Reader) -> Result<u32, IorFault>
    ensures { Gives (λ count. count) result reader.new (count_at reader.old) }
{
    let place = reader.place();
    let count = reader.ulong()?;
    if count > COUNT_LIMIT {
        return Err(IorFault::Cdr(CdrFault::TooLong {
            place,
            length: count,
        }));
    }
    Ok(count)
}

/// Reads the profiles of a reference, or the components of a profile.
pub fn read_all_tagged(alloc: Global, reader: &mut Reader) -> Result<Vec<(u32, Octets)>, IorFault>
    ensures exact { Gives (λ all. all.items) result reader.new (each_tagged_at reader.old) }
    ensures fits { IfOk result (λ all. AllFit (sequence_values tagged_values all.items)) }
{
    let count = read_count(reader)?;
    read_each_tagged(alloc, reader, count)
}

fn read_each_tagged(
    alloc: Global,
    reader: &mut Reader,
    count: u32,
) -> Result<Vec<(u32, Octets)>, IorFault>
    ensures exact { Gives (λ all. all.items) result reader.new (each_at (tagged_at fault_of) count reader.old) }
    ensures fits { IfOk result (λ all. AllFit (flat_map tagged_values all.items)) }
    ensures count { IfOk result (λ all. length all.items ≡ count) }
{
    elements_are_read_in_a_loop::<(u32, Octets), IorFault>();
    let mut all = Vec::new(alloc);
    for _ in 0..count {
        all.push(read_tagged(alloc, reader)?)?;
    }
    Ok(all)
}

#[tactic(auto, unfolding(cdr_values::specs::Tagged::tagged_at))]
fn read_tagged(alloc: Global, reader: &mut Reader) -> Result<(u32, Octets), IorFault>
    ensures exact { Gives (λ tagged. tagged) result reader.new (tagged_at fault_of reader.old) }
    ensures fits { IfOk result (λ tagged. AllFit (tagged_values tagged)) }
{
    let tag = reader.ulong()?;
    let octets = Octets::new(alloc, reader.octets()?)?;
    Ok((tag, octets))
}

/// Passes over the components of a profile. It takes no memory.
pub fn skip_all_tagged(reader: &mut Reader) -> Result<(), IorFault>
    ensures { Gives (λ nothing. nothing) result reader.new (passed (each_tagged_at reader.old)) }
{
    let count = read_count(reader)?;
    skip_each_tagged(reader, count)
}

fn skip_each_tagged(reader: &mut Reader, count: u32) -> Result<(), IorFault>
    ensures { Gives (λ nothing. nothing) result reader.new
        (passed (each_at (tagged_at fault_of) count reader.old)) }
{
    for _ in 0..count {
        skip_tagged(reader)?;
    }
    Ok(())
}

#[tactic(auto, unfolding(cdr_values::specs::Tagged::tagged_at))]
fn skip_tagged(reader: &mut Reader) -> Result<(), IorFault>
    ensures { Gives (λ nothing. nothing) result reader.new (passed (tagged_at fault_of reader.old)) }
{
    reader.ulong()?;
    reader.octets()?;
    Ok(())
}

/// Writes profiles or components.
pub fn write_all_tagged(writer: &mut Writer, all: &[(u32, Octets)]) -> Result<(), CdrFault>
    requires { AllFit (sequence_values tagged_values all.now) }
    ensures { WritesAll (sequence_values tagged_values all.now) result writer.old writer.new }
{
    writer.ulong(all.len() as u32)?;
    write_each_tagged(writer, all)
}

fn write_each_tagged(writer: &mut Writer, all: &[(u32, Octets)]) -> Result<(), CdrFault>
    requires { AllFit (flat_map tagged_values all.now) }
    ensures { WritesAll (flat_map tagged_values all.now) result writer.old writer.new }
{
    for tagged in all {
        write_tagged(writer, tagged)?;
    }
    Ok(())
}

fn write_tagged(writer: &mut Writer, tagged: &(u32, Octets)) -> Result<(), CdrFault>
    requires { AllFit (tagged_values tagged.now) }
    ensures { WritesAll (tagged_values tagged.now) result writer.old writer.new }
{
    writer.ulong(tagged.0)?;
    writer.octets(tagged.1.bytes())
}
