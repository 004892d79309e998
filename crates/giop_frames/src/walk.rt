ghost use Rattle.std.specs.Prelude.{◌≡◌, ◌+◌, ◌<◌, ◌≤◌, ℕ, List, [], length, take, IfErr, IsOk, OnOk, None, Some, Ok, Err};
ghost use Rattle.cdr_values.specs.Reading.{octets_at, string_at};
ghost use Rattle.cdr_values.specs.Value.{number_in};
ghost use Rattle.giop_frames.specs.Limits.{context_limit, size_limit};
ghost use Rattle.giop_frames.specs.Layout.{Fields, layout};
ghost use Rattle.giop_frames.specs.Walk.{HasRoom, IsAsFar, IsDone, IsWalked, MakesStep, ReadsSpan, ReadsTagged, StandsBefore, fields_by, place_behind_id};

use crate::fault::{CONTEXT_LIMIT, FrameFault, KEY_LIMIT, PROFILE_LIMIT, too_long};
use crate::found::{Found, FoundContext, FoundTarget, Span};
use crate::header::{HEADER_LENGTH, Header, behind};
use crate::layout::{Field, KEY_ADDR, PROFILE_ADDR, REFERENCE_ADDR, layout};
use cdr_values::{CdrFault, Reader, reading_is_exact};

/// What comes next of a field.
#[derive(Clone, Copy)]
pub enum Step {
    /// The field from its front.
    Front(Field),
    /// The object key of a target.
    Key,
    /// The profile of a target.
    Profile,
    /// The index of a target, and the reference behind it.
    Index,
    /// The reference of a target.
    TypeId,
    /// The count of a reference's profiles, and the profiles.
    Count,
    /// So many profiles of a reference.
    Profiles(u32),
    /// So many service contexts.
    Contexts(u32),
}

/// A walk over the fields of a message, as its octets come: what comes next, at which offset, and what was found in
/// front of it. It takes no memory. Where octets were wanting, it goes on with the step that wanted them.
#[derive(Clone, Copy)]
pub struct Walk {
    /// What comes next of a field that isn't whole.
    pub(crate) step: Option<Step>,
    /// The fields behind it.
    pub(crate) fields: &'static [Field],
    /// The offset at which it stands.
    pub(crate) place: u32,
    pub(crate) found: Found,
}

impl Walk {
    /// A walk at the front of a message whose first part has this header.
    pub fn new(header: Header) -> Walk
        ensures walked { (content : List ℕ) → IsWalked header content result }
        ensures far { IsAsFar header [] result }
    {
        Walk {
            step: None,
            fields: layout(header.version, header.kind),
            place: HEADER_LENGTH as u32,
            found: Found::nothing(),
        }
    }

    /// A walk behind the request_id with which the content of a message begins that has one; else at the front.
    pub fn behind_id(header: Header, id: u32) -> Walk
        ensures walked { (content : List ℕ) → 4 ≤ length content → id ≡ number_in header.order 4 (take 4 content)
            → IsWalked header content result }
        ensures place { result.place ≡ place_behind_id (layout header.version header.kind) }
    {
        let mut walk = Walk::new(header);
        walk.begin_behind_id(header, id);
        walk
    }

    /// Begins anew, with another message, as a walk does behind the request_id. So the walk of a message that has ended
    /// serves for the next one.
    pub fn begin_behind_id(&mut self, header: Header, id: u32)
        ensures walked { (content : List ℕ) → 4 ≤ length content → id ≡ number_in header.order 4 (take 4 content)
            → IsWalked header content self.new }
        ensures place { self.new.place ≡ place_behind_id (layout header.version header.kind) }
    {
        // The fields of each message that has some begin with it.
        let [_, others @ ..] = layout(header.version, header.kind) else {
            *self = Walk::new(header);
            return;
        };
        self.step = None;
        self.fields = others;
        self.place = HEADER_LENGTH as u32 + 4;
        self.found.forget();
        self.found.id = id;
    }

    /// Goes on over the fields that stand in the content, up to their end or to the first fault, as want of octets is
    /// one. It then stands behind what was whole, and never further in front than before.
    pub fn go_on(&mut self, header: Header, content: &[u8]) -> Result<(), FrameFault>
        requires short { length content.now ≤ size_limit }
        requires walked { IsWalked header content.now self.old }
        ensures walked { IsWalked header content.now self.new }
        ensures far { IsAsFar header content.now self.new }
        ensures forward { self.old.place ≤ self.new.place }
        ensures done { OnOk result (IsDone self.new) }
        ensures whole { OnOk result (IsOk (fields_by header content.now)) }
        ensures fault { IfErr result (λ fault. fields_by header content.now ≡ Err fault) }
    {
        let start = self.place as usize - HEADER_LENGTH;
        let reader = &mut Reader::new(behind(content, start), header.order, self.place);
        'fields: while let Some(step) = self.next_step() {
            self.step = make_step(reader, &mut self.found, step)?;
            self.place = reader.place();
        }
        Ok(())
    }

    /// The next step, where one is left.
    fn next_step(&mut self) -> Option<Step>
        ensures { StandsBefore self.old result self.new }
    {
        if let Some(step) = self.step {
            return Some(step);
        }
        let [field, others @ ..] = self.fields else {
            return None;
        };
        let step = Some(Step::Front(*field));
        self.step = step;
        self.fields = others;
        step
    }
}

/// Makes a step, and tells what then comes of the field.
#[tactic(auto, unfolding(crate::specs::Walk::step_at))]
fn make_step(reader: &mut Reader, found: &mut Found, step: Step) -> Result<Option<Step>, FrameFault>
    requires { HasRoom (Some step) found.old }
    ensures { MakesStep step found.old reader.old result found.new reader.new }
{
    match step {
        Step::Front(field) => begin_field(reader, found, field),
        Step::Key => pass_key(reader, found),
        Step::Profile => pass_only_profile(reader, found),
        Step::Index => pass_index(reader),
        Step::TypeId => pass_type_id(reader),
        Step::Count => pass_count(reader),
        Step::Profiles(left) => pass_profiles(reader, found, left),
        Step::Contexts(left) => pass_context(reader, found, left),
    }
}

/// Begins a field, which then may be whole.
#[tactic(auto, unfolding(crate::specs::Walk::step_at, crate::specs::Content::field_at))]
fn begin_field(
    reader: &mut Reader,
    found: &mut Found,
    field: Field,
) -> Result<Option<Step>, FrameFault>
    ensures { MakesStep (Step.Front field) found.old reader.old result found.new reader.new }
{
    reading_is_exact();
    match field {
        Field::Id => {
            found.id = reader.ulong()?;
            Ok(None)
        }
        Field::Flags => {
            found.flags = reader.octet()?;
            Ok(None)
        }
        Field::Reserved => {
            reader.octet()?;
            Ok(None)
        }
        Field::Status => {
            found.status = reader.ulong()?;
            Ok(None)
        }
        Field::Target => begin_target(reader),
        Field::Operation => {
            found.operation = read_string(reader)?;
            Ok(None)
        }
        Field::Contexts => begin_contexts(reader, found),
    }
}

/// Passes over the number that tells which target follows.
#[tactic(auto, unfolding(crate::specs::Walk::step_at, crate::specs::Content::field_at, crate::specs::Content::target_at))]
fn begin_target(reader: &mut Reader) -> Result<Option<Step>, FrameFault>
    ensures { (found : Found) → MakesStep (Step.Front Field.Target) found reader.old result found reader.new }
{
    reading_is_exact();
    match reader.ushort()? {
        KEY_ADDR => Ok(Some(Step::Key)),
        PROFILE_ADDR => Ok(Some(Step::Profile)),
        REFERENCE_ADDR => Ok(Some(Step::Index)),
        _ => Err(FrameFault::BadType),
    }
}

#[tactic(auto, unfolding(crate::specs::Walk::step_at, crate::specs::Content::key_at))]
fn pass_key(reader: &mut Reader, found: &mut Found) -> Result<Option<Step>, FrameFault>
    ensures { MakesStep Step.Key found.old reader.old result found.new reader.new }
{
    reading_is_exact();
    let place = reader.place();
    let key = read_octets(reader)?;
    if key.length > KEY_LIMIT {
        return Err(too_long(place, key.length as u32));
    }
    found.target = FoundTarget::Key(key);
    Ok(None)
}

#[tactic(auto, unfolding(crate::specs::Walk::step_at, crate::specs::Content::profile_at))]
fn pass_only_profile(reader: &mut Reader, found: &mut Found) -> Result<Option<Step>, FrameFault>
    ensures { MakesStep Step.Profile found.old reader.old result found.new reader.new }
{
    read_tagged(reader)?;
    found.target = FoundTarget::Profile;
    Ok(None)
}

#[tactic(auto, unfolding(crate::specs::Walk::step_at, crate::specs::Content::indexed_at))]
fn pass_index(reader: &mut Reader) -> Result<Option<Step>, FrameFault>
    ensures { (found : Found) → MakesStep Step.Index found reader.old result found reader.new }
{
    reading_is_exact();
    reader.ulong()?;
    Ok(Some(Step::TypeId))
}

#[tactic(auto, unfolding(crate::specs::Walk::step_at, cdr_values::specs::Tagged::reference_at))]
fn pass_type_id(reader: &mut Reader) -> Result<Option<Step>, FrameFault>
    ensures { (found : Found) → MakesStep Step.TypeId found reader.old result found reader.new }
{
    reading_is_exact();
    reader.string()?;
    Ok(Some(Step::Count))
}

/// Passes over the count of a reference's profiles.
#[tactic(auto, unfolding(crate::specs::Walk::step_at, cdr_values::specs::Sequence::sequence_at))]
fn pass_count(reader: &mut Reader) -> Result<Option<Step>, FrameFault>
    ensures { (found : Found) → MakesStep Step.Count found reader.old result found reader.new }
{
    reading_is_exact();
    let place = reader.place();
    let count = reader.ulong()?;
    if count > PROFILE_LIMIT {
        return Err(too_long(place, count));
    }
    Ok(Some(Step::Profiles(count)))
}

/// Passes over one of so many profiles, behind which the reference is whole.
#[tactic(auto, unfolding(crate::specs::Walk::step_at, cdr_values::specs::Sequence::each_at))]
fn pass_profiles(
    reader: &mut Reader,
    found: &mut Found,
    left: u32,
) -> Result<Option<Step>, FrameFault>
    ensures { MakesStep (Step.Profiles left) found.old reader.old result found.new reader.new }
{
    if left == 0 {
        found.target = FoundTarget::Reference;
        return Ok(None);
    }
    read_tagged(reader)?;
    Ok(Some(Step::Profiles(left - 1)))
}

/// Passes over the count of the service contexts, behind which they are whole where there are none.
#[tactic(auto, unfolding(crate::specs::Walk::step_at, crate::specs::Content::field_at, cdr_values::specs::Sequence::sequence_at))]
fn begin_contexts(reader: &mut Reader, found: &mut Found) -> Result<Option<Step>, FrameFault>
    ensures { MakesStep (Step.Front Field.Contexts) found.old reader.old result found.new reader.new }
{
    reading_is_exact();
    let place = reader.place();
    let count = reader.ulong()?;
    if count > CONTEXT_LIMIT {
        return Err(too_long(place, count));
    }
    found.count = 0;
    if count == 0 {
        return Ok(None);
    }
    Ok(Some(Step::Contexts(count)))
}

/// Keeps one of so many contexts, behind which the contexts are whole.
#[tactic(auto, unfolding(crate::specs::Walk::step_at, cdr_values::specs::Sequence::each_at, crate::specs::Content::context_at))]
fn pass_context(
    reader: &mut Reader,
    found: &mut Found,
    left: u32,
) -> Result<Option<Step>, FrameFault>
    requires { left + found.old.count ≤ context_limit }
    ensures { MakesStep (Step.Contexts left) found.old reader.old result found.new reader.new }
{
    if left == 0 {
        return Ok(None);
    }
    let (id, bytes) = read_tagged(reader)?;
    found.contexts[found.count] = FoundContext { id, bytes };
    found.count += 1;
    Ok(Some(Step::Contexts(left - 1)))
}

/// The next number, and where the octets of the sequence behind it stand: a tagged profile, or a service context.
#[tactic(auto, unfolding(cdr_values::specs::Tagged::tagged_at))]
fn read_tagged(reader: &mut Reader) -> Result<(u32, Span), FrameFault>
    ensures { ReadsTagged reader.old result reader.new }
{
    reading_is_exact();
    let tag = reader.ulong()?;
    let octets = read_octets(reader)?;
    Ok((tag, octets))
}

/// Where the octets of the next sequence stand.
fn read_octets(reader: &mut Reader) -> Result<Span, CdrFault>
    ensures { ReadsSpan octets_at reader.old result reader.new }
{
    reading_is_exact();
    let length = reader.octets()?.len();
    Ok(Span {
        start: (reader.place() as usize - length).saturating_sub(HEADER_LENGTH),
        length,
    })
}

/// Where the text of the next string stands, in front of its NUL.
fn read_string(reader: &mut Reader) -> Result<Span, CdrFault>
    ensures { ReadsSpan string_at reader.old result reader.new }
{
    reading_is_exact();
    let length = reader.string()?.len();
    Ok(Span {
        start: (reader.place() as usize - length - 1).saturating_sub(HEADER_LENGTH),
        length,
    })
}
