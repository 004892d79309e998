ghost use Rattle.cdr_values.specs.Laws.{CanonicalSpells, NoSpellingBeginsAnother, ReadingLaws};
ghost use Rattle.cdr_values.specs.Again.{ValuesAreReadAgain, EncapsulationsAreReadAgain};
ghost use Rattle.cdr_values.specs.Sequence.{LoopLaws, SequencesAreExact, NoSequenceBeginsAnother, ReadIsNotBegun};
ghost use Rattle.cdr_values.specs.Tagged.{TaggedLaws};
ghost use Rattle.cdr_values.specs.Values.{ValuesAreWrittenCanonically};

/// A law: the canonical spelling is a spelling.
pub fn canonical_octets_spell()
    ensures { CanonicalSpells }
{}

/// A law: at one place and in one order, no spelling of a value begins a spelling of another value of that type.
pub fn no_spelling_begins_another()
    ensures { NoSpellingBeginsAnother }
{}

/// A law: each call of a reader gives a value exactly where octets spell it.
pub fn reading_is_exact()
    ensures { ReadingLaws }
{}

/// A law: values that were written one after another are read again.
pub fn values_are_read_again()
    ensures { ValuesAreReadAgain }
{
    canonical_octets_spell();
}

/// A law: values that are written one after another are their canonical spellings, behind what was there.
pub fn values_are_written_canonically()
    ensures { ValuesAreWrittenCanonically }
{}

/// A law: what was written into an encapsulation is read again, in the order of its writer.
pub fn encapsulations_are_read_again()
    ensures { EncapsulationsAreReadAgain }
{
    canonical_octets_spell();
}

/// A law: where elements are read exactly, so are their sequences. Elements are values of `T`, and `F` is the reader's
/// fault.
pub fn sequences_are_exact<T, F>()
    ensures { SequencesAreExact T F }
{}

/// A law: where no element begins another, no sequence does.
pub fn no_sequence_begins_another<T>()
    ensures { NoSequenceBeginsAnother T }
{}

/// A law: what is read exactly does not begin another.
pub fn what_is_read_begins_no_other<T, F>()
    ensures { ReadIsNotBegun T F }
{}

/// A law: what a loop keeps that reads elements one after another.
pub fn elements_are_read_in_a_loop<T, F>()
    ensures { LoopLaws T F }
{}

/// A law: octets with a tag, and references, are read exactly where their values stand.
pub fn references_are_read_exactly<F>()
    ensures { TaggedLaws F }
{}
