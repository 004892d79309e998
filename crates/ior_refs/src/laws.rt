ghost use Rattle.ior_refs.specs.Laws.{ReferencesAreReadExactly, ReferencesAreReadAgain, ReferencesAreReadWhereWritten, SameOctetsSameReference, TextLaws, IiopLaws, SameOctetsSameKey};

use crate::fault::IorFault;
use ots_model::Octets;

/// A law: a reference is read exactly where its values stand and it isn't too long.
pub fn references_are_read_exactly()
    ensures { ReferencesAreReadExactly }
{
    cdr_values::references_are_read_exactly::<IorFault>();
}

/// A law: a reference that was written is read again.
pub fn references_are_read_again()
    ensures { ReferencesAreReadAgain }
{
    references_are_read_exactly();
    cdr_values::values_are_read_again();
}

/// A law: a reference that was written behind what a writer had is read again, from where that ends.
pub fn references_are_read_where_written()
    ensures { ReferencesAreReadWhereWritten }
{
    references_are_read_again();
    cdr_values::values_are_written_canonically();
}

/// A law: references with the same canonical octets are the same.
pub fn same_octets_same_reference()
    ensures { SameOctetsSameReference }
{
    references_are_read_again();
}

/// A law: a text has a reference exactly where it is one of its stringified forms; the text that is printed is one.
pub fn texts_are_read_exactly()
    ensures { TextLaws }
{
    references_are_read_exactly();
    cdr_values::values_are_read_again();
}

/// A law: an IIOP profile is read exactly where its values stand, and octets are one exactly where nothing stands behind
/// them; a reference that was made says where its object is.
pub fn profiles_are_read_exactly()
    ensures { IiopLaws }
{
    cdr_values::reading_is_exact();
    cdr_values::references_are_read_exactly::<IorFault>();
    cdr_values::sequences_are_exact::<(u32, Octets), IorFault>();
    cdr_values::values_are_read_again();
}

/// A law: keys with the same octets are the same.
pub fn same_octets_same_key()
    ensures { SameOctetsSameKey }
{}
