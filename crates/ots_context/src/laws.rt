ghost use Rattle.ots_context.specs.Laws.{ContextsAreReadExactly, ContextsAreReadWhereWritten, ContextsStandExactly, TailsStandWhereReadAgain, WrittenContextsAreReadAgain};

/// A law: octets are read as a context exactly where they are that context.
pub fn contexts_are_read_exactly()
    ensures { ContextsAreReadExactly }
{
    ior_refs::references_are_read_exactly();
    cdr_values::reading_is_exact();
}

/// A law: what a reader has left is read as a context exactly where it is that context.
pub fn contexts_stand_exactly()
    ensures { ContextsStandExactly }
{
    ior_refs::references_are_read_exactly();
    cdr_values::reading_is_exact();
}

/// A law: a tail can stand at an offset exactly where its octets are read there as that tail again.
pub fn tails_stand_where_read_again()
    ensures { TailsStandWhereReadAgain }
{
    cdr_values::reading_is_exact();
    cdr_values::values_are_read_again();
}

/// A law: a context that was written is read again.
pub fn written_contexts_are_read_again()
    ensures { WrittenContextsAreReadAgain }
{
    ior_refs::references_are_read_exactly();
    cdr_values::reading_is_exact();
    cdr_values::values_are_read_again();
    cdr_values::values_are_written_canonically();
}

/// A law: a context that was written behind what a writer had is read again, from where that ends.
pub fn contexts_are_read_where_written()
    ensures { ContextsAreReadWhereWritten }
{
    ior_refs::references_are_read_exactly();
    cdr_values::reading_is_exact();
    cdr_values::values_are_read_again();
    cdr_values::values_are_written_canonically();
}
