ghost use Rattle.ots_calls.specs.Laws.{AnswersAreReadExactly, NamesTellOperations, OneRequestOneCall, RequestsAreReadExactly};

/// A law: a kind of keys and a name tell one operation, and each operation is told by its name and each of its kinds.
pub fn names_tell_operations()
    ensures { NamesTellOperations }
{}

/// A law: a request for one of our keys is read as a call exactly where it is that call.
pub fn requests_are_read_exactly()
    ensures { RequestsAreReadExactly }
{
    names_tell_operations();
    ots_context::contexts_are_read_exactly();
    ots_context::contexts_stand_exactly();
    ior_refs::references_are_read_exactly();
    cdr_values::reading_is_exact();
}

/// A law: a request is one call at most.
pub fn one_request_one_call()
    ensures { OneRequestOneCall }
{
    requests_are_read_exactly();
    ior_refs::same_octets_same_key();
}

/// A law: a reply is read as an answer to a call exactly where it is that answer.
pub fn answers_are_read_exactly()
    ensures { AnswersAreReadExactly }
{
    ots_context::contexts_stand_exactly();
    ior_refs::references_are_read_exactly();
    cdr_values::reading_is_exact();
}
