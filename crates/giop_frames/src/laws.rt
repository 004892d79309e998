ghost use Rattle.giop_frames.specs.ContentInside.{FieldLaws};
ghost use Rattle.giop_frames.specs.Laws.{BeginsAtEight, ContentIsRead, HeaderLaws, NoMessageBeginsAnother, ReadIsContent, StartIsBehindFields};

use crate::fault::FrameFault;
use crate::header::Kind;
use crate::message::ServiceContext;
use cdr_values::{reading_is_exact, references_are_read_exactly, sequences_are_exact};

/// What the laws of values say of the fields of messages.
pub fn fields_are_read_exactly()
    ensures { FieldLaws }
{
    reading_is_exact();
    references_are_read_exactly::<FrameFault>();
    sequences_are_exact::<ServiceContext, FrameFault>();
}

/// A law: a header is read exactly where it stands in front of its content, and what twelve octets say of one, and each
/// fault but want of octets, they say whatever follows.
pub fn headers_are_read_exactly()
    ensures { HeaderLaws }
{}

/// A law: no octets that are a message in one part begin others that are one, and no octets are two such messages.
pub fn no_message_begins_another()
    ensures { NoMessageBeginsAnother }
{
    fields_are_read_exactly();
}

/// A law: reading a content gives a message exactly where the octets are that message's content; and where what the
/// message keeps behind its fields begins is told by how long they are.
pub fn a_message_is_its_content()
    ensures found { ReadIsContent }
    ensures only { ContentIsRead }
    ensures start { StartIsBehindFields }
{
    fields_are_read_exactly();
}

/// A law: in version 1.2 a body begins at a multiple of 8, so that the `start` of a Request and of a Reply is 0 there.
pub fn bodies_begin_at_eight()
    ensures request { BeginsAtEight Kind.Request }
    ensures reply { BeginsAtEight Kind.Reply }
{}
