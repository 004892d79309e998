ghost use Rattle.giop_streams.specs.Laws.{FragmentGoesOn, FramedIsWhole, IsCutInOneWay, IsCutOffInOneWay, IsRefusedInOneWay, JoinsByRequestId, RefusalGoesOn, RefusedIsNoStream, WholeIsFramed, WholeIsNotCut};

use giop_frames::{a_message_is_its_content, headers_are_read_exactly};

/// A law: octets are a stream of messages in one way.
pub fn a_stream_is_cut_in_one_way()
    ensures { IsCutInOneWay }
{
    headers_are_read_exactly();
}

/// A law: what is refused stays refused however the octets go on, at the same place, behind the same messages and for
/// the same reason.
pub fn a_refusal_stays()
    ensures refused { IsRefusedInOneWay }
    ensures goes_on { RefusalGoesOn }
    ensures no_stream { RefusedIsNoStream }
{
    headers_are_read_exactly();
}

/// A law: octets end between messages or inside one, and not both; and inside one message at one place.
pub fn octets_end_in_one_way()
    ensures not_both { WholeIsNotCut }
    ensures one_end { IsCutOffInOneWay }
{
    headers_are_read_exactly();
}

/// A law: the unfinished message of a request_id is told by the parts of that request_id alone, whatever parts stand
/// between them; and it is the one with which a Fragment of that request_id goes on.
pub fn fragments_join_by_request_id()
    ensures joins { JoinsByRequestId }
    ensures goes_on { FragmentGoesOn }
{}

/// A law: a stream's joined octets are whole as a message exactly where they are by their fields that message's, with
/// what the header of its first part says; its `start` is where what it keeps behind the fields begins.
pub fn a_framed_message_is_its_content()
    ensures found { WholeIsFramed }
    ensures only { FramedIsWhole }
{
    a_message_is_its_content();
}
