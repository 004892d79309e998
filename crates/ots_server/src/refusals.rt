// Answers of calls that the room refuses.
ghost use Rattle.std.specs.Prelude.{◌≡◌};
ghost use Rattle.ots_server.specs.Answers as answers;

use ots_calls::{Answer, SystemException};
use ots_sessions::answer_without_step;
use tree_room::RoomFault;

/// The answer of a call that the room refuses.
pub(crate) fn refused_by(fault: RoomFault) -> Answer
    ensures { result ≡ answers.refused_by fault }
{
    answer_without_step(match fault {
        RoomFault::ObjectNotExist => SystemException::ObjectNotExist,
        RoomFault::NoResources => SystemException::NoResources,
        RoomFault::NoImplement => SystemException::NoImplement,
        RoomFault::Memory => SystemException::NoMemory,
    })
}
