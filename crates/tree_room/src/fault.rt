use coordinator::NodeFault;

/// Why a room refuses a call.
#[derive(Clone, Copy, Debug, PartialEq, Eq)]
pub enum RoomFault {
    /// The key names nothing (OBJECT_NOT_EXIST).
    ObjectNotExist,
    /// There is no slot, no further number, or no room in the history (NO_RESOURCES).
    NoResources,
    /// Nobody can do that yet (NO_IMPLEMENT).
    NoImplement,
    /// Memory ran out.
    Memory,
}

impl From<NodeFault> for RoomFault {
    ghost use Rattle.std.specs.Prelude.{◌≡◌};
    ghost use Rattle.tree_room.specs.Answers.{refusal_of};

    ghost from_gives = { λ fault refusal. refusal ≡ refusal_of fault };

    fn from(fault: NodeFault) -> RoomFault {
        match fault {
            NodeFault::ObjectNotExist => RoomFault::ObjectNotExist,
            NodeFault::NoResources => RoomFault::NoResources,
            NodeFault::NoImplement => RoomFault::NoImplement,
            NodeFault::Journal(_) | NodeFault::Memory => RoomFault::Memory,
        }
    }
}
