use coordinator::Act;
use ior_refs::ObjectKey;
use ots_model::Name;
use ots_world::Image;

/// How a resource is registered.
#[derive(Clone, Copy)]
pub enum Manner {
    /// `register_resource`.
    Resource,
    /// `register_subtran_aware`: it is told of the end of the subtransaction alone.
    Aware,
    /// `register_resource` of one that is told of that end too.
    Double,
}

/// What a line of a script does, once its names are found. Nodes and ends are named by their places, transactions and
/// resources by their keys.
#[derive(Drop)]
pub enum Deed {
    /// A node is made.
    MakeNode(Name),
    /// An end is made.
    MakeEnd(Name),
    /// A top-level transaction is made, to be timed out after so many seconds, or never.
    Begin {
        at: u32,
        name: Name,
        seconds: u32,
    },
    /// A client calls a transaction.
    Call {
        to: ObjectKey,
        act: Act,
    },
    /// A client makes a subtransaction.
    Create {
        parent: ObjectKey,
        name: Name,
    },
    /// A client registers a new resource of an end.
    Register {
        manner: Manner,
        transaction: ObjectKey,
        end: u32,
        name: Name,
    },
    /// A value is put into a cell.
    Put {
        resource: ObjectKey,
        cell: u64,
        value: u64,
    },
    /// The resource is to vote rollback.
    Refuse(ObjectKey),
    /// Up to so many messages are delivered.
    Flow(u32),
    /// So many seconds go by at a node.
    Tick {
        at: u32,
        seconds: u64,
    },
    /// A node goes down.
    Crash(u32),
    /// A node comes up again.
    Restart(u32),
    /// A node is to go down inside a disk write, which is counted from now on. The image says what that leaves.
    Stop {
        at: u32,
        write: u64,
        image: Image,
    },
}
