use cdr_values::Order;
use ots_model::Octets;
use std::marker::Model;

/// A message (CORBA, GIOP Message Formats). A field that isn't here, as the reserved octets of a Request, is passed over
/// when a message is read.
#[derive(Drop)]
pub enum Message {
    /// Request: an operation of an object is asked for.
    Request(Request),
    /// Reply: the answer to a Request.
    Reply(Reply),
    /// CancelRequest, with the request_id.
    Cancel(u32),
    /// LocateRequest: an object is looked for.
    Locate(Locate),
    /// LocateReply: the answer to a LocateRequest.
    LocateReply(Located),
    /// CloseConnection.
    Close,
    /// MessageError.
    Error,
}

/// A Request.
#[derive(Drop)]
pub struct Request {
    /// The request_id.
    pub id: u32,
    /// The response_flags: a reply is wanted where the lowest bit is 1.
    pub flags: u8,
    pub target: Target,
    /// The operation's name, without the NUL.
    pub operation: Octets,
    pub contexts: Contexts,
    /// The byte order of the body and of the fields.
    pub order: Order,
    /// What stands behind the fields, from a multiple of 8 on.
    pub body: Octets,
}

/// A Reply.
#[derive(Drop)]
pub struct Reply {
    /// The request_id of the request that it answers.
    pub id: u32,
    /// The reply_status, any number.
    pub status: u32,
    pub contexts: Contexts,
    /// The byte order of the body and of the fields.
    pub order: Order,
    /// What stands behind the fields, from a multiple of 8 on.
    pub body: Octets,
}

/// A LocateRequest.
#[derive(Drop)]
pub struct Locate {
    /// The request_id.
    pub id: u32,
    pub target: Target,
}

/// A LocateReply.
#[derive(Drop)]
pub struct Located {
    /// The request_id of the request that it answers.
    pub id: u32,
    /// The locate_status, any number.
    pub status: u32,
    /// What stands behind the status, as it stands. The byte order isn't kept: whoever reads values in it has it from
    /// elsewhere.
    pub rest: Octets,
}

/// What a request is for.
#[derive(Drop)]
pub enum Target {
    /// KeyAddr: an object key, of at most 256 octets (our profile).
    Key(Octets),
    /// ProfileAddr. The profile is passed over.
    Profile,
    /// ReferenceAddr. The reference is passed over.
    Reference,
}

/// A service context (ServiceContext of IOP).
#[derive(Drop)]
pub struct ServiceContext {
    /// The context_id: which service it is for.
    pub id: u32,
    /// The context_data, not looked at.
    pub bytes: Octets,
}

/// The service contexts of a message, in order. Contracts see them as a list.
#[derive(Drop)]
pub struct Contexts {
    items: Vec<ServiceContext>,
}

impl Model for Contexts {
    ghost use Rattle.std.specs.Prelude.{List};
    ghost use Rattle.giop_frames.specs.declared.message.ServiceContext.{ServiceContext};

    ghost Value = { List ServiceContext };

    ghost view = { λ contexts. contexts.items.items };
}

impl Contexts {
    ghost use Rattle.std.specs.Prelude.{◌≡◌};

    /// The contexts of a vector. It needs no memory.
    pub fn from_vec(items: Vec<ServiceContext>) -> Contexts
        ensures same { result ≡ items.items }
    {
        Contexts { items }
    }

    /// The contexts.
    pub fn items(&self) -> &[ServiceContext]
        ensures same { result.now ≡ self.now }
    {
        self.items.as_slice()
    }

    /// The contexts as a vector. It needs no memory.
    pub fn into_vec(self) -> Vec<ServiceContext>
        ensures same { result.items ≡ self }
    {
        self.items
    }
}
