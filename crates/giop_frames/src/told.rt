ghost use Rattle.giop_frames.specs.EncodeInside.{Tells, TellsNothing};

use crate::header::Kind;
use crate::message::{Message, Reply, Request, ServiceContext, Target};
use cdr_values::Order;

/// What a message tells where it is written. What it doesn't have is 0 or empty.
#[derive(Drop)]
pub struct Told<'a> {
    pub kind: Kind,
    /// The byte order in which it is written.
    pub order: Order,
    /// The request_id.
    pub id: u32,
    /// The response_flags.
    pub flags: u8,
    /// The reply_status, or the locate_status.
    pub status: u32,
    pub target: Option<&'a Target>,
    /// The operation's name.
    pub operation: &'a [u8],
    pub contexts: &'a [ServiceContext],
    /// What it keeps behind its fields.
    pub behind: &'a [u8],
}

impl<'a> Told<'a> {
    /// What this message tells.
    pub fn of(message: &'a Message) -> Told<'a>
        ensures { Tells result message.now }
    {
        match message {
            Message::Request(request) => Told::of_request(request),
            Message::Reply(reply) => Told::of_reply(reply),
            Message::Cancel(id) => Told {
                id: *id,
                ..Told::nothing(Kind::CancelRequest)
            },
            Message::Locate(locate) => Told {
                id: locate.id,
                target: Some(&locate.target),
                ..Told::nothing(Kind::LocateRequest)
            },
            Message::LocateReply(located) => Told {
                id: located.id,
                status: located.status,
                behind: located.rest.bytes(),
                ..Told::nothing(Kind::LocateReply)
            },
            Message::Close => Told::nothing(Kind::CloseConnection),
            Message::Error => Told::nothing(Kind::MessageError),
        }
    }

    fn of_request(request: &'a Request) -> Told<'a>
        ensures { Tells result (Message.Request request.now) }
    {
        Told {
            order: request.order,
            id: request.id,
            flags: request.flags,
            target: Some(&request.target),
            operation: request.operation.bytes(),
            contexts: request.contexts.items(),
            behind: request.body.bytes(),
            ..Told::nothing(Kind::Request)
        }
    }

    fn of_reply(reply: &'a Reply) -> Told<'a>
        ensures { Tells result (Message.Reply reply.now) }
    {
        Told {
            order: reply.order,
            id: reply.id,
            status: reply.status,
            contexts: reply.contexts.items(),
            behind: reply.body.bytes(),
            ..Told::nothing(Kind::Reply)
        }
    }

    /// What a message of this type tells that has nothing; it is written big endian.
    fn nothing(kind: Kind) -> Told<'a>
        ensures { TellsNothing kind result }
    {
        Told {
            kind,
            order: Order::Big,
            id: 0,
            flags: 0,
            status: 0,
            target: None,
            operation: &[],
            contexts: &[],
            behind: &[],
        }
    }
}
