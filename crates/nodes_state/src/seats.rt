// Where nodes and ends run.
ghost use Rattle.std.specs.Prelude.{◌≡◌, None};
ghost use Rattle.std.specs.Option.{option_copied, option_map};
ghost use Rattle.nodes_world.specs.World as world;
ghost use Rattle.nodes_world.specs.Resolve as resolving;

use nodes_lives::LiveNode;
use nodes_parts::{End, ONLY_LIFE, Stop};
use ots_model::Name;

/// What runs at a seat.
#[derive(Drop)]
pub enum Server {
    /// A node that is up.
    Up(LiveNode),
    /// A node that is down: what its disk reads.
    Down(Vec<u8>),
    /// An end.
    End(End),
}

/// Where a node or an end runs: its name, its clock, and the crash inside a write that is to come.
#[derive(Drop)]
pub struct Seat {
    pub name: Name,
    pub clock: u64,
    pub stop: Option<Stop>,
    pub server: Server,
}

impl Seat {
    ghost use Rattle.nodes_state.specs.Seated.{node_of, server_of};

    /// One whose clock stands at 0.
    pub fn new(name: &Name, server: Server) -> Seat
        ensures { result ≡ record { name = name.now; clock = 0; stop = None; server = server } }
    {
        Seat {
            name: *name,
            clock: 0,
            stop: None,
            server,
        }
    }

    /// The node that is up.
    pub fn node(&self) -> Option<&LiveNode>
        ensures { option_map node_of (option_copied result) ≡ world.node_in (server_of self.now.server) }
    {
        match &self.server {
            Server::Up(node) => Some(node),
            _ => None,
        }
    }

    /// The end.
    pub fn end(&self) -> Option<&End>
        ensures { option_copied result ≡ world.end_in (server_of self.now.server) }
    {
        match &self.server {
            Server::End(end) => Some(end),
            _ => None,
        }
    }

    /// The life of what is up.
    pub fn life(&self) -> Option<u32>
        ensures { result ≡ world.life_in (server_of self.now.server) }
    {
        match &self.server {
            Server::Up(node) => Some(node.life()),
            Server::Down(_) => None,
            Server::End(_) => Some(ONLY_LIFE),
        }
    }

    /// Whether it is a node that is down.
    pub fn is_down(&self) -> bool
        ensures { result ≡ resolving.is_down_node (server_of self.now.server) }
    {
        matches!(self.server, Server::Down(_))
    }
}
