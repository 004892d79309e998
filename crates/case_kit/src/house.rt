use crate::counts::CaseClock;
use crate::links::HeldLink;
use ots_sessions::Servant;
use std::io;
use std::sync::Wait;
use std::thread::Threads;

/// What sessions run on.
pub trait Host: Wait + Threads + Copy + Send + Sync + Drop + 'static {}

impl<R: Wait + Threads + Copy + Send + Sync + Drop + 'static> Host for R {}

/// A service in one of its lives: who serves its sessions.
pub trait House<R: Host> {
    /// What serves a session, or the ticks.
    type Server: Servant + Send + Drop + 'static;

    /// Servants with these links and clocks.
    fn servers(
        &mut self,
        links: Vec<HeldLink<R>>,
        clocks: Vec<CaseClock<R>>,
    ) -> io::Result<Vec<Self::Server>>;

    /// The link of a servant.
    fn link(server: &Self::Server) -> &HeldLink<R>;
}
