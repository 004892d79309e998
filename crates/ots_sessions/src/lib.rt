//! Sessions of a server: the requests of a connection are answered, one after another, by a servant.
#![tactic(auto)]

pub use dispatching::dispatch;
pub use fault::ServeFault;
pub use references::{
    cells_key, cells_reference, coordinator_key, factory_key, factory_reference, is_aware_id,
    reference_to, type_id_of,
};
pub use refusals::answer_without_step;
pub use servant::Servant;
pub use session::{SessionEnd, serve_session};
pub use sessions::{ServeEnd, serve_sessions};
pub use short::{MOST, is_short_request};

mod dispatching;
mod fault;
mod halves;
mod references;
mod refusals;
mod servant;
mod session;
mod sessions;
mod short;
