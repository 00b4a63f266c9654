//! Sockets by which mail servers and filters are reached, over TCP or at paths. None of them waits.
#![tactic(auto)]

mod listener;
mod stream;
mod target;

pub use listener::Listener;
pub use stream::Stream;
pub use target::Target;
