//! A service of many connections of mail servers at once, in one process and without a thread, by the readiness of
//! sockets that never wait. Its host answers the questions of the connections, each at once or later.
#![tactic(auto)]

mod asked_connection;
mod host;
mod key;
mod mail_server;
mod mail_servers;
mod service;
mod service_error;
mod shortage;
mod sources;

pub use asked_connection::AskedConnection;
pub use host::Host;
pub use key::{Key, QuestionKey};
pub use mail_servers::{Given, MailServers};
pub use milter_filter::policy_wants;
pub use milter_sockets::Listener;
pub use mio::{Interest, Registry, Token};
pub use service::{Limits, Service};
pub use service_error::ServiceError;
pub use shortage::Shortage;
