//! Mail addresses and domains in the form in which mail servers compare them, and IP addresses and networks.
//!
//! [`canonical_address`] gives one text for all spellings of a mailbox: with or without brackets, a source route,
//! quotes that aren't needed, a dot at the end, and capital letters. [`domain_of`] is its domain, and [`is_under`]
//! compares domains by their labels. An [`Address`] and a [`Network`] are read from texts. Nothing here looks up a
//! name.
#![tactic(auto)]

mod address;
mod atoms;
mod bytes;
mod decimal;
mod domain;
mod ip_address;
mod laws;
mod local_part;
mod mailbox;
mod network;
mod network_laws;
mod quotes;
mod route;
mod rows;
mod splits;
mod trimmed;
mod zone;

pub use address::{canonical_address, domain_of};
pub use domain::{canonical_domain, is_under};
pub use ip_address::Address;
pub use laws::{canonical_addresses, domains_by_bytes};
pub use network::Network;
pub use network_laws::{families_apart, widest_networks, written_addresses};
