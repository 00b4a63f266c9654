//! A filter that has recipients and the ends of messages looked up by another program, for `tests/test_host.py`, which
//! plays that program.
//!
//! The words are `ADDRESS LOOK_UP_PATH ANSWER_SECONDS PROGRESS_SECONDS TIMEOUT_SECONDS`. It listens at the address, and
//! connects to the Unix socket of the look-up server before. All else goes on. The lines that pass over that socket are
//! in `look_up_host`.

mod look_up_host;

use anyhow::bail;
use look_up_host::LookUpHost;
use milter_command_line::Address;
use milter_service::{Limits, Listener, Service};

/// The mode of a Unix socket.
const MODE: u32 = 0o600;
/// How many connections are open at once.
const AT_ONCE: usize = 100;

/// Listens at the address that a text names.
fn listen(rt: &HostRuntime, text: &str) -> anyhow::Result<Listener> {
    match Address::parse(text) {
        Some(Address::Inet { port, host }) => Ok(Listener::bind_inet(rt, host, port)?),
        Some(Address::Unix { path }) => Ok(Listener::bind_unix(rt, path, MODE)?),
        None => bail!("'{text}' is no address"),
    }
}

/// The one listener at the address that a text names.
fn listeners_at(rt: &HostRuntime, text: &str) -> anyhow::Result<Vec<Listener>> {
    let listener = listen(rt, text)?;
    let mut listeners = Vec::new(rt.alloc());
    listeners.push(listener)?;
    Ok(listeners)
}

/// Serves mail servers at an address until it is ended from outside.
fn serve_at(
    rt: &HostRuntime,
    host: &mut LookUpHost,
    limits: Limits,
    address: &str,
) -> anyhow::Result<()> {
    let listeners = listeners_at(rt, address)?;
    let mut service = Service::new(rt, rt.alloc(), limits, listeners)?;
    Ok(service.run(host)?)
}

/// Serves mail servers as these words have it.
pub fn serve(rt: &HostRuntime, words: &[String]) -> anyhow::Result<()> {
    let [address, look_up, answer, progress, timeout] = words else {
        bail!("usage: milter_tests_driver host ADDRESS LOOK_UP_PATH SECONDS SECONDS SECONDS");
    };
    let limits = Limits {
        at_once: AT_ONCE,
        timeout: timeout.parse()?,
        answer: answer.parse()?,
        progress: progress.parse()?,
    };
    let mut host = LookUpHost::connect(rt, look_up.as_str())?;
    serve_at(rt, &mut host, limits, address.as_str())
}
