//! The subcommand `filter`: a filter's end of connections that are served one after another.

ghost use Rattle.std.specs.Prelude.{◌≡◌, OnErr, OnOk};
ghost use Rattle.milter_protocol.specs.Behavior.{Behavior};
ghost use Rattle.milter_protocol.specs.declared.stage_order.CommandOrder.{CommandOrder};
ghost use Rattle.milter_filter.specs.declared.turn.Served.{Served};
ghost use Rattle.milter_text.specs.WrittenText.{WritesText};
ghost use Rattle.milter_play.specs.FilterRuns.{ServedAll, ServedSome};
ghost use Rattle.milter_cli.specs.ConnectionLine.{report_line};

use milter_cli::ConnectionReport;
use milter_filter::{CommandOrder, Policy, Served, Server};
use milter_text::{TextFault, write_text};
use std::alloc::Global;
use std::io::Write;
use std::net::TcpListener;
use std::os::unix::net::UnixListener;

/// Where connections of mail servers come from.
pub trait Connections {
    /// Holds of what there is, the order of commands, a policy's behavior, how the next connection may end under it,
    /// and what there is then. It claims nothing where an impl leaves it out, as of sockets, of which no contract says
    /// what they give or take.
    ghost serves: { Self → CommandOrder → Behavior → Served → Self → Type 0 } = { λ _ _ _ _ _. Unit {0} };

    /// Takes one connection and has the server serve it, which stays as it is. A failed `accept` counts, and is a
    /// `Served::ReadFault`.
    fn serve_next<P: Policy>(&mut self, server: &mut Server<'_, P>) -> Served
        ensures served { serves self.old server.old.order (P.behavior server.old.policy) result self.new }
        ensures same { server.new ≡ server.old };
}

impl Connections for TcpListener {
    fn serve_next<P: Policy>(&mut self, server: &mut Server<'_, P>) -> Served {
        match self.accept() {
            Ok((stream, _)) => server.serve(&mut &stream, &mut &stream),
            Err(_) => Served::ReadFault,
        }
    }
}

impl Connections for UnixListener {
    fn serve_next<P: Policy>(&mut self, server: &mut Server<'_, P>) -> Served {
        match self.accept() {
            Ok((stream, _)) => server.serve(&mut &stream, &mut &stream),
            Err(_) => Served::ReadFault,
        }
    }
}

/// Serves so many connections by the policy in this order of commands, one after another, and writes a line for each as
/// it ends. It goes on after a connection that failed. It ends early where a line is not written, or where memory is
/// refused for it; no further connection is taken then.
pub fn filter_run<P: Policy, C: Connections, W: Write>(
    alloc: Global,
    policy: &P,
    order: CommandOrder,
    connections: &mut C,
    count: u32,
    writer: &mut W,
) -> Result<(), TextFault>
    ensures done { OnOk result (ServedAll (λ it. C.serves it order) (P.behavior policy.now) count
        connections.old connections.new (W.contents writer.old) (W.contents writer.new)) }
    ensures cut_off { OnErr result (ServedSome (λ it. C.serves it order) (P.behavior policy.now) count
        connections.old connections.new (W.contents writer.old) (W.contents writer.new)) }
{
    let mut server = Server::new(alloc, policy, order);
    let mut line = String::new(alloc);
    serve_all(&mut line, &mut server, connections, count, writer)
}

/// Has the server serve so many connections, and writes a line for each as it ends, in the memory of the line before.
fn serve_all<P: Policy, C: Connections, W: Write>(
    line: &mut String,
    server: &mut Server<'_, P>,
    connections: &mut C,
    count: u32,
    writer: &mut W,
) -> Result<(), TextFault>
    ensures done { OnOk result (ServedAll (λ it. C.serves it server.old.order) (P.behavior server.old.policy) count
        connections.old connections.new (W.contents writer.old) (W.contents writer.new)) }
    ensures cut_off { OnErr result (ServedSome (λ it. C.serves it server.old.order) (P.behavior server.old.policy)
        count connections.old connections.new (W.contents writer.old) (W.contents writer.new)) }
{
    for number in 1..=count {
        let served = connections.serve_next(server);
        write_report(line, ConnectionReport { number, served }, writer)?;
    }
    Ok(())
}

/// Writes the line of a connection.
fn write_report<W: Write>(
    line: &mut String,
    report: ConnectionReport,
    writer: &mut W,
) -> Result<(), TextFault>
    ensures { WritesText (report_line report.number report.served) (W.contents writer.old) (W.contents writer.new)
        result }
{
    line.clear();
    writeln!(line, "{report}")?;
    write_text(writer, line.as_bytes())
}
