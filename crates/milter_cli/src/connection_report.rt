//! The line of a connection that was served.

ghost use Rattle.std.specs.Prelude.{Some};
ghost use Rattle.milter_cli.specs.ConnectionLine.{report_text};

use milter_filter::Served;
use std::fmt;

/// How a connection ended. The text is its line, without the LF.
#[derive(Clone, Copy)]
pub struct ConnectionReport {
    /// The number of the connection, from 1.
    pub number: u32,
    /// How serving it ended; `Served::ReadFault` also where it was not accepted.
    pub served: Served,
}

impl fmt::Display for ConnectionReport {
    ghost output = { λ report. Some (report_text report.number report.served) };

    fn fmt<W: fmt::Write>(&self, f: &mut fmt::Formatter<W>) -> fmt::Result {
        let number = self.number;
        match self.served {
            Served::Quit => write!(f, "connection {number} quit"),
            Served::Ended(bytes) => write!(f, "connection {number} ended {bytes}"),
            Served::Failed(fault) => {
                let fault = fault.number();
                write!(f, "connection {number} failed {fault}")
            }
            Served::ReadFault => write!(f, "connection {number} read fault"),
            Served::WriteFault => write!(f, "connection {number} write fault"),
            Served::TurnLimit => write!(f, "connection {number} turn limit"),
        }
    }
}
