//! What the long help of the subcommand `record` explains after its options.

/// Where it listens, what is passed on, what is written, when it ends, and the fault lines.
pub(crate) const RECORD: &str = "\
LISTEN is where mail servers connect, and ADDRESS where the filter listens:

  inet:PORT@HOST                 a TCP port from 1 to 65535 of a host's name, or
                                 of an IP address (IPv6 without brackets)
  unix:PATH                      a Unix socket

as inet:8890@127.0.0.1. A mail server is configured with LISTEN in place of
ADDRESS. The socket of a LISTEN with a path is made, with the mode 660; one that
is left there, on which nobody listens, is replaced.

For each connection that comes one to the filter is made, and what either end
sends is passed on to the other, many connections at once: up to 200, and others
wait. Where an end sends no more, the other one reads that. While an end doesn't
take what it is sent, no more is read of the other.

Each connection has a file of its own in DIR: 1.trace, 2.trace and so on, in the
order in which they come. DIR is made where it isn't there, and may have no
1.trace yet. A file that is there is never replaced. What is read is written to
the file before it is passed on, each read in a line: \"> \" and hexadecimal
digits of the mail server, \"< \" of the filter. milter_tool trace prints what a
file has, and milter_tool replay sends it to a filter again.

It ends by Ctrl-C, or by SIGTERM, and what was read is in the files then; or,
with --count, once so many connections have ended.

A connection that can't be passed on is closed, and a line on standard error
says why. The others go on:

  connection N: cannot connect: REASON
  connection N: mail server lost: REASON
  connection N: filter lost: REASON
  connection N: cannot make its file: REASON
  connection N: cannot write its file: REASON
  connection N: cannot wait for sockets
  connection N: out of memory

The file of a connection whose filter isn't there has no line.

A fault is printed on standard error, and nothing is recorded:

  bad address                    LISTEN or ADDRESS isn't of its form (status 2)
  cannot record                  DIR can't be made, or has traces already
  cannot connect                 the name of the filter's host was not found
  cannot listen                  the socket was not bound, or the system refused
                                 to wait for sockets
  out of memory                  memory was refused

Status: 0 after --count connections, 1 after a fault, 2 after a wrong use of the
command line.";
