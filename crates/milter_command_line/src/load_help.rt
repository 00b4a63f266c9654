//! What the long help of the subcommand `load` explains after its options.

/// Where the filter is, what is sent to it, what is printed, and the fault lines.
pub(crate) const LOAD: &str = "\
ADDRESS is where the filter listens:

  inet:PORT@HOST                 a TCP port from 1 to 65535 of a host's name, or
                                 of an IP address (IPv6 without brackets)
  unix:PATH                      a Unix socket

as inet:8890@127.0.0.1. SESSION is a file in the form that milter_tool help
session explains.

So many connections are made at once. On each of them the options are
negotiated as of milter_tool mta, the client and its greeting are sent once, and
then the messages of the session, in order, again and again, each command once
the one before is answered. A connection that is lost is made again; where it
can't be made, that is tried again after a tenth of a second. A message whose
connection is lost is settled by default, and isn't sent again. A connection on
whose client the verdict is final settles one message, and is made again.

With --rate a message is begun whenever one is due by the rate, on a connection
that has none, or on the first that has none after that. The load ends after
--for or after --messages, whichever comes first, and after 10 seconds where
neither is given. Messages under way then are waited for as long as --timeout.
It also ends where no connection was made for so long.

These lines are printed then; those of waiting, settled and latency only where
their number isn't 0:

  seconds S                      how long it took, to the last message
  messages N a-second R          the messages that were settled
  sent N a-second R              the bytes that were sent
  received N a-second R          the bytes that came
  connections made N             the connections that were made
  connections failed N           the times that none could be made
  connections lost N             those of the connections made that were lost
  waiting N                      by --rate: the messages that were due and not
                                 begun when the time was over
  settled OUTCOME N              messages by the filter: released, discarded,
                                 refused, no-recipients, refused-at-connection
  settled default CAUSE N        messages by default: reset, timeout, memory,
                                 fault
  latency STAGE N MEDIAN P90 P99 P99.9 MOST
                                 the replies at a stage, and in microseconds
                                 what so many of a hundred of them took at
                                 most, and the longest of them; in order of
                                 stages: negotiate, connect, helo, mail, rcpt,
                                 data, header, eoh, body, eob; and last of
                                 message, the whole message

A latency is rounded up by less than a sixty-fourth of it. It counts from when a
command was sent. With --rate that of a message, and of its first command,
counts from when the message was due: what waits for a slow filter counts too.

With --json one object is printed in place of these lines, in a line, with the
same names and all numbers. On a terminal a line of standard error says once a
second how far it is.

A fault is printed on standard error:

  bad address                    ADDRESS isn't of its form (status 2)
  cannot read session            the session was not read, or is too large
  session line N: fault K        line N of the session is at fault
  cannot connect                 no connection was ever made
  cannot listen                  the system refused to wait for sockets
  write fault                    standard output was not written
  out of memory                  memory was refused

Status: 0 where a message was settled by the filter, 1 where none was, as of a
session without messages, or after a fault, 2 after a wrong use of the command
line.";
