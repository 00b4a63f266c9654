//! What the long help of the subcommand `probe` explains after its options.

/// Where the filter is, what is tried, what is printed, and the fault lines.
pub(crate) const PROBE: &str = "\
ADDRESS is where the filter listens:

  inet:PORT@HOST                 a TCP port from 1 to 65535 of a host's name, or
                                 of an IP address (IPv6 without brackets)
  unix:PATH                      a Unix socket

as inet:8890@127.0.0.1. SESSION is a file in the form that milter_tool help
session explains.

The session is sent to the filter plainly, and its bytes and the verdicts on
them are the reference. Then trials are made, each over a connection of its own,
and after each of them the session is sent plainly over a new connection: it has
to get the same verdicts. NAME is a kind of trial, and without --only each kind
is tried, in this order:

  cut-sent                       the connection is closed after a byte that is
                                 sent, each byte in turn
  cut-came                       the same after a byte that comes
  byte-by-byte                   all is sent one byte at a time
  ahead                          two commands are sent before the first reply
  offer                          version 2 is offered, no bits, each action
                                 alone with all protocol bits, and each protocol
                                 bit alone with all actions
  abort                          a message is given up after a command, each one
                                 in turn, and sent again
  second-message                 a message is sent twice
  second-client                  the client comes again on the same connection
  mutated                        a packet is sent with the length 0, too long or
                                 too short, with an unknown command, without its
                                 last zero byte or cut, and nothing after it

Each kind has at most 2,000 trials; of more they are spread evenly. Which
lengths, commands and cuts a mutated packet gets goes by --seed, and the same
seed gives the same packets.

A line is printed for each trial after which something broke: its kind, its
number (of cut-sent and cut-came that of the last byte), whether it broke in the
trial or after it, and what broke:

  cut-sent 37 after no connection
  abort 4 in connection lost at eob
  abort 4 in timeout at eob
  abort 4 in continue in place of reject at eob
  offer 2 in reply not at this stage at rcpt

What broke is one of these:

  no connection                  none was made
  connection lost, timeout       no reply came, or none within --timeout
  VERDICT in place of VERDICT    another verdict than in the reference, or none;
                                 of a reply code its three digits are printed
  any other                      a reply that breaks the protocol

A filter may close the connection in a trial of a cut, ahead or mutated, and may
refuse an offer so. In the others its replies are compared too, and of an offer
the verdicts other than continue and skip. Where the session isn't answered to
its end after a trial, it is sent again for as long as --timeout says, as a
filter may be started anew; the trials end where it still isn't. At the end a
line is printed for each kind that was tried: its name, the number of its
trials, and how many broke.

  abort 12 trials 1 broke

Where the session isn't answered to its end at first there is no reference, and
one line alone is printed, as reference timeout at eob.

A fault is printed on standard error:

  bad address                    ADDRESS isn't of its form (status 2)
  bad value for --only           NAME is no kind of trial (status 2)
  cannot read session            the session file was not read, or is too large
  session line N: fault F        as milter_tool help session explains
  cannot connect                 the first connection was not made
  write fault                    standard output was not written
  out of memory                  memory was refused

Status: 0 where nothing broke, 1 where something did, without a reference or
after a fault, 2 after a wrong use of the command line.";
