//! What the long help of the subcommand `replay` explains after its options.

/// Where the filter is, what is sent to it, what is printed, and the fault lines.
pub(crate) const REPLAY: &str = "\
ADDRESS is where the filter listens:

  inet:PORT@HOST                 a TCP port from 1 to 65535 of a host's name, or
                                 of an IP address (IPv6 without brackets)
  unix:PATH                      a Unix socket

as inet:8890@127.0.0.1. TRACE is a file in the form that milter_tool help trace
explains: a conversation of one connection, as it was recorded. It begins with
the mail server's offer, and has at most 134,217,728 bytes.

The mail server's packets are sent to the filter in order: the offer as it was
recorded, and each command once the one before is answered, where a reply to it
is due by what is negotiated now. A command that the filter doesn't want is left
out. All else is sent as it was recorded, also macros and aborts. With --wait
connecting is tried again until a filter listens.

Each packet is printed in a line as milter_tool trace has it, a command and then
the replies to it, each behind two characters:

  two blanks                     it was sent, or came as it was recorded
  - and a blank                  it was recorded, and was not sent or did not
                                 come
  + and a blank                  it came, and was not recorded
  ! and a blank                  in place of a packet, why the filter was lost:
                                 connection lost, timeout, out of memory, or
                                 what it sent that can't be taken

A recorded reply belongs to the first command to which one was still due by what
was negotiated in the recording, and is printed with it. Progress is left out.

A fault is printed on standard error:

  bad address                    ADDRESS isn't of its form (status 2)
  cannot read trace              the trace was not read, or is too large
  trace line N: fault 1          line N has another form
  trace line N: fault 2          a packet that becomes whole in line N is at
                                 fault, or the length of one
  trace line N: fault 3          the trace ends within a packet
  trace line N: fault 4          it doesn't begin with the mail server's offer
  trace line N: fault 5          a second offer
  cannot connect                 no filter listened while --wait lasted
  differs at line N              the first command that was answered otherwise
                                 has its last byte in line N of TRACE
  write fault                    standard output was not written
  out of memory                  memory was refused

Status: 0 where all replies are as they were recorded, 1 where one differs, the
filter is lost or after a fault, 2 after a wrong use of the command line.";
