//! What the long help of the subcommand `mta` explains after its options.

/// Where the filter is, what is offered to it, what is printed of the messages, and the fault lines.
pub(crate) const MTA: &str = "\
ADDRESS is where the filter listens:

  inet:PORT@HOST                 a TCP port from 1 to 65535 of a host's name, or
                                 of an IP address (IPv6 without brackets)
  unix:PATH                      a Unix socket

as inet:8890@127.0.0.1. SESSION is a session file: milter_tool help session has
its form. Its messages are played one after another. A connection that is lost
settles the message that is being played by --loss, and the next one is played
over a new connection. With --wait connecting is tried again until a filter
listens. With --at-loss the first connection is closed once N bytes were sent
over it, as where a mail server goes away in mid-stream; with 0 at once.

MACRO is STAGE:NAME=VALUE, where STAGE is connect, helo, mail, rcpt, data, eoh
or eom. It is sent at STAGE after the macros of the session, and in place of
those that have the same NAME, which is with its braces as in

  --macro connect:j=mx.example.org --macro mail:{auth_type}=PLAIN

NAMES are joined by |, or none. The actions are

  ADDHDRS CHGBODY ADDRCPT DELRCPT CHGHDRS QUARANTINE CHGFROM ADDRCPT_PAR
  SETSYMLIST

and the protocol bits

  NOCONNECT NOHELO NOMAIL NORCPT NODATA NOHDRS NOEOH NOBODY NOUNKNOWN SKIP
  NR_CONN NR_HELO NR_MAIL NR_RCPT NR_DATA NR_HDR NR_EOH NR_BODY NR_UNKN
  HDR_LEADSPC

With --show-negotiation the offer of the first connection and the reply to it
are printed at first, as milter_tool trace --names has them; they are none of
the reports that --expect compares:

  > O version 6 actions 00000021 ADDHDRS|QUARANTINE protocol 00000000 none
  < O version 6 actions 00000001 ADDHDRS protocol 00000000 none

Of each message this is printed once it is settled, and with --wait, --expect or
--show-negotiation once all of them are:

  connection VERDICT             the verdict that ended the client's connection
  message N BY OUTCOME           what settled message N, from 1, and how
  acted STAGE NTH VERDICT        a verdict on it, to the NTH step of a stage

BY is filter, connection, or default and why the filter was lost: reset,
timeout, memory, or fault K. OUTCOME is released, discarded, refused TEXT,
no-recipients or refused-at-connection. A released message follows as it is sent
on, in lines as those of a session file, after a line quarantine TEXT where it
is quarantined. With --expect nothing is printed where this is the text of the
FILE, in which a line ... stands for any lines, and a line like PATTERN for one
line, where * in the PATTERN is any characters and ? any one.

  fault 1                        a packet has length 0 or above 65536, an
                                 unknown code, or a payload that isn't in its
                                 layout
  fault 2                        an answer of a version below 2 or above 6
  fault 3                        an answer with actions that weren't offered
  fault 4                        an answer with protocol bits that weren't
                                 offered
  fault 5                        a reply that can't be at its stage
  fault 6                        an edit that wasn't negotiated
  fault 7                        the edits of a message have more than
                                 16,777,216 bytes
  fault 8                        a reply where none was due

A fault of what was asked for is printed on standard error:

  bad value for --actions        NAMES isn't of its form (status 2)
  bad value for --protocol       NAMES isn't of its form (status 2)
  bad value for --macro          a MACRO isn't of its form, or too large with
                                 the session (status 2)
  bad address                    ADDRESS isn't of its form (status 2)
  cannot read reports            the file of --expect was not read, or is too
                                 large
  cannot read session            the session file was not read, or is too large
  session line N: fault K        the session file has a fault
  cannot connect                 no filter listened while --wait lasted
  differs at line N              the messages aren't what --expect has; they
                                 were printed
  write fault                    standard output was not written
  out of memory                  memory was refused

Status: 0 after the messages were settled, also by a lost filter, 1 after a
fault, 2 after a wrong use of the command line.";
