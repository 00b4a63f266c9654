//! What the long help of each subcommand explains after its options.

/// The form of a session file, its limits, and its fault lines.
pub(crate) const SESSION: &str = "\
A session file has these lines, in this order:

  client U TEXT                  the client's host, once; or client 4 TEXT
                                 NUMBER TEXT with its port and address (4, 6 or
                                 L)
  helo TEXT                      its greeting, once
  macro STAGE TEXT TEXT          a name and a value; STAGE is connect, helo,
                                 mail, rcpt, data, eoh or eom
  message                        begins a message
  sender TEXT ..                 its sender and the parameters, once
  recipient TEXT ..              a recipient and the parameters, once or more
  header TEXT TEXT               a header field: name and value
  body TEXT                      a part of the body
  end                            ends the message; others may follow

TEXT is in double quotes, with the escapes \\\" \\\\ \\n \\r \\t and \\xHH. Blank lines,
and lines that begin with #, are skipped. A file has at most 134,217,728 bytes.
As:

  client 4 \"mail.example.org\" 49152 \"192.0.2.1\"
  helo \"mail.example.org\"
  message
  sender \"<ada@example.org>\"
  recipient \"<brook@example.net>\"
  header \"Subject\" \"Lunch\"
  body \"At one?\\r\\n\"
  end

It is printed in canonical form. The first fault is printed on standard error,
with the number N of its line, from 1:

  session line N: fault 1        an unknown line, or one in another form
  session line N: fault 2        no client line, or a bad one
  session line N: fault 3        a message without a recipient
  session line N: fault 4        a bad header line
  session line N: fault 5        the file ends within a message
  session line N: fault 6        a text is too large for a packet, or a message
                                 has more than 16,777,216 bytes
  session line N: fault 7        a NUL in a text other than a body's
  cannot read session            the file was not read, or is too large
  write fault                    standard output was not written
  out of memory                  memory was refused

Status: 0 after the whole session was printed, 1 after a fault, 2 after a wrong
use of the command line.";

/// The form of a rule file, its limits, and its fault lines.
pub(crate) const RULES: &str = "\
A rule file says what a filter asks for and what it answers. It has these lines,
in any order:

  version NUMBER                 the version of the protocol, 2 to 6; else 6
  actions NAMES                  the actions to ask for; else those that the
                                 edits of the rules need
  protocol NAMES                 the protocol bits to ask for; else SKIP, where
                                 a rule skips
  symbols STAGE TEXT             the names of the macros to ask for at a stage:
                                 connect, helo, mail, rcpt, data, eoh or eom
  at STAGE do ACTION             a rule
  at STAGE when CONDITION and CONDITION .. do ACTION
                                 a rule for where each of its conditions holds

NAMES are joined by |, or none. STAGE of a rule is connect, helo, mail, rcpt,
data, header, eoh, body or eob. CONDITION is one of

  FIELD is TEXT                  a value of the field equals the text
  FIELD has TEXT                 a value of the field contains it
  FIELD lacks TEXT               no value of the field contains it

in which the case of letters counts, but with --ignore-case where the rules are
used, and where FIELD is host, address, helo, sender, rcpt, header TEXT, body or
macro TEXT. Where the first line is rules 2, CONDITION is, with any of the
texts:

  FIELD is TEXT ..               FIELD has TEXT ..
  FIELD begins TEXT ..           FIELD ends TEXT ..
  FIELD like TEXT ..             as a pattern, with * for any bytes and ? for
                                 one; not of a body
  FIELD under TEXT ..            a domain, or one below it: of host, helo and
                                 domains
  FIELD lacks TEXT ..            no value contains any of the texts
  address within TEXT ..         the client is in a network, as 192.0.2.0/24
  size over NUMBER               the body has more bytes so far
  rcpts over NUMBER              there are more recipients so far
  FIELD in NAME                  a value of the field is in the list of this
                                 name

FIELD is also recipients, for all of them so far; and sender, rcpt and
recipients may end with -address, for the address as mail servers compare it,
however it is written, or with -domain. not before a condition negates it,
any-case after the test has the case of letters not count, and or joins
conditions less closely than and. Lists are files. Right behind that first line
each has a line list NAME KIND FILE, with its path as a TEXT, and KIND is one of

  addresses                      for sender-address, rcpt-address,
                                 recipients-address
  domains                        for host, helo and domains: example.org is this
                                 one alone, and .example.org all below it
  networks                       for address
  texts                          for the other fields, host and address, but not
                                 for header and body; the case of letters
                                 doesn't count

The file of a list has an entry a line, at most 1,000,000; blank lines, and
lines that begin with #, are skipped. ACTION is a verdict:

  continue, accept, reject, tempfail, discard, skip, code TEXT

or, at eob alone, an edit:

  add-header TEXT TEXT           insert-header NUMBER TEXT TEXT
  change-header NUMBER TEXT TEXT
  add-rcpt TEXT                  add-rcpt-par TEXT [TEXT]
  del-rcpt TEXT                  change-from TEXT [TEXT]
  replace-body TEXT              quarantine TEXT
  progress

and where the first line is rules 2 also

  del-header TEXT                deletes all header fields of this name that
                                 were seen
  prefix-header TEXT TEXT        puts the second text before the value of the
                                 first header field of the name that the first
                                 text is

At each stage the rules of the stage that hold are gone through in order, up to
the first that is a verdict: the edits before it and that verdict are the
answer, or the edits and continue.

TEXT is in double quotes, with the escapes \\\" \\\\ \\n \\r \\t and \\xHH. Blank lines,
and lines that begin with #, are skipped. A file has at most 134,217,728 bytes,
10,000 rules and 100 lists. As:

  rules 2
  at rcpt when rcpt-address is \"old@example.net\" do code \"550 5.1.1 Moved\"
  at eoh when header \"X-Spam\" is \"yes\" do reject
  at eob do add-header \"X-Seen\" \"mx.example.net\"

It is printed in canonical form. With --check it isn't printed: in place of it
there is a line FILE:LINE: TEXT for each thing that is to be said of it, also
for a fault, as of a word that isn't known or a rule that can never apply. The
status is 1 where there is one, but for hints: of what works, and can be written
better. Without it the first fault is printed on standard error, with the number
N of its line, from 1:

  rules line N: fault 1          an unknown line, or a bad or repeated one of
                                 version, actions, protocol, symbols or list
  rules line N: fault 2          no stage, or an unknown one
  rules line N: fault 3          a bad condition, or no do
  rules line N: fault 4          a bad action, or a NUL in its text
  rules line N: fault 5          an action that can't be at this stage
  rules line N: fault 6          a text is too large for a packet, the edits
                                 have more than 16,777,216 bytes, or too many
                                 rules or lists
  cannot read rules              the file was not read, or is too large
  write fault                    standard output was not written
  out of memory                  memory was refused

Where rules are used, fault 8 is that of a list whose file isn't read, is too
large or has a bad entry. Here lists are read with --check alone, which says
what is wrong.

Status: 0 after all rules were printed, or no more than hints were to be given,
1 after a fault or what else was said, 2 after a wrong use of the command line.";

/// What is read and written by the filter's end on standard input and output, and its fault lines.
pub(crate) const ANSWER: &str = "\
Standard input is what a mail server (MTA) sends to a filter, and standard
output is what the filter replies: the packets of the milter protocol, byte for
byte. The filter asks for what the rule file says, and answers by its rules:
milter_tool help rules has their form. Without one it negotiates version 6, or
the lower version that is offered, with no actions and no protocol bits, and it
replies Continue to each command that is to be replied to. It keeps nothing
that comes of a message after that message.

What is read is replied to before more is read. So standard input and output may
be one socket, of a connection that a super-server took: systemd with
Accept=yes, tcpserver or socat.

It ends where the mail server quits, where the input ends, or at the first
fault, which is printed on standard error after the replies to what comes before
it:

  filter fault 1                 a command before the offer of options
  filter fault 2                 an offer of a version below 2
  filter fault 3                 a command out of order
  filter fault 4                 the packets of a connection and of a message
                                 have more than 16,777,216 bytes together
  filter fault 5                 a packet has length 0 or above 65536, an
                                 unknown code, or a payload that isn't in its
                                 layout
  filter fault 6                 a second offer of options
  input truncated B bytes        the input ends after B bytes of a packet
  cannot read rules              the rule file was not read, or is too large
  rules line N: fault K          the rule file has a fault
  read fault                     standard input was not read
  write fault                    standard output was not written
  out of memory                  memory was refused
  turn limit                     the input goes on after 1,073,741,824 reads

Status: 0 after the mail server has quit or the input has ended after a packet,
1 after a fault, 2 after a wrong use of the command line.";

/// Where connections are taken, what is printed of each, and the fault lines.
pub(crate) const FILTER: &str = "\
ADDRESS is where mail servers (MTAs) connect:

  inet:PORT@HOST                 a TCP port from 1 to 65535 of a host's name, or
                                 of an IP address (IPv6 without brackets)
  unix:PATH                      a Unix socket, which is made; a path that
                                 exists is refused, and no path is removed

as inet:8890@127.0.0.1. The filter asks for what the rule file says, and answers
by its rules: milter_tool help rules has their form. Without one it lets all
mail go on. Each connection is served to its end before the next one is taken,
and nothing limits how long one takes.

A line is printed for each connection as it ends, with its number N, from 1:

  connection N quit              the mail server has quit
  connection N ended B           it closed the connection, B bytes after the
                                 last whole packet
  connection N failed K          the connection was given up, for fault K as in
                                 milter_tool help answer; 7 is out of memory
  connection N read fault        the connection was not taken, or not read
  connection N write fault       a reply was not sent
  connection N turn limit        the connection goes on after 1,073,741,824
                                 reads

A fault is printed on standard error:

  bad address                    ADDRESS isn't of its form (status 2)
  cannot read rules              the rule file was not read, or is too large
  rules line N: fault K          the rule file has a fault
  cannot listen                  the socket was not bound
  write fault                    standard output was not written
  out of memory                  memory was refused

Status: 0 after so many connections as were asked for, 1 after a fault, 2 after
a wrong use of the command line.";

/// Where connections are taken, how they are served, what is printed of each, and the fault lines.
pub(crate) const SERVE: &str = "\
ADDRESS is where mail servers (MTAs) connect:

  inet:PORT@HOST                 a TCP port from 1 to 65535 of a host's name, or
                                 of an IP address (IPv6 without brackets)
  unix:PATH                      a Unix socket, which is made with the mode
                                 OCTAL; a socket there on which nobody listens
                                 any more is replaced, any other file is refused

as inet:8890@127.0.0.1. With several addresses it listens on all of them. The
filter asks for what the rule file says, and answers by its rules: milter_tool
help rules has their form. Of the stages it asks for those alone that the rules
need, but for all with --all-stages, and as a line protocol of the file says.
Without a file it lets all mail go on. Connections are served at once, up to N
of them; others wait. A greeting or a sender that comes within a message ends
that message, as with --lenient.

A line is printed for each connection as it ends, with its number, as by filter:
milter_tool help filter has their forms. One that was idle for too long is
closed, and its line says read fault.

A rule file that changes, or the file of a list of it, holds for the connections
that come then. Where it has a fault, the rules before stay.

The log on standard error has lines of keys with values in quotes:

  event=\"NAME\" ..                it starts, listens, reads rules again or can't,
                                 lacks descriptors or memory, or ends by a fault
  connection=\"N\" ..              with --log, a decision that isn't to go on:
                                 the client, the message, the stage, the
                                 verdict, the line of the rule file, and edits

With the word all after --log each message that goes on to its end has a line
too. A line that isn't written is lost, and the next one says how many were.

A fault is printed on standard error:

  bad address                    an ADDRESS isn't of its form (status 2)
  bad mode                       OCTAL has a digit above 7 (status 2)
  cannot read rules              the rule file was not read, or is too large
  rules line N: fault K          the rule file has a fault
  cannot listen                  a socket was not bound, or not waited for
  out of memory                  memory was refused

It goes on until it is ended from outside. Status: 1 after a fault, 2 after a
wrong use of the command line.";

/// What is played, the form of an event file with an example, and the fault lines.
pub(crate) const PLAY: &str = "\
SESSION is a session file, and the filter answers by the rules of a rule file:
milter_tool help session and milter_tool help rules have their forms. The mail
server's end is that of milter_tool mta, with the same NAMES and the same
--loss, the filter's end that of milter_tool filter, and the bytes between them
stay in memory. Without an event file there is one connection, on which
everything arrives, and every message is settled by it.

An event file says what happens instead. It has a line for each event, in order:

  dial                           a connection is made, where one is wanted
  send N                         the mail server's end sends N bytes of a packet
  to-filter N                    the filter's end takes N of the bytes sent
  answer N                       the filter's end answers N bytes
  to-mta N                       N of the bytes answered reach the mail server's
                                 end
  die                            the filter dies; what it answered is still on
                                 its way
  lose                           the connection is lost, or couldn't be made
  timeout                        the filter took too long
  round N                        send N, to-filter N, answer N and to-mta N
  rounds COUNT N                 so many rounds

N and COUNT are numbers up to 4294967295. Where fewer than N bytes are there,
all of them are moved, and an event that can't be at its place changes nothing.
Blank lines, and lines that begin with #, are skipped. A file has at most
134,217,728 bytes and 10,000,000 events, four for each round.

What is printed has the form that milter_tool help mta explains, for the
messages that are settled; the events need not settle all. With --expect nothing
is printed where that is the text of the FILE, in which lines stand for others
as milter_tool help mta says. With the rules

  at eob do add-header \"X-One\" \"1\"
  at eob do add-header \"X-Two\" \"2\"

the answer to the end of a message's body is two edits, of 13 bytes each, and a
verdict. So the filter dies between the two edits by these events:

  dial
  rounds 7 100
  send 100
  to-filter 100
  answer 13
  die
  to-mta 100
  lose

Seven rounds play the options, connect, helo, sender, recipient, data and the
end of the header of a message with one recipient, no header and no body. That
message is printed as

  message 1 default reset refused \"451 4.3.2 Please try again later\"
  acted connect 1 continue
  acted helo 1 continue
  acted mail 1 continue
  acted rcpt 1 continue
  acted data 1 continue
  acted eoh 1 continue

A fault of what was asked for is printed on standard error:

  bad value for --actions        NAMES isn't of its form (status 2)
  bad value for --protocol       NAMES isn't of its form (status 2)
  cannot read rules              the rule file was not read, or is too large
  rules line N: fault K          the rule file has a fault
  cannot read session            the session file was not read, or is too large
  session line N: fault K        the session file has a fault
  cannot read events             the event file was not read, or is too large
  events line N: fault 1         an unknown line, or one in another form
  events line N: fault 2         with this line there are too many events
  cannot read reports            the file of --expect was not read, or is too
                                 large
  differs at line N              the messages aren't what --expect has; they
                                 were printed
  write fault                    standard output was not written
  out of memory                  memory was refused

Status: 0 after the messages were printed, also those of a lost filter, 1 after
a fault, 2 after a wrong use of the command line.";
