//! What the long help of the subcommand `trace` explains after its options.

/// The form of a trace, what is printed of it, and its fault lines.
pub(crate) const TRACE: &str = "\
Without a FILE standard input is read. Files are read one after another, each as
an input of its own, and what is printed of them follows in the same order.

An input is lines, of at most 262,144 bytes each:

  > DIGITS  bytes from the mail server (MTA) to the filter
  < DIGITS  bytes from the filter to the mail server

DIGITS are hexadecimal digits, two a byte. Each direction is one stream of
bytes: a packet may be cut over lines, and a line may have several packets.
Blank lines, and lines that begin with #, are skipped.

A line is printed for each packet once it is whole: its direction, code and
fields. From

  # both offer options
  > 0000000d4f00000006
  > 000001ff001fffff
  < 0000000D4F000000060000001100000000

the program prints

  > O version 6 actions 000001ff protocol 001fffff
  < O version 6 actions 00000011 protocol 00000000

With --names the names of the bits follow each number, joined by |, or none:

  < O version 6 actions 00000011 ADDHDRS|CHGHDRS protocol 00000000 none

A bit without a name is in the number alone. Of a body (B, E and b) the number
of its bytes is printed, and with --bodies the first N of them after it. With
--bodies 5:

  > B 9 \"At on\"

With --pcap each input is a capture, pcap or pcapng as tcpdump -w writes it, of
at most 134,217,728 bytes. Its TCP connections that begin as those of a mail
server with a filter are printed in the order in which they begin: a line with
their number and addresses, and then the packets, each with the seconds since
the connection began:

  connection 1 192.0.2.1:40000 192.0.2.2:8891
  0.000213 > O version 6 actions 000001ff protocol 001fffff

Lines without a time say what is missing of a direction: lost N bytes to the
filter, or to the mail server, of which nothing more is printed; or end: D
truncated N bytes. A packet that can't be read has a line D fault: and why, and
nothing more is printed of its direction. The last line, left out N connections,
counts the others of the capture.

The first fault ends the program. It is printed on standard error, with the
number N of its line, from 1, and the direction D of its packet; --explain says
in which file it is:

  line N: bad line               line N has another form
  line N: D zero length          a packet has length 0
  line N: D length L too long    a packet has length L, above 65536
  line N: D unknown code C       no packet of this direction has the code C
  line N: D malformed C          a packet's payload isn't in the layout of its
                                 code
  end: D truncated B bytes       the input ends after B bytes of a packet; a
                                 line for each direction
  not a capture                  with --pcap: the input begins otherwise
  record N: truncated            the capture ends within its record N
  record N: bad record           the record has no form of a record
  record N: unknown link type L  the record's frame isn't read
  read fault                     standard input was not read
  cannot read trace              a file was not read; of captures, cannot read
                                 capture
  write fault                    standard output was not written
  out of memory                  memory was refused
  turn limit                     the input goes on after 1,073,741,824 reads

Status: 0 after the end of each input, 1 after a fault, 2 after a wrong use of
the command line.";
