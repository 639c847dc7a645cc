//! What the program says of itself.

/// The answer to `--version`.
pub const VERSION: &str = "dns 0.1.0\n";

/// The answer to `--help`.
pub const HELP: &str = "\
dns: an authoritative DNS server for one zone

usage: dns serve ORIGIN [--udp=IP:PORT] [--tcp=IP:PORT] [--connections=N] [--limit=MS] [--workers=N] [OPTION]...
       dns events ORIGIN [OPTION]...
       dns load SEED COUNT
       dns --help | --version

options of serve and events:
       [--zone=PATH] [--journal=PATH] [--update] [--deny=IP/PREFIX]... [--allow=IP/PREFIX]... [--payload=N]

serve answers what comes by UDP and by TCP at these addresses, at least one of them, until its standard input ends. Then
it writes its two closing lines. IP:PORT is 127.0.0.1:53 or [::1]:53; 0.0.0.0:53 is every IPv4 address, [::]:53 every address.
In the place of an IP may stand its 8 hex digits (IPv4) or 32 (IPv6), as in what events reads and writes: 7f000001:53.
  --connections=  how many connections may be open at once, 1 to 65536; 4096 where it does not stand. Where as many are open, the one
                  that has been silent for the longest time and is owed nothing is closed for a newcomer.
  --limit=        for how many milliseconds a connection may stay without a whole message; 5000 where it does not stand, 0 for
                  any time.
  --workers=      how many threads serve connections, 1 to 64; 1 where it does not stand. They share the connections that may be open.
A connection has at most 100 messages: the 100th is answered, then it is closed, and what came behind it is dropped.

events answers a list of events from standard input, and writes a line for each reply: the same server without a network.

load answers COUNT messages, 1 to 100000, that are drawn from SEED, a number below 2^64: queries by datagram and over four
connections, and updates, for 64 hosts of a small zone example.com of its own, which lets updates in. The same SEED and COUNT
give the same lines.

ORIGIN is the name at the top of the zone.

--zone= names the file of the zone text, a master file (RFC 1035 5) without $INCLUDE. Its types are A, AAAA, NS, CNAME, PTR, MX,
SRV, SOA and TXT, and any other by its number (RFC 3597 5). Without it the zone text is empty, which is no zone.

--journal= names the file of the journal, a database of SQLite. It is made where there is none. Where it has rows, the zone
is what they stand for, and no zone text is read. A journal of an earlier version is brought to this one when it is opened.
Without it the journal is in memory, and gone when the program ends.

--update lets updates in (RFC 2136), from whoever is let in. An update that passes comes into the journal before it is
answered. Without --update it is Refused.

--deny= and --allow= name networks, as 192.0.2.0/24 or 2001:db8::/32: the addresses that have the first PREFIX bits of IP, at
most 32 or 128 of them.
Within the sender's own address family, a sender in an allowed network is let in; else one in a denied network is
shut out; else it is let in, unless there are allowed networks and no denied ones. Who is shut out gets Refused.

--payload= is how many bytes a datagram has at most that is sent, 512 to 65507, whatever the EDNS OPT of the query offers; 65507 where it
does not stand, which is all that IPv4 carries. A reply that does not fit is cut, and says so (TC): it is to be asked for by TCP. 1232 keeps
replies from being cut into fragments on the way, and small for whoever has them sent to somebody else.

An event line is one of these, with one space between words:
  A AT CONN IP PORT LIMIT  a connection was accepted
  B AT CONN HEX            bytes came over a connection
  E AT CONN                a connection ended
  D AT IP PORT HEX         a datagram came in
  T AT                     time passed
  S AT                     the server stops, and no line follows
AT is a moment in milliseconds, not below that of the line before; CONN the connection's number, greater than those
accepted before; LIMIT for how many milliseconds it may stay without a whole message, or 0. AT and LIMIT are below
2^47. IP and PORT are the other end, IP in 8 or 32 hex digits. HEX is at most 65535 bytes, two hex digits each, or - for none. On a
connection each message stands behind the two bytes of its length; the 100th message is answered, and closes it. Empty lines and
lines that begin with # are passed over.

The output of events has a line for each reply, P IP PORT HEX or C CONN HEX. That of load has in their place
  messages N     how many messages were drawn
  replies N      how many replies there are
  bytes N        how many bytes they take, with those of their length on a connection
  noerror N      how many of them say NoError
  nxdomain N     how many of them say NXDomain
Then come, in every command,
  serial N       the zone's serial
  journal_len N  how many rows the journal has
and in events and load
  open N         how many connections are open

Exit status, and the one line that is written in place of the output:
  0   the output was written
  1   usage                     the words are no command
  2   zone text line L: KIND    line L of the zone text is faulty
  3   event line L              line L of the event text is faulty
  4   not valid                 the events break a rule above: a moment that falls or is too great, and so on
  5   journal row R: KIND       the rows of the journal are no zone's: row R is the first that is refused; or no batch begins
                                at row R that covers rows from there on, though one should
  6   read fault                the zone text or the event text could not be read
  7                             the output could not be written
  8   keeper fault              the journal could not be read or opened; why it could not be opened, standard error says
  9   too long                  the zone text has more than 16777216 bytes, or the event text more than 8388608
  10                            memory ran out
  11  port fault                an address could not be listened at, or receiving at it failed

example: dns serve example.com. --zone=examples/example.com.zone --udp=127.0.0.1:5300 --tcp=127.0.0.1:5300
         and at another terminal: dig @127.0.0.1 -p 5300 www.example.com
";
