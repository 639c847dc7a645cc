//! What the program says of itself.

/// The answer to `--version`.
pub const VERSION: &str = "dns-follow 0.1.0\n";

/// The answer to `--help`.
pub const HELP: &str = "\
dns-follow: feeds the journal of a DNS zone to other machines, and follows such a feed

usage: dns-follow feed ORIGIN FROM [--journal=PATH]
       dns-follow follow ORIGIN [--journal=PATH]
       dns-follow --help | --version

feed writes the rows of the journal from row FROM on to standard output, each as a frame: two bytes of length, then the row's number,
its client, its serial, a mark on the last row of a batch, and the record. Before it writes the first of them it sees that the journal
is in place. FROM is 1 for all of it, or one more than the length that a follower told.

follow reads such a feed from standard input to its end. A batch, which is the zone's beginning or one update, is stored once all of its
rows are there, and only where the zone with it stands; rows that came before or come too early are passed over. At the end it writes
  length N serial S         how many rows the journal has, and the zone's serial; - for S where there is no zone yet
So a follower that is fed of one journal alone is never wrong, only behind: feed it again from row N + 1, or from row 1. For another
journal, or one that was made short, begin with a new file: rows are told by their numbers alone.

ORIGIN is the name at the top of the zone. follow refuses rows of another zone; feed does not look at it.

--journal= names the file of the journal. For feed it has to be there, and what it holds is not changed, but for its version: one of an
earlier version is brought to this one. For follow it is made where there is none. While a server has it open, it is refused. Without it
the journal is empty, and gone when the program ends.

Exit status, and the one line that is then written, by feed behind what it wrote:
  0   all was done
  1   usage                           the words are no command
  5   journal row R: KIND             follow: row R of the journal is refused, or no batch begins there that covers rows, though one should
  5   journal row R: out of place     feed: row R is not where it should be, or not covered by a batch, or has a client or serial of more
                                      than 32 bits
  6   read fault                      the input could not be read
  7                                   the output could not be written
  8   keeper fault                    the journal could not be read, written or opened; why it could not be opened, standard error says
  10                                  memory ran out
  30  too long                        a row has more bytes than a frame has room for
  31  bad frame                       a frame of the input carries no row
  32  mixed                           a row of the input does not belong to the batch of the rows before it
  33  refused                         a batch of the input makes no zone of what is stored
  34  turns                           the input was read 4294967296 times, and was not at its end
Whatever the status, the batches that were taken whole before are stored. One whose storing a fault of the journal or a crash cut off is
there whole or not at all.

example: dns-follow feed example.com. 1 --journal=primary.journal | dns-follow follow example.com. --journal=second.journal
";
