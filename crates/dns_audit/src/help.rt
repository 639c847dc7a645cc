//! What the program says of itself.

/// The answer to `--version`.
pub const VERSION: &str = "dns-audit 0.1.0\n";

/// The answer to `--help`.
pub const HELP: &str = "\
dns-audit: tells what the journal of a DNS zone holds, and makes a short one of it

usage: dns-audit zone ORIGIN LENGTH [--journal=PATH]
       dns-audit list ORIGIN [--journal=PATH]
       dns-audit compact ORIGIN [--journal=PATH] [--into=PATH]
       dns-audit --help | --version

zone writes the zone that the first LENGTH rows of the journal stand for, as a master file (RFC 1035 5), and behind it the line
  ; length N serial S                    how many rows they are, and the zone's serial
LENGTH is what dns told as journal_len: the zone is the one on which it answered while its journal had so many rows.

list writes a line for each batch, which is the zone's beginning or an update that changed it:
  batch FIRST COUNT serial S client C    the id of its first row, how many rows, the serial behind it, and the number
                                         of the worker that settled it (0 for the beginning and a list of events)
A journal without rows and batches has no line.

compact writes the zone of all rows as the beginning of another journal, which has no row yet, and then the line
  rows N                                 how many rows that journal has
Its serial is the zone's, so a server goes on with it.

ORIGIN is the name at the top of the zone.

--journal= names the file of the journal, which has to be there. What it holds is not changed, but for its version: one of an
earlier version is brought to this one. While a server has it open, it is refused. Without it the journal is empty.

--into= names the file of the other journal. It is made where there is none. Without it the rows are gone when the program ends.

Exit status, and the one line that is written in place of the output:
  0   all was written
  1   usage                     the words are no command
  5   journal row R: KIND       the rows of the journal are no zone's: row R is the first that is refused; or no batch begins
                                at row R that covers rows from there on, though one should
  7                             the output could not be written
  8   keeper fault              a journal could not be read, written or opened; why it could not be opened, standard error says
  10                            memory ran out
  12  short ROWS                the journal has fewer rows than LENGTH: so many
  13  not empty                 the other journal has rows
  14  alias beside other        a name has an alias and another record, which no master file may have

example: dns-audit zone example.com. 9 --journal=example.journal
         dns-audit compact example.com. --journal=example.journal --into=short.journal
";
