//! What the program says of itself.

/// The answer to `--version`.
pub const VERSION: &str = "dns-nsupdate 0.1.0\n";

/// The answer to `--help`.
pub const HELP: &str = "\
dns-nsupdate: sends the updates of a script to a DNS server (RFC 2136)

usage: dns-nsupdate --server=IP:PORT --id=N
       dns-nsupdate --help | --version

The script is read from standard input, to its end. Then a connection is made to the server, by TCP, and a new one behind each hundred
messages; each message of the script is sent in turn, and the next one only when the reply has come. At the end a line ID CODE is
written for each: its id in four hex digits, and the code of the reply in decimal, 0 for NoError.
  --server=  the server's address and port, as 127.0.0.1:53 or [::1]:53. In the place of an IP may stand its 8 hex digits (IPv4) or 32
             (IPv6): 7f000001:53.
  --id=      the id of the first message, below 65536. Those of the others count on from it, and 0 follows 65535.

A line of the script is one of these, its words parted by spaces and tabs:
  zone NAME                    the zone of the messages from here on
  prereq yxdomain NAME         the name is to be in use
  prereq nxdomain NAME         the name is to be in no use
  prereq yxrrset NAME TYPE     records of the type are to be there
  prereq nxrrset NAME TYPE     no records of the type are to be there
  prereq yxrrset NAME TYPE DATA
                               records of the type are to be there, with all data that such lines give and no other
  add NAME TTL TYPE DATA       adds a record
  delete NAME                  deletes all records of a name
  delete NAME TYPE             deletes those of a type
  delete NAME TYPE DATA        deletes one record
  send                         ends one message
The word update may stand before add and delete. NAME is a name of its own, with or without a dot at its end. DATA is as in a
master file (RFC 1035 5). Empty lines and lines that begin with ; are passed over. A script that has a line at fault sends nothing.

Exit status, and the one line that is written in place of the output:
  0   each message was answered, whatever the codes are
  1   usage                 the words are not as above
  6   read fault            the script could not be read; or there is no connection to the server, or it sent nothing for 5 seconds
  7                         the output could not be written; or the server took nothing for 5 seconds, or was gone
  9   too long              the script has more than 1048576 bytes
  10                        memory ran out
  20  script line L: KIND   line L of the script is faulty
  21  ended                 the server ended before a reply was whole
  22  mismatch              a reply has another id than its message
  23  notreply              what came is no reply to an update
  24  proto                 a message has more than 65535 bytes, or what came is no message

example: printf 'zone example.com.\\nadd new.example.com. 60 A 192.0.2.55\\nsend\\n' | dns-nsupdate --server=127.0.0.1:5300 --id=1
";
