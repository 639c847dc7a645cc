//! That a zone which is printed in absolute names and read is itself: each law is a call that does nothing and whose contract is
//! the law.
//!
//! `zone_of` is the definition of reading, and what `read_zone` of dns_zone gives. `IsZone` and `IsKept` ask nothing of a caller that
//! has a zone: `Zone::records` says the one, and `kept_records` of dns_wire the other.

ghost use Rattle.std.specs.Prelude.{◌≡◌, ◌<◌, ◌+◌, ◌++◌, ℕ, List, length, take, Ok, codes};
ghost use Rattle.std.specs.List.{AllByRecursion};
ghost use Rattle.dns_wire.specs.declared.record.Record.{Record};
ghost use Rattle.dns_zone_map.specs.Zone.{IsEntry, IsZone};
ghost use Rattle.dns_presentation.specs.declared.entry.Context.{Context};
ghost use Rattle.dns_zone.specs.ZoneText.{zone_of};
ghost use Rattle.dns_wire.specs.Kept.{IsKept};
ghost use Rattle.dns_printed.specs.Lone.{HasLoneAliases};
ghost use Rattle.dns_printed.specs.Printed.{record_line, zone_text, line_at};
ghost use Rattle.dns_printed.specs.Reading.{Says};
ghost use Rattle.dns_printed.specs.Rows.{address, wide_address, host, exchange, service, start, strings, private_type, wildcard, odd_name};

/// How records are printed, each form once.
pub fn printed_rows()
    ensures a { record_line address ≡ codes "www.example.com. 3600 IN A 192.0.2.1" }
    ensures aaaa { record_line wide_address ≡ codes "www.example.com. 3600 IN AAAA 2001:db8:0:0:0:0:0:1" }
    ensures ns { record_line host ≡ codes "www.example.com. 0 IN NS ." }
    ensures mx { record_line exchange ≡ codes "www.example.com. 4294967295 IN MX 10 mail.example.com." }
    ensures srv { record_line service ≡ codes "_sip._tcp.example.com. 3600 IN SRV 1 20 5060 sip.example.com." }
    ensures soa { record_line start ≡ codes "example.com. 3600 IN SOA ns.example.com. admin.example.com. 2024010100 7200 3600 1209600 300" }
    ensures txt { record_line strings ≡ codes "www.example.com. 3600 IN TXT \"a b;c\" \"\" \"\\034\\092\\010\\255\"" }
    ensures opaque { record_line private_type ≡ codes "www.example.com. 3600 IN TYPE65280 \\# 3 00ab0f" }
    ensures wildcard { record_line wildcard ≡ codes "*.example.com. 3600 IN CNAME www.example.com." }
    ensures odd { record_line odd_name ≡ codes "a\\046b\\000c.example.com. 3600 IN PTR \\064." }
{}

/// How the text of a zone's records goes on from line to line.
pub fn printed_lines()
    // The line at a place stands behind the text of the records before it.
    ensures { (records : List Record) (place : ℕ) → place < length records
        → zone_text (take (place + 1) records) ≡ zone_text (take place records) ++ line_at records place }
{}

/// What the line of a record is read as.
pub fn printed_records()
    // As that record, with the TTL that it states, whatever stands before it.
    ensures { (origin : List (List ℕ)) (context : Context) (number : ℕ) (r : Record) → IsEntry origin r → IsKept r → Says context number r }
{}

/// What the text of a zone's records is read as.
pub fn printed_zones()
    // As those records, in their order: a zone that is printed in absolute names and read is itself, where no alias stands beside
    // another record.
    ensures zone { (origin : List (List ℕ)) (records : List Record)
        → IsZone origin records → AllByRecursion IsKept records → HasLoneAliases records
        → zone_of origin (zone_text records) ≡ Ok records }
    // In no zone that a text gives does an alias stand beside another record.
    ensures alone { (origin : List (List ℕ)) (text : List ℕ) (records : List Record)
        → zone_of origin text ≡ Ok records → HasLoneAliases records }
    // So a zone that a text gives, when it is printed and read again, is itself.
    ensures again { (origin : List (List ℕ)) (text : List ℕ) (records : List Record) → zone_of origin text ≡ Ok records
        → IsZone origin records → AllByRecursion IsKept records → zone_of origin (zone_text records) ≡ Ok records }
{}
