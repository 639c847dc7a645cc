//! The zone of a drawn list of events.

/// Its text.
pub const EXAMPLE: &str = "\
example.com. 3600 IN SOA ns.example.com. hostmaster.example.com. 7 3600 600 86400 300
example.com. 3600 IN NS ns.example.com.
ns.example.com. 3600 IN A 192.0.2.53
www.example.com. 3600 IN A 192.0.2.1
alias.example.com. 3600 IN CNAME www.example.com.
*.wild.example.com. 3600 IN TXT w
sub.example.com. 3600 IN NS ns.sub.example.com.
";
