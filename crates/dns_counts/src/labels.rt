//! The labels of the counters, and the codes that they stand for.

ghost use Rattle.std.specs.Prelude.{◌≡◌, ◌≤◌, length, map, is_some};
ghost use Rattle.std.specs.List.{list_any};
ghost use Rattle.std.specs.Str.{bytes_eq};
ghost use Rattle.dns_counts.specs.Counters.{count_at};

pub(crate) const FLAGS: [&str; 6] = ["aa", "ad", "cd", "ra", "rd", "tc"];

pub(crate) const OPERATION_CODES: [u16; 4] = [0, 2, 4, 5];

pub(crate) const OPERATIONS: [&str; 5] = ["query", "status", "notify", "update", "unknown"];

pub(crate) const RESPONSE_CODES: [u16; 12] = [0, 1, 2, 3, 4, 5, 6, 7, 8, 9, 10, 16];

pub(crate) const RESPONSES: [&str; 21] = [
    "no_error",
    "form_error",
    "serv_fail",
    "nx_domain",
    "not_imp",
    "refused",
    "yx_domain",
    "yx_rrset",
    "nx_rrset",
    "not_auth",
    "not_zone",
    "bad_vers",
    "bad_sig",
    "bad_key",
    "bad_time",
    "bad_mode",
    "bad_name",
    "bad_alg",
    "bad_trunc",
    "bad_cookie",
    "unknown",
];

pub(crate) const LOOKUP_CODES: [u16; 2] = [0, 3];

pub(crate) const LOOKUPS: [&str; 2] = ["true", "false"];

pub(crate) const CLASS_CODES: [u16; 5] = [1, 3, 4, 254, 255];

pub(crate) const CLASSES: [&str; 6] = ["in", "ch", "hs", "none", "any", "unknown"];

pub(crate) const TYPE_CODES: [u16; 38] = [
    0, 1, 2, 5, 6, 10, 12, 13, 15, 16, 24, 25, 28, 33, 35, 37, 41, 43, 44, 46, 47, 48, 50, 51, 52,
    53, 59, 60, 61, 62, 64, 65, 250, 251, 252, 255, 257, 65305,
];

/// The place of each type below 66 among the labels of types: 38, the last one, for a type that has none.
pub(crate) const TYPE_PLACES: [u8; 66] = [
    0, 1, 2, 38, 38, 3, 4, 38, 38, 38, 5, 38, 6, 7, 38, 8, 9, 38, 38, 38, 38, 38, 38, 38, 10, 11,
    38, 38, 12, 38, 38, 38, 38, 13, 38, 14, 38, 15, 38, 38, 38, 16, 38, 17, 18, 38, 19, 20, 21, 38,
    22, 23, 24, 25, 38, 38, 38, 38, 38, 26, 27, 28, 29, 38, 30, 31,
];

pub(crate) const TYPES: [&str; 39] = [
    "zero",
    "a",
    "ns",
    "cname",
    "soa",
    "null",
    "ptr",
    "hinfo",
    "mx",
    "txt",
    "sig",
    "key",
    "aaaa",
    "srv",
    "naptr",
    "cert",
    "opt",
    "ds",
    "sshfp",
    "rrsig",
    "nsec",
    "dnskey",
    "nsec3",
    "nsec3param",
    "tlsa",
    "smimea",
    "cds",
    "cdnskey",
    "openpgpkey",
    "csync",
    "svcb",
    "https",
    "tsig",
    "ixfr",
    "axfr",
    "any",
    "caa",
    "aname",
    "unknown",
];

pub(crate) const RECORDS: [&str; 1] = ["file"];

pub(crate) const MODIFICATIONS: [&str; 3] = ["added", "updated", "deleted"];

pub(crate) const PROTOCOLS: [&str; 6] = ["udp", "tcp", "tls", "https", "quic", "http3"];

/// The label of a counter that has none.
pub(crate) const NO_LABELS: [&str; 1] = [""];

/// The count at the place of a label.
pub(crate) fn count_of_label(labels: &[&str], counts: &[u64], label: &str) -> Option<u64>
    requires { length labels.now ≤ length counts.now }
    ensures count { result ≡ count_at (map (λ known. known.now) labels.now) counts.now label.now }
    ensures found { is_some result ≡ list_any (λ known. bytes_eq label.now known) (map (λ known. known.now) labels.now) }
{
    for (place, known) in labels.iter().enumerate() {
        if label == *known {
            return Some(counts[place]);
        }
    }
    None
}
