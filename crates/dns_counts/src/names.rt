//! The names of the counters.

/// Flags of requests: `aa`, `ad`, `cd`, `ra`, `rd`, `tc` (RFC 1035 4.1.1, RFC 4035 3.1.6, 3.2.2).
pub const REQUEST_FLAGS_TOTAL: &str = "hickory_request_flags_total";

/// Flags of replies, with the labels of those of requests.
pub const RESPONSE_FLAGS_TOTAL: &str = "hickory_response_flags_total";

/// Opcodes of requests: `query`, `status`, `notify`, `update`, `unknown` (RFC 1035 4.1.1, RFC 1996, RFC 2136).
pub const REQUEST_OPERATIONS_TOTAL: &str = "hickory_request_operations_total";

/// Response codes: `no_error` to `not_zone` for 0 to 10, `bad_vers` for 16 (RFC 1035 4.1.1, RFC 2136 2.2, RFC 6891 9);
/// the other labels stay 0.
pub const RESPONSE_CODES_TOTAL: &str = "hickory_response_codes_total";

/// Look-ups in the zone: `true` with the code NoError, `false` with NXDomain.
pub const ZONE_LOOKUPS_TOTAL: &str = "hickory_zone_lookups_total";

/// Classes of questions: `in`, `ch`, `hs`, `none`, `any`, `unknown` (RFC 1035 3.2.4, RFC 2136 2.4).
pub const REQUEST_DNS_CLASSES_TOTAL: &str = "hickory_request_dns_classes_total";

/// Classes of answers, an OPT left out, with the labels of those of questions.
pub const RESPONSE_DNS_CLASSES_TOTAL: &str = "hickory_response_dns_classes_total";

/// Types of questions, by their mnemonics in lower case; `zero` for 0, and `unknown`.
pub const REQUEST_RECORD_TYPES_TOTAL: &str = "hickory_request_record_types_total";

/// Types of answers, with the labels of those of questions.
pub const RESPONSE_RECORD_TYPES_TOTAL: &str = "hickory_response_record_types_total";

/// `file`: how many records the zone has now.
pub const ZONE_RECORDS_TOTAL: &str = "hickory_zone_records_total";

/// Records of batches: `added`, `updated`, `deleted` (RFC 2136 3.4.2).
pub const ZONE_RECORDS_MODIFIED_TOTAL: &str = "hickory_zone_records_modified_total";

/// Transports of requests: `udp`, `tcp`, `tls`, `https`, `quic`, `http3`.
pub const REQUEST_PROTOCOLS_TOTAL: &str = "hickory_request_protocols_total";

/// Entries of block lists. There are none here: this and the next four are kept for their names, have the empty label
/// alone, and stay 0.
pub const ENTRIES_TOTAL: &str = "hickory_blocklist_list_entries_total";

/// Queries that were blocked.
pub const BLOCKED_QUERIES_TOTAL: &str = "hickory_blocklist_blocked_queries_total";

/// Queries that were logged.
pub const LOGGED_QUERIES_TOTAL: &str = "hickory_blocklist_logged_queries_total";

/// Hits of block lists.
pub const HITS_TOTAL: &str = "hickory_blocklist_list_hits_total";

/// Queries that were looked up in block lists.
pub const QUERIES_TOTAL: &str = "hickory_blocklist_queries_total";
