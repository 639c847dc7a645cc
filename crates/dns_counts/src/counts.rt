//! The counts, and how they grow.

ghost use Rattle.std.specs.Prelude.{◌≡◌, is_some};
ghost use Rattle.dns_counts.specs.Counters.{no_counts, recorded, changed, count_of, has_label};

use crate::asked::{Asked, LentReplied, Replied};
use crate::counting::{count_code, count_known, count_response, raise_each};
use crate::flags::{count_flags, count_flags_in, count_protocol};
use crate::kinds::{count_class, count_classes, count_type, count_types};
use crate::labels::{
    CLASSES, FLAGS, LOOKUP_CODES, LOOKUPS, MODIFICATIONS, NO_LABELS, OPERATION_CODES, OPERATIONS,
    PROTOCOLS, RECORDS, RESPONSES, TYPES, count_of_label,
};
use crate::lent::count_parts;
use crate::names::*;
use dns_io::Protocol;
use dns_wire::Header;
use std::marker::Model;

/// The count of each label of each counter. Counts stop at the greatest `u64`, and no call takes memory.
///
/// Contracts see a list of counts for each counter, in the order of the definition `counters`, each in the order of its
/// labels.
#[derive(Debug, Drop)]
pub struct Counts {
    request_flags: [u64; 6],
    response_flags: [u64; 6],
    operations: [u64; 5],
    responses: [u64; 21],
    lookups: [u64; 2],
    request_classes: [u64; 6],
    response_classes: [u64; 6],
    request_types: [u64; 39],
    response_types: [u64; 39],
    records: [u64; 1],
    modified: [u64; 3],
    protocols: [u64; 6],
}

impl Model for Counts {
    ghost use Rattle.std.specs.Prelude.{List, ℕ, ◌∷◌, []};

    ghost Value = { List (List ℕ) };

    ghost view = { λ c.
        c.request_flags ∷ c.response_flags ∷ c.operations ∷ c.responses ∷ c.lookups ∷ c.request_classes
        ∷ c.response_classes ∷ c.request_types ∷ c.response_types ∷ c.records ∷ c.modified ∷ c.protocols
        ∷ (0 ∷ []) ∷ (0 ∷ []) ∷ (0 ∷ []) ∷ (0 ∷ []) ∷ (0 ∷ []) ∷ [] };
}

impl Counts {
    /// Counts of which each is 0.
    #[tactic(auto, unfolding(crate::specs::Counters::counters))]
    pub fn new() -> Counts
        ensures { result ≡ no_counts }
    {
        Counts {
            request_flags: [0; 6],
            response_flags: [0; 6],
            operations: [0; 5],
            responses: [0; 21],
            lookups: [0; 2],
            request_classes: [0; 6],
            response_classes: [0; 6],
            request_types: [0; 39],
            response_types: [0; 39],
            records: [0; 1],
            modified: [0; 3],
            protocols: [0; 6],
        }
    }

    /// Counts a message and its reply. The work grows with the number of answers alone, and not with that of a run of one type and
    /// class.
    pub fn record(&mut self, asked: &Asked, replied: &Replied)
        ensures { self.new ≡ recorded asked.now replied.now self.old }
    {
        count_flags(&mut self.request_flags, &asked.header);
        count_flags_in(&mut self.response_flags, replied.flags);
        count_code(
            &mut self.operations,
            &OPERATION_CODES,
            u16::from(asked.header.opcode),
            1,
        );
        count_response(&mut self.responses, replied.code);
        count_protocol(&mut self.protocols, asked.protocol);
        match asked.question {
            Some(question) => {
                count_known(&mut self.lookups, &LOOKUP_CODES, replied.code);
                count_type(&mut self.request_types, question.0, 1);
                count_class(&mut self.request_classes, question.1, 1);
                count_types(&mut self.response_types, &replied.answers);
                count_classes(&mut self.response_classes, &replied.answers);
            }
            None => {}
        }
    }

    /// Counts a message and its reply, as [`Counts::record`] does, without a list of its answers. The work grows with the number of
    /// parts, and with that of the records of a part.
    pub fn record_lent(
        &mut self,
        protocol: Protocol,
        header: &Header,
        question: Option<(u16, u16)>,
        replied: &LentReplied<'_>,
    )
        ensures { self.new ≡ recorded (record { protocol = protocol; header = header.now; question = question }) replied.now self.old }
    {
        count_flags(&mut self.request_flags, header);
        count_flags_in(&mut self.response_flags, replied.flags);
        count_code(
            &mut self.operations,
            &OPERATION_CODES,
            u16::from(header.opcode),
            1,
        );
        count_response(&mut self.responses, replied.code);
        count_protocol(&mut self.protocols, protocol);
        match question {
            Some(question) => {
                count_known(&mut self.lookups, &LOOKUP_CODES, replied.code);
                count_type(&mut self.request_types, question.0, 1);
                count_class(&mut self.request_classes, question.1, 1);
                count_parts(
                    &mut self.response_types,
                    &mut self.response_classes,
                    replied.parts,
                    replied.written,
                );
            }
            None => {}
        }
    }

    /// Counts a batch that changed the zone: how many of its records were added, deleted and updated, and how many
    /// records the zone has then.
    #[tactic(auto, unfolding(crate::specs::Counters::counters))]
    pub fn changed(&mut self, added: u64, deleted: u64, updated: u64, records: u64)
        ensures { self.new ≡ changed (record { added = added; deleted = deleted; updated = updated; records = records }) self.old }
    {
        raise_each(&mut self.modified, &[added, updated, deleted]);
        self.records = [records];
    }

    /// The count of a label of a counter, by the counter's name; the label of a counter without labels is empty. None
    /// exactly where there is no such counter or it has no such label.
    #[tactic(auto, unfolding(crate::specs::Counters::counters))]
    pub fn get(&self, name: &str, label: &str) -> Option<u64>
        ensures count { result ≡ count_of self.now name.now label.now }
        ensures found { is_some result ≡ has_label name.now label.now }
    {
        match name {
            REQUEST_FLAGS_TOTAL => count_of_label(&FLAGS, &self.request_flags, label),
            RESPONSE_FLAGS_TOTAL => count_of_label(&FLAGS, &self.response_flags, label),
            REQUEST_OPERATIONS_TOTAL => count_of_label(&OPERATIONS, &self.operations, label),
            RESPONSE_CODES_TOTAL => count_of_label(&RESPONSES, &self.responses, label),
            ZONE_LOOKUPS_TOTAL => count_of_label(&LOOKUPS, &self.lookups, label),
            REQUEST_DNS_CLASSES_TOTAL => count_of_label(&CLASSES, &self.request_classes, label),
            RESPONSE_DNS_CLASSES_TOTAL => count_of_label(&CLASSES, &self.response_classes, label),
            REQUEST_RECORD_TYPES_TOTAL => count_of_label(&TYPES, &self.request_types, label),
            RESPONSE_RECORD_TYPES_TOTAL => count_of_label(&TYPES, &self.response_types, label),
            ZONE_RECORDS_TOTAL => count_of_label(&RECORDS, &self.records, label),
            ZONE_RECORDS_MODIFIED_TOTAL => count_of_label(&MODIFICATIONS, &self.modified, label),
            REQUEST_PROTOCOLS_TOTAL => count_of_label(&PROTOCOLS, &self.protocols, label),
            ENTRIES_TOTAL
            | BLOCKED_QUERIES_TOTAL
            | LOGGED_QUERIES_TOTAL
            | HITS_TOTAL
            | QUERIES_TOTAL => { count_of_label(&NO_LABELS, &[0], label) }
            _ => None,
        }
    }
}
