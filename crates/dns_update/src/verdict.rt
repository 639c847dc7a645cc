//! Whether an update may be done (RFC 2136 3.1 to 3.4.1).

ghost use Rattle.std.specs.Prelude.{◌≡◌, ◌&&◌, ◌==◌, length, IfOk};
ghost use Rattle.dns_name.specs.Name.{is_same_name};
ghost use Rattle.dns_zone_map.specs.Mapped.{contents};
ghost use Rattle.dns_update.specs.Verdict.{zone_rule, section_rule, records_rule, verdict_of};

use crate::prerequisites::prerequisites_rule;
use crate::prescan::{demand, prescan};
use dns_io::OutOfMemory;
use dns_name::Name;
use dns_wire::{Message, Question, class, record_type, response_code};
use dns_zone_map::ZoneMap;
use std::alloc::Global;

/// What was found of an update.
#[derive(Clone, Copy, Debug, PartialEq, Eq)]
pub enum Verdict {
    /// A rule is broken: the response code of the first one (RFC 2136 2.2).
    Fails(u16),
    /// No rule is broken.
    Passes,
}

/// The verdict on an update of a zone: its question names the zone, its answers are the prerequisites, its authority
/// section has the update records (RFC 2136 2). Nothing is changed.
pub fn judge(
    alloc: Global,
    map: &ZoneMap,
    message: &Message,
    allow_update: bool,
) -> Result<Verdict, OutOfMemory>
    requires { length message.now.questions ≡ 1 }
    ensures { IfOk result (λ verdict. verdict ≡ verdict_of (contents map.now) message.now allow_update) }
{
    match section_rule(map.origin(), message.questions.as_slice(), allow_update) {
        Verdict::Fails(code) => Ok(Verdict::Fails(code)),
        Verdict::Passes => records_rule(alloc, map, message),
    }
}

/// The first rule that the records of an update break.
fn records_rule(alloc: Global, map: &ZoneMap, message: &Message) -> Result<Verdict, OutOfMemory>
    ensures { IfOk result (λ verdict. verdict ≡ records_rule (contents map.now) message.now) }
{
    match prerequisites_rule(alloc, map, message.answers.as_slice())? {
        Verdict::Fails(code) => Ok(Verdict::Fails(code)),
        Verdict::Passes => Ok(prescan(map.origin(), message.authority.as_slice())),
    }
}

/// Whether the zone section names the zone, and updates are let in.
fn section_rule(origin: &Name, questions: &[Question], allow_update: bool) -> Verdict
    ensures { result ≡ section_rule origin.now allow_update questions.now }
{
    match questions {
        [question] => zone_rule(origin, question, allow_update),
        _ => Verdict::Fails(response_code::FORM_ERR),
    }
}

fn zone_rule(origin: &Name, question: &Question, allow_update: bool) -> Verdict
    ensures { result ≡ zone_rule origin.now allow_update question.now }
{
    if question.qtype != record_type::SOA {
        return Verdict::Fails(response_code::FORM_ERR);
    }
    if !names_zone(origin, question) {
        return Verdict::Fails(response_code::NOT_AUTH);
    }
    demand(allow_update, response_code::REFUSED)
}

/// Whether a question is of the zone's name and class.
fn names_zone(origin: &Name, question: &Question) -> bool
    ensures { result ≡ (is_same_name question.now.name origin.now && (question.now.qclass == 1)) }
{
    question.name.same(origin) && question.qclass == class::IN
}
