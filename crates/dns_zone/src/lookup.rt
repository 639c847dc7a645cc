//! What a question is answered with (RFC 1034 4.3.2, RFC 2308 3, RFC 6604).

ghost use Rattle.std.specs.Prelude.{◌≡◌, ◌≤◌, ◌+◌, ◌++◌, ◌∷◌, ◌&&◌, not, true, [], length, IfOk, OnOk, option_to_list};
ghost use Rattle.std.specs.List.{list_any};
ghost use Rattle.dns_name.specs.Name.{is_same_name, is_at_or_below};
ghost use Rattle.dns_zone_map.specs.Mapped.{contents};
ghost use Rattle.dns_wire.specs.Given.{in_parts};
ghost use Rattle.dns_zone.specs.Lookup.{negative_soa, target_of, targets, asked_along, next_look, ahead, followed, lookup_of};

use crate::answer::{Answer, Parts};
use crate::lent::{LentRecord, LentSets};
use crate::look::{Look, look_of};
use crate::zone::Zone;
use dns_io::OutOfMemory;
use dns_name::{Name, NameView};
use dns_wire::record_type::SOA;
use dns_wire::response_code::{NO_ERROR, NX_DOMAIN};
use dns_wire::{LentQuestion, LentRecords, Question, Records};
use dns_zone_map::ZoneMap;
use std::alloc::Global;

/// How many names may be asked along aliases, behind the first.
const MORE_NAMES: u32 = 7;

/// The answer to a question, with records of its own.
#[derive(Debug, Drop)]
pub struct Looked {
    /// NoError (0), or NXDomain (3) where the last name that was asked is not there.
    pub code: u16,
    /// Whether the first look found no cut: the name that was asked is this zone's own (RFC 6604 2.1).
    pub aa: bool,
    /// The aliases that were followed, and then the records that were found.
    pub answers: Records,
    /// The NS records of a cut; or the SOA, where the name or the set is not there (RFC 2308 3).
    pub authority: Records,
}

impl Zone {
    /// Answers a question for a name at the origin or below it (RFC 1034 4.3.2), in whatever case.
    ///
    /// At a cut or below it the answer is the referral. A name that is not there is answered by the wildcard under its
    /// closest encloser, if that is there (RFC 4592). Aliases are followed inside the zone, up to eight names and to
    /// none twice. `OutOfMemory` leaves the zone as it is.
    pub fn answer<'a>(
        &'a self,
        alloc: Global,
        question: &'a Question,
    ) -> Result<Answer<'a>, OutOfMemory>
        requires { is_at_or_below question.now.name self.now.origin ≡ true }
        ensures is { IfOk result (λ answer. record
            { code = answer.code; aa = answer.aa; answers = answer.answers; authority = answer.authority }
            ≡ lookup_of self.now question.now.name question.now.qtype) }
        ensures code { IfOk result (λ answer. answer.code ≤ 3) }
    {
        let mut answer = Answer::none();
        self.answer_into(alloc, &question.lent(), &mut answer)?;
        Ok(answer)
    }

    /// The same into an answer that the caller keeps, whatever it holds. `OutOfMemory` leaves the zone as it is.
    pub fn answer_into<'a>(
        &'a self,
        alloc: Global,
        question: &LentQuestion<'a>,
        answer: &mut Answer<'a>,
    ) -> Result<(), OutOfMemory>
        requires { is_at_or_below question.now.name self.now.origin ≡ true }
        ensures is { OnOk result (record
            { code = answer.new.code; aa = answer.new.aa; answers = answer.new.answers; authority = answer.new.authority }
            ≡ lookup_of self.now question.now.name question.now.qtype) }
        ensures code { OnOk result (answer.new.code ≤ 3) }
    {
        let map = self.map();
        match look_of(self, question.name.again(), question.qtype)? {
            Look::Found(found) => put_found(alloc, &found, answer)?,
            Look::Referral(ns) => answer.set(NO_ERROR, false, Parts::none(), ns),
            Look::NoName => answer.set(NX_DOMAIN, true, Parts::none(), negative_soa(map)),
            Look::NoData => answer.set(NO_ERROR, true, Parts::none(), negative_soa(map)),
            Look::Alias(one) => {
                let aliases = Vec::new(alloc);
                follow(alloc, MORE_NAMES, self, question, one, aliases, answer)?
            }
        }
        Ok(())
    }

    /// The answer that `answer` lends, with records of its own.
    pub fn lookup(&self, alloc: Global, question: &Question) -> Result<Looked, OutOfMemory>
        requires { is_at_or_below question.now.name self.now.origin ≡ true }
        ensures is { IfOk result (λ looked. looked ≡ lookup_of self.now question.now.name question.now.qtype) }
        ensures code { IfOk result (λ looked. looked.code ≤ 3) }
    {
        let answer = self.answer(alloc, question)?;
        Ok(Looked {
            code: answer.code,
            aa: answer.aa,
            answers: answer.answers.copied(alloc)?,
            authority: copied(alloc, &answer.authority)?,
        })
    }
}

/// The answer where records are found. Those of one set take no memory.
fn put_found<'a>(
    alloc: Global,
    found: &LentSets<'a>,
    answer: &mut Answer<'a>,
) -> Result<(), OutOfMemory>
    ensures code { OnOk result (answer.new.code ≡ 0) }
    ensures aa { OnOk result (answer.new.aa ≡ true) }
    ensures answers { OnOk result (answer.new.answers ≡ found.now) }
    ensures authority { OnOk result (answer.new.authority ≡ []) }
{
    match found.only() {
        Some(part) => {
            answer.set(NO_ERROR, true, Parts::one(part), LentRecords::none());
            Ok(())
        }
        None => put_sets(alloc, found, answer),
    }
}

/// The same, however many sets there are.
#[inline(never)]
fn put_sets<'a>(
    alloc: Global,
    found: &LentSets<'a>,
    answer: &mut Answer<'a>,
) -> Result<(), OutOfMemory>
    ensures code { OnOk result (answer.new.code ≡ 0) }
    ensures aa { OnOk result (answer.new.aa ≡ true) }
    ensures answers { OnOk result (answer.new.answers ≡ found.now) }
    ensures authority { OnOk result (answer.new.authority ≡ []) }
{
    let parts = found.parts(alloc)?;
    answer.set(NO_ERROR, true, parts, LentRecords::none());
    Ok(())
}

/// The answer behind aliases, of which the last may be followed to `more` further names. One alias takes no memory of its own.
fn follow<'a>(
    alloc: Global,
    more: u32,
    zone: &'a Zone,
    question: &LentQuestion<'a>,
    last: LentRecord<'a>,
    mut aliases: Vec<LentRecord<'a>>,
    answer: &mut Answer<'a>,
) -> Result<(), OutOfMemory>
    ensures is { OnOk result (record { code = answer.new.code; answers = answer.new.answers; authority = answer.new.authority }
        ≡ ahead aliases.entry.items (followed more zone.now question.now.qtype
        (asked_along question.now.name aliases.entry.items) last.entry)) }
    ensures own { OnOk result (answer.new.aa ≡ true) }
    ensures code { OnOk result (answer.new.code ≤ 3) }
{
    let first = &question.name;
    match next_look(more, zone, first, question.qtype, &aliases, &last)? {
        None => put_end(
            alloc,
            &aliases,
            &last,
            NO_ERROR,
            LentRecords::none(),
            answer,
        ),
        Some(Look::Found(found)) => put_found_behind(alloc, &aliases, &last, &found, answer),
        Some(Look::Referral(ns)) => put_end(alloc, &aliases, &last, NO_ERROR, ns, answer),
        Some(Look::NoName) => {
            let soa = negative_soa(zone.map());
            put_end(alloc, &aliases, &last, NX_DOMAIN, soa, answer)
        }
        Some(Look::NoData) => {
            let soa = negative_soa(zone.map());
            put_end(alloc, &aliases, &last, NO_ERROR, soa, answer)
        }
        Some(Look::Alias(next)) => {
            aliases.push(last)?;
            follow(alloc, more - 1, zone, question, next, aliases, answer)?;
            Ok(())
        }
    }
}

/// The answer where nothing is found behind aliases.
#[inline(never)]
fn put_end<'a>(
    alloc: Global,
    aliases: &[LentRecord<'a>],
    last: &LentRecord<'a>,
    code: u16,
    authority: LentRecords<'a>,
    answer: &mut Answer<'a>,
) -> Result<(), OutOfMemory>
    ensures code { OnOk result (answer.new.code ≡ code) }
    ensures aa { OnOk result (answer.new.aa ≡ true) }
    ensures answers { OnOk result (answer.new.answers ≡ aliases.now ++ last.now ∷ []) }
    ensures authority { OnOk result (answer.new.authority ≡ authority.entry) }
{
    let parts = alias_parts(alloc, aliases, last)?;
    answer.set(code, true, parts, authority);
    Ok(())
}

/// The answer where records are found behind aliases. Those of one set behind one alias take no memory.
fn put_found_behind<'a>(
    alloc: Global,
    aliases: &[LentRecord<'a>],
    last: &LentRecord<'a>,
    found: &LentSets<'a>,
    answer: &mut Answer<'a>,
) -> Result<(), OutOfMemory>
    ensures code { OnOk result (answer.new.code ≡ 0) }
    ensures aa { OnOk result (answer.new.aa ≡ true) }
    ensures answers { OnOk result (answer.new.answers ≡ (aliases.now ++ last.now ∷ []) ++ found.now) }
    ensures authority { OnOk result (answer.new.authority ≡ []) }
{
    if aliases.is_empty() {
        if let Some(part) = found.only() {
            let parts = Parts::two(last.alone(), part);
            answer.set(NO_ERROR, true, parts, LentRecords::none());
            return Ok(());
        }
    }
    put_many_behind(alloc, aliases, last, found, answer)
}

/// The same, however many aliases and sets there are.
#[inline(never)]
fn put_many_behind<'a>(
    alloc: Global,
    aliases: &[LentRecord<'a>],
    last: &LentRecord<'a>,
    found: &LentSets<'a>,
    answer: &mut Answer<'a>,
) -> Result<(), OutOfMemory>
    ensures code { OnOk result (answer.new.code ≡ 0) }
    ensures aa { OnOk result (answer.new.aa ≡ true) }
    ensures answers { OnOk result (answer.new.answers ≡ (aliases.now ++ last.now ∷ []) ++ found.now) }
    ensures authority { OnOk result (answer.new.authority ≡ []) }
{
    let mut parts = each_alias(alloc, aliases, last)?;
    found.add_to(&mut parts)?;
    answer.set(NO_ERROR, true, Parts::from_vec(parts), LentRecords::none());
    Ok(())
}

/// Aliases, each as a part. One alone takes no memory.
fn alias_parts<'a>(
    alloc: Global,
    aliases: &[LentRecord<'a>],
    last: &LentRecord<'a>,
) -> Result<Parts<'a>, OutOfMemory>
    ensures { IfOk result (λ parts. parts ≡ aliases.now ++ last.now ∷ []) }
{
    if aliases.is_empty() {
        return Ok(Parts::one(last.alone()));
    }
    Ok(Parts::from_vec(each_alias(alloc, aliases, last)?))
}

/// Aliases, each as a part, with room for one part more.
fn each_alias<'a>(
    alloc: Global,
    aliases: &[LentRecord<'a>],
    last: &LentRecord<'a>,
) -> Result<Vec<LentRecords<'a>>, OutOfMemory>
    ensures { IfOk result (λ parts. in_parts parts.items ≡ aliases.now ++ last.now ∷ []) }
{
    let mut parts = Vec::with_capacity(alloc, aliases.len().saturating_add(2))?;
    add_aliases(aliases, &mut parts)?;
    parts.push(last.alone())?;
    Ok(parts)
}

/// Adds each alias at the end, as a part.
fn add_aliases<'a>(
    aliases: &[LentRecord<'a>],
    parts: &mut Vec<LentRecords<'a>>,
) -> Result<(), OutOfMemory>
    ensures { OnOk result (in_parts parts.new.items ≡ in_parts parts.old.items ++ aliases.now) }
{
    for one in aliases {
        parts.push(one.alone())?;
    }
    Ok(())
}

/// Copies of records.
fn copied(alloc: Global, lent: &LentRecords<'_>) -> Result<Records, OutOfMemory>
    ensures { IfOk result (λ copies. copies ≡ lent.now) }
{
    let mut copies = Vec::new(alloc);
    lent.copy_to(alloc, &mut copies)?;
    Ok(Records::from_vec(copies))
}

/// Looks for the target of an alias, unless it leads out of the zone, back, or too far.
fn next_look<'a>(
    more: u32,
    zone: &'a Zone,
    first: &NameView<'_>,
    rtype: u16,
    aliases: &[LentRecord<'a>],
    one: &LentRecord<'a>,
) -> Result<Option<Look<'a>>, OutOfMemory>
    ensures { IfOk result (λ next. next ≡ next_look more zone.now rtype (asked_along first.now aliases.now) one.now) }
{
    if more == 0 {
        return Ok(None);
    }
    match one.target() {
        Some(target) => {
            if !is_next(zone, first, aliases, target) {
                return Ok(None);
            }
            Ok(Some(look_of(zone, target.view(), rtype)?))
        }
        None => Ok(None),
    }
}

/// Whether a target is inside the zone and was not asked yet.
fn is_next(zone: &Zone, first: &NameView<'_>, aliases: &[LentRecord<'_>], target: &Name) -> bool
    ensures { result ≡ (is_at_or_below target.now zone.now.origin
        && not (list_any (is_same_name target.now) (asked_along first.now aliases.now))) }
{
    target.at_or_below(zone.origin()) && !is_asked(first, aliases, target)
}

fn is_asked(first: &NameView<'_>, aliases: &[LentRecord<'_>], name: &Name) -> bool
    ensures { result ≡ list_any (is_same_name name.now) (asked_along first.now aliases.now) }
{
    name.view().same(first) || is_target(aliases, name)
}

/// Whether an alias leads to a name.
fn is_target(aliases: &[LentRecord<'_>], name: &Name) -> bool
    ensures { result ≡ list_any (is_same_name name.now) (targets aliases.now) }
{
    for one in aliases {
        if leads_to(one, name) {
            return true;
        }
    }
    false
}

fn leads_to(one: &LentRecord<'_>, name: &Name) -> bool
    ensures { result ≡ list_any (is_same_name name.now) (option_to_list (target_of one.now.rdata)) }
{
    match one.target() {
        Some(target) => name.same(target),
        None => false,
    }
}

/// The SOA for an answer that something is not there.
fn negative_soa(map: &ZoneMap) -> LentRecords<'_>
    ensures { result ≡ negative_soa (contents map.now) }
{
    match map.top_sets() {
        None => LentRecords::none(),
        Some(sets) => match sets.set(SOA) {
            None => LentRecords::none(),
            Some(set) => LentRecords::negative(set.records().as_slice()),
        },
    }
}
