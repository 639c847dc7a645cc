//! How what was decided of a message is carried out: its reply, the one append, the zone, the counts.

ghost use Rattle.std.specs.Prelude.{◌≡◌, ◌<◌, ◌≤◌, ◌^◌, [], Bool, List, ℕ, if◌then◌else◌, IfOk, OnErr, None, false};
ghost use Rattle.dns_wire.specs.declared.message.Message.{Message as Read};
ghost use Rattle.dns_counts.specs.Counters.{changed};
ghost use Rattle.dns_update.specs.Change.{batch_of};
ghost use Rattle.dns_book.specs.declared.decision.Case.TheVariants as case;
ghost use Rattle.dns_book.specs.Owed.{HasRoom, IsFit, case_batch, reply_of, reply_to};
ghost use Rattle.dns_book.specs.Counted.{asked_of, counted_question};
ghost use Rattle.dns_book.specs.Book.{IsKept, grounds_of};
ghost use Rattle.dns_book.specs.Crash.{LeavesBy, LeavesOn, receipt_in};
ghost use Rattle.dns_book.specs.Carrying.{IsPassing, Journals, Carries};

use crate::answering::{append, code_reply, count, counted_question, put, put_looked};
use crate::ask::{LentAsk, Receipt, SettledInto};
use crate::book::Book;
use crate::decision::{Case, Decision, only_question};
use dns_counts::Counts;
use dns_io::OutOfMemory;
use dns_keeper::{KeepFault, Keeper};
use dns_update::laws::verdicts;
use dns_wire::response_code::{BAD_VERS, FORM_ERR, NO_ERROR, NOT_IMP, REFUSED, SERV_FAIL};
use dns_wire::{LentQuestion, Message, Records};
use dns_zone::{Modified, Verdict};

impl<K: Keeper> Book<K> {
    /// Carries out what was decided of a message: its reply is added to what a buffer has, as it is or behind its length, and counted; a
    /// change of the zone is journalled by one append, and then the zone is changed. Where memory ran out, nothing has changed, and the
    /// buffer is as it was.
    pub(crate) fn carry_out(
        &mut self,
        ask: &LentAsk<'_>,
        decision: &Decision<'_>,
        out: &mut Vec<u8>,
        is_framed: bool,
    ) -> Result<SettledInto, OutOfMemory>
        requires moment { ask.now.at < 2 ^ 47 }
        requires fit { IsFit self.old.zone decision.now.case }
        requires protocol { decision.now.request.protocol ≡ ask.now.protocol }
        requires payload { 512 ≤ decision.now.request.payload }
        ensures { Carries K.keeper self.old ask.now decision.now is_framed out.old.items out.new.items result self.new }
    {
        match &decision.case {
            Case::ShutOut { question } => {
                self.refuse(ask, decision, REFUSED, question, out, is_framed)
            }
            Case::UnsupportedVersion { question } => {
                self.refuse(ask, decision, BAD_VERS, question, out, is_framed)
            }
            Case::NotImplemented { question } => {
                self.refuse(ask, decision, NOT_IMP, question, out, is_framed)
            }
            Case::Malformed | Case::NotOneQuestion => {
                self.refuse(ask, decision, FORM_ERR, &None, out, is_framed)
            }
            Case::Foreign { question } => {
                let question = Some(question.again());
                self.refuse(ask, decision, REFUSED, &question, out, is_framed)
            }
            Case::Query { question } => self.look_up(ask, decision, question, out, is_framed),
            Case::Update { message } => {
                self.update(ask, decision, message.message, out, is_framed)
            }
        }
    }

    /// Answers a message by a code alone, with the question where it is echoed.
    fn refuse(
        &mut self,
        ask: &LentAsk<'_>,
        decision: &Decision<'_>,
        code: u16,
        question: &Option<LentQuestion<'_>>,
        out: &mut Vec<u8>,
        is_framed: bool,
    ) -> Result<SettledInto, OutOfMemory>
        requires code { code < 4096 }
        requires reply { (failed : Bool) → reply_of (grounds_of self.old failed) decision.now
            ≡ reply_to decision.now.request code false question.now [] }
        requires batch { case_batch self.old.zone self.old.allow_update decision.now.case ≡ [] }
        requires protocol { decision.now.request.protocol ≡ ask.now.protocol }
        requires payload { 512 ≤ decision.now.request.payload }
        ensures { Carries K.keeper self.old ask.now decision.now is_framed out.old.items out.new.items result self.new }
    {
        let reply = code_reply(&decision.request, code, question);
        let asked = counted_question(&decision.case);
        put(
            &decision.request,
            asked,
            &reply,
            &mut self.counts,
            out,
            is_framed,
        )?;
        Ok(self.told(true, None))
    }

    /// Answers a query by what the zone has (RFC 1034 4.3.2).
    fn look_up(
        &mut self,
        ask: &LentAsk<'_>,
        decision: &Decision<'_>,
        question: &LentQuestion<'_>,
        out: &mut Vec<u8>,
        is_framed: bool,
    ) -> Result<SettledInto, OutOfMemory>
        requires case { decision.now.case ≡ case.Query question.now }
        requires fit { IsFit self.old.zone decision.now.case }
        requires protocol { decision.now.request.protocol ≡ ask.now.protocol }
        requires payload { 512 ≤ decision.now.request.payload }
        ensures { Carries K.keeper self.old ask.now decision.now is_framed out.old.items out.new.items result self.new }
    {
        let (alloc, counts) = (self.alloc, &mut self.counts);
        let zone = self.store.zone();
        put_looked(
            alloc,
            zone,
            &decision.request,
            question,
            counts,
            out,
            is_framed,
        )?;
        Ok(self.told(true, None))
    }

    /// Does an update, unless it breaks a rule (RFC 2136 3).
    #[inline(never)]
    fn update(
        &mut self,
        ask: &LentAsk<'_>,
        decision: &Decision<'_>,
        message: &Message,
        out: &mut Vec<u8>,
        is_framed: bool,
    ) -> Result<SettledInto, OutOfMemory>
        requires moment { ask.now.at < 2 ^ 47 }
        requires case { decision.now.case ≡ case.Update message.now }
        requires fit { IsFit self.old.zone decision.now.case }
        requires protocol { decision.now.request.protocol ≡ ask.now.protocol }
        requires payload { 512 ≤ decision.now.request.payload }
        ensures { Carries K.keeper self.old ask.now decision.now is_framed out.old.items out.new.items result self.new }
    {
        let question = only_question(&message.questions);
        let (alloc, allow_update) = (self.alloc, self.allow_update);
        match self.store.zone().judge(alloc, message, allow_update)? {
            Verdict::Fails(code) => self.refuse(ask, decision, code, &question, out, is_framed),
            Verdict::Passes => {
                verdicts();
                let updates = &message.authority;
                self.do_update(ask, decision, updates, &question, out, is_framed)
            }
        }
    }

    /// Does an update that breaks no rule. Its reply is written before the one append, so that nothing but the keeper can fail afterwards:
    /// then the code alone is another one. Where the keeper finds no memory, the reply is taken back.
    fn do_update(
        &mut self,
        ask: &LentAsk<'_>,
        decision: &Decision<'_>,
        updates: &Records,
        question: &Option<LentQuestion<'_>>,
        out: &mut Vec<u8>,
        is_framed: bool,
    ) -> Result<SettledInto, OutOfMemory>
        requires moment { ask.now.at < 2 ^ 47 }
        requires kept { IsKept K.keeper self.old }
        requires passing { IsPassing self.old.zone updates.now }
        requires reply { (failed : Bool) → reply_of (grounds_of self.old failed) decision.now
            ≡ reply_to decision.now.request (if failed then 2 else 0) false question.now [] }
        requires batch { case_batch self.old.zone self.old.allow_update decision.now.case
            ≡ batch_of self.old.zone.origin self.old.zone.records updates.now }
        requires counted { counted_question decision.now.case ≡ None }
        requires protocol { decision.now.request.protocol ≡ ask.now.protocol }
        requires payload { 512 ≤ decision.now.request.payload }
        ensures { Carries K.keeper self.old ask.now decision.now is_framed out.old.items out.new.items result self.new }
    {
        let request = &decision.request;
        let done = code_reply(request, NO_ERROR, question);
        let len = out.len();
        let appended = append(request, &done, out, is_framed)?;
        match self.journal(ask, updates) {
            Ok(receipt) => {
                count(request, None, &done, &appended, &mut self.counts);
                Ok(self.told(true, receipt))
            }
            Err(KeepFault::Failed) => {
                let failed = code_reply(request, SERV_FAIL, question);
                let appended = appended.with_code(out, SERV_FAIL as u8);
                count(request, None, &failed, &appended, &mut self.counts);
                Ok(self.told(true, None))
            }
            Err(KeepFault::OutOfMemory) => {
                out.truncate(len);
                Err(OutOfMemory)
            }
        }
    }

    /// Has the records of an update that passes journalled: its batch, where it has records, is journalled by one append. Where it has none,
    /// where the keeper refuses it, and where memory runs out, nothing has changed.
    fn journal(
        &mut self,
        ask: &LentAsk<'_>,
        updates: &Records,
    ) -> Result<Option<Receipt>, KeepFault>
        requires moment { ask.now.at < 2 ^ 47 }
        requires passing { IsPassing self.old.zone updates.now }
        ensures is { Journals K.keeper self.old ask.now (batch_of self.old.zone.origin self.old.zone.records updates.now) result self.new }
        ensures kept { IsKept K.keeper self.new }
        ensures left { LeavesBy K.keeper self.old ask.now
            (batch_of self.old.zone.origin self.old.zone.records updates.now) (receipt_in result) self.new }
        ensures left_on { LeavesOn K.keeper self.old → LeavesOn K.keeper self.new }
    {
        let batch = match self.store.journal(ask.client, ask.at, updates) {
            Ok(batch) => batch,
            Err(fault) => return Err(fault),
        };
        let count = batch.records.len() as u64;
        if count == 0 {
            return Ok(None);
        }
        let receipt = Receipt {
            client: ask.client,
            first: self.store.row_count() - count + 1,
            count,
        };
        let records = self.store.zone().len() as u64;
        count_change(&mut self.counts, batch.modified, records);
        Ok(Some(receipt))
    }

    /// What settling a message gives that added these rows to the journal.
    pub(crate) fn told(&self, is_owed: bool, receipt: Option<Receipt>) -> SettledInto
        ensures is { result ≡ record { is_owed = is_owed; length = self.now.row_count; receipt = receipt } }
        ensures kept { IsKept K.keeper self.now }
    {
        SettledInto {
            is_owed,
            length: self.store.row_count(),
            receipt,
        }
    }
}

/// Counts a change of the zone, which then has so many records.
fn count_change(counts: &mut Counts, modified: Modified, records: u64)
    ensures { counts.new ≡ changed
        (record { added = modified.added; deleted = modified.deleted; updated = modified.updated; records = records }) counts.old }
{
    counts.changed(modified.added, modified.deleted, modified.updated, records);
}
