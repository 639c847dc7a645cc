//! How a run of the program ends.

ghost use Rattle.std.specs.Prelude.{◌≡◌, IfOk, string_bytes};
ghost use Rattle.std.specs.Process.{exit_status};
ghost use Rattle.dns_update_client.specs.Status.{status_number, script_kind_text, refusal_line, read_status, script_status, submit_status};
ghost use Rattle.dns_update_client.specs.Writing.{after_writing};

use crate::submit_fault::SubmitFault;
use dns_edges::ReadFault;
use dns_io::{IoFault, OutOfMemory};
use dns_update_script::{ScriptFault, ScriptKind};
use dns_words::ended;
use dns_zone::kind_text;
use std::alloc::Global;
use std::process::ExitCode;

/// The line of a run that could not read: no memory is taken for it, so that want of memory does not hide the fault.
pub(crate) const READ_FAULT: &str = "read fault\n";

/// How a run ended. Of several causes the first in the order of the work is told: the words, the script, the messages in their
/// order, the output.
#[derive(Clone, Copy, Debug, PartialEq, Eq)]
pub enum UpdateStatus {
    /// Each message was answered, and the lines of the replies were written and handed on.
    Ok,
    /// The words of the command line are not what is asked for.
    Usage,
    /// The script or what the server sends could not be read.
    ReadFault,
    /// What goes to the server, or the output, could not be written or not handed on.
    WriteFault,
    /// The script is longer than allowed.
    TooLong,
    /// Memory ran out.
    OutOfMemory,
    /// The script has a line that is at fault.
    Script {
        /// The first such line, from 1.
        line: u64,
        /// What is wrong.
        kind: ScriptKind,
    },
    /// The server ended before it had answered each message.
    Ended,
    /// A reply has another id than its message.
    Mismatch,
    /// What the server sent is no reply to an update.
    NotReply,
    /// A message cannot be written, or what the server sent is no message.
    Proto,
}

impl UpdateStatus {
    /// The status that the process ends with.
    pub fn number(&self) -> u8
        ensures { result ≡ status_number self.now }
    {
        match self {
            UpdateStatus::Ok => 0,
            UpdateStatus::Usage => 1,
            UpdateStatus::ReadFault => 6,
            UpdateStatus::WriteFault => 7,
            UpdateStatus::TooLong => 9,
            UpdateStatus::OutOfMemory => 10,
            UpdateStatus::Script { .. } => 20,
            UpdateStatus::Ended => 21,
            UpdateStatus::Mismatch => 22,
            UpdateStatus::NotReply => 23,
            UpdateStatus::Proto => 24,
        }
    }

    /// What the process ends with: the status's number.
    pub fn exit_code(&self) -> ExitCode
        ensures { exit_status result ≡ status_number self.now }
    {
        ExitCode::from(self.number())
    }
}

impl From<ReadFault> for UpdateStatus {
    ghost from_gives = { λ fault status. status ≡ read_status fault };

    fn from(fault: ReadFault) -> UpdateStatus {
        match fault {
            ReadFault::Failed => UpdateStatus::ReadFault,
            ReadFault::TooLong => UpdateStatus::TooLong,
            ReadFault::OutOfMemory => UpdateStatus::OutOfMemory,
        }
    }
}

impl From<ScriptFault> for UpdateStatus {
    ghost from_gives = { λ fault status. status ≡ script_status fault };

    fn from(fault: ScriptFault) -> UpdateStatus {
        match fault {
            ScriptFault::Refused { line, kind } => UpdateStatus::Script { line, kind },
            ScriptFault::OutOfMemory => UpdateStatus::OutOfMemory,
        }
    }
}

impl From<SubmitFault> for UpdateStatus {
    ghost from_gives = { λ fault status. status ≡ submit_status fault };

    fn from(fault: SubmitFault) -> UpdateStatus {
        match fault {
            SubmitFault::Proto(_) => UpdateStatus::Proto,
            SubmitFault::Write => UpdateStatus::WriteFault,
            SubmitFault::Read => UpdateStatus::ReadFault,
            SubmitFault::Ended { .. } => UpdateStatus::Ended,
            SubmitFault::Mismatch { .. } => UpdateStatus::Mismatch,
            SubmitFault::NotReply { .. } => UpdateStatus::NotReply,
            SubmitFault::OutOfMemory => UpdateStatus::OutOfMemory,
        }
    }
}

/// The status that was meant, where writing the output came to its end.
pub fn after_writing(meant: UpdateStatus, outcome: Result<(), IoFault>) -> UpdateStatus
    ensures { result ≡ after_writing meant outcome }
{
    ended(
        meant,
        UpdateStatus::WriteFault,
        UpdateStatus::OutOfMemory,
        outcome,
    )
}

/// The line that a refusal writes, with its line end. It is empty where the run was not refused, where writing failed, and
/// where memory ran out.
pub(crate) fn refusal_line(alloc: Global, status: &UpdateStatus) -> Result<String, OutOfMemory>
    ensures { IfOk result (λ line. string_bytes line ≡ refusal_line status.now) }
{
    let line = match status {
        UpdateStatus::Ok | UpdateStatus::WriteFault | UpdateStatus::OutOfMemory => {
            String::new(alloc)
        }
        UpdateStatus::Usage => String::from_str(alloc, "usage\n")?,
        UpdateStatus::ReadFault => String::from_str(alloc, READ_FAULT)?,
        UpdateStatus::TooLong => String::from_str(alloc, "too long\n")?,
        UpdateStatus::Script { line, kind } => {
            let kind = script_kind_text(*kind);
            format!(in alloc; "script line {line}: {kind}\n")?
        }
        UpdateStatus::Ended => String::from_str(alloc, "ended\n")?,
        UpdateStatus::Mismatch => String::from_str(alloc, "mismatch\n")?,
        UpdateStatus::NotReply => String::from_str(alloc, "notreply\n")?,
        UpdateStatus::Proto => String::from_str(alloc, "proto\n")?,
    };
    Ok(line)
}

fn script_kind_text(kind: ScriptKind) -> &'static str
    ensures { result.now ≡ script_kind_text kind }
{
    match kind {
        ScriptKind::Word => "Word",
        ScriptKind::Name => "Name",
        ScriptKind::RecordType => "Type",
        ScriptKind::Entry(kind) => kind_text(kind),
        ScriptKind::NoZone => "NoZone",
        ScriptKind::Unsent => "Unsent",
    }
}
