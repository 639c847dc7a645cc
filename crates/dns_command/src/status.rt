//! How a run of the program ends.

ghost use Rattle.std.specs.Prelude.{◌≡◌, IfOk, string_bytes};
ghost use Rattle.std.specs.Process.{exit_status};
ghost use Rattle.dns_command.specs.Status.{status_number, refusal_line, read_status, port_status};
ghost use Rattle.dns_command.specs.Writing.{after_writing};

use dns_edges::ReadFault;
use dns_io::{IoFault, OutOfMemory};
use dns_store::recovery_line;
use dns_words::ended;
use dns_zone::{ReplayKind, ZoneTextKind, kind_text};
use std::alloc::Global;
use std::process::ExitCode;

/// The line of a run whose texts could not be read. No memory is taken for it, nor for the lines of the other faults, so that want of memory
/// does not hide what they tell.
pub(crate) const READ_FAULT: &str = "read fault\n";

/// The line of a run over a journal that failed.
pub(crate) const KEEPER_FAULT: &str = "keeper fault\n";

/// The line of a run whose ports failed.
pub(crate) const PORT_FAULT: &str = "port fault\n";

/// How a run ended. Of several causes the first in the order of the work is told: the words, the first look at the
/// journal, the zone text, the event text, the opening of the journal, the list of events or the sockets, the output.
#[derive(Clone, Copy, Debug, PartialEq, Eq)]
pub enum Status {
    /// The output was written, and handed on.
    Ok,
    /// The words of the command line are no command.
    Usage,
    /// The zone text is no zone.
    ZoneText {
        /// The line on which the faulty entry begins, from 1, or 0 at the end of the text.
        line: u64,
        /// What is wrong.
        kind: ZoneTextKind,
    },
    /// The event text has a line that is no event line.
    EventLine {
        /// The first such line, from 1.
        line: u64,
    },
    /// The events are no valid list. The journal was opened, and nothing else was done.
    NotValid,
    /// The rows of the journal are no zone's, or its batches do not cover them.
    Recovery {
        /// The id of the first row that is refused, or the place at which the batches cease to cover the rows.
        row: i64,
        /// Why it is.
        kind: ReplayKind,
    },
    /// The zone text or the event text could not be read.
    ReadFault,
    /// The output could not be written, or not handed on.
    WriteFault,
    /// The journal could not be read or opened.
    KeeperFault,
    /// The zone text or the event text is longer than allowed.
    TooLong,
    /// Memory ran out.
    OutOfMemory,
    /// A socket could not be opened, or failed.
    PortFault,
}

impl Status {
    /// The status that the process ends with, from 0 to 11.
    pub fn number(&self) -> u8
        ensures { result ≡ status_number self.now }
    {
        match self {
            Status::Ok => 0,
            Status::Usage => 1,
            Status::ZoneText { .. } => 2,
            Status::EventLine { .. } => 3,
            Status::NotValid => 4,
            Status::Recovery { .. } => 5,
            Status::ReadFault => 6,
            Status::WriteFault => 7,
            Status::KeeperFault => 8,
            Status::TooLong => 9,
            Status::OutOfMemory => 10,
            Status::PortFault => 11,
        }
    }

    /// What the process ends with: the status's number.
    pub fn exit_code(&self) -> ExitCode
        ensures { exit_status result ≡ status_number self.now }
    {
        ExitCode::from(self.number())
    }
}

impl From<ReadFault> for Status {
    ghost from_gives = { λ fault status. status ≡ read_status fault };

    fn from(fault: ReadFault) -> Status {
        match fault {
            ReadFault::Failed => Status::ReadFault,
            ReadFault::TooLong => Status::TooLong,
            ReadFault::OutOfMemory => Status::OutOfMemory,
        }
    }
}

/// The status of ports that could not be opened.
pub fn port_status(fault: IoFault) -> Status
    ensures { result ≡ port_status fault }
{
    match fault {
        IoFault::Failed => Status::PortFault,
        IoFault::OutOfMemory => Status::OutOfMemory,
    }
}

/// The status that was meant, where writing the output came to its end.
pub fn after_writing(meant: Status, outcome: Result<(), IoFault>) -> Status
    ensures { result ≡ after_writing meant outcome }
{
    ended(meant, Status::WriteFault, Status::OutOfMemory, outcome)
}

/// What a run leaves.
#[derive(Debug, Drop)]
pub struct Ended<K> {
    /// How it ended.
    pub status: Status,
    /// The keeper of the journal that it was handed.
    pub keeper: Option<K>,
}

/// The line that a refusal writes, with its line end. It is empty where the run was not refused, where the output
/// failed, and where memory ran out.
pub fn refusal_line(alloc: Global, status: &Status) -> Result<String, OutOfMemory>
    ensures { IfOk result (λ line. string_bytes line ≡ refusal_line status.now) }
{
    let line = match status {
        Status::Ok | Status::WriteFault | Status::OutOfMemory => String::new(alloc),
        Status::Usage => String::from_str(alloc, "usage\n")?,
        Status::ZoneText { line, kind } => {
            let kind = kind_text(*kind);
            format!(in alloc; "zone text line {line}: {kind}\n")?
        }
        Status::EventLine { line } => format!(in alloc; "event line {line}\n")?,
        Status::NotValid => String::from_str(alloc, "not valid\n")?,
        Status::Recovery { row, kind } => recovery_line(alloc, *row, *kind)?,
        Status::ReadFault => String::from_str(alloc, READ_FAULT)?,
        Status::KeeperFault => String::from_str(alloc, KEEPER_FAULT)?,
        Status::TooLong => String::from_str(alloc, "too long\n")?,
        Status::PortFault => String::from_str(alloc, PORT_FAULT)?,
    };
    Ok(line)
}
