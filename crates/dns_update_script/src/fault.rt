//! Why a script was not read.

ghost use Rattle.std.specs.Prelude.{◌≡◌};
ghost use Rattle.dns_update_script.specs.declared.fault.LineFault.TheVariants as line_fault;
ghost use Rattle.dns_update_script.specs.declared.fault.ScriptFault.TheVariants as script_fault;

use dns_io::OutOfMemory;
use dns_zone::ZoneTextKind;
use std::alloc::AllocFailed;
use thiserror::Error;

/// What is wrong with a script.
#[derive(Clone, Copy, Debug, PartialEq, Eq, Error)]
pub enum ScriptKind {
    /// The line has none of the forms that lines have.
    #[error("Word")]
    Word,
    /// A word that is to be a name is none.
    #[error("Name")]
    Name,
    /// A word that is to be a type is none, or one that no record of a zone has.
    #[error("Type")]
    RecordType,
    /// The entry of the line is at fault, as one of a zone's text is.
    #[error("{0}")]
    Entry(ZoneTextKind),
    /// A message ends, and no zone was named before it.
    #[error("NoZone")]
    NoZone,
    /// A prerequisite or a change has no `send` behind it.
    #[error("Unsent")]
    Unsent,
}

/// Why a text is no script.
#[derive(Clone, Copy, Debug, PartialEq, Eq, Error)]
pub enum ScriptFault {
    /// What is wrong first, and at which line, from 1.
    #[error("line {line}: {kind}")]
    Refused { line: u64, kind: ScriptKind },
    /// Memory ran out.
    #[error("out of memory")]
    OutOfMemory,
}

impl From<OutOfMemory> for ScriptFault {
    ghost from_gives = { λ _ e. e ≡ script_fault.OutOfMemory };

    fn from(_error: OutOfMemory) -> ScriptFault {
        ScriptFault::OutOfMemory
    }
}

impl<T: Drop> From<AllocFailed<T>> for ScriptFault {
    ghost from_gives = { λ _ e. e ≡ script_fault.OutOfMemory };

    fn from(_error: AllocFailed<T>) -> ScriptFault {
        ScriptFault::OutOfMemory
    }
}

/// Why a line was not read.
#[derive(Clone, Copy, Debug)]
pub(crate) enum LineFault {
    /// It is at fault.
    Kind(ScriptKind),
    /// Memory ran out.
    OutOfMemory,
}

impl From<OutOfMemory> for LineFault {
    ghost from_gives = { λ _ e. e ≡ line_fault.OutOfMemory };

    fn from(_error: OutOfMemory) -> LineFault {
        LineFault::OutOfMemory
    }
}
