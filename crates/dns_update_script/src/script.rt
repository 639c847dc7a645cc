//! A script, read line by line.

ghost use Rattle.std.specs.Prelude.{◌≡◌, ◌+◌, ◌^◌, ◌<◌, [], ◌∷◌, List, ℕ, Ok, None, Some, IfOk, IfErr, OnOk};
ghost use Rattle.std.specs.Option.{option_or};
ghost use Rattle.dns_update_script.specs.declared.line.Line.TheVariants as said;
ghost use Rattle.dns_update_script.specs.Script.{script_of, ended, Tells};
ghost use Rattle.dns_update_script.specs.Reading.{given_by, given_behind};
ghost use Rattle.dns_update_script.specs.Plain.{ArePlain};

use crate::fault::{LineFault, ScriptFault, ScriptKind};
use crate::line::{Line, line_of};
use dns_name::Name;
use dns_presentation::split_line;
use dns_wire::{Record, Records};
use std::alloc::Global;
use std::marker::Model;

/// What one `send` of a script sends.
#[derive(Debug, Drop)]
pub struct Sending {
    /// The zone that is to change (RFC 2136 2.3).
    pub zone: Name,
    /// What must hold of it before (RFC 2136 2.4).
    pub prerequisites: Records,
    /// How it is to change (RFC 2136 2.5).
    pub changes: Records,
}

/// What a script sends, which contracts see as the list of its sendings.
#[derive(Debug, Drop)]
pub struct Script {
    sendings: Vec<Sending>,
}

impl Model for Script {
    ghost use Rattle.std.specs.Prelude.{List};
    ghost use Rattle.dns_update_script.specs.declared.script.Sending.{Sending};
    ghost use Rattle.dns_update_script.specs.Plain.{ArePlain};

    ghost Value = { List Sending };

    ghost view = { λ s. s.sendings.items };

    ghost invariant = { λ s. ArePlain s.sendings.items };
}

impl Script {
    /// The sendings, in order.
    pub fn as_slice(&self) -> &[Sending]
        ensures sendings { result.now ≡ self.now }
        // The data of each of their records is of its type, and none is an OPT.
        ensures plain { ArePlain self.now }
    {
        self.sendings.as_slice()
    }
}

/// What is kept of the lines that were read so far.
#[derive(Debug, Drop)]
struct Reading {
    /// How many they are.
    lines: u64,
    /// The zone that was named last.
    zone: Option<Name>,
    /// The prerequisites that were not sent yet.
    prerequisites: Records,
    /// The changes that were not sent yet.
    changes: Records,
    /// The number of the first line of these.
    first: Option<u64>,
    /// What was sent.
    sendings: Vec<Sending>,
}

/// Reads a script: its lines, of which each is a zone, a prerequisite, a change or the end of a message.
///
/// Lines end with LF, and a CR before it is dropped; the last one may lack its LF. Their words are parted by spaces and tabs.
/// Lines without words and lines that begin with `;` say nothing. The others, in small letters but for names, types and data:
///
/// - `zone NAME`: the zone of the messages from here on,
/// - `prereq yxdomain NAME`, `prereq nxdomain NAME`: the name is in use, or is not (RFC 2136 2.4.4, 2.4.5),
/// - `prereq yxrrset NAME TYPE`, `prereq nxrrset NAME TYPE`: records of the type exist, or do not (RFC 2136 2.4.1, 2.4.3),
/// - `prereq yxrrset NAME TYPE DATA`: they exist with this data (RFC 2136 2.4.2),
/// - `add NAME TTL TYPE DATA`: the record is added (RFC 2136 2.5.1),
/// - `delete NAME`, `delete NAME TYPE`, `delete NAME TYPE DATA`: all records of the name, those of the type, or the one with
///   this data are deleted (RFC 2136 2.5.3, 2.5.2, 2.5.4),
/// - `send`: the message ends, and the zone stays.
///
/// `update` may stand before `add` and `delete`. NAME is as `Name::parse` has it, and its letters stay as they are. What names a
/// record with its data is one entry of a zone's text below the root; only that of `add` needs a TTL, and the others have none.
///
/// The first line that is at fault is refused; where all are read, the first prerequisite or change behind the last `send`.
pub fn read_script(alloc: Global, text: &[u8]) -> Result<Script, ScriptFault>
    ensures script { IfOk result (λ script. script_of text.now ≡ Ok script) }
    ensures fault { IfErr result (Tells (script_of text.now)) }
{
    let mut state = Reading {
        lines: 0,
        zone: None,
        prerequisites: Records::new(alloc),
        changes: Records::new(alloc),
        first: None,
        sendings: Vec::new(alloc),
    };
    let mut rest = text;
    while let Some((line, after)) = split_line(rest) {
        match take_line(alloc, &mut state, line) {
            Ok(()) => {}
            Err(fault) => return Err(fault),
        }
        rest = after;
    }
    if let Some(line) = state.first {
        return Err(ScriptFault::Refused {
            line,
            kind: ScriptKind::Unsent,
        });
    }
    Ok(Script {
        sendings: state.sendings,
    })
}

/// Takes one line more.
fn take_line(alloc: Global, state: &mut Reading, line: &[u8]) -> Result<(), ScriptFault>
    requires { state.old.lines + 1 < 2 ^ 64 }
    ensures ok { OnOk result ((lines : List (List ℕ)) → given_by state.new lines ≡ given_by state.old (line.now ∷ lines)) }
    ensures err { IfErr result (λ fault. (lines : List (List ℕ)) → Tells (given_by state.old (line.now ∷ lines)) fault) }
    ensures counted { OnOk result (state.new.lines ≡ state.old.lines + 1) }
{
    match line_of(alloc, line) {
        Ok(said) => take(alloc, state, said),
        Err(LineFault::Kind(kind)) => Err(ScriptFault::Refused {
            line: state.lines + 1,
            kind,
        }),
        Err(LineFault::OutOfMemory) => Err(ScriptFault::OutOfMemory),
    }
}

/// Takes what one line more says.
fn take(alloc: Global, state: &mut Reading, said: Line) -> Result<(), ScriptFault>
    requires { state.old.lines + 1 < 2 ^ 64 }
    ensures ok { OnOk result ((lines : List (List ℕ)) → given_by state.new lines ≡ given_behind state.old said lines) }
    ensures err { IfErr result (λ fault. (lines : List (List ℕ)) → Tells (given_behind state.old said lines) fault) }
    ensures counted { OnOk result (state.new.lines ≡ state.old.lines + 1) }
{
    match said {
        Line::Send => return send(alloc, state),
        Line::Nothing => {}
        Line::Zone(name) => {
            state.zone = Some(name);
        }
        Line::Prerequisite(one) => {
            state.prerequisites.push(one)?;
            state.first = state.first.or(Some(state.lines + 1));
        }
        Line::Change(one) => {
            state.changes.push(one)?;
            state.first = state.first.or(Some(state.lines + 1));
        }
    }
    state.lines += 1;
    Ok(())
}

/// Ends a message.
fn send(alloc: Global, state: &mut Reading) -> Result<(), ScriptFault>
    requires { state.old.lines + 1 < 2 ^ 64 }
    ensures ok { OnOk result ((lines : List (List ℕ)) → given_by state.new lines ≡ given_behind state.old said.Send lines) }
    ensures err { IfErr result (λ fault. (lines : List (List ℕ)) → Tells (given_behind state.old said.Send lines) fault) }
    ensures counted { OnOk result (state.new.lines ≡ state.old.lines + 1) }
{
    let zone = match &state.zone {
        Some(zone) => zone.copy()?,
        None => {
            return Err(ScriptFault::Refused {
                line: state.lines + 1,
                kind: ScriptKind::NoZone,
            });
        }
    };
    let prerequisites = std::mem::replace(&mut state.prerequisites, Records::new(alloc));
    let changes = std::mem::replace(&mut state.changes, Records::new(alloc));
    state.first = None;
    state.lines += 1;
    state.sendings.push(Sending {
        zone,
        prerequisites,
        changes,
    })?;
    Ok(())
}
