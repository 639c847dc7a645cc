//! A zone that is kept in a file.

ghost use Rattle.std.specs.Prelude.{◌≡◌, Ok, IfOk, IfErr};
ghost use Rattle.std.specs.Borrow.{Lends, sem};
ghost use Rattle.std.specs.Option.{option_copied};
ghost use Rattle.dns_io.specs.Told.{Keeps};
ghost use Rattle.dns_name.specs.Name.{fold_of};
ghost use Rattle.dns_zone.specs.contracts.zone.Zone.{the_row as zone_row};
ghost use Rattle.dns_configuration.specs.contracts.handler.FileZoneHandler.{the_row};
ghost use Rattle.dns_configuration.specs.Paths.{path_from};
ghost use Rattle.dns_configuration.specs.Handlers.{Means, TellsLoad, MissesText, TellsText, LoadCause};
ghost use Rattle.dns_configuration.specs.Files.{IsTextAt};
ghost use Rattle.dns_zone.specs.ZoneText.{zone_of};

use crate::config::FileConfig;
use crate::files::Files;
use crate::paths::path_from;
use dns_io::{Octets, OutOfMemory};
use dns_keeper::KeepFault;
use dns_name::Name;
use dns_zone::{Zone, ZoneTextFault, ZoneTextKind, read_zone};
use std::alloc::Global;
use std::marker::Model;
use thiserror::Error;

/// What the server is to the zone (RFC 9499 7).
#[derive(Clone, Copy, Debug, PartialEq, Eq)]
pub enum ZoneType {
    /// The zone is changed here.
    Primary,
    /// The zone comes from a primary server.
    Secondary,
    /// The zone is kept by others.
    External,
}

/// Who may transfer the zone (RFC 5936). The policy is kept and has no effect: every transfer is refused.
#[derive(Clone, Copy, Debug, PartialEq, Eq)]
pub enum AxfrPolicy {
    /// Nobody.
    Deny,
    /// Everybody.
    AllowAll,
    /// Those who sign their request.
    AllowSigned,
}

/// Why no zone came of a configuration.
#[derive(Clone, Copy, Debug, PartialEq, Eq, Error)]
pub enum LoadFault {
    /// The file could not be read: the count of faults of the files rose, or stands at `u64::MAX`.
    #[error("the zone text could not be read")]
    Read,
    /// There is no file at the path.
    #[error("no zone text")]
    NoFile,
    /// The text is no zone's: what is wrong first, and at which line, from 1; 0 where it shows at the end alone.
    #[error("zone text line {line}: {kind}")]
    Text { line: u64, kind: ZoneTextKind },
    /// Memory ran out.
    #[error("out of memory")]
    OutOfMemory,
}

/// A zone with what the server is to it.
#[derive(Drop)]
pub struct FileZoneHandler {
    in_memory: Zone,
    zone_type: ZoneType,
    axfr_policy: AxfrPolicy,
}

impl Model for FileZoneHandler {
    ghost use Rattle.dns_configuration.specs.Handlers.{Handled};

    ghost Value = { Handled };

    ghost view = { λ h. record { zone = h.in_memory; zone_type = h.zone_type; axfr_policy = h.axfr_policy } };
}

impl FileZoneHandler {
    /// A zone that is changed here, and which nobody may transfer. Takes no memory.
    pub fn new(in_memory: Zone) -> FileZoneHandler
        ensures { result ≡ record { zone = in_memory; zone_type = ZoneType.Primary; axfr_policy = AxfrPolicy.Deny } }
    {
        FileZoneHandler {
            in_memory,
            zone_type: ZoneType::Primary,
            axfr_policy: AxfrPolicy::Deny,
        }
    }

    /// Reads the zone with this origin from the file that a configuration names.
    ///
    /// The file's path is that of the configuration where this begins with a slash or there is no `root_dir`; else it is below
    /// `root_dir`. Of the faults the first in the order of the work is told: the read, the missing file, the text.
    pub fn try_from_config<F: Files>(
        alloc: Global,
        origin: Name,
        zone_type: ZoneType,
        axfr_policy: AxfrPolicy,
        root_dir: Option<&str>,
        config: &FileConfig,
        files: &mut F,
    ) -> Result<FileZoneHandler, LoadFault>
        ensures zone { IfOk result (λ handler. Means (F.files files.new)
            (path_from (option_copied root_dir.entry) config.now.zone_path) (fold_of origin) (Ok handler.zone.records)) }
        ensures origin { IfOk result (λ handler. handler.zone.origin ≡ fold_of origin) }
        ensures zone_type { IfOk result (λ handler. handler.zone_type ≡ zone_type) }
        ensures axfr_policy { IfOk result (λ handler. handler.axfr_policy ≡ axfr_policy) }
        ensures fault { IfErr result (TellsLoad (F.files files.new)
            (path_from (option_copied root_dir.entry) config.now.zone_path) (fold_of origin)) }
        ensures kept { Keeps (F.files files.old) (F.files files.new) }
        ensures cause { LoadCause (F.faults files.old) (F.faults files.new) result }
    {
        let path = match path_from(alloc, root_dir, config.zone_path.as_str()) {
            Ok(path) => path,
            Err(OutOfMemory) => return Err(LoadFault::OutOfMemory),
        };
        let text = read_text(path.as_str(), files)?;
        Ok(FileZoneHandler {
            in_memory: zone_in(alloc, text.as_slice(), &origin)?,
            zone_type,
            axfr_policy,
        })
    }

    /// The zone.
    pub fn in_memory(&self) -> &Zone
        ensures { result.now ≡ self.now.zone }
    {
        &self.in_memory
    }

    /// The zone, to be changed or replaced.
    pub fn in_memory_mut(&mut self) -> &mut Zone
        ensures* lends { sem 𝓛 (Lends the_row zone_row self.entry result (λ zone. record self.entry.now { zone = zone })) }
        ensures is { result.now ≡ self.old.zone }
    {
        &mut self.in_memory
    }

    /// What the server is to the zone.
    pub fn zone_type(&self) -> ZoneType
        ensures { result ≡ self.now.zone_type }
    {
        self.zone_type
    }

    /// Who may transfer the zone.
    pub fn axfr_policy(&self) -> AxfrPolicy
        ensures { result ≡ self.now.axfr_policy }
    {
        self.axfr_policy
    }

    /// The name at the top of the zone that it holds now, in small letters.
    pub fn origin(&self) -> &Name
        ensures { result.now ≡ self.now.zone.origin }
    {
        self.in_memory.origin()
    }
}

/// The text at a path.
fn read_text<F: Files>(path: &str, files: &mut F) -> Result<Octets, LoadFault>
    ensures ok { IfOk result (λ text. IsTextAt (F.files files.new) path.now (Some text)) }
    ensures err { IfErr result (MissesText (F.files files.new) path.now) }
    ensures kept { Keeps (F.files files.old) (F.files files.new) }
    ensures cause { LoadCause (F.faults files.old) (F.faults files.new) result }
{
    match files.read_file(path) {
        Ok(Some(text)) => Ok(text),
        Ok(None) => Err(LoadFault::NoFile),
        Err(KeepFault::Failed) => Err(LoadFault::Read),
        Err(KeepFault::OutOfMemory) => Err(LoadFault::OutOfMemory),
    }
}

/// The zone of a text.
fn zone_in(alloc: Global, text: &[u8], origin: &Name) -> Result<Zone, LoadFault>
    ensures records { IfOk result (λ zone. zone_of (fold_of origin.now) text.now ≡ Ok zone.records) }
    ensures origin { IfOk result (λ zone. zone.origin ≡ fold_of origin.now) }
    ensures err { IfErr result (TellsText (zone_of (fold_of origin.now) text.now)) }
{
    match read_zone(alloc, text, origin) {
        Ok(zone) => Ok(zone),
        Err(ZoneTextFault::Refused { line, kind }) => Err(LoadFault::Text { line, kind }),
        Err(ZoneTextFault::OutOfMemory) => Err(LoadFault::OutOfMemory),
    }
}
