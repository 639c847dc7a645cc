//! The text of a configuration.

ghost use Rattle.std.specs.Prelude.{◌≡◌, Ok, Some, IfOk, IfErr};
ghost use Rattle.std.specs.Option.{option_map};
ghost use Rattle.toml.specs.Data.{get_member};
ghost use Rattle.toml.specs.View.{view, table_view};
ghost use Rattle.dns_configuration.specs.Config.{zone_path_key, has_other_key, text_of, path_in, zone_path_of, Tells};

use crate::path_text::PathText;
use std::alloc::Global;
use thiserror::Error;
use toml::{Table, Value};

/// The one key of a configuration.
const ZONE_PATH: &str = "zone_path";

/// What is wrong with the text of a configuration. Where more is wrong than one thing, the first in this order counts.
#[derive(Clone, Copy, Debug, PartialEq, Eq, Error)]
pub enum ConfigFault {
    /// The text is not TOML.
    #[error("not TOML")]
    NotToml,
    /// There is a key other than `zone_path`.
    #[error("unknown key")]
    UnknownKey,
    /// There is no `zone_path`.
    #[error("no zone_path")]
    Missing,
    /// The value of `zone_path` is no text.
    #[error("zone_path is no text")]
    NotText,
    /// Memory ran out.
    #[error("out of memory")]
    OutOfMemory,
}

/// Where the text of a zone stands.
#[derive(Debug, Drop, PartialEq, Eq)]
pub struct FileConfig {
    /// The path of the file with the zone's text.
    pub zone_path: PathText,
}

impl FileConfig {
    /// Reads the text of a configuration: a TOML document with the one key `zone_path`, whose value is a text.
    #[tactic(auto, unfolding(crate::specs::Config::zone_path_of))]
    pub fn read(alloc: Global, text: &str) -> Result<FileConfig, ConfigFault>
        ensures ok { IfOk result (λ config. zone_path_of text.now ≡ Ok config.zone_path) }
        ensures err { IfErr result (Tells (zone_path_of text.now)) }
    {
        let table = match toml::table_from_str(alloc, text) {
            Ok(table) => table,
            Err(error) => {
                return Err(if error.is_memory() {
                    ConfigFault::OutOfMemory
                } else {
                    ConfigFault::NotToml
                });
            }
        };
        let zone_path = path_in(alloc, &table)?;
        Ok(FileConfig { zone_path })
    }
}

/// The path that a table names.
fn path_in(alloc: Global, table: &Table) -> Result<PathText, ConfigFault>
    ensures ok { IfOk result (λ path. path_in (Some (table_view table.now)) ≡ Ok path) }
    ensures err { IfErr result (Tells (path_in (Some (table_view table.now)))) }
{
    if has_other_key(table) {
        return Err(ConfigFault::UnknownKey);
    }
    match zone_path(table) {
        None => Err(ConfigFault::Missing),
        Some(value) => text_of(alloc, value),
    }
}

/// The value at `zone_path`, where there is one.
fn zone_path(table: &Table) -> Option<&Value>
    ensures { option_map (λ value. view value.now) result ≡ get_member zone_path_key (table_view table.now) }
{
    table.get(ZONE_PATH)
}

/// The text that a value is.
fn text_of(alloc: Global, value: &Value) -> Result<PathText, ConfigFault>
    ensures ok { IfOk result (λ path. text_of (view value.now) ≡ Ok path) }
    ensures err { IfErr result (Tells (text_of (view value.now))) }
{
    match value.as_str() {
        None => Err(ConfigFault::NotText),
        Some(text) => match String::from_str(alloc, text) {
            Ok(text) => Ok(PathText::new(text)),
            Err(_) => Err(ConfigFault::OutOfMemory),
        },
    }
}

/// Whether a key other than `zone_path` stands in the table.
fn has_other_key(table: &Table) -> bool
    ensures { result ≡ has_other_key zone_path_key (table_view table.now) }
{
    for (key, _value) in table.iter() {
        if key.as_str() != ZONE_PATH {
            return true;
        }
    }
    false
}
