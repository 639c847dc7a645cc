//! The configuration of a zone that is kept in a file: its text, the files that it names, and the zone that comes of it.
#![tactic(auto)]

mod config;
mod files;
mod handler;
mod memory;
mod path_text;
mod paths;

pub use config::{ConfigFault, FileConfig};
pub use files::Files;
pub use handler::{AxfrPolicy, FileZoneHandler, LoadFault, ZoneType};
pub use memory::MemoryFiles;
pub use path_text::PathText;
