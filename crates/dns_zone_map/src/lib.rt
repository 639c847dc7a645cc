//! The records of a zone as a map from names to sets of records.
#![tactic(auto)]

mod beside;
mod equal;
mod former;
mod key;
pub mod laws;
mod listing;
mod names;
mod presence;
mod rival;
mod sets;
mod tree;
mod walk;
mod zone_map;

pub use beside::Beside;
pub use key::ZoneKey;
pub use presence::Presence;
pub use sets::{OwnerSets, RecordSet};
pub use walk::Walk;
pub use zone_map::ZoneMap;
