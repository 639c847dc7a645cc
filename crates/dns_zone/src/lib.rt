//! A zone, what questions are answered with from it, and the text that it is read from.
#![tactic(auto)]

mod answer;
mod descent;
mod growing;
pub mod laws;
mod lent;
mod look;
mod lookup;
mod owner;
mod placement;
mod replaying;
mod update;
mod zone;
mod zone_text;

pub use answer::{Answer, Parts};
pub use dns_presentation::split_line;
pub use dns_update::{Batch, Modified, ReplayKind, Verdict};
pub use growing::Growing;
pub use lookup::Looked;
pub use replaying::{ReplayFault, Replaying, replay};
pub use zone::Zone;
pub use zone_text::{ZoneTextFault, ZoneTextKind, kind_of, kind_text, read_zone};
