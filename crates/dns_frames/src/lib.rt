//! What comes over connections, cut into messages.
#![tactic(auto)]

mod frames;
pub mod laws;

pub use frames::{Frames, first_frame};
