//! Why the words of a command line are no command, in words for the person who typed them.
//!
//! A value of a word is asked for its cause only where the reader that the programs use gives none, so that a reason and the decision do not
//! part. A new key is a row in `keys.rt`, beside the programs' own readers.
#![tactic(auto)]

mod keys;
mod lines;
mod options;
mod places;
mod reasons;
mod tools;
mod values;
mod why;

pub use keys::{Form, Key, form_of, is_single, key_text};
pub use lines::line_behind;
pub use reasons::{Reason, reason_of, update_reason};
pub use tools::Tool;
pub use why::Why;
