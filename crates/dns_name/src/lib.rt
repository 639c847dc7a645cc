//! Domain names, their bytes in a message and their text (RFC 1035 2.3.4, 3.1, 5.1).
#![tactic(auto)]

mod escape;
mod fault;
mod name;
pub mod name_laws;
mod name_text;
mod view;

pub use escape::escape_of;
pub use fault::ProtoError;
pub use name::{Labels, Name};
pub use view::NameView;
