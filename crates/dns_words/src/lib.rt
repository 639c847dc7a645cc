//! What several programs have in common: the words of the command line, what they and those of a text's lines mean, as numbers, bytes,
//! addresses and what follows a key, and writing a text.
#![tactic(auto)]

mod actions;
mod keys;
mod texts;
mod values;
mod written;

pub use actions::{Action, action_of, command_words, unread_words};
pub use keys::{
    JOURNAL, behind, first_behind, is_journal_word, is_path_word, names_journal, path_of,
};
pub use texts::{ended, put_line, put_text, put_whole};
pub use values::{address_of, bytes_of, decimal_of, digits_below, first_place, ip_of, peer_of};
pub use written::{hex_word, hex_words};
