//! The wire format of DNS: questions, records and messages, read and written (RFC 1035, RFC 6891).
#![tactic(auto)]

mod boxed_name;
pub mod class;
mod edns;
mod encoding;
mod folding;
mod header;
mod ipv6_address;
pub mod kept;
pub mod laws;
mod lent_records;
mod lent_reply;
pub mod limits;
mod message;
mod numbers;
pub mod opcode;
mod question;
mod rdata;
mod reading;
mod reading_data;
mod record;
pub mod record_type;
mod reply;
pub mod response_code;
mod texts;
mod writing;
mod writing_data;

pub use boxed_name::BoxedName;
pub use dns_io::{IoFault, Ip, Octets, OutOfMemory, Peer, Protocol, told_contents};
pub use dns_name::{Labels, Name, NameView, ProtoError, name_laws};
pub use edns::Edns;
pub use header::Header;
pub use ipv6_address::Ipv6Address;
pub use lent_records::LentRecords;
pub use lent_reply::{Appended, LentReply};
pub use message::Message;
pub use question::{LentQuestion, Question, Questions};
pub use rdata::Data;
pub use reading::{read_one_question, read_record};
pub use record::{Record, Records};
pub use reply::{Reply, WrittenReply};
pub use texts::{Texts, TextsIter};
