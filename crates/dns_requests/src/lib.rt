//! One request end to end: connections, streams and requests that are served by a handler, streams under a limit, and replies that
//! are sent one by one.
#![tactic(auto)]

mod answering;
mod connection;
mod poll_stream;
mod response_handle;
mod serve_fault;
mod timeout_stream;

pub use answering::answer;
pub use connection::serve_connection;
pub use poll_stream::PollStream;
pub use response_handle::{ResponseHandle, ResponseHandler, ResponseInfo};
pub use serve_fault::ServeFault;
pub use timeout_stream::{TimeoutFault, TimeoutStream};
