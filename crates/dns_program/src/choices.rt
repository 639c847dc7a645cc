//! What the words of the command line choose: the program that they are for, and the journals over which a command is done.

pub mod auditing;
pub mod following;
pub mod programs;
pub mod serving;

/// A journal that words choose.
#[derive(Clone, Copy)]
pub enum Chosen<'a> {
    /// One in memory: the words name none, or are no command.
    InMemory,
    /// The one in the file at this path.
    InFile(&'a str),
    /// The one in the file at this path, which has to be there: to read a journal no file is made.
    InPresentFile(&'a str),
    /// None: memory ran out before it was known which one.
    WithoutMemory,
}
