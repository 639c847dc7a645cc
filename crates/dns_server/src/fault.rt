//! Why a port is not registered.

/// Why a port is not registered. The port is given back, and nothing has changed.
#[derive(Drop)]
pub enum RegisterFault<P> {
    /// There are as many workers as seats.
    Full(P),
    /// Memory ran out.
    OutOfMemory(P),
}
