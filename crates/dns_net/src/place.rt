//! Where the message of a request stands.

/// Where the message of a request stands (RFC 8484 4.1).
#[derive(Clone, Copy, Debug)]
pub enum Place {
    /// In the query of its target: the method is GET.
    Query,
    /// In its body, which is said to be so long, where that is said: the method is POST.
    Body(Option<usize>),
}
