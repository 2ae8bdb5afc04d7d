//! What may be wrong with a request, and why one couldn't be read.

/// What is wrong with a request: the first fault, in the order of `read_request`.
#[derive(Clone, Copy, Debug, PartialEq, Eq)]
pub enum RequestFault {
    /// No head, or a bad one; HTTP/1.1 without a host, or more than one; a length that is none, or said twice; or the
    /// input ended too early.
    BadRequest,
    /// The target has no route.
    NotFound,
    /// The route is only read, by GET.
    OnlyGet,
    /// The route only takes a body, by POST.
    OnlyPost,
    /// The length of the body isn't said, or the body comes in another coding.
    NoLength,
    /// The body is longer than 131072 bytes.
    LargeBody,
    /// The head is longer than 8192 bytes, or has over 64 fields.
    LargeHead,
}

/// Why a request couldn't be read.
#[derive(Clone, Copy, Debug, PartialEq, Eq)]
pub enum StreamFault {
    /// The source failed.
    Read,
    /// Memory ran out.
    NoMemory,
}
