//! The faults of requests.

/// The fault of a refused request. The session gets no line of it.
#[derive(Clone, Copy)]
pub enum Fault {
    /// Its bytes are no request.
    Request,
    /// A page of another site sent it.
    Site,
    /// Nothing is at its path.
    Path,
    /// Its method is not `POST`, at the path of lines, of a question or of a bulk.
    MethodNotPost,
    /// Its method is neither `GET` nor `HEAD`, at `/healthz`.
    MethodNotGet,
    /// It has not come whole in time.
    Timeout,
    /// Neither a length nor a coding says where its body ends.
    Length,
    /// Its body is too long.
    Body,
    /// Its target is too long.
    Target,
    /// Its body has another media type than its path takes.
    Type,
    /// Its `Host` is a name that may lead elsewhere, and no gateway stands in front of the server to compare it.
    Host,
    /// Its head is too long, or has too many fields.
    Head,
    /// Its body has a coding that the server does not decode.
    Coding,
    /// The server has no room for its connection.
    Busy,
}
