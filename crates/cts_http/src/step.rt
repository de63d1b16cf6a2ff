//! What a reader answers.

/// What the bytes are that a reader holds and that are in no request it gave (RFC 9112; the bounds are this server's).
#[derive(Clone, Copy, Debug, PartialEq, Eq)]
pub enum HttpStep {
    /// They begin with a whole request that is accepted.
    Request {
        /// Whether the connection ends after its response: its version is HTTP/1.0, or a Connection field holds the token
        /// `close` in any case.
        last: bool,
    },
    /// They begin with no whole request that is accepted, and are not refused.
    More,
    /// They are refused with this status, for good.
    ///
    /// While no head is whole the first 16,384 bytes are judged: 400 where no head can begin with them, and 431 where one
    /// can and more bytes are there. That a target never becomes UTF-8 is told at its end at the latest, perhaps before: until
    /// then bytes that end within it may be `More`, or 431 where more are there. A whole head is refused by the first of
    /// these that holds: 400, a Content-Length is not one or more digits, or two are of different value; 431, more than 64
    /// fields; 405, the method is not POST; 501, a Transfer-Encoding; 411, no Content-Length; 413, a body of more than
    /// 1,048,576 bytes.
    Refuse(u16),
}
