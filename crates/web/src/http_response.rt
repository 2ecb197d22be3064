//! The responses to a request, as far as its head determines them.
ghost use Rattle.std.specs.Prelude.{IsTrue};
ghost use Rattle.websocket.specs.Headers.{is_graphic_text};

/// The response to a request.
#[derive(Clone, Copy)]
pub enum Response {
    /// None yet: the head is incomplete and may become a request.
    Incomplete,
    /// The page. The connection is closed after it.
    Page,
    /// The head of the response that holds the page, for `HEAD`. The connection is closed after it.
    PageHead,
    /// The upgrade: the connection continues as a WebSocket.
    Upgrade(UpgradeRequest),
    /// An error. The connection is closed after the response.
    Error(HttpError),
    /// The head of the response to an error, for `HEAD`. The connection is closed after it.
    ErrorHead(HttpError),
}

/// A valid WebSocket handshake.
#[derive(Clone, Copy)]
pub struct UpgradeRequest {
    /// The value of `Sec-WebSocket-Accept`.
    pub(crate) accept_key: [u8; 28],
    /// The number of bytes of the head. The bytes after it belong to the WebSocket.
    pub head_length: usize,
    // The key contains no blank and no control character.
    ghost graphic: { IsTrue (is_graphic_text accept_key) },
}

/// Why a request is rejected.
#[derive(Clone, Copy)]
pub enum HttpError {
    /// 400: not a valid request, or not a valid handshake.
    BadRequest,
    /// 403: an upgrade requested by a page that this server has not served.
    Forbidden,
    /// 404: unknown path.
    NotFound,
    /// 421: the request is for a host that is not this server's.
    Misdirected,
    /// 405: a method other than `GET` and `HEAD`.
    MethodNotAllowed,
    /// 408: the head was not complete in time. [`crate::response`] has no clock and never returns it.
    TimedOut,
    /// 431: the head has too many bytes or too many fields.
    TooLong,
}
