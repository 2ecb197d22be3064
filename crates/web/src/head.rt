//! A whole head of a request.
use httparse::spans::{HeaderSpan, RequestSpans};

/// The lines of a head, and where its parts are in them.
#[derive(Clone, Copy)]
pub(crate) struct Head<'a> {
    pub(crate) lines: &'a [u8],
    pub(crate) request: &'a RequestSpans,
    pub(crate) spans: &'a [HeaderSpan],
}
