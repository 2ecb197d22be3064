//! HTTP responses as text.
ghost use Rattle.std.specs.Prelude.{◌≡◌, ◌≤◌, ◌+◌, ◌++◌, [], length};
ghost use Rattle.std.specs.Fmt.{decimal};
ghost use Rattle.arrayvec.specs.ArrayVec.{array_vec_len};
ghost use Rattle.websocket.specs.Handshake.{response_bytes};
ghost use Rattle.web.specs.Replies.{allow_of, error_head_text, name_of, page_head_text, reason_of, error_text, status_of};

use crate::http_response::{HttpError, UpgradeRequest};
use arrayvec::ArrayVec;
use std::io::Cursor;
use text::{decimal_digits, push_bytes};
use websocket::handshake::server::write_response;

/// A response, or the head of one, at most 640 bytes.
pub type Head = ArrayVec<u8, 640>;

/// The connection is closed after the response.
const CONNECTION_CLOSE: &[u8] = b"\r\nConnection: close\r\n";

/// A page is never cached, has exactly its declared type, and sends no `Referer` to linked sites.
const PAGE_RULES: &[u8] =
    b"Cache-Control: no-store\r\nX-Content-Type-Options: nosniff\r\nReferrer-Policy: no-referrer\r\n";

/// A page runs only its own inline scripts, loads nothing, and connects only to its own server.
const PAGE_POLICY: &[u8] =
    b"Content-Security-Policy: default-src 'none'; style-src 'unsafe-inline'; script-src 'unsafe-inline'; connect-src 'self'; img-src data:; base-uri 'none'; form-action 'none'; frame-ancestors 'none'\r\n\r\n";

impl HttpError {
    /// The status code, three digits (RFC 9110, section 15).
    pub fn status(self) -> u16
        ensures value { result ≡ status_of self }
        ensures most { result ≤ 431 }
    {
        match self {
            HttpError::BadRequest => 400,
            HttpError::Forbidden => 403,
            HttpError::NotFound => 404,
            HttpError::MethodNotAllowed => 405,
            HttpError::TimedOut => 408,
            HttpError::Misdirected => 421,
            HttpError::TooLong => 431,
        }
    }

    /// The standard's name of the status, at most 31 bytes.
    fn name(self) -> &'static [u8]
        ensures name { result.now ≡ name_of self }
        ensures most { length result.now ≤ 31 }
    {
        match self {
            HttpError::BadRequest => b"Bad Request",
            HttpError::Forbidden => b"Forbidden",
            HttpError::NotFound => b"Not Found",
            HttpError::MethodNotAllowed => b"Method Not Allowed",
            HttpError::TimedOut => b"Request Timeout",
            HttpError::Misdirected => b"Misdirected Request",
            HttpError::TooLong => b"Request Header Fields Too Large",
        }
    }

    /// The reason shown to the reader, a line of at most 61 bytes.
    fn reason(self) -> &'static [u8]
        ensures reason { result.now ≡ reason_of self }
        ensures most { length result.now ≤ 61 }
    {
        match self {
            HttpError::BadRequest => b"This is no request that can be answered.\n",
            HttpError::Forbidden => b"Only a page of this server may join the bus.\n",
            HttpError::NotFound => b"There is nothing at this path.\n",
            HttpError::MethodNotAllowed => b"Only GET and HEAD are answered.\n",
            HttpError::TimedOut => b"The request did not come to its end in time.\n",
            HttpError::Misdirected => {
                b"This server does not know that name: --host NAME lets it in.\n"
            }
            HttpError::TooLong => b"The head of the request is too long.\n",
        }
    }

    /// The `Allow` field, if the status requires one, at most 18 bytes.
    fn allow(self) -> &'static [u8]
        ensures allow { result.now ≡ allow_of self }
        ensures most { length result.now ≤ 18 }
    {
        match self {
            HttpError::MethodNotAllowed => b"Allow: GET, HEAD\r\n",
            _ => b"",
        }
    }
}

/// Appends the response to a rejected request, at most 300 bytes. The connection is closed after
/// it.
pub fn push_error(head: &mut Head, error: HttpError)
    requires { array_vec_len head.old + 300 ≤ 640 }
    ensures text { head.new.items ≡ head.old.items ++ error_text error }
    ensures len { array_vec_len head.new ≤ array_vec_len head.old + 300 }
{
    push_error_head(head, error);
    push_bytes(head, error.reason());
}

/// Appends the head of that response alone, for `HEAD`, at most 239 bytes.
pub fn push_error_head(head: &mut Head, error: HttpError)
    requires { array_vec_len head.old + 239 ≤ 640 }
    ensures text { head.new.items ≡ head.old.items ++ error_head_text error }
    ensures len { array_vec_len head.new ≤ array_vec_len head.old + 239 }
{
    let reason = error.reason();
    push_bytes(head, b"HTTP/1.1 ");
    push_number(head, u32::from(error.status()));
    push_bytes(head, b" ");
    push_bytes(head, error.name());
    push_bytes(
        head,
        b"\r\nContent-Type: text/plain; charset=utf-8\r\nContent-Length: ",
    );
    push_number(head, reason.len() as u32);
    push_bytes(head, CONNECTION_CLOSE);
    push_bytes(head, error.allow());
    push_bytes(head, b"\r\n");
}

/// Appends the head of the response that holds a page of `length` bytes, at most 500 bytes. The
/// page follows, and then the connection is closed.
pub fn push_page_head(head: &mut Head, length: u32)
    requires { array_vec_len head.old + 500 ≤ 640 }
    ensures text { head.new.items ≡ head.old.items ++ page_head_text length }
    ensures len { array_vec_len head.new ≤ array_vec_len head.old + 500 }
{
    push_bytes(
        head,
        b"HTTP/1.1 200 OK\r\nContent-Type: text/html; charset=utf-8\r\nContent-Length: ",
    );
    push_number(head, length);
    push_bytes(head, CONNECTION_CLOSE);
    push_bytes(head, PAGE_RULES);
    push_bytes(head, PAGE_POLICY);
}

/// Appends the response to a valid handshake, 129 bytes. The WebSocket follows.
pub fn push_upgrade(head: &mut Head, upgrade: &UpgradeRequest)
    requires { array_vec_len head.old + 129 ≤ 640 }
    ensures text { head.new.items ≡ head.old.items ++ response_bytes upgrade.now.accept_key [] }
    ensures len { array_vec_len head.new ≤ array_vec_len head.old + 129 }
{
    let mut bytes = [0; 160];
    let mut reply = Cursor::new(bytes.as_mut_slice());
    // There is room, and the key contains no blank and no control character.
    let _fits = write_response(&upgrade.accept_key, &[], &mut reply);
    let end = (reply.position() as usize).min(reply.get_ref().len());
    push_bytes(head, &reply.get_ref()[..end]);
}

/// Appends a number in decimal digits, at most 10.
fn push_number(head: &mut Head, n: u32)
    requires { array_vec_len head.old + 10 ≤ 640 }
    ensures text { head.new.items ≡ head.old.items ++ decimal n }
    ensures len { array_vec_len head.new ≤ array_vec_len head.old + 10 }
{
    push_bytes(head, decimal_digits(u64::from(n)).as_slice());
}
