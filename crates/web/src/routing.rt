//! The response to a request.
ghost use Rattle.std.specs.Prelude.{◌≡◌, ◌≢◌, ◌<◌, ◌++◌, List, ℕ, length, map, string_bytes, take, IsTrue};
ghost use Rattle.httparse.specs.Spans.{IsRequestWithin, span_bytes};
ghost use Rattle.websocket.specs.Headers.{fields_of};
ghost use Rattle.web.specs.declared.http_response.Response.TheVariants.{Incomplete};
ghost use Rattle.web.specs.Responses.{IsResponse, unfinished};
ghost use Rattle.web.specs.HeadParts.{IsWithin, OfParts};
ghost use Rattle.web.specs.Heads.{HasUpgraded, IsFullResponseTo, IsResponseTo, IsResponseToHost, is_get, is_head, without_content};
ghost use Rattle.web.specs.Lines.{whole_lines};

use crate::head::Head;
use crate::http_response::{HttpError, Response, UpgradeRequest};
use crate::origin::{host, is_own_host, is_same_origin};
use httparse::Status;
use httparse::spans::{EMPTY_HEADER_SPAN, HeaderSpan, RequestSpans, parse_request};
use memchr::memrchr;
use websocket::handshake::server::check_request;

/// The most bytes of a request head.
pub const MAX_HEAD: usize = 8_192;

/// The most header fields of a request head.
pub const MAX_FIELDS: usize = 64;

/// More fields than a head of [`MAX_HEAD`] bytes can have: a field has at least three bytes.
const ROOM: usize = 2_731;

/// Returns the response to a request whose bytes so far are `text`, for a server that is reached by
/// IP addresses, as `localhost` and by these names. Once it is other than [`Response::Incomplete`],
/// it stays the same whatever follows, and however the text is divided into pieces.
///
/// The head is examined up to its last whole line. A head of [`MAX_HEAD`] bytes that has not ended
/// is rejected (431), as is a whole head of more than [`MAX_FIELDS`] fields; lines that cannot
/// begin a request are rejected at once (400). The form of a request is given in RFC 9112, section
/// 3. A request without exactly one `Host` is rejected (400), and one for another name (421), so that
/// no other name that resolves to this computer reaches the bus.
pub fn response(names: &[String], text: &[u8]) -> Response
    ensures response { IsResponse (map (λ name. string_bytes name) names.now) text.now result }
    // A final response does not change with further bytes.
    ensures stands { result ≢ Incomplete → (more : List ℕ)
        → IsResponse (map (λ name. string_bytes name) names.now) (text.now ++ more) result }
    // An incomplete head leaves room for more.
    ensures room { result ≡ Incomplete → length text.now < 8192 }
{
    let lines = whole_lines(&text[..text.len().min(MAX_HEAD)]);
    let mut spans = [EMPTY_HEADER_SPAN; ROOM];
    match parse_request(lines, &mut spans) {
        Ok(Status::Complete(request)) => {
            let head = Head {
                lines,
                request: &request,
                spans: &spans,
            };
            route(names, &head)
        }
        Ok(Status::Partial) => unfinished(text),
        Err(_) => Response::Error(HttpError::BadRequest),
    }
}

/// The response to a head that has not ended.
fn unfinished(text: &[u8]) -> Response
    ensures { result ≡ unfinished text.now }
{
    if text.len() < MAX_HEAD {
        Response::Incomplete
    } else {
        Response::Error(HttpError::TooLong)
    }
}

/// Returns the text up to its last line feed.
fn whole_lines(text: &[u8]) -> &[u8]
    ensures { result.now ≡ whole_lines text.now }
{
    match memrchr(b'\n', text) {
        Some(at) => &text[..=at],
        None => &[],
    }
}

/// The response to a whole head.
fn route(names: &[String], head: &Head<'_>) -> Response
    requires { IsWithin head.now }
    ensures response { OfParts IsResponseTo (map (λ name. string_bytes name) names.now) head.now
        result }
    ensures now { result ≢ Incomplete }
{
    let response = full_response(names, head);
    if is_head(head.request.method.of(head.lines)) {
        without_content(response)
    } else {
        response
    }
}

/// Returns a response without its content (RFC 9110, section 9.3.2).
fn without_content(response: Response) -> Response
    ensures { result ≡ without_content response }
{
    match response {
        Response::Page => Response::PageHead,
        Response::Error(error) => Response::ErrorHead(error),
        response => response,
    }
}

/// Whether a method is `GET`.
fn is_get(method: &[u8]) -> bool
    ensures { result ≡ is_get method.now }
{
    method == b"GET".as_slice()
}

/// Whether a method is `HEAD`.
fn is_head(method: &[u8]) -> bool
    ensures { result ≡ is_head method.now }
{
    method == b"HEAD".as_slice()
}

/// The response to a whole head, with its content.
fn full_response(names: &[String], head: &Head<'_>) -> Response
    requires { IsWithin head.now }
    ensures response { OfParts IsFullResponseTo (map (λ name. string_bytes name) names.now) head.now
        result }
    ensures now { result ≢ Incomplete }
{
    let path = head.request.path.of(head.lines);
    let method = head.request.method.of(head.lines);
    if head.request.headers > MAX_FIELDS {
        Response::Error(HttpError::TooLong)
    } else if path != b"/".as_slice() && path != b"/bus".as_slice() {
        Response::Error(HttpError::NotFound)
    } else if !is_get(method) && !is_head(method) {
        Response::Error(HttpError::MethodNotAllowed)
    } else {
        route_host(names, head)
    }
}

/// The response to a head that only its host or its origin can reject.
fn route_host(names: &[String], head: &Head<'_>) -> Response
    requires { IsWithin head.now }
    ensures response { OfParts IsResponseToHost (map (λ name. string_bytes name) names.now) head.now
        result }
    ensures now { result ≢ Incomplete }
{
    let lines = head.lines;
    let fields = &head.spans[..head.request.headers];
    let Some(host) = host(lines, fields) else {
        return Response::Error(HttpError::BadRequest);
    };
    if !is_own_host(names, host) {
        Response::Error(HttpError::Misdirected)
    } else if head.request.path.of(lines) == b"/".as_slice() {
        Response::Page
    } else if is_same_origin(host, lines, fields) {
        upgrade_of(lines, head.request, head.spans)
    } else {
        Response::Error(HttpError::Forbidden)
    }
}

/// The response to a head that requests the WebSocket.
fn upgrade_of(lines: &[u8], request: &RequestSpans, spans: &[HeaderSpan]) -> Response
    requires { IsRequestWithin lines.now spans.now request.now }
    ensures upgrade { HasUpgraded (span_bytes lines.now request.now.method)
        request.now.version (fields_of lines.now (take request.now.headers spans.now))
        request.now.len result }
    ensures now { result ≢ Incomplete }
{
    match check_request(lines, request, spans) {
        Ok(accept_key) => Response::Upgrade(UpgradeRequest {
            accept_key,
            head_length: request.len,
        }),
        Err(_) => Response::Error(HttpError::BadRequest),
    }
}
