//! Checks that a request is for this server, and that a page that requests an upgrade was served by it.
ghost use Rattle.std.specs.Prelude.{◌≡◌, ◌↔◌, length, map, string_bytes, All, IsTrue, option_map};
ghost use Rattle.std.specs.List.{list_all};
ghost use Rattle.std.specs.Char.{is_ascii_digit};
ghost use Rattle.std.specs.Net.Grammar.{IsIpv4Text, IsSocketV4Text};
ghost use Rattle.std.specs.declared.net.ipv4_addr.Ipv4Addr.{Ipv4Addr};
ghost use Rattle.std.specs.declared.net.socket_addr.SocketAddrV4.{SocketAddrV4};
ghost use Rattle.httparse.specs.Spans.{IsHeaderWithin};
ghost use Rattle.websocket.specs.Headers.{eq_ignore_case, fields_of};
ghost use Rattle.web.specs.Origins.{IsOwnHost, IsSameOrigin, host_of, is_name, is_named, is_port, may_be_port, only, values_of};

use httparse::spans::HeaderSpan;
use std::net::{Ipv4Addr, SocketAddrV4};
use text::are_digits;

/// Returns the host of a request, if it has exactly one `Host`.
pub(crate) fn host<'b>(buf: &'b [u8], spans: &[HeaderSpan]) -> Option<&'b [u8]>
    requires { All (IsHeaderWithin (length buf.now)) spans.now }
    ensures { option_map (λ host. host.now) result ≡ host_of (fields_of buf.now spans.now) }
{
    only_value(buf, spans, b"Host")
}

/// Whether the fields have exactly one `Origin`, which has this host and port.
pub(crate) fn is_same_origin(host: &[u8], buf: &[u8], spans: &[HeaderSpan]) -> bool
    requires { All (IsHeaderWithin (length buf.now)) spans.now }
    ensures { IsTrue result ↔ IsSameOrigin host.now (fields_of buf.now spans.now) }
{
    match only_value(buf, spans, b"Origin") {
        Some(origin) => origin.strip_prefix(b"http://".as_slice()) == Some(host),
        None => false,
    }
}

/// Returns the value of the field of this name, if there is exactly one.
fn only_value<'b>(buf: &'b [u8], spans: &[HeaderSpan], name: &[u8]) -> Option<&'b [u8]>
    requires { All (IsHeaderWithin (length buf.now)) spans.now }
    ensures { option_map (λ v. v.now) result
        ≡ only (values_of name.now (fields_of buf.now spans.now)) }
{
    let mut found = None;
    for header in spans {
        if has_name(header.name.of(buf), name) {
            if found.is_some() {
                return None;
            }
            found = Some(header.value.of(buf));
        }
    }
    found
}

fn has_name(a: &[u8], b: &[u8]) -> bool
    ensures { result ≡ eq_ignore_case a.now b.now }
{
    a.eq_ignore_ascii_case(b)
}

/// Whether a host, with an optional port, is an IP address, `localhost` or one of these names.
pub(crate) fn is_own_host(names: &[String], host: &[u8]) -> bool
    ensures { IsTrue result ↔ IsOwnHost (map (λ name. string_bytes name) names.now) host.now }
{
    is_ipv4(host) || is_ipv4_with_port(host) || is_named(names, host)
}

fn is_ipv4(host: &[u8]) -> bool
    ensures { IsTrue result ↔ ((a : Ipv4Addr) × IsIpv4Text host.now a) }
{
    Ipv4Addr::parse_ascii(host).is_ok()
}

fn is_ipv4_with_port(host: &[u8]) -> bool
    ensures { IsTrue result ↔ ((a : SocketAddrV4) × IsSocketV4Text host.now a) }
{
    SocketAddrV4::parse_ascii(host).is_ok()
}

/// Whether a host is `localhost` or one of these names, with an optional port.
fn is_named(names: &[String], host: &[u8]) -> bool
    ensures { result ≡ is_named (map (λ name. string_bytes name) names.now) host.now }
{
    if is_name(b"localhost", host) {
        return true;
    }
    for name in names {
        if is_name(name.as_bytes(), host) {
            return true;
        }
    }
    false
}

/// Whether a host is this name, with an optional port.
fn is_name(name: &[u8], host: &[u8]) -> bool
    ensures { result ≡ is_name name.now host.now }
{
    let end = name.len().min(host.len());
    has_name(&host[..end], name) && may_be_port(&host[end..])
}

/// Whether this is nothing, or a colon and a port.
fn may_be_port(text: &[u8]) -> bool
    ensures { result ≡ may_be_port text.now }
{
    match text {
        [] => true,
        [b':', digits @ ..] => is_port(digits),
        _ => false,
    }
}

fn is_port(digits: &[u8]) -> bool
    ensures { result ≡ is_port digits.now }
{
    !digits.is_empty() && digits.len() <= 5 && are_digits(digits)
}
