//! The address by which other machines reach this one.
ghost use Rattle.std.specs.Prelude.{◌≡◌};
ghost use Rattle.std.specs.Net.Socket.{socket_port};

use std::net::{IpAddr, Ipv4Addr, Net, SocketAddr, UdpSocket};

/// An address of no machine (RFC 5737): the default route leads to it.
const ELSEWHERE: [u8; 4] = [203, 0, 113, 1];

/// The port that discards what it receives.
const DISCARD: u16 = 9;

/// Returns an address that other machines reach, in place of `0.0.0.0`; the same if there is none.
pub(crate) fn reachable<R: Net>(rt: &R, bound: SocketAddr) -> SocketAddr
    ensures port { socket_port result ≡ socket_port bound }
{
    if !bound.ip().is_unspecified() {
        return bound;
    }
    match outward_address(rt) {
        Some(ip) => SocketAddr::new(ip, bound.port()),
        None => bound,
    }
}

/// Returns the address of this machine on its default route, if it has one. Nothing is sent: a
/// datagram socket that is connected only chooses its route.
fn outward_address<R: Net>(rt: &R) -> Option<IpAddr> {
    let socket = UdpSocket::bind(rt, (Ipv4Addr::UNSPECIFIED, 0)).ok()?;
    socket.connect((Ipv4Addr::from(ELSEWHERE), DISCARD)).ok()?;
    Some(socket.local_addr().ok()?.ip())
}
