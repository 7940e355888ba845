// Addresses of the network.

ghost use Rattle.std.specs.Prelude.{IfSome, IfNone};
ghost use Rattle.std.specs.Net.Grammar.{IsDotted, IsIpv4Text};

use std::net::Ipv4Addr;

/// An IPv4 address and a port.
#[derive(Clone, Copy, Debug, PartialEq, Eq, Drop)]
pub struct Address {
    /// The four numbers of the address, in the order in which they are written.
    pub ip: [u8; 4],
    /// The port of TCP.
    pub port: u16,
}

/// The four numbers of an IPv4 address on which a server is to listen: each is 0 to 255 in decimal digits without leading zeros, with a
/// full stop between them. `None` for any other text.
pub fn listen_address(text: &[u8]) -> Option<[u8; 4]>
    ensures address { IfSome result (λ ip. IsDotted text.now ip) }
    ensures none { IfNone result ((address : Ipv4Addr) → ¬ (IsIpv4Text text.now address)) }
{
    match Ipv4Addr::parse_ascii(text) {
        Ok(address) => Some(address.octets()),
        Err(_) => None,
    }
}
