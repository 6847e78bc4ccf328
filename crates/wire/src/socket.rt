//! Sockets, each bound to an address of a site.

ghost use Rattle.std.specs.Prelude.{◌≡◌, ◌≤◌, ◌⊎◌, IfErr, IfOk, IfSome};
ghost use Rattle.std.specs.Option.{ForSome};
ghost use Rattle.profile.specs.Limits as limit;
ghost use Rattle.wire.specs.Ends.{mac_at};

use crate::ends::{end_of, mac_of, system_address};
use bvll::Address;
use mio::net::UdpSocket;
use mio::{Interest, Poll, Token};
use npdu::Mac;
use profile::MAX_DATAGRAM_OCTETS;
use sorted_map::SortedMap;
use std::alloc::{AllocError, Allocator};
use std::io;
use std::io::ErrorKind;
use std::net::Net;
use tags::Fault;

/// A datagram in the buffer, and how many octets it has there.
#[derive(Clone, Copy)]
pub(crate) struct Arrival {
    pub(crate) from: Mac,
    pub(crate) to: Mac,
    pub(crate) count: usize,
}

/// A socket, and the address that it is bound to.
#[derive(Drop)]
pub(crate) struct BoundSocket {
    pub(crate) address: Address,
    pub(crate) socket: UdpSocket,
}

/// A socket bound to an address, which never waits, and of which the system tells under this number.
pub(crate) fn bound<R: Net>(
    rt: &R,
    poll: &Poll,
    address: Address,
    number: usize,
) -> io::Result<BoundSocket>
    ensures { IfOk result (λ bound. bound.address ≡ address) }
{
    let mut socket = UdpSocket::bind(rt, system_address(address))?;
    poll.registry()
        .register(&mut socket, Token(number), Interest::READABLE)?;
    Ok(BoundSocket { address, socket })
}

/// A socket for each of these addresses, in their order.
///
/// # Errors
/// `Wire` where one can't be opened, as where another program has the address; or `Memory`.
pub(crate) fn all_bound<R: Net, A: Allocator>(
    rt: &R,
    alloc: A,
    poll: &Poll,
    addresses: &[Address],
) -> Result<Vec<BoundSocket, A>, Fault>
    ensures cause { IfErr result (λ fault. (fault ≡ Fault.Memory) ⊎ (fault ≡ Fault.Wire)) }
{
    let mut sockets = Vec::new(alloc);
    for address in addresses {
        let number = sockets.len();
        match bound(rt, poll, *address, number) {
            Ok(socket) => sockets.push(socket)?,
            Err(_) => return Err(Fault::Wire),
        }
    }
    Ok(sockets)
}

/// The places of sockets by their addresses.
pub(crate) fn places_of<A: Allocator + Copy>(
    alloc: A,
    sockets: &[BoundSocket],
) -> Result<SortedMap<Mac, usize, A>, AllocError> {
    let mut places = SortedMap::new(alloc);
    for (place, socket) in sockets.iter().enumerate() {
        places.insert(Mac::Six(socket.address.to_octets()), place)?;
    }
    Ok(places)
}

/// What a socket has, if anything is there.
pub(crate) fn receive_from(
    socket: &BoundSocket,
    buffer: &mut [u8; MAX_DATAGRAM_OCTETS],
) -> io::Result<Option<Arrival>>
    ensures fits { IfOk result (λ came. ForSome came (λ a. a.count ≤ limit.MAX_DATAGRAM_OCTETS)) }
    ensures to { IfOk result (λ came. ForSome came (λ a. a.to ≡ mac_at socket.now.address)) }
{
    match socket.socket.recv_from(buffer) {
        Ok((count, sender)) => match mac_of(sender) {
            Some(from) => {
                let to = Mac::Six(socket.address.to_octets());
                Ok(Some(Arrival { from, to, count }))
            }
            None => Err(ErrorKind::InvalidData.into()),
        },
        Err(error) if error.kind() == ErrorKind::WouldBlock => Ok(None),
        Err(error) => Err(error),
    }
}

/// The socket of a station's address, if there is one.
pub(crate) fn socket_of<'s, A: Allocator + Copy>(
    sockets: &'s [BoundSocket],
    places: &SortedMap<Mac, usize, A>,
    station: Mac,
) -> Option<&'s BoundSocket>
    ensures { IfSome result (λ socket. mac_at socket.now.address ≡ station) }
{
    let socket = sockets.get(places.get(station)?)?;
    if Mac::Six(socket.address.to_octets()) == station {
        Some(socket)
    } else {
        None
    }
}

/// Sends a datagram from a socket to a station, and tells whether all of it went out.
pub(crate) fn send_from(socket: &BoundSocket, to: Mac, octets: &[u8]) -> io::Result<bool> {
    match end_of(to) {
        Some(to) => Ok(socket.socket.send_to(octets, to)? == octets.len()),
        None => Ok(false),
    }
}
