//! The streams of both sides of a session, each of which says in its answers whose octets moved.
ghost use Rattle.std.specs.Prelude.{◌≡◌, IfOk, IfSome, Some, length};
ghost use Rattle.cf_machine.specs.Moved.{IsOn};

use crate::peer::Peer;
use cf_view::Side;
use std::io;
use std::net::TcpStream;

/// What the system moved in one call: on which side of which session, and how many octets.
#[derive(Clone, Copy)]
pub(crate) struct Moved {
    pub(crate) session: u64,
    pub(crate) side: Side,
    pub(crate) count: usize,
}

/// The connection of a client, as a type of its own: what moves on it is told as the client's.
#[derive(Drop)]
pub(crate) struct ClientStream {
    pub(crate) peer: Peer<TcpStream>,
}

/// The connection of a controller, as a type of its own: what moves on it is told as the controller's.
#[derive(Drop)]
pub(crate) struct ControllerStream {
    pub(crate) peer: Peer<TcpStream>,
}

impl ClientStream {
    /// Reads what came from the client of a session; no octets at its end, nothing where none came.
    pub fn read(&mut self, session: u64, buf: &mut [u8]) -> io::Result<Option<Moved>>
        ensures { IfOk result (λ moved. IfSome moved (IsOn session Side.Client (length buf.new))) }
    {
        Ok(moved_on(session, Side::Client, self.peer.read(buf)?))
    }

    /// Writes to the client of a session what it takes now; nothing where it takes none.
    pub fn write(&mut self, session: u64, bytes: &[u8]) -> io::Result<Option<Moved>>
        ensures { IfOk result (λ moved. IfSome moved (IsOn session Side.Client (length bytes.now))) }
    {
        Ok(moved_on(session, Side::Client, self.peer.write(bytes)?))
    }
}

impl ControllerStream {
    /// Reads what came from the controller of a session; no octets at its end, nothing where none came.
    pub fn read(&mut self, session: u64, buf: &mut [u8]) -> io::Result<Option<Moved>>
        ensures { IfOk result (λ moved. IfSome moved (IsOn session Side.Controller (length buf.new))) }
    {
        Ok(moved_on(session, Side::Controller, self.peer.read(buf)?))
    }

    /// Writes to the controller of a session what it takes now; nothing where it takes none.
    pub fn write(&mut self, session: u64, bytes: &[u8]) -> io::Result<Option<Moved>>
        ensures { IfOk result (λ moved. IfSome moved (IsOn session Side.Controller (length bytes.now))) }
    {
        Ok(moved_on(session, Side::Controller, self.peer.write(bytes)?))
    }
}

/// So many octets, with the side of the session on which they moved; nothing where none could move.
fn moved_on(session: u64, side: Side, count: Option<usize>) -> Option<Moved>
    ensures { IfSome result (λ moved. (moved.session ≡ session) × ((moved.side ≡ side) × (count ≡ Some moved.count))) }
{
    match count {
        Some(count) => Some(Moved {
            session,
            side,
            count,
        }),
        None => None,
    }
}
