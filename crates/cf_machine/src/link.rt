//! The pair of streams of a relay: TCP connections, and the clock of the machine.
ghost use Rattle.std.specs.Prelude.{◌≡◌, ◌≤◌, IfOk, IfSome, None, length};
ghost use Rattle.cf_outside.specs.Faults.{Rose};

use crate::standard::ErrorLines;
use crate::streams::Streams;
use cf_outside::{GiveAnswer, MeetAnswer, MomentAnswer, Pair, TakeAnswer, WriteAnswer};
use cf_view::{Endpoint, Side};
use std::io;
use std::net::{IpAddr, Ipv4Addr, Net, OpenListener, SocketAddr, TcpListener, TcpStream};
use std::time::{Clock, Duration, SystemTime};

/// How many seconds the controller has to take the connection.
const CONNECT_SECONDS: u64 = 10;

/// Which part of a relay a call failed for: binding the port and taking its client, a connection that stands, or the clock of the
/// machine. This project's own.
#[derive(Clone, Copy)]
pub enum Part {
    Port,
    Client,
    Controller,
    Clock,
}

/// The last call that failed: which part of the relay it was for, and the error of the system, as `Connection refused`.
#[derive(Drop)]
pub struct LinkFault {
    pub part: Part,
    pub error: io::Error,
}

/// A client that comes to a port of this machine's own address 127.0.0.1, and a controller to which a connection is made.
/// It tells nothing, and counts failures and answers `Idle`.
#[derive(Drop)]
pub struct LinkPair<'a, R: Net + Clock + AllocGlobal> {
    rt: &'a R,
    listener: Option<R::Listener>,
    streams: Option<Streams<R::Stream>>,
    fault: Option<LinkFault>,
    faults: u64,
    idles: u64,
}

impl<'a, R: Net + Clock + AllocGlobal> LinkPair<'a, R> {
    /// A pair that is not connected: the port that `meet` is told is bound by `meet`. Both counts are 0.
    pub fn new(rt: &'a R) -> Self
        ensures { (result.faults ≡ 0) × (result.idles ≡ 0) }
    {
        LinkPair {
            rt,
            listener: None,
            streams: None,
            fault: None,
            faults: 0,
            idles: 0,
        }
    }

    /// The same, over a listener of IPv4 that is bound already; the port that `meet` is told is then not used.
    pub fn over(rt: &'a R, listener: R::Listener) -> Self
        ensures { (result.faults ≡ 0) × (result.idles ≡ 0) }
    {
        let mut pair = LinkPair::new(rt);
        pair.listener = Some(listener);
        pair
    }

    /// The last call that failed, if one did. A later call that does not fail leaves it.
    pub fn fault(&self) -> Option<&LinkFault> {
        self.fault.as_ref()
    }

    /// Leaves both sides, after the last call: closes them for sending, and reads away what they sent, so that the system does not
    /// drop what was given to them. Nothing, where no connection was made.
    pub fn leave(&mut self) {
        if let Some(streams) = &mut self.streams {
            streams.leave();
        }
    }

    fn fail(&mut self, part: Part, error: io::Error)
        ensures later { self.old.faults ≤ self.new.faults }
        ensures rose { Rose self.old.faults self.new.faults }
        ensures idles { self.new.idles ≡ self.old.idles }
    {
        self.fault = Some(LinkFault { part, error });
        self.faults = self.faults.saturating_add(1);
    }

    fn count_idle(&mut self)
        ensures later { self.old.idles ≤ self.new.idles }
        ensures rose { Rose self.old.idles self.new.idles }
        ensures faults { self.new.faults ≡ self.old.faults }
    {
        self.idles = self.idles.saturating_add(1);
    }

    /// Binds the port, if it is not bound, says so on standard error, and takes one client.
    fn take_client(&mut self, port: u16, peer: SocketAddr) -> io::Result<(R::Stream, Endpoint)>
        ensures faults { self.new.faults ≡ self.old.faults }
        ensures idles { self.new.idles ≡ self.old.idles }
    {
        let listener = match self.listener.take() {
            Some(listener) => listener,
            None => TcpListener::bind(self.rt, address(Ipv4Addr::LOCALHOST, port))?,
        };
        let here = listener.local_addr()?;
        let mut errors = ErrorLines::new();
        errors.say(format_args!("listens on {here} for one client, and connects to {peer}"));
        let (stream, from) = listener.accept()?;
        Ok((stream, endpoint_of(from)))
    }

    /// Connects to the controller, which has ten seconds to take the connection, and keeps both streams, whose reads and writes do
    /// not wait.
    fn take_controller(&mut self, client: R::Stream, peer: SocketAddr) -> io::Result<()>
        ensures faults { self.new.faults ≡ self.old.faults }
        ensures idles { self.new.idles ≡ self.old.idles }
    {
        let wait = Duration::from_secs(CONNECT_SECONDS);
        let controller = TcpStream::connect_timeout(self.rt, &peer, wait)?;
        self.streams = Some(Streams::new(self.rt, self.rt.alloc(), client, controller)?);
        Ok(())
    }

    /// Microseconds since 1970 by the clock that may be set, once a turn can move something, or 5 milliseconds have passed.
    /// `InvalidData` where the clock stands before 1970.
    fn now(&mut self) -> io::Result<u64>
        ensures faults { self.new.faults ≡ self.old.faults }
        ensures idles { self.new.idles ≡ self.old.idles }
    {
        if let Some(streams) = &mut self.streams {
            streams.begin_turn(self.rt)?;
        }
        let since = SystemTime::now(self.rt)?.duration_since(SystemTime::UNIX_EPOCH);
        match since {
            Ok(since) => Ok(u64::try_from(since.as_micros()).unwrap_or(u64::MAX)),
            Err(_) => Err(io::Error::from(io::ErrorKind::InvalidData)),
        }
    }

    /// Reads what came from a side; 0 at its end, nothing where none came.
    fn read(&mut self, side: Side, buf: &mut [u8]) -> io::Result<Option<usize>>
        ensures inside { IfOk result (λ count. IfSome count (λ n. n ≤ length buf.new)) }
        ensures faults { self.new.faults ≡ self.old.faults }
        ensures idles { self.new.idles ≡ self.old.idles }
    {
        match &mut self.streams {
            Some(streams) => streams.read(side, buf),
            None => Err(not_connected()),
        }
    }

    /// Writes to a side what it takes now; nothing where it takes none.
    fn write(&mut self, side: Side, bytes: &[u8]) -> io::Result<Option<usize>>
        ensures inside { IfOk result (λ count. IfSome count (λ n. n ≤ length bytes.now)) }
        ensures faults { self.new.faults ≡ self.old.faults }
        ensures idles { self.new.idles ≡ self.old.idles }
    {
        match &mut self.streams {
            Some(streams) => streams.write(side, bytes),
            None => Err(not_connected()),
        }
    }

    /// Ends what is sent to a side (`shutdown` for writing), which may send on.
    fn close(&self, side: Side) -> io::Result<()> {
        match &self.streams {
            Some(streams) => streams.close(side),
            None => Err(not_connected()),
        }
    }
}

/// The error of a call before `meet` has made both connections.
fn not_connected() -> io::Error {
    io::Error::from(io::ErrorKind::NotConnected)
}

fn part_of(side: Side) -> Part {
    match side {
        Side::Client => Part::Client,
        Side::Controller => Part::Controller,
    }
}

fn address(ip: Ipv4Addr, port: u16) -> SocketAddr {
    SocketAddr::new(IpAddr::V4(ip), port)
}

/// The endpoint of an IPv4 address; that of another one, which a listener of IPv4 does not have, is 0.0.0.0.
fn endpoint_of(address: SocketAddr) -> Endpoint {
    let bits = match address.ip() {
        IpAddr::V4(ip) => ip.to_bits(),
        IpAddr::V6(_) => 0,
    };
    Endpoint {
        address: bits,
        port: address.port(),
    }
}

impl<R: Net + Clock + AllocGlobal> Pair for LinkPair<'_, R> {
    ghost told = { λ _. None };

    ghost faults = { λ p. p.faults };

    ghost idles = { λ p. p.idles };

    fn meet(&mut self, listen: u16, peer: Endpoint) -> MeetAnswer {
        let peer = address(Ipv4Addr::from_bits(peer.address), peer.port);
        let (stream, client) = match self.take_client(listen, peer) {
            Ok(taken) => taken,
            Err(error) => {
                self.fail(Part::Port, error);
                return MeetAnswer::Failed;
            }
        };
        match self.take_controller(stream, peer) {
            Ok(()) => MeetAnswer::Met(client),
            Err(error) => {
                self.fail(Part::Controller, error);
                MeetAnswer::Failed
            }
        }
    }

    fn moment(&mut self) -> MomentAnswer {
        match self.now() {
            Ok(moment) => MomentAnswer::Told(moment),
            Err(error) => {
                self.fail(Part::Clock, error);
                MomentAnswer::Failed
            }
        }
    }

    fn take(&mut self, side: Side, buf: &mut [u8]) -> TakeAnswer {
        match self.read(side, buf) {
            Ok(Some(0)) => TakeAnswer::End,
            Ok(Some(count)) => TakeAnswer::Got(count),
            Ok(None) => {
                self.count_idle();
                TakeAnswer::Idle
            }
            Err(error) => {
                self.fail(part_of(side), error);
                TakeAnswer::Failed
            }
        }
    }

    fn give(&mut self, side: Side, bytes: &[u8]) -> GiveAnswer {
        match self.write(side, bytes) {
            Ok(Some(count)) if count > 0 => GiveAnswer::Took(count),
            Ok(_) => {
                self.count_idle();
                GiveAnswer::Idle
            }
            Err(error) => {
                self.fail(part_of(side), error);
                GiveAnswer::Failed
            }
        }
    }

    fn finish(&mut self, side: Side) -> WriteAnswer {
        match self.close(side) {
            Ok(()) => WriteAnswer::Done,
            Err(error) => {
                self.fail(part_of(side), error);
                WriteAnswer::Failed
            }
        }
    }
}
