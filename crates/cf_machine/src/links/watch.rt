//! How the system finds out that a peer has vanished.
//! With keepalive and `TCP_USER_TIMEOUT` Linux gives up a silent peer at the second probe, after 40 seconds. A relay has neither.
ghost use Rattle.libc.specs.Net.{SockOption};

use libc::net as c;

/// How long a connection on which nothing comes is left alone before the system asks after its peer, in seconds.
const ASK_SECONDS: i32 = 30;

/// How many seconds the system waits for an answer to that before it asks again.
const AGAIN_SECONDS: i32 = 10;

/// How often it asks.
const ASKS: i32 = 3;

/// How long what was sent may stand unacknowledged, or wait for a peer that takes none, in milliseconds.
const UNTAKEN_MILLIS: i32 = 30_000;

/// Has the system ask after a peer from which nothing comes, and give up one that does not answer or does not take what is sent. A
/// system that cannot do so leaves that to the caller.
pub(crate) fn watch_over(socket: i32) {
    set(socket, c::SOL_SOCKET, c::SO_KEEPALIVE, 1);
    set(socket, c::IPPROTO_TCP, c::TCP_KEEPIDLE, ASK_SECONDS);
    set(socket, c::IPPROTO_TCP, c::TCP_KEEPINTVL, AGAIN_SECONDS);
    set(socket, c::IPPROTO_TCP, c::TCP_KEEPCNT, ASKS);
    set(socket, c::IPPROTO_TCP, c::TCP_USER_TIMEOUT, UNTAKEN_MILLIS);
}

fn set(socket: i32, level: i32, name: i32, value: i32)
    requires { SockOption level name }
{
    let mut bytes = [0u8; 16];
    bytes[..4].copy_from_slice(&value.to_ne_bytes());
    unsafe {
        c::setsockopt(socket, level, name, &bytes, 4);
    }
}
