//! Between whom the sessions of a world are.
ghost use Rattle.std.specs.Prelude.{◌≡◌, ◌≤◌, ◌+◌, ◌*◌};
ghost use Rattle.cf_hosts.specs.Flows.{client_endpoint, controller_endpoint};

use cf_view::Endpoint;

/// The address of the first client, 10.1.0.1, and its port.
const CLIENT: Endpoint = Endpoint {
    address: 0x0A01_0001,
    port: 40_000,
};

/// How many sessions there are at most.
const SESSIONS: usize = 200;

/// The client of a session.
pub(crate) fn client_endpoint(session: usize) -> Endpoint
    requires { session ≤ 200 }
    ensures { result ≡ client_endpoint session }
{
    Endpoint {
        address: CLIENT.address + session as u32,
        port: CLIENT.port + session as u16,
    }
}

/// The controller of a session: that of the asset of its number modulo 3.
pub(crate) fn controller_endpoint(session: usize) -> Endpoint
    ensures { result ≡ controller_endpoint session }
{
    match session % 3 {
        0 => Endpoint {
            address: 0x0A02_0001,
            port: 502,
        },
        1 => Endpoint {
            address: 0x0A02_0002,
            port: 20_000,
        },
        _ => Endpoint {
            address: 0x0A02_0003,
            port: 2_404,
        },
    }
}

/// The session whose client is at an endpoint, if it is one.
pub(crate) fn session_of(endpoint: &Endpoint) -> Option<usize> {
    let session = endpoint.address.wrapping_sub(CLIENT.address) as usize;
    if session < SESSIONS && *endpoint == client_endpoint(session) {
        Some(session)
    } else {
        None
    }
}

/// The sequence number of the SYN of a session's client.
pub(crate) fn first_number(session: usize) -> u32
    requires { session ≤ 200 }
    ensures { result ≡ 1000 * (session + 1) }
{
    1000 * (session as u32 + 1)
}
