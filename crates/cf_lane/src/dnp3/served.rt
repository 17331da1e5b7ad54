//! Which frames of DNP3 are served.
ghost use Rattle.std.specs.Prelude.{◌≡◌};
ghost use Rattle.cf_dnplink.specs.LinkFrame.{IsFrame, frame_value};
ghost use Rattle.cf_lane.specs.Dnp3.{has_addresses, has_right_direction, has_direction, is_primary, is_data, is_status, link_code};
ghost use Rattle.cf_lane.specs.Dnp3.{stray_of};

use cf_audit::Why;
use cf_dnplink::{Frame, user_len};
use cf_policy::Asset;
use cf_view::Side;

/// DIR of a link control octet. IEEE 1815-2012, section 9.2.4.1.
const DIRECTION: u8 = 0x80;
/// PRM of a link control octet.
const PRIMARY: u8 = 0x40;
/// How many link function codes there are: the low bits of a link control octet. IEEE 1815-2012, section 9.2.4.1.
const FUNCTION_CODES: u8 = 16;
/// The link function code of unconfirmed user data, where PRM is set.
const DATA: u8 = 4;
/// That of a request for link status, where PRM is set.
const REQUEST_STATUS: u8 = 9;
/// That of link status, where PRM is clear.
const STATUS: u8 = 11;

/// Why a frame of a side is not served, if it is not. Its addresses are tested first, then its direction, then its link
/// function code. This project's own order.
pub fn stray_of(asset: &Asset, side: Side, frame: &Frame<'_>) -> Option<Why>
    requires { IsFrame (frame_value frame.now) }
    ensures { result ≡ stray_of asset.now side (frame_value frame.now) }
{
    if !has_addresses(asset, side, frame) {
        return Some(Why::Address);
    }
    if !has_right_direction(side, frame) {
        return Some(Why::Direction);
    }
    if is_data(frame) || is_status(frame) {
        return None;
    }
    Some(Why::Code)
}

/// Whether a frame carries user data.
pub fn is_data(frame: &Frame<'_>) -> bool
    ensures { result ≡ is_data (frame_value frame.now) }
{
    is_primary(frame) && link_code(frame) == DATA
}

/// Whether a frame of a side is between the asset's station and its master.
pub(crate) fn has_addresses(asset: &Asset, side: Side, frame: &Frame<'_>) -> bool
    ensures { result ≡ has_addresses asset.now side (frame_value frame.now) }
{
    match side {
        Side::Client => frame.dest == asset.station && frame.source == asset.master,
        Side::Controller => frame.dest == asset.master && frame.source == asset.station,
    }
}

fn has_right_direction(side: Side, frame: &Frame<'_>) -> bool
    ensures { result ≡ has_right_direction side (frame_value frame.now) }
{
    match side {
        Side::Client => has_direction(frame),
        Side::Controller => !has_direction(frame),
    }
}

fn has_direction(frame: &Frame<'_>) -> bool
    ensures { result ≡ has_direction (frame_value frame.now) }
{
    frame.control / DIRECTION % 2 == 1
}

fn is_primary(frame: &Frame<'_>) -> bool
    ensures { result ≡ is_primary (frame_value frame.now) }
{
    frame.control / PRIMARY % 2 == 1
}

fn link_code(frame: &Frame<'_>) -> u8
    ensures { result ≡ link_code (frame_value frame.now) }
{
    frame.control % FUNCTION_CODES
}

/// Whether a frame asks for the status of the link, or tells it.
fn is_status(frame: &Frame<'_>) -> bool
    requires { IsFrame (frame_value frame.now) }
    ensures { result ≡ is_status (frame_value frame.now) }
{
    if user_len(frame) != 0 {
        return false;
    }
    if is_primary(frame) {
        link_code(frame) == REQUEST_STATUS
    } else {
        link_code(frame) == STATUS
    }
}
