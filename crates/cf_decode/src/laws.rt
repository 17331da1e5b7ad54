//! Laws of the stream to a controller, and of refused commands and admitted ones: each is the contract of a function that does nothing.
ghost use Rattle.cf_decode.specs.Commands.{AdmitsWhatIsAllowed};
ghost use Rattle.cf_decode.specs.Laws.{FragmentsDecode, StreamDecodes, StreamIsSpelled};
ghost use Rattle.cf_decode.specs.Rows.{RowsHold};
ghost use Rattle.cf_decode.specs.Stations.{StationsDecode};
ghost use Rattle.cf_decode.specs.Told.{RefusedAreTold, ShownAreTold};
ghost use Rattle.cf_decode.specs.ToldRows.{ToldRowsHold};

use cf_dnptrans::first_segments_make_the_first_fragments;
use cf_lane::pieces_join;

/// The stream to a controller is the spellings of the units that go there, and any beginning of it has the first of these units,
/// in order, and then a proper prefix of the next.
pub fn stream_decodes()
    ensures spelled { StreamIsSpelled }
    ensures decodes { StreamDecodes }
{
    pieces_join();
}

/// Of the units of any beginning of it a receiver makes, by the transport rule of DNP3, the first of what went to the controller,
/// in order, and then has a proper prefix of the next.
pub fn fragments_decode()
    ensures { FragmentsDecode }
{
    pieces_join();
    first_segments_make_the_first_fragments();
}

/// Of the units of any beginning of it those with the station of an asset, for DNP3 with its station and its master, make the first of
/// the commands that this asset's rules admit, of those that the client sent for it, in order.
pub fn stations_decode()
    ensures { StationsDecode }
{
    pieces_join();
    first_segments_make_the_first_fragments();
}

/// Of the client's commands exactly those are admitted that the policy allows, and all others are refused. An item that brings no
/// command is neither.
pub fn admits_what_is_allowed()
    ensures { AdmitsWhatIsAllowed }
{}

/// Each refused command of a history is one of the client's. It has one line at its place in the log, which names the rule that
/// decided, or `default`, `station` or `form`; and at its place in the stream to the client it has its protocol's reply: the exception
/// response of Modbus, the response of DNP3, the mirror of IEC 60870-5-104. It has none in three cases: the stream to the client
/// has ended; the DNP3 function code asks for none; the ASDU of IEC 60870-5-104 has fewer than nine octets.
pub fn refused_commands_are_told()
    ensures { RefusedAreTold }
{}

/// Each admitted command of a history of which a rule with a log allowed an act has one line at its place in the log, which names that
/// rule and shows the first such act; every other admitted command has none.
pub fn shown_commands_are_told()
    ensures { ShownAreTold }
{}

/// The definitions give the rows that were computed by hand, and what is told of the commands of two sessions is what was worked out so.
pub fn rows_hold()
    ensures stream { RowsHold }
    ensures told { ToldRowsHold }
{}
