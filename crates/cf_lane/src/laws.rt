//! Laws of the items of histories: each is the contract of a function that does nothing.
ghost use Rattle.cf_lane.specs.Laws.{EndJoins, GrowsLittle, HasOneJudgement, JudgedJoin, JudgementsGoOn, LanePassesAllowed, NothingTaken};
ghost use Rattle.cf_lane.specs.Laws.{PiecesJoin, QuietBehindEnd, RatesHold, RatesLast, StreamsGoOn, UnitsArePrefixFree};
ghost use Rattle.cf_lane.specs.SiteLaws.{NobodysAduIsRefused, NobodysAsduIsRefused, NobodysFrameIsStray, OneAssetEnds, OneAssetFates};
ghost use Rattle.cf_lane.specs.SiteLaws.{OneAssetLines, OneAssetOutputs, PartsAsdus, PartsFates, PartsOutputs};

use cf_modbus::each_pdu_has_an_answer;

/// A history has one list of judged items.
pub fn has_one_judgement()
    ensures { HasOneJudgement }
{}

/// A history whose items are judged goes on with any octets of a side: those that they complete are judged after the earlier
/// ones. So each history of octets has a list of judged items.
pub fn judgements_go_on()
    ensures { JudgementsGoOn }
{
    each_pdu_has_an_answer();
}

/// However the bytes of a side are cut at one moment, their items are the same, and so are the judged items of each history
/// with them; bytes without letters change nothing, and an End after bytes is of their element.
pub fn pieces_join()
    ensures items { PiecesJoin }
    ensures judged { JudgedJoin }
    ensures nothing { NothingTaken }
    ensures ends { EndJoins }
    ensures free { UnitsArePrefixFree }
{}

/// Between two places of a history each stream grows by at most twice the letters taken, 2,892, and what unfinished fragments may
/// still put out: 5,300 for each asset of DNP3, and so 8,192 with one.
pub fn grows_little()
    ensures { GrowsLittle }
{}

/// Where a history goes on, the two streams and the log go on; after the End of a side nothing comes into the stream to the
/// other.
pub fn streams_go_on()
    ensures go_on { StreamsGoOn }
    ensures quiet { QuietBehindEnd }
{}

/// Of the commands of a history exactly those whose station is that of an asset, whose form is read and each of whose acts is
/// allowed by that asset's rules go to the controller, in their spelling and at their place; beside them go the confirmations and link status
/// frames of DNP3, and the S and U frames of IEC 60870-5-104.
pub fn lane_passes_allowed()
    ensures { LanePassesAllowed }
{}

/// No rule of an asset lets more commands of a session through than its rate, at any moment, those of earlier sessions of its
/// client counted; commands to another asset of the site do not count.
pub fn rates_hold()
    ensures { RatesHold }
{}

/// No rule lets more commands of all sessions of a client through than its rate, where one session comes after the other.
pub fn rates_last()
    ensures { RatesLast }
{}

/// What becomes of the units for one asset of a site, and what they put out, is what it would be in a session of that asset alone
/// that has these units, for Modbus and DNP3; of IEC 60870-5-104 so is the fate of an ASDU, where its numbers do not cut. So each law
/// of a session of one asset is one of each asset of a site.
pub fn parts_are_sessions()
    ensures fates { PartsFates }
    ensures outputs { PartsOutputs }
    ensures asdus { PartsAsdus }
{}

/// A unit that is for no asset is refused by its station, or is a stray frame.
pub fn nobodys_is_refused()
    ensures adu { NobodysAduIsRefused }
    ensures frame { NobodysFrameIsStray }
    ensures asdu { NobodysAsduIsRefused }
{}

/// A site of one asset has the fates, the streams and the lines that this asset gives its units, in all three protocols.
pub fn one_asset_is_as_before()
    ensures fates { OneAssetFates }
    ensures outputs { OneAssetOutputs }
    ensures lines { OneAssetLines }
    ensures ends { OneAssetEnds }
{}
