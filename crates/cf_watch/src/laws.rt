//! Laws of watched flows: each is the contract of a function that does nothing.
ghost use Rattle.cf_watch.specs.ForAssets.{AreForAssets};
ghost use Rattle.cf_watch.specs.OneStream.{CarryOneStream};

/// Where all packets of a flow carry letters of one stream at their places, there is no conflict, and the bytes of the flow are a
/// beginning of that stream.
pub fn one_stream_is_seen()
    ensures { CarryOneStream }
{}

/// Each flow of a capture is to an asset of the policy, and has a record for each byte.
pub fn flows_are_for_assets()
    ensures { AreForAssets }
{}
