//! Laws of reviews: each is the contract of a function that does nothing.
ghost use Rattle.cf_review.specs.First.{BytesComeInOrder, JudgeTellsTheFirst};
ghost use Rattle.cf_review.specs.Fronts.{RecordsComeFirst};
ghost use Rattle.cf_review.specs.Stamps.{StampsTell};
ghost use Rattle.cf_review.specs.SynFlows.{SynFlowsAreWatched};

/// Of flows that begin with a SYN and have no bytes behind a gap, and whose bytes came in the order of the records, the judge's objection
/// is the first remark of a review, and there is none where a review has none.
pub fn judge_tells_the_first()
    ensures { JudgeTellsTheFirst }
{}

/// The record of each unit of a flow of a capture, and that of an octet that breaks, is the first with which the bytes of the flow reached
/// its end.
pub fn records_come_first()
    ensures { RecordsComeFirst }
{}

/// The flows that a review reads of a capture without VLAN tags and partial checksums and that begin with a SYN are those that the judge
/// reads of it, where no packet of these begins more than 1 MiB below the newest position of its flow.
pub fn syn_flows_are_watched()
    ensures { SynFlowsAreWatched }
{}

/// The bytes of each flow of a capture, and of the part of it that is read, came in the order of the records.
pub fn bytes_come_in_order()
    ensures { BytesComeInOrder }
{}

/// The stamps of records that remarks are of tell the moments of their lines as all stamps do.
pub fn stamps_tell()
    ensures { StampsTell }
{}
