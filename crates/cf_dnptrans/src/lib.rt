//! The transport function of DNP3: fragments put together from segments, and sent in segments.
#![tactic(auto)]

mod assembly;
mod buffer;
mod laws;
mod octet;
mod segment;

pub use assembly::{Assembly, DropReason, SegmentAnswer};
pub use laws::{first_segments_make_the_first_fragments, segments_are_put_together};
pub use segment::{segment_count, segment_octet};
