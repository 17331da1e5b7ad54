//! The flows of a capture, as a watcher between the clients and the assets sees them.
#![tactic(auto)]

mod ahead;
mod born;
mod carry;
mod fault;
mod flow;
mod hearing;
mod laws;
mod letter;
mod place;
mod reading;
mod recorder;
mod scope;
mod stretches;
mod tag;
mod watching;

pub use born::Born;
pub use fault::{CAPTURE_LIMIT, WatchFault, WatchRefusal};
pub use flow::{Conflict, Flow, Recording, Stretch};
pub use hearing::{Hearer, hear_capture};
pub use laws::{flows_are_for_assets, one_stream_is_seen};
pub use reading::watch;
pub use recorder::Recorder;
pub use scope::Scope;
pub use stretches::stretches_in;
pub use tag::{untagged, untagged_kind};
pub use watching::{REACH, Watch};
