//! The outside world: files, a sink for printed text, a desk for packets and log lines and a pair of streams, with what
//! each answer means and what stands after a fault, and objects in memory that keep to it.
#![tactic(auto)]

mod desk;
mod failed_reads;
mod files;
mod memory_desk;
mod memory_files;
mod memory_pair;
mod memory_sink;
mod pair;
mod part;
mod script;
mod sink;
mod whole;

pub use desk::{Desk, LineDesk};
pub use failed_reads::FailedReads;
pub use files::{Files, ReadAnswer, WriteAnswer};
pub use memory_desk::{MemoryDesk, Sent};
pub use memory_files::MemoryFiles;
pub use memory_pair::MemoryPair;
pub use memory_sink::MemorySink;
pub use pair::{GiveAnswer, MeetAnswer, Meeting, MomentAnswer, Pair, TakeAnswer, Told};
pub use part::fill;
pub use script::Fail;
pub use sink::Sink;
pub use whole::{WholeFault, append_all, read_whole, write_whole};
