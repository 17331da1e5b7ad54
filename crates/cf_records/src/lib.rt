//! The records of a capture file, pcap or pcapng, read one after the other.
#![tactic(auto)]

mod blocks;
mod classic;
mod form;
mod laws;
mod limit;
mod record_reader;

pub use blocks::BlockRefusal;
pub use form::{Form, FormRefusal};
pub use laws::{moments_rise, octets_have_one_list_of_records};
pub use limit::MOMENT_LIMIT;
pub use record_reader::{NextRecord, OpenFault, RecordReader};
