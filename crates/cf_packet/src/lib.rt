//! TCP segments in IPv4 packets, read from the records of a capture and written.
#![tactic(auto)]

mod checksum;
mod dest;
mod header;
mod options;
mod packet;
mod read;
mod recorded;
mod segment;
mod sequence;
mod write;

pub use dest::destination;
pub use packet::{ACK, FIN, PSH, Packet, PacketRefusal, RST, SYN, URG};
pub use read::read_packet;
pub use recorded::read_recorded;
pub use sequence::{position, sequence_number};
pub use write::{headers, write_packet};
