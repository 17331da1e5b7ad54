//! Capture files in the pcapng format: their blocks, read one after the other.
#![tactic(auto)]

mod block;
mod laws;
mod options;
mod packet;
mod reader;

pub use block::{
    BLOCK_LIMIT, BlockSize, INTERFACE_LIMIT, Interface, REFUSED_BLOCK, REFUSED_INTERFACE,
    REFUSED_LENGTH, REFUSED_RESOLUTION, REFUSED_SECTION, is_section,
};
pub use laws::{blocks_are_spelled, calls_give_blocks, files_have_one_list_of_blocks};
pub use reader::{BlockAnswer, Reader};
