//! The statuses that the program ends with. This project's own; docs/COMMANDS.md lists them.

/// The work was done to the end of its input.
pub const DONE: u8 = 0;
/// The words have no form.
pub const USAGE: u8 = 2;
/// A file could not be read.
pub const READ_FAULT: u8 = 3;
/// A file or standard output could not be written.
pub const WRITE_FAULT: u8 = 4;
/// The policy's text means no policy.
pub const POLICY_REFUSED: u8 = 5;
/// The capture is refused.
pub const CAPTURE_REFUSED: u8 = 6;
/// The capture ends inside a record or a block.
pub const CAPTURE_CUT: u8 = 7;
/// A stream of a relay failed, or a place of a service cannot be listened at, or its wait or clock failed.
pub const LINK_FAULT: u8 = 8;
/// Nothing came so often that a relay ended.
pub const IDLE_END: u8 = 9;
/// The policy has no asset of the name.
pub const UNKNOWN_ASSET: u8 = 10;
/// A stream is cut.
pub const STREAM_CUT: u8 = 12;
/// Memory ran out.
pub const NO_MEMORY: u8 = 13;
/// The policy does not keep to what it was compared with, or the capture does not keep to the policy.
pub const DENIED: u8 = 15;
/// The capture shows more of an asset than a policy can say of it.
pub const TOO_MANY_RULES: u8 = 16;
/// An asset's rules are too many to be compared.
pub const TOO_MANY_CELLS: u8 = 17;
