//! What a capture is watched for.

/// What a capture is watched for: how its frames are read, and which packets begin a flow. This project's own.
#[derive(Clone, Copy)]
pub enum Scope {
    /// Flows from their SYN on, in frames as they stand.
    Connections,
    /// Flows from their first segment with text on, in frames without their VLAN tags, a partial TCP checksum taken as right; and the
    /// stamp of each record.
    Recording,
}
