//! The names of the files of a stored stream.

/// The files of a stored stream: where it is read, and where the bytes towards the controller, those towards the client and
/// the log are written. All four names differ.
#[derive(Clone, Copy, Debug)]
pub struct SiftNames<'a> {
    /// Where the stream is read.
    pub stream: &'a str,
    /// Where the bytes towards the controller are written.
    pub out: &'a str,
    /// Where the bytes towards the client are written.
    pub replies: &'a str,
    /// Where the lines are written.
    pub log: &'a str,
}
