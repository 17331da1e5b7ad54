//! Which source the program was built from: the launcher writes this file as it makes dist/, and its own sum leaves it out.

/// The day of the source, in UTC.
pub(crate) const DATE: &str = "2026-12-02";

/// The first twelve digits of the sum of the source.
pub(crate) const SOURCE: &str = "91e1a51c541d";
