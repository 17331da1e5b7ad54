//! The log as a desk.
ghost use Rattle.std.specs.Prelude.{◌≡◌, false};

use cf_outside::{Files, LineDesk};

/// A desk that appends lines to the log, of which no call failed.
pub(crate) fn log_desk<'a, F: Files>(log: &'a str, files: &'a mut F) -> LineDesk<'a, F>
    ensures same_reference { result.files.ghost_name ≡ files.entry.ghost_name }
    ensures files { result.files.now ≡ files.old }
    ensures log { result.log.now ≡ log.now }
    ensures sound { result.failed ≡ false }
{
    LineDesk {
        files,
        log,
        failed: false,
    }
}
