//! The three outputs, created in their order.
ghost use Rattle.std.specs.Prelude.{◌≡◌, ◌⊎◌, ◌∷◌, [], IsErr, OnErr, OnOk};
ghost use Rattle.cf_outside.specs.Files.{content_after_create};
ghost use Rattle.cf_outside.specs.Frames.{OnlyWrites};
ghost use Rattle.cf_sift.specs.Names.{AreApart, sift_names_value, sift_output_names};
ghost use Rattle.cf_sift.specs.Outputs.{AreCreated, CreationFails};

use crate::names::SiftNames;
use cf_outside::{Files, WriteAnswer};
use cf_view::WriteFault;

/// Creates the outputs: that towards the controller, that towards the client, and the log.
pub(crate) fn create_outputs<F: Files>(
    names: &SiftNames<'_>,
    files: &mut F,
) -> Result<(), WriteFault>
    requires { AreApart (sift_names_value names.now) }
    ensures done { OnOk result (AreCreated (F.content files.old) (F.content files.new)
        (sift_output_names (sift_names_value names.now))) }
    ensures fault { OnErr result (CreationFails (F.content files.old) (F.content files.new)
        (sift_output_names (sift_names_value names.now))) }
    ensures writes { OnlyWrites (sift_output_names (sift_names_value names.now)) F.content F.read_faults F.write_faults
        files.old files.new (IsErr result) }
{
    create(names.out, files)?;
    create(names.replies, files)?;
    create(names.log, files)
}

/// Makes a file empty, or makes an empty file.
fn create<F: Files>(name: &str, files: &mut F) -> Result<(), WriteFault>
    ensures done { OnOk result (F.content files.new name.now ≡ content_after_create (F.content files.old name.now)) }
    ensures fault { OnErr result ((F.content files.new name.now ≡ F.content files.old name.now) ⊎
        (F.content files.new name.now ≡ content_after_create (F.content files.old name.now))) }
    ensures writes { OnlyWrites (name.now ∷ []) F.content F.read_faults F.write_faults files.old files.new (IsErr result) }
{
    match files.create(name) {
        WriteAnswer::Done => Ok(()),
        WriteAnswer::Failed => Err(WriteFault),
    }
}
