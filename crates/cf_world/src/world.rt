//! The making of a world: its policy and its capture.
ghost use Rattle.std.specs.Prelude.{◌≡◌, ◌≢◌, ◌≤◌, ◌∷◌, [], IsErr, IsErrOf, OnErr, OnOk};
ghost use Rattle.cf_outside.specs.Files.{IsPartly, content_after_write};
ghost use Rattle.cf_outside.specs.Frames.{OnlyWrites};
ghost use Rattle.cf_pcap.specs.Header.{output_octets};
ghost use Rattle.cf_world.specs.World.{MakesWorld, world_names_value};

use crate::making::make_records;
use cf_hosts::{Hosts, make_document};
use cf_lane::LETTER_LIMIT;
use cf_outside::{Files, write_whole};
use cf_pcap::write_header;
use cf_run::Engine;
use cf_view::WriteFault;
use std::alloc::{AllocError, Global};
use thiserror::Error;

/// How many records a capture has at most. This project's own.
pub const RECORD_LIMIT: u32 = 1_000_000;

/// The files of a world, both written. The two names differ. This project's own.
#[derive(Clone, Copy, Debug)]
pub struct WorldNames<'a> {
    /// The text of the policy.
    pub policy: &'a str,
    /// The capture.
    pub capture: &'a str,
}

/// Why a world was not made. This project's own.
#[derive(Clone, Copy, PartialEq, Eq, Debug, Error)]
pub enum WorldFault {
    /// Memory ran out.
    #[error("out of memory")]
    NoMemory,
    /// A creation or an append failed.
    #[error("a creation or an append failed")]
    Write,
}

impl From<AllocError> for WorldFault {
    ghost use Rattle.std.specs.Prelude.{◌≡◌};
    ghost use Rattle.cf_world.specs.declared.world.WorldFault.TheVariants.{NoMemory};

    ghost from_gives = { λ _ fault. fault ≡ NoMemory };

    fn from(_: AllocError) -> Self {
        WorldFault::NoMemory
    }
}

impl From<WriteFault> for WorldFault {
    ghost use Rattle.std.specs.Prelude.{◌≡◌};
    ghost use Rattle.cf_world.specs.declared.world.WorldFault.TheVariants.{Write};

    ghost from_gives = { λ _ fault. fault ≡ Write };

    fn from(_: WriteFault) -> Self {
        WorldFault::Write
    }
}

/// Makes a policy of three assets, one of each protocol, and a capture of so many sessions, from 1 to 200, which hosts made
/// against the engine under that policy. Session i, from 0, is between the client 10.1.0.(i+1), port 40,000 + i, and asset i
/// mod 3. The same seed and number give the same two files. The policy is created first, and nothing is written after a
/// fault. This project's own.
pub fn make_world<F: Files>(
    alloc: Global,
    seed: u64,
    sessions: u32,
    names: &WorldNames<'_>,
    files: &mut F,
) -> Result<(), WorldFault>
    requires some { 1 ≤ sessions }
    requires few { sessions ≤ 200 }
    requires apart { names.now.policy.now ≢ names.now.capture.now }
    ensures makes { MakesWorld sessions (world_names_value names.now) (F.content files.old) (F.content files.new) result }
    ensures writes { OnlyWrites (names.now.policy.now ∷ names.now.capture.now ∷ []) F.content F.read_faults F.write_faults
        files.old files.new (IsErrOf result WorldFault.Write) }
{
    let document = make_document(alloc)?;
    let Ok(mut engine) = Engine::new(alloc, LETTER_LIMIT as i64) else {
        return Err(WorldFault::NoMemory);
    };
    let mut hosts = Hosts::new(alloc, seed, sessions)?;
    write_whole(names.policy, document.text.as_bytes(), files)?;
    begin_capture(names.capture, files)?;
    make_records(
        alloc,
        &document.policy,
        sessions,
        names.capture,
        &mut engine,
        &mut hosts,
        files,
    )
}

/// Creates the capture's file, and writes its header.
fn begin_capture<F: Files>(capture: &str, files: &mut F) -> Result<(), WriteFault>
    ensures done { OnOk result (F.content files.new capture.now ≡ content_after_write (F.content files.old capture.now) output_octets) }
    ensures partly { OnErr result (IsPartly output_octets (F.content files.old capture.now) (F.content files.new capture.now)) }
    ensures writes { OnlyWrites (capture.now ∷ []) F.content F.read_faults F.write_faults files.old files.new (IsErr result) }
{
    let mut header = [0u8; 24];
    write_header(&mut header);
    write_whole(capture, &header, files)
}
