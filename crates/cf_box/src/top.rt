//! The top call.
ghost use Rattle.std.specs.Prelude.{◌≡◌, ◌≤◌, ◌⊎◌, ◌↔◌, IsNone, List, Some, map, string_bytes, ℕ};
ghost use Rattle.cf_words.specs.Command.{AsksPair, input_files, Compare, Draft, Judge, Migrate, Packets, Review, Run, Sift, World, Learn};
ghost use Rattle.cf_box.specs.Draft.{HoldsDraft};
ghost use Rattle.cf_box.specs.Ends.{Ends, Meets, TellsEnding};
ghost use Rattle.cf_box.specs.Laws.{HasLaws};
ghost use Rattle.cf_box.specs.Learn.{HoldsLearned};
ghost use Rattle.cf_box.specs.Limits.{HasLimits};
ghost use Rattle.cf_box.specs.Migrate.{KeepsMeaning};
ghost use Rattle.cf_box.specs.Numbers.{HasNumbers};
ghost use Rattle.cf_ending.specs.Outside.{FilesNeverFall, RisesIn, RoseIn, files_value, outside_value};
ghost use Rattle.cf_box.specs.Packets.{Lists};
ghost use Rattle.cf_box.specs.Review.{ReviewHolds};
ghost use Rattle.cf_box.specs.RunHolds.{RunHolds};
ghost use Rattle.cf_box.specs.Status.{AsksItsPair, CutsItsCapture, CutsItsStream, DeniesWhatItAsks, EndsItsIdles, ExceedsItsCells};
ghost use Rattle.cf_box.specs.Status.{Includes, IsComplete, IsExactly, IsStatus, JudgedClean, LacksItsAsset, RefusesItsCapture};
ghost use Rattle.cf_box.specs.Status.{RefusesItsPolicy, SiftPassesAllowed, TakesItsOwn, TellsItsOwn, WritesNothing, inputs_of, outputs_of};
ghost use Rattle.cf_box.specs.Status.{ExceedsItsRules};
ghost use Rattle.cf_words.specs.Words.{HasFitWords, command_of, command_value};
ghost use Rattle.cf_box.specs.World.{WorldHolds};
ghost use Rattle.cf_outside.specs.Faults.{Rose};
ghost use Rattle.cf_outside.specs.Frames.{KeepsOtherFiles};
ghost use Rattle.cf_run.specs.RunCapture.{RunNamesValue};
ghost use Rattle.cf_sift.specs.Names.{SiftNamesValue};

use crate::check::check;
use crate::compare::compare_files;
use crate::draft::draft_captures;
use crate::judge::judge_capture;
use crate::laws::laws_hold;
use crate::learn::learn_capture;
use crate::limits::limits_are;
use crate::migrate::migrate;
use crate::numbers::numbers_are;
use crate::packets::packets;
use crate::relay::relay;
use crate::review::review_captures;
use crate::run::run;
use crate::sift::sift;
use crate::world::world;
use cf_ending::{Done, Stop, put_text, report};
use cf_lane::{has_one_judgement, lane_passes_allowed, rates_hold};
use cf_outside::{Files, Pair, Sink};
use cf_run::{runs_are_logged, runs_have_headline, sessions_have_sites};
use cf_sift::has_one_cut;
use cf_words::status::USAGE;
use cf_words::{Command, read_words};
use std::alloc::Global;

/// Does what a command asks for. `relay` alone asks the pair for something.
fn perform<F: Files, O: Sink, P: Pair>(
    alloc: Global,
    command: Command<'_>,
    files: &mut F,
    out: &mut O,
    pair: &mut P,
) -> Result<Done, Stop>
    requires { HasFitWords command }
    ensures meets { Meets (command_value command.entry) (outside_value F.Files O.Sink P.Pair files.old out.old pair.old)
        (outside_value F.Files O.Sink P.Pair files.new out.new pair.new) result }
    ensures later { FilesNeverFall (input_files (command_value command.entry)) (files_value F.Files files.old)
        (files_value F.Files files.new) }
    ensures puts { O.faults out.old ≤ O.faults out.new }
    ensures pair { AsksPair (command_value command.entry) ⊎ (pair.new ≡ pair.old) }
{
    match command {
        Command::Check { policy } => check(alloc, policy, files),
        Command::Compare { policy, other } => compare_files(alloc, policy, other, files),
        Command::Draft {
            policy,
            out,
            captures,
        } => draft_captures(alloc, policy, out, captures, files),
        Command::Judge { policy, capture } => judge_capture(alloc, policy, capture, files),
        Command::Learn {
            policy,
            capture,
            out,
        } => learn_capture(alloc, policy, capture, out, files),
        Command::Migrate { policy, out } => migrate(alloc, policy, out, files),
        Command::Packets { capture } => packets(alloc, capture, files, out),
        Command::Sift {
            policy,
            asset,
            client,
            names,
        } => sift(alloc, policy, asset, client, &names, files),
        Command::Review {
            policy,
            captures,
            log,
        } => review_captures(alloc, policy, captures, log, files),
        Command::Run { policy, names } => run(alloc, policy, &names, files),
        Command::Relay {
            policy,
            asset,
            port,
            idles,
            log,
        } => relay(alloc, policy, asset, port, idles, log, files, pair),
        Command::World {
            seed,
            sessions,
            policy,
            names,
        } => world(alloc, seed, sessions, policy, &names, files),
    }
}

/// The program: does what the words ask for, prints how that ended, and answers its status.
///
/// Statuses: 0 done; 2 the words have no form; 3 a read failed; 4 a write failed, or work that was done could not be
/// printed; 5 the policy's text means none; 6 the capture is refused; 7 it ends inside a record; 8 a call on the pair of
/// streams failed; 9 it answered `Idle` too often; 10 the policy has no asset of the name; 12 a stream is cut; 13 memory ran
/// out; 15 what was asked is not so, or a review has a remark; 16 an asset would have too many rules; 17 there is too much to compare.
pub fn box_main<F: Files, O: Sink, P: Pair>(
    alloc: Global,
    words: &[String],
    files: &mut F,
    out: &mut O,
    pair: &mut P,
    told: &mut Option<Result<Done, Stop>>,
) -> u8
    // The answer of the command explains the files, the status, and all that was printed.
    ensures ends { Ends (command_of (map string_bytes words.now)) (outside_value F.Files O.Sink P.Pair files.old out.old pair.old)
        (outside_value F.Files O.Sink P.Pair files.new out.new pair.new) result }
    ensures statuses { IsStatus result }

    // How the command ended is told beside the text that is printed, which is made of it.
    ensures tells { TellsEnding (command_of (map string_bytes words.now))
        (outside_value F.Files O.Sink P.Pair files.old out.old pair.old)
        (outside_value F.Files O.Sink P.Pair files.new out.new pair.new) result told.new }

    // Each status by itself.
    ensures usage { (result ≡ 2) ↔ IsNone (command_of (map string_bytes words.now)) }
    ensures read { result ≡ 3 → RoseIn (inputs_of (command_of (map string_bytes words.now))) (F.read_faults files.old)
        (F.read_faults files.new) }
    ensures write { result ≡ 4 → Rose (F.write_faults files.old) (F.write_faults files.new) ⊎ Rose (O.faults out.old) (O.faults out.new) }
    ensures refused { result ≡ 5 → RefusesItsPolicy (command_of (map string_bytes words.now))
        (outside_value F.Files O.Sink P.Pair files.old out.old pair.old) }
    ensures capture { result ≡ 6 → RefusesItsCapture (command_of (map string_bytes words.now))
        (outside_value F.Files O.Sink P.Pair files.old out.old pair.old) }
    ensures cut { result ≡ 7 → CutsItsCapture (command_of (map string_bytes words.now))
        (outside_value F.Files O.Sink P.Pair files.old out.old pair.old) }
    ensures unknown { result ≡ 10 → LacksItsAsset (command_of (map string_bytes words.now))
        (outside_value F.Files O.Sink P.Pair files.old out.old pair.old) }

    ensures link { result ≡ 8 → Rose (P.faults pair.old) (P.faults pair.new) }
    ensures idle { result ≡ 9 → EndsItsIdles (command_of (map string_bytes words.now))
        (outside_value F.Files O.Sink P.Pair files.old out.old pair.old)
        (outside_value F.Files O.Sink P.Pair files.new out.new pair.new) }
    ensures stream { result ≡ 12 → CutsItsStream (command_of (map string_bytes words.now))
        (outside_value F.Files O.Sink P.Pair files.old out.old pair.old)
        (outside_value F.Files O.Sink P.Pair files.new out.new pair.new) }

    ensures denied { result ≡ 15 → DeniesWhatItAsks (command_of (map string_bytes words.now))
        (outside_value F.Files O.Sink P.Pair files.old out.old pair.old) }
    ensures rules { result ≡ 16 → ExceedsItsRules (command_of (map string_bytes words.now))
        (outside_value F.Files O.Sink P.Pair files.old out.old pair.old) }
    ensures cells { result ≡ 17 → ExceedsItsCells (command_of (map string_bytes words.now))
        (outside_value F.Files O.Sink P.Pair files.old out.old pair.old) }

    // Where the input is told, a cause in it gives its status, whatever stands after it in the order of the work.
    ensures exact { IsExactly (command_of (map string_bytes words.now)) (outside_value F.Files O.Sink P.Pair files.old out.old pair.old)
        (outside_value F.Files O.Sink P.Pair files.new out.new pair.new) result }

    // Work whose input is in form is done where nothing fails and memory lasts.
    ensures complete { IsComplete (command_of (map string_bytes words.now)) (outside_value F.Files O.Sink P.Pair files.old out.old pair.old)
        (outside_value F.Files O.Sink P.Pair files.new out.new pair.new) result }

    // Nothing that clients sent in the capture is objected to.
    ensures judged { (policy capture : List ℕ) → command_of (map string_bytes words.now) ≡ Some (Judge policy capture) → result ≡ 0 →
        JudgedClean policy capture (outside_value F.Files O.Sink P.Pair files.old out.old pair.old) }

    // What the first policy allows, to any client and at any asset, the second allows too.
    ensures includes { (policy other : List ℕ) → command_of (map string_bytes words.now) ≡ Some (Compare policy other) → result ≡ 0 →
        Includes policy other (outside_value F.Files O.Sink P.Pair files.old out.old pair.old) }

    // A policy that was written anew means exactly what it meant.
    ensures migrates { (policy file : List ℕ) → command_of (map string_bytes words.now) ≡ Some (Migrate policy file) → result ≡ 0 →
        KeepsMeaning policy file (outside_value F.Files O.Sink P.Pair files.old out.old pair.old)
        (outside_value F.Files O.Sink P.Pair files.new out.new pair.new) }

    // A policy that was learned allows, of the acts that commands can have, exactly those that the capture shows, to the same clients.
    ensures learns { (policy capture file : List ℕ) → command_of (map string_bytes words.now) ≡ Some (Learn policy capture file)
        → result ≡ 0 →
        HoldsLearned policy capture file (outside_value F.Files O.Sink P.Pair files.old out.old pair.old)
        (outside_value F.Files O.Sink P.Pair files.new out.new pair.new) }

    // A policy that was drafted allows each act that the captures show as one recording, to the same clients, and where no asset was widened it
    // allows, of the acts that commands can have, no other.
    ensures drafts { (policy file : List ℕ) (captures : List (List ℕ)) → command_of (map string_bytes words.now) ≡ Some
        (Draft policy file captures) → result ≡ 0 →
        HoldsDraft policy file captures (outside_value F.Files O.Sink P.Pair files.old out.old pair.old)
        (outside_value F.Files O.Sink P.Pair files.new out.new pair.new) }

    // The log of a review holds exactly the lines of all that the policy objects to in the captures, which are one recording, in the order
    // of their records: none where the status is 0.
    ensures reviews { (policy file : List ℕ) (captures : List (List ℕ)) → command_of (map string_bytes words.now) ≡ Some
        (Review policy captures file) →
        (result ≡ 0) ⊎ (result ≡ 15) → ReviewHolds policy captures file (outside_value F.Files O.Sink P.Pair files.old out.old pair.old)
        (outside_value F.Files O.Sink P.Pair files.new out.new pair.new) result }

    // Each record of a capture has its line, and how many have no segment is told.
    ensures lists { (capture : List ℕ) → command_of (map string_bytes words.now) ≡ Some (Packets capture) → result ≡ 0 →
        (dropped : ℕ) × Lists capture (outside_value F.Files O.Sink P.Pair files.old out.old pair.old)
        (outside_value F.Files O.Sink P.Pair files.new out.new pair.new) (Done.Listed dropped) }

    // Of the commands of a stream exactly those went on that the policy's bytes allow, each by the rules of the asset of its station,
    // and no rule let more through than its rate.
    ensures passes { (policy asset : List ℕ) (client : ℕ) (names : SiftNamesValue) → command_of (map string_bytes words.now) ≡ Some
        (Sift policy asset client names) → result ≡ 0 →
        SiftPassesAllowed policy asset client names (outside_value F.Files O.Sink P.Pair files.old out.old pair.old)
        (outside_value F.Files O.Sink P.Pair files.new out.new pair.new) }

    // The headline: the outputs of a run are what the policy and the capture's records make of them, and whatever copies of
    // segments a controller takes decode to the first of what the policy lets through, and for each station behind its address and
    // port to the first of what the rules of that asset admit.
    ensures headline { (policy : List ℕ) (names : RunNamesValue) → command_of (map string_bytes words.now) ≡ Some (Run policy names)
        → result ≡ 0 →
        RunHolds policy names (outside_value F.Files O.Sink P.Pair files.old out.old pair.old)
        (outside_value F.Files O.Sink P.Pair files.new out.new pair.new) }

    // A world: what was made, and the headline of its run. What it made is never refused where the files tell what they hold.
    ensures world { (seed sessions : ℕ) (policy : List ℕ) (names : RunNamesValue) →
        command_of (map string_bytes words.now) ≡ Some (World seed sessions policy names) → result ≡ 0 →
        WorldHolds sessions policy names (outside_value F.Files O.Sink P.Pair files.old out.old pair.old)
        (outside_value F.Files O.Sink P.Pair files.new out.new pair.new) }
    ensures own { TakesItsOwn (command_of (map string_bytes words.now)) (outside_value F.Files O.Sink P.Pair files.old out.old pair.old)
        result }

    // No read failed but of the inputs of the command. No file is written but its outputs, and none at all where the words, the policy or the asset are at fault;
    // and nothing is asked of the pair but by a relay.
    ensures reads { RisesIn (inputs_of (command_of (map string_bytes words.now))) (F.read_faults files.old) (F.read_faults files.new) }
    ensures kept { KeepsOtherFiles (outputs_of (command_of (map string_bytes words.now))) (F.content files.old) (F.content files.new) }
    ensures unwritten { WritesNothing result →
        TellsItsOwn (command_of (map string_bytes words.now)) (outside_value F.Files O.Sink P.Pair files.old out.old pair.old) →
        F.content files.new ≡ F.content files.old }
    ensures pair { AsksItsPair (command_of (map string_bytes words.now)) ⊎ (pair.new ≡ pair.old) }

    // The limits and the other numbers that the definitions of these clauses cite by name.
    ensures limits { HasLimits }
    ensures numbers { HasNumbers }

    // What is so of every run and of every capture.
    ensures laws { HasLaws }
{
    limits_are();
    numbers_are();
    laws_hold();
    lane_passes_allowed();
    rates_hold();
    has_one_cut();
    has_one_judgement();
    runs_have_headline();
    sessions_have_sites();
    runs_are_logged();
    match read_words(words) {
        None => {
            *told = None;
            put_text("usage\n", USAGE, USAGE, out)
        }
        Some(command) => {
            let ended = perform(alloc, command, files, out, pair);
            let status = report(&ended, out);
            *told = Some(ended);
            status
        }
    }
}
