//! A lane with its queues, fed with the bytes of a client alone.
ghost use Rattle.std.specs.Prelude.{◌≡◌, ◌+◌, ◌≤◌, ◌∷◌, ℕ, List, [], Option, None, true, IfOk, OnOk, OnErr, IsErr, length};
ghost use Rattle.cf_driver.specs.Takes.{MissesEnd, MissesPiece, Takes};
ghost use Rattle.cf_lane.specs.Caller.{none_before};
ghost use Rattle.cf_lane.specs.Follows.{Follows};
ghost use Rattle.cf_lane.specs.Handled.{state};
ghost use Rattle.cf_lane.specs.History.{bytes_at, end_at};
ghost use Rattle.cf_lane.specs.Limit.{limit_by};
ghost use Rattle.cf_outq.specs.SendQueue.{IsQueueOf, after_end, queue_length};
ghost use Rattle.cf_outside.specs.Frames.{OnlyWrites};
ghost use Rattle.cf_outside.specs.Lines.{ends_with_line, file_lines, file_part};
ghost use Rattle.cf_policy.specs.Site.{IsSiteWithin};
ghost use Rattle.cf_stream.specs.Stream.{Stream};
ghost use Rattle.cf_sift.specs.Sifting.{IsReady, MovesFail, client_rests, state_of};
ghost use Rattle.cf_sift.specs.Drained.{Drains};
ghost use Rattle.cf_sift.specs.Names.{AreApart, sift_names_value, sift_output_names};

use crate::log::log_desk;
use crate::names::SiftNames;
use crate::queue_file::drain;
use cf_audit::CutReason;
use cf_driver::{Heard, length_cut};
use cf_lane::{LETTER_LIMIT, Lane};
use cf_outq::Outq;
use cf_outside::Files;
use cf_policy::Site;
use cf_view::{Endpoint, NoMemory, Side, WriteFault};
use std::alloc::Global;

/// What is kept between two elements of a stored stream.
#[derive(Drop)]
pub(crate) struct Sifting {
    pub(crate) lane: Lane,
    pub(crate) to_client: Outq,
    pub(crate) to_controller: Outq,
    /// What is kept of the client.
    pub(crate) heard: Heard,
}

impl Sifting {
    /// The sifting of a client of the site, before its first element. All its memory is taken here.
    pub(crate) fn new(alloc: Global, site: &Site<'_>, client: Endpoint) -> Result<Sifting, NoMemory>
        requires within { IsSiteWithin site.now }
        ensures ready { IfOk result (λ sifting. IsReady site.now sifting) }
        ensures client { IfOk result (λ sifting. sifting.lane.client ≡ client) }
        ensures letters { IfOk result (λ sifting. sifting.heard.letters ≡ 0) }
        ensures follows { IfOk result (λ sifting. (first : Option (List (List ℕ)))
            → Follows site.now none_before [] (client_rests sifting.heard.rest.items) None first
            (state sifting.lane sifting.to_client sifting.to_controller first)) }
    {
        let lane = Lane::new(alloc, site, client, None)?;
        let to_client = Outq::new(alloc)?;
        let to_controller = Outq::new(alloc)?;
        Ok(Sifting {
            lane,
            to_client,
            to_controller,
            heard: Heard::none(),
        })
    }

    /// Why a stream cuts the session that has as many letters as the limit, if one has.
    pub(crate) fn length_cut(&self) -> Option<CutReason>
        ensures { result ≡ limit_by LETTER_LIMIT self.now.heard.letters 0 (queue_length self.now.to_client)
            (queue_length self.now.to_controller) }
    {
        length_cut(
            LETTER_LIMIT,
            self.heard.letters,
            0,
            &self.to_client,
            &self.to_controller,
        )
    }

    /// Hands a piece of the client's bytes to the lane, at moment 0, after those that it left.
    pub(crate) fn feed<F: Files>(
        &mut self,
        site: &Site<'_>,
        piece: &[u8],
        log: &str,
        files: &mut F,
    ) -> Result<Option<CutReason>, WriteFault>
        requires ready { IsReady site.now self.old }
        requires within { IsSiteWithin site.now }
        requires whole { ends_with_line (F.content files.old log.now) ≡ true }
        requires piece { length piece.now ≤ 4096 }
        ensures takes { IfOk result (λ cut. Takes site.now Side.Client (bytes_at 0 Side.Client piece.now ∷ []) cut
            self.old.heard.rest.items self.new.heard.rest.items
            (state_of self.old (F.content files.old log.now)) (state_of self.new (F.content files.new log.now))) }
        ensures misses { OnErr result (MissesPiece site.now 0 Side.Client piece.now self.old.heard.rest.items
            (state_of self.old (F.content files.old log.now)) (file_lines (F.content files.new log.now))
            (file_part (F.content files.new log.now))) }
        ensures stays { OnErr result (self.new.heard.rest ≡ self.old.heard.rest) }
        ensures letters { self.new.heard.letters ≡ self.old.heard.letters + length piece.now }
        ensures whole { OnOk result (ends_with_line (F.content files.new log.now) ≡ true) }
        ensures writes { OnlyWrites (log.now ∷ []) F.content F.read_faults F.write_faults files.old files.new (IsErr result) }
    {
        let mut desk = log_desk(log, files);
        self.heard.feed(
            site,
            0,
            Side::Client,
            piece,
            &mut self.lane,
            &mut self.to_client,
            &mut self.to_controller,
            &mut desk,
        )
    }

    /// Ends the client's side, at moment 0.
    pub(crate) fn end<F: Files>(
        &mut self,
        site: &Site<'_>,
        log: &str,
        files: &mut F,
    ) -> Result<(), WriteFault>
        requires ready { IsReady site.now self.old }
        requires within { IsSiteWithin site.now }
        requires whole { ends_with_line (F.content files.old log.now) ≡ true }
        ensures takes { OnOk result (Takes site.now Side.Client (end_at 0 Side.Client ∷ []) None
            self.old.heard.rest.items self.new.heard.rest.items
            (state_of self.old (F.content files.old log.now)) (state_of self.new (F.content files.new log.now))) }
        ensures misses { OnErr result (MissesEnd site.now 0 Side.Client self.old.heard.rest.items
            (state_of self.old (F.content files.old log.now)) (file_lines (F.content files.new log.now))
            (file_part (F.content files.new log.now))) }
        ensures new { OnOk result (self.new ≡ record self.old {
          to_controller = after_end self.old.to_controller;
          heard = record self.old.heard { letters = self.old.heard.letters + 1 };
        }) }
        ensures stays { OnErr result (self.new ≡ record self.old {
          to_client = self.new.to_client;
          to_controller = self.new.to_controller;
          heard = record self.old.heard { letters = self.old.heard.letters + 1 };
        }) }
        ensures whole { OnOk result (ends_with_line (F.content files.new log.now) ≡ true) }
        ensures writes { OnlyWrites (log.now ∷ []) F.content F.read_faults F.write_faults files.old files.new (IsErr result) }
    {
        let mut desk = log_desk(log, files);
        self.heard.end(
            site,
            0,
            Side::Client,
            &mut self.lane,
            &mut self.to_client,
            &mut self.to_controller,
            &mut desk,
        )
    }

    /// Moves all bytes of both queues into their files, those towards the controller first.
    pub(crate) fn drain<F: Files>(
        &mut self,
        names: &SiftNames<'_>,
        buffer: &mut [u8],
        files: &mut F,
    ) -> Result<(), WriteFault>
        requires apart { AreApart (sift_names_value names.now) }
        requires buffer { length buffer.old ≡ 4096 }
        ensures to_client { OnOk result (Drains self.old.to_client self.new.to_client (F.content files.old names.now.replies.now)
            (F.content files.new names.now.replies.now)) }
        ensures to_controller { OnOk result (Drains self.old.to_controller self.new.to_controller (F.content files.old names.now.out.now)
            (F.content files.new names.now.out.now)) }
        ensures client_stands { (whole : Stream) → IsQueueOf self.old.to_client whole → IsQueueOf self.new.to_client whole }
        ensures controller_stands { (whole : Stream) → IsQueueOf self.old.to_controller whole → IsQueueOf self.new.to_controller whole }
        ensures same { self.new ≡ record self.old { to_client = self.new.to_client; to_controller = self.new.to_controller } }
        ensures fails { OnErr result (MovesFail (sift_names_value names.now) self.old self.new (F.content files.old)
            (F.content files.new)) }
        ensures log { F.content files.new names.now.log.now ≡ F.content files.old names.now.log.now }
        ensures writes { OnlyWrites (sift_output_names (sift_names_value names.now)) F.content F.read_faults F.write_faults
            files.old files.new (IsErr result) }
        ensures buffer { length buffer.new ≡ 4096 }
    {
        drain(&mut self.to_controller, names.out, buffer, files)?;
        drain(&mut self.to_client, names.replies, buffer, files)
    }
}
