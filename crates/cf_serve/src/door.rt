//! The door of a service: a client that no rule of an asset of its site names, or for which there is no place, is closed as it comes,
//! and has a line now and then.
ghost use Rattle.std.specs.Prelude.{◌≡◌, ◌&&◌, ◌+◌, ◌-◌, ◌<◌, ◌^◌, if◌then◌else◌, None, Some, pos};
ghost use Rattle.std.specs.List.{list_any};
ghost use Rattle.cf_audit.specs.Line.{HasShortRule, what_value};
ghost use Rattle.cf_lane.specs.Log.{HasPlainRule};
ghost use Rattle.cf_outside.specs.Faults.{counted};
ghost use Rattle.cf_policy.specs.Verdict.{is_allow, takes};
ghost use Rattle.cf_serve.specs.Door.{came_by, closing_value, crowd_with, door_with, has_line, is_due, is_due_after, is_named, is_named_by, first_lobby, lobby_closed};

use cf_audit::What;
use cf_policy::{Action, Asset, Rule, Site, takes};

/// How long the strangers of one address have one line, in microseconds. This project's own choice.
const SAME_MICROS: u64 = 60_000_000;

/// How long all strangers have one line, in microseconds. This project's own choice.
const ANY_MICROS: u64 = 1_000_000;

/// How long the clients that come where one site has no place have one line, in microseconds. This project's own choice.
const AWAY_MICROS: u64 = 1_000_000;

/// How many places a service listens at, at most.
pub(crate) const PLACES: usize = 256;

/// Why a client is closed as it comes.
#[derive(Clone, Copy)]
pub(crate) enum Closing {
    /// No rule of an asset of its site that allows names it.
    Stranger,
    /// All places that it could have are taken.
    Away,
}

impl Closing {
    /// What the line about such a client says, of which so many came.
    pub(crate) fn line<'a>(self, came: u64) -> What<'a>
        ensures value { what_value result ≡ closing_value self came }
        ensures short { HasShortRule (what_value result) }
        ensures plain { HasPlainRule (what_value result) }
    {
        match self {
            Closing::Stranger => What::Stranger { came },
            Closing::Away => What::Away { came },
        }
    }
}

/// The last line about a stranger: its moment in microseconds, and the address that it has.
#[derive(Clone, Copy)]
pub(crate) struct LastLine {
    pub(crate) moment: u64,
    pub(crate) address: u32,
}

/// What is kept of the clients that no rule names: the last line, where there is one, and how many came since.
#[derive(Clone, Copy)]
pub(crate) struct Door {
    pub(crate) last: Option<LastLine>,
    pub(crate) since: u64,
}

/// What is kept of the clients that came to a listening place where it had no place for them: the moment of the last line about such, in
/// microseconds, where there is one, and how many came since.
#[derive(Clone, Copy)]
pub(crate) struct Crowd {
    pub(crate) last: Option<u64>,
    pub(crate) since: u64,
}

/// What is kept of all clients that came: the number of the next one, the door, and a crowd for each listening place.
#[derive(Drop)]
pub(crate) struct Lobby {
    pub(crate) next: u64,
    pub(crate) door: Door,
    pub(crate) crowds: [Crowd; PLACES],
}

fn allows_client(rule: &Rule, client: u32) -> bool
    ensures { result ≡ (is_allow rule.now.action && takes rule.now.clients (pos client)) }
{
    rule.action == Action::Allow && takes(&rule.clients, i64::from(client))
}

fn some_allows_client(rules: &[Rule], client: u32) -> bool
    ensures { result ≡ list_any (λ r. is_allow r.action && takes r.clients (pos client)) rules.now }
{
    rules.iter().any(|rule| allows_client(rule, client))
}

/// Whether some rule of an asset that allows has this address.
fn asset_names_client(asset: &Asset, client: u32) -> bool
    ensures { result ≡ is_named_by asset.now client }
{
    some_allows_client(asset.rules.as_slice(), client)
}

fn some_names_client(assets: &[Asset], client: u32) -> bool
    ensures { result ≡ list_any (λ a. is_named_by a client) assets.now }
{
    assets.iter().any(|asset| asset_names_client(asset, client))
}

/// Whether some rule of an asset of a site that allows has this address: each command to any of them of a client that none has is
/// refused.
pub(crate) fn names_client(site: &Site<'_>, client: u32) -> bool
    ensures { result ≡ is_named site.now client }
{
    asset_names_client(site.first(), client) || some_names_client(site.others(), client)
}

impl Door {
    /// Whether a stranger of this address has a line: none had one yet, or the last is a minute old, or a second where it has another
    /// address, or is of a later moment than this.
    fn is_due(&self, moment: u64, address: u32) -> bool
        ensures { result ≡ is_due self.now moment address }
    {
        match self.last {
            None => true,
            Some(last) => {
                let gap = if last.address == address {
                    SAME_MICROS
                } else {
                    ANY_MICROS
                };
                moment < last.moment || moment - last.moment >= gap
            }
        }
    }

    /// A stranger came. Where it has a line, the answer is how many came since the last one, this one among them.
    pub(crate) fn note(&mut self, moment: u64, address: u32) -> Option<u64>
        ensures says { result ≡ (if is_due self.old moment address then Some (counted self.old.since) else None) }
        ensures door { self.new ≡ door_with self.old moment address }
    {
        let came = self.since.saturating_add(1);
        if !self.is_due(moment, address) {
            self.since = came;
            return None;
        }
        self.last = Some(LastLine { moment, address });
        self.since = 0;
        Some(came)
    }
}

impl Crowd {
    /// Whether a client has a line: none had one yet, or the last is a second old, or is of a later moment than this.
    fn is_due(&self, moment: u64) -> bool
        ensures { result ≡ is_due_after self.now.last moment }
    {
        match self.last {
            None => true,
            Some(last) => moment < last || moment - last >= AWAY_MICROS,
        }
    }

    /// A client came. Where it has a line, the answer is how many came since the last one, this one among them.
    fn note(&mut self, moment: u64) -> Option<u64>
        ensures says { result ≡ (if is_due_after self.old.last moment then Some (counted self.old.since) else None) }
        ensures crowd { self.new ≡ crowd_with self.old moment }
    {
        let came = self.since.saturating_add(1);
        if !self.is_due(moment) {
            self.since = came;
            return None;
        }
        self.last = Some(moment);
        self.since = 0;
        Some(came)
    }
}

impl Lobby {
    /// No client came yet.
    pub(crate) fn new() -> Lobby
        ensures { result ≡ first_lobby }
    {
        let door = Door {
            last: None,
            since: 0,
        };
        let crowd = Crowd {
            last: None,
            since: 0,
        };
        Lobby {
            next: 0,
            door,
            crowds: [crowd; PLACES],
        }
    }

    /// A client of this address came to a listening place and is closed: it uses up a number. Where it has a line, the answer is how many
    /// such came since the last one, this one among them.
    pub(crate) fn close(
        &mut self,
        closing: Closing,
        place: usize,
        moment: u64,
        address: u32,
    ) -> Option<u64>
        requires next { self.old.next < 2 ^ 64 - 1 }
        requires place { place < 256 }
        ensures says { result ≡ (if has_line closing self.old place moment address then Some (came_by closing self.old place) else None) }
        ensures lobby { self.new ≡ lobby_closed closing self.old place moment address }
    {
        self.next += 1;
        match closing {
            Closing::Stranger => self.door.note(moment, address),
            Closing::Away => {
                let mut crowd = self.crowds[place];
                let came = crowd.note(moment);
                self.crowds[place] = crowd;
                came
            }
        }
    }
}
