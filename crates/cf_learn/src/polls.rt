//! Requests of Modbus and fragments of DNP3 whose acts were gathered: a client polls the same ones over and over.
ghost use Rattle.std.specs.Prelude.{◌≡◌, ◌∷◌, IfOk, IfSome, List, OnOk, true};
ghost use Rattle.cf_learn.specs.Polls.{AreGathered, HasAll, HasFragment, HaveFragments, HaveRequests};
ghost use Rattle.cf_learn.specs.declared.seen.Seen.{Seen};

use cf_policy::Protocol;
use cf_view::View;
use std::alloc::{AllocError, Global};

/// So many are remembered. A prime, so that requests whose numbers differ mostly have places of their own. This project's own.
const PLACES: usize = 1_021;

/// How many octets of a fragment give its place. This project's own.
const NUMBERS: usize = 12;

/// FIR and FIN of an application control octet, which is at least this where both are set.
const SINGLE: u8 = 0xC0;

/// A request of a client.
#[derive(Clone, Copy)]
pub(crate) struct Poll<'a> {
    pub(crate) client: u32,
    pub(crate) pdu: &'a [u8],
}

/// A fragment of a client, but for its application control octet, which tells its sequence.
#[derive(Drop)]
pub(crate) struct Asked {
    pub(crate) client: u32,
    pub(crate) octets: Vec<u8>,
}

impl Asked {
    /// Makes it that of a client with these octets.
    fn fill(&mut self, client: u32, octets: &[u8]) -> Result<(), AllocError>
        ensures { OnOk result ((self.new.client ≡ client) × (self.new.octets.items ≡ octets.now)) }
    {
        self.client = client;
        self.octets.clear();
        self.octets.extend_from_slice(octets)
    }
}

/// Requests and fragments of clients, each at the place that its numbers give. A later one stands in the place of an earlier one.
#[derive(Drop)]
pub(crate) struct Polls<'a> {
    pub(crate) places: Vec<Poll<'a>>,
    /// For DNP3 alone.
    pub(crate) fragments: Vec<Asked>,
}

impl<'a> Polls<'a> {
    /// None: no request has an empty PDU, and no fragment one octet.
    pub(crate) fn new(alloc: Global, protocol: Protocol) -> Result<Polls<'a>, AllocError>
        ensures { IfOk result (λ polls. (seen : List Seen) → AreGathered seen polls) }
    {
        let places = no_requests(alloc)?;
        let count = match protocol {
            Protocol::Dnp3 => PLACES,
            Protocol::Modbus | Protocol::Iec104 => 0,
        };
        let fragments = no_fragments(alloc, count)?;
        Ok(Polls { places, fragments })
    }

    /// Whether the request of a client with this PDU stands at a place.
    pub(crate) fn has(&self, place: usize, client: u32, pdu: &View<'_>) -> bool
        ensures { result ≡ true → (seen : List Seen) → AreGathered seen self.now → HasAll seen client pdu.now.bytes }
    {
        match self.places.get(place) {
            Some(poll) => poll.client == client && pdu.equals(poll.pdu),
            None => false,
        }
    }

    /// Has the request of a client stand at a place, if its PDU lies in one piece.
    pub(crate) fn put(&mut self, place: usize, client: u32, pdu: &View<'a>)
        ensures { (seen : List Seen) → AreGathered seen self.old → HasAll seen client pdu.now.bytes → AreGathered seen self.new }
    {
        let (pdu, more) = pdu.pieces();
        if more.is_empty() && place < self.places.len() {
            self.places[place] = Poll { client, pdu };
        }
    }

    /// Whether a fragment of a client that is the same but for its application control octet stands at a place.
    pub(crate) fn has_fragment(&self, place: usize, client: u32, octets: &View<'_>) -> bool
        ensures { result ≡ true → (seen : List Seen) → AreGathered seen self.now → HasFragment seen client octets.now.bytes }
    {
        let Some((_, behind)) = cut(octets) else {
            return false;
        };
        match self.fragments.get(place) {
            Some(asked) => asked.client == client && behind == asked.octets.as_slice(),
            None => false,
        }
    }

    /// Has the fragment of a client stand at a place, if it lies in one piece and has FIR and FIN.
    pub(crate) fn put_fragment(
        &mut self,
        place: usize,
        client: u32,
        octets: &View<'_>,
    ) -> Result<(), AllocError>
        ensures { (seen : List Seen) → AreGathered seen self.old → HasFragment seen client octets.now.bytes
            → OnOk result (AreGathered seen self.new) }
    {
        let Some((control, behind)) = cut(octets) else {
            return Ok(());
        };
        if control < SINGLE || place >= self.fragments.len() {
            return Ok(());
        }
        self.fragments[place].fill(client, behind)
    }
}

/// Places where no request stands.
fn no_requests<'a>(alloc: Global) -> Result<Vec<Poll<'a>>, AllocError>
    ensures { IfOk result (λ places. (seen : List Seen) → HaveRequests seen places.items) }
{
    let none = Poll {
        client: 0,
        pdu: &[],
    };
    vec![in alloc; none; PLACES]
}

/// So many places where no fragment stands.
fn no_fragments(alloc: Global, count: usize) -> Result<Vec<Asked>, AllocError>
    ensures { IfOk result (λ fragments. (seen : List Seen) → HaveFragments seen fragments.items) }
{
    let mut fragments = Vec::new(alloc);
    for _ in 0..count {
        let none = Asked {
            client: 0,
            octets: Vec::new(alloc),
        };
        fragments.push(none)?;
    }
    Ok(fragments)
}

/// The application control octet of a fragment that lies in one piece, and the octets behind it.
fn cut<'a>(octets: &View<'a>) -> Option<(u8, &'a [u8])>
    ensures { IfSome result (λ parts. octets.now.bytes ≡ parts.0 ∷ parts.1.now) }
{
    let (first, more) = octets.pieces();
    if !more.is_empty() {
        return None;
    }
    match first.split_first() {
        Some((control, behind)) => Some((*control, behind)),
        None => None,
    }
}

/// The place of a request, by its client and its first numbers.
pub(crate) fn place_of(client: u32, code: u8, start: u16, quantity: u16) -> usize {
    let numbers = usize::from(code) * 257 + usize::from(start) * 31 + usize::from(quantity) * 127;
    (client as usize + numbers) % PLACES
}

/// The place of a fragment, by its client and its first octets behind the application control octet.
pub(crate) fn fragment_place(client: u32, octets: &View<'_>) -> usize {
    let Some((_, behind)) = cut(octets) else {
        return 0;
    };
    let mut sum = client as usize;
    for octet in behind.iter().take(NUMBERS) {
        sum = sum % PLACES * 31 + usize::from(*octet);
    }
    sum % PLACES
}
