//! What a run cannot know, and why records were dropped, said in words. What is said of a run is made of what it counted, and CAPTURE is
//! read again only where records were dropped. It is proved that each call ends and changes no file; of what a survey counts nothing is,
//! and it is meant as follows. This project's own.
//!
//! - A pair is a client's endpoint and an asset's. A packet belongs to a connection whose SYN is not there where it comes before any SYN
//!   of its pair. Of a run that neither cut nor closed a session, and had room for all, each packet of no session is such a one, or goes
//!   between no client and no asset.
//! - How many sessions never closed is what the summary counts without those that were cut and those that closed.
//! - A gap of a connection is before data at which no packet of the capture has the octets that come first: what stands behind it a review
//!   reads alone. A wrong TCP sum is partial where its field is the folded sum of the pseudo header alone; a review takes it as right.
//! - After `learn` the commands of each client to each asset are those with the asset's station whose form is read, up to where its
//!   connection breaks; what is left out beside them is counted by why. Where several assets have one address and port, what is for none
//!   of them is counted with the first.
#![tactic(auto)]

mod dropped;
mod flags;
mod gaps;
mod heard;
mod learned;
mod pair;
mod reason;
mod survey;
mod text;

pub use dropped::Dropped;
pub use gaps::{Gap, Gaps};
pub use learned::learned_text;
pub use reason::DropReason;
pub use survey::{Reading, Survey, survey_capture};
pub use text::{run_text, survey_text};
