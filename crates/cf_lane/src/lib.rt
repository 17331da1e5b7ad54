//! The lane: the filter of one session's two streams.
#![tactic(auto)]

mod dnp3;
mod fate;
mod iec104;
mod lane;
mod laws;
mod limit;
mod log;
mod modbus;
mod ring;
mod rings;
mod rows;
mod rules;
mod run;
mod site;
mod wire;

pub use dnp3::{drop_why, form_reason, is_data, stray_of, take_segment};
pub use fate::{Admission, Fate, Refusal, Shown};
pub use iec104::kind_of;
pub use lane::{Fed, Lane};
pub use laws::{
    grows_little, has_one_judgement, judgements_go_on, lane_passes_allowed, nobodys_is_refused,
    one_asset_is_as_before, parts_are_sessions, pieces_join, rates_hold, rates_last, streams_go_on,
};
pub use limit::{LETTER_LIMIT, Lengths, limit_cut};
pub use log::put_line;
pub use rings::Rings;
pub use rows::rows_hold;
pub use run::refusal_of;
pub use site::{place_for_adu, place_for_apdu, place_for_frame};
