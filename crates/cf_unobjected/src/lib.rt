//! What the judgement of a capture means; and what goes to a controller, and what a run sends, as a judge of the same policy reads it:
//! nothing is wrong with any beginning of it, and no flow of its output capture has an objection.
#![tactic(auto)]

mod laws;

pub use laws::{
    beginnings_are_unobjected, flows_are_judged, flows_go_on, judgements_are_one,
    objections_are_of_shortest_fronts, readings_are_one, rows_hold, runs_are_unobjected,
    unobjected_are_allowed,
};
