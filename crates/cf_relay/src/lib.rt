//! Two byte streams, one to a client and one to its controller, relayed in turns through the lane: those of one session of many,
//! turn by turn, or a pair until it ends.
#![tactic(auto)]

mod directions;
mod done;
mod give;
mod limit;
mod only;
mod relaying;
mod sides;
mod stop;
mod take;
mod top;
mod turns;

pub use directions::Directions;
pub use done::{RelayDone, RelayEnd, RelayFault};
pub use limit::MOST_BYTES;
pub use relaying::Relaying;
pub use stop::Stop;
pub use top::relay;
