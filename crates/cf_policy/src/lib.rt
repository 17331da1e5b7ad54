//! Policies as values, and the verdict of a policy about an act of a client.
#![tactic(auto)]

mod by_table;
mod index;
mod judge;
mod laws;
mod limits;
mod lists;
mod names;
mod point_table;
mod policy;
mod run;
mod site;

pub use index::{CodeIndex, CodePair};
pub use judge::{takes, verdict};
pub use laws::{allows_by_first_rule, keeps_decided_acts, sites_are_whole};
pub use limits::{
    HIGHEST_ADDRESS, HIGHEST_CODE, HIGHEST_COMMON_ADDRESS, HIGHEST_GROUP, HIGHEST_LINK_ADDRESS,
    HIGHEST_MOST, HIGHEST_POINT, HIGHEST_UNIT, HIGHEST_VALUE, LONGEST_NAME, LONGEST_RATE,
    LOWEST_VALUE, MOST_ASSETS, MOST_AT_SITE, MOST_DNP3_AT_SITE, MOST_RATED, MOST_RULES, MOST_SPANS,
};
pub use lists::{Items, Name};
pub use names::{decider_name, is_logged};
pub use policy::{Action, Asset, Decider, Policy, Protocol, Rate, Rule, Span, Verdict};
pub use site::{Site, site_at, site_at_place, site_from};
