//! Tests of the TCP end, the lane, the session and the run, as rows of text: what comes, and what goes.
#![tactic(auto)]

#[cfg(test)]
mod tests;
