//! Tests of policies, verdicts, lines of the log and messages, in a crate of their own: a crate that has tests is proved twice.
#![tactic(auto)]

#[cfg(test)]
mod tests;
