//! Tests of the top of the program and of the outside as the machine has it, in a crate of their own: a crate that has tests is
//! proved twice.
#![tactic(auto)]

#[cfg(test)]
mod tests;
