//! What a world is made of: its policy, the draws of a number, and the hosts of three protocols, which say what comes next in its
//! capture and hear what the engine sends.
#![tactic(auto)]

mod commands;
mod dnp3;
mod document;
mod draws;
mod end;
mod flows;
mod hosts;
mod iec104;
mod message;
mod modbus;
mod next;
mod packet;
mod segment;
mod sending;
mod speaker;

pub use document::{Document, make_document};
pub use draws::Draws;
pub use hosts::Hosts;
pub use next::{Next, comes_next};
