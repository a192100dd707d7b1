// The record of a packet device: its parts, the rules it keeps, and the sense of each ending.
#![tactic(auto)]

pub mod rules; // rules.rt: refusal 3
pub mod senses; // senses.rt: the sense of each ending
pub mod state; // state.rt: the packet record and the answer
