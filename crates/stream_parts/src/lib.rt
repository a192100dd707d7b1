// The parts of the stream device that are its own.
#![tactic(auto)]

pub mod checks; // checks.rt: what each command asks before its work
pub mod replies; // replies.rt: the bytes that 1Ah and 34h give
pub mod requests; // requests.rt: the fields of one packet
pub mod warning; // warning.rt: the early warning
