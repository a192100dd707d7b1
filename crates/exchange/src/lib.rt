// 02, A7: a cartridge written out as a SIMH tape file, and such a file read in.
#![tactic(auto)]

pub mod exporting; // exporting.rt: "Write ours out"
pub mod importing; // importing.rt: "read theirs in"
