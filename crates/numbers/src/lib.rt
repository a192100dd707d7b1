// The ground of the card: numbers and flags in bytes, and bytes copied onto bytes.
#![tactic(auto)]

pub mod counts; // counts.rt: big-endian counts of 2, 3 and 4 bytes
pub mod words; // words.rt: little-endian words of 4 bytes
pub mod flags; // flags.rt: flag bits in a byte
pub mod copying; // copying.rt: the copier of one block
pub mod tables; // tables.rt: short constant tables
pub mod refusals; // refusals.rt: why a call is refused
