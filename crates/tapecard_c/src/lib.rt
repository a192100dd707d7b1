// The archive that C and Rust hosts link: each call of `tapecard` under its C name, with the same promise. None has a `requires`.
// An export for each C name.
#![tactic(auto)]

mod exchange_calls; // exchange_calls.rt: the calls that exchange a cartridge with a tape file
mod floppy_calls; // floppy_calls.rt: the calls of the floppy tape device
mod index_calls; // index_calls.rt: the calls with an index of filemark places
mod packet_calls; // packet_calls.rt: the calls of the packet drive
mod pulse_calls; // pulse_calls.rt: the calls of the pulse drive
