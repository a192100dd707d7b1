// The C interface of the card. Each call decodes a record, makes one call of an engine, and encodes what it leaves; none has a `requires`.
// A function for each C name: what differs is the engine that is called.
#![tactic(auto)]

pub mod exchange_calls; // exchange_calls.rt: the calls that exchange a cartridge with a tape file
pub mod floppy_calls; // floppy_calls.rt: the calls of the floppy tape device
pub mod index_calls; // index_calls.rt: the calls with an index of filemark places
pub mod leaving; // leaving.rt: what a call leaves of record and answer
pub mod packet_calls; // packet_calls.rt: the calls of the packet drive
pub mod pulse_calls; // pulse_calls.rt: the calls of the pulse drive
