// The pulse drive (QIC-117): a record that turns into the next by train, tick, insertion and removal.
#![tactic(auto)]

pub mod drive; // drive.rt: the record, power-on, and one part replaced
mod rules; // rules.rt: the record rules
mod motion; // motion.rt: runs, loads, stops, ticks and the held error
mod arguments; // arguments.rt: step 2 of a train
mod reports; // reports.rt: steps 3 and 6
mod commands; // commands.rt: step 7
mod train; // train.rt: the seven steps
mod events; // events.rt: insertion, removal, waiting
pub mod calls; // calls.rt: the public calls and their refusals
mod trains; // trains.rt: a list of trains in one call

pub use calls::Waited;
pub use drive::Drive;
