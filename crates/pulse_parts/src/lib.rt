// The parts of the pulse drive's record and the tests on them.
#![tactic(auto)]

pub mod cartridge; // cartridge.rt: the cartridge's description
pub mod head; // head.rt: where the tape stands and where it goes
pub mod marks; // marks.rt: what the drive remembers of the cartridge
pub mod fault; // fault.rt: the held error
pub mod reports; // reports.rt: a report's items and their bits

pub use cartridge::Cartridge;
pub use fault::Fault;
pub use head::{Head, Motion};
pub use marks::Marks;
pub use reports::Report;
