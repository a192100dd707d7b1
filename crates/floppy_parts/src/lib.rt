// The parts of the floppy tape device that are its own.
#![tactic(auto)]

pub mod checks; // checks.rt: what each command asks before its work
pub mod headers; // headers.rt: the images that it takes
pub mod replies; // replies.rt: the tape parameters page
pub mod requests; // requests.rt: the fields of one packet
pub mod rules; // rules.rt: refusal 3
pub mod settings; // settings.rt: what sets the tape parameters
pub mod tape; // tape.rt: the tape parameters and the record
