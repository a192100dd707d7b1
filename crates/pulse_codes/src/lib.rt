// The numbers that 01 and source document 000 give a pulse drive: codes, errors and the arguments of a code.
#![tactic(auto)]

pub mod codes; // codes.rt: the pulse codes and what each needs
pub mod errors; // errors.rt: the error numbers
pub mod arguments; // arguments.rt: the arguments of a code

pub use arguments::Waiting;
pub use errors::ErrorNumber;
