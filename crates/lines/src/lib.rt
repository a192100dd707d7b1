// What the programs that run a script share: a script read and run, its lines taken apart, and what they print.
#![tactic(auto)]

pub mod input; // input.rt: a script read, and run line by line
pub mod line; // line.rt: the bytes in hexadecimal of a line
pub mod show; // show.rt: bytes in hexadecimal, printed
