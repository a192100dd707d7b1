// Runs a script of pulse calls from standard input through the C interface and prints each call with its answer: 01's pulse section with a
// cartridge in, sentence by sentence and by name (stdin), held to what 01 says (stdout). A script has at most 65,536 bytes.
#![tactic(auto)]

mod calls; // calls.rt: one call sent, and its answer
mod parts; // parts.rt: the parts of a record
mod script; // script.rt: a line of the script, taken apart

use calls::Drive;
use lines::input::run_script;
use std::io;

fn main(rt: HostRuntime) -> io::Result<()> {
    let mut drive = Drive::power_on(0, 0);
    run_script(&rt, &mut rt.stdin(), |letter, spelled| {
        script::obey(&rt, &mut drive, letter, spelled)
    })
}
