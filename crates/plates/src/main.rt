// Runs a script of packets from standard input through the C interface and prints what each leaves: 01's worked examples, every
// ending of its packet section, the speed of 02, A2, the EOM of A3, the marked blocks of A6, the lock of A8 and what passes 32 bits
// (A9), by name (stdin), held to what 01 and 02 say (stdout).
#![tactic(auto)]

mod card; // card.rt: what is lent to the drive, and one packet sent
mod script; // script.rt: a line of the script, taken apart

use card::Card;
use lines::input::run_script;
use std::io;

fn main(rt: HostRuntime) -> io::Result<()> {
    let mut card = Card::plate();
    run_script(&rt, &mut rt.stdin(), |letter, spelled| {
        script::obey(&rt, &mut card, letter, spelled)
    })
}
