// The record: its parts by name, or its bytes.
use crate::calls::Drive;
use lines::show::Hex;
use numbers::counts::count2;
use numbers::flags::is_set;
use std::io;

// By the record's byte, which is what a host has of it.
fn motion_name(motion: u8) -> &'static str {
    match motion {
        1 => " run",
        2 => " load",
        _ => " still",
    }
}

// The names of the marks that are set, lowest bit first.
fn show_marks(rt: &impl Print, marks: u8) -> io::Result<()> {
    let names = [
        (1, " cartridge"),
        (2, " referenced"),
        (4, " new"),
        (8, " asked"),
        (16, " owed"),
    ];
    for (weight, name) in names {
        if is_set(marks, weight) {
            rt.print(name)?;
        }
    }
    Ok(())
}

impl Drive {
    // Numbers, then motion and marks by name. The items left of a report and the code of arguments are 0 where none is open or waited for.
    pub fn show_parts(&self, rt: &impl Print) -> io::Result<()> {
        let state = self.state;
        let (place, target) = (count2(&state, 8), count2(&state, 10));
        let (track, rate) = (state[12], state[13]);
        let (error, command) = (state[14], state[15]);
        let (report, argument) = (state[17], state[20]);
        print!(rt; " S {place} target {target} track {track} rate {rate}")?;
        print!(rt; " error {error} command {command} report {report} argument {argument}")?;
        rt.print(motion_name(state[1]))?;
        show_marks(rt, state[0])
    }

    pub fn show_record(&self, rt: &impl Print) -> io::Result<()> {
        let record = Hex(&self.state);
        print!(rt; " record{record}")
    }
}
