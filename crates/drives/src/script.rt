// A line of the script, taken apart: a letter, then bytes in hexadecimal.
//   "TEXT    prints the text          =TEXT   prints it as a line of its own
//   o VV VV RR   power-on with vendor and ROM
//   t NN NN CC   a train of so many pulses and, where CC is there, so many 2s after it
//   k            a tick
//   i BYTES      insertion by the eight bytes of a description
//   r            removal
//   w LL LL      a wait with its limit
//   s AA AA BYTES   stores bytes in the record, and prints its bytes
//   p, x         prints the parts of the record, or its bytes
// Any other line is answered as one that the script may not have.
use crate::calls::Drive;
use lines::line::bytes_of;
use numbers::counts::pair;
use std::io;

// What the record gets from a place on has to lie within it.
fn store(rt: &impl Print, drive: &mut Drive, place: u16, values: &[u8]) -> io::Result<()> {
    let from = place as usize;
    let Some(part) = drive.state.get_mut(from..from + values.len()) else {
        return rt.print("beyond the record");
    };
    part.copy_from_slice(values);
    drive.show_record(rt)
}

fn no_line(rt: &impl Print, letter: u8, spelled: &[u8]) -> io::Result<()> {
    rt.print("no line of a script: ")?;
    rt.write_all(&[letter])?;
    rt.write_all(spelled)
}

// The letter says what is called, and the bytes are to be all that is after it.
// One match by letter: its arms take different bytes, which a table of closures would have to hide.
fn call(rt: &impl Print, drive: &mut Drive, letter: u8, spelled: &[u8]) -> io::Result<()> {
    let read = bytes_of(spelled);
    let bytes = read.as_slice();
    if spelled.len() != 3 * bytes.len() {
        return no_line(rt, letter, spelled);
    }
    match (letter, bytes) {
        (b'o', [high, low, rom]) => drive.restart(rt, pair(*high, *low), *rom),
        (b't', [high, low]) => drive.train(rt, pair(*high, *low), 0),
        (b't', [high, low, twos]) => drive.train(rt, pair(*high, *low), *twos),
        (b'k', []) => drive.tick(rt),
        (b'i', [a, b, c, d, e, f, g, h]) => drive.insert(rt, [*a, *b, *c, *d, *e, *f, *g, *h]),
        (b'r', []) => drive.remove(rt),
        (b'w', [high, low]) => drive.wait(rt, u32::from(pair(*high, *low))),
        (b's', [high, low, values @ ..]) if !values.is_empty() => {
            store(rt, drive, pair(*high, *low), values)
        }
        (b'p', []) => drive.show_parts(rt),
        (b'x', []) => drive.show_record(rt),
        _ => no_line(rt, letter, spelled),
    }
}

pub fn obey(rt: &impl Print, drive: &mut Drive, letter: u8, spelled: &[u8]) -> io::Result<()> {
    call(rt, drive, letter, spelled)?;
    rt.write_all(b"\n")
}
