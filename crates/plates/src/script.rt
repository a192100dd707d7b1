// A line of the script, taken apart: a letter, then bytes in hexadecimal; one that is not there is 0.
//   "TEXT    prints the text          = TEXT  prints it as a line of its own
//   p BYTES  sends a packet           n       a new card, as in 01's plates
//   c, f     changes the cartridge, or makes the record fresh
//   i, r, d  AA AA BYTES: stores bytes in the image, the record, the data buffer
//   l, m     LL LL: how much of the data buffer, of the image, is lent
//   x, y, w  AA AA NN: prints bytes of the data buffer, of the image, of the record
use crate::card::Card;
use lines::line::bytes_of;
use lines::show::Hex;
use numbers::counts::pair;
use std::io;
use tapecard::packet_calls::{tapecard_change, tapecard_fresh};

fn byte_at(bytes: &[u8], i: usize) -> u8 {
    bytes.get(i).copied().unwrap_or(0)
}

// What the first two bytes spell.
fn place_of(bytes: &[u8]) -> usize {
    pair(byte_at(bytes, 0), byte_at(bytes, 1)) as usize
}

// The bytes from the third on, stored at the place that the first two name, as far as they fit.
fn store(dst: &mut [u8], bytes: &[u8]) {
    let Some(part) = dst.get_mut(place_of(bytes)..) else {
        return;
    };
    for (kept, value) in part.iter_mut().zip(bytes.iter().skip(2)) {
        *kept = *value;
    }
}

// As many bytes as the third one says, from the place on that the first two name.
fn show_part(rt: &impl Print, src: &[u8], bytes: &[u8]) -> io::Result<()> {
    let from = src.len().min(place_of(bytes));
    let to = src.len().min(from + byte_at(bytes, 2) as usize);
    let part = Hex(&src[from..to]);
    println!(rt; "{part}")
}

// One match by letter: its arms change or print different parts of the card, and a table of closures would be no shorter.
pub fn obey(rt: &impl Print, card: &mut Card, letter: u8, spelled: &[u8]) -> io::Result<()> {
    let read = bytes_of(spelled);
    let bytes = read.as_slice();
    match letter {
        b'n' => *card = Card::plate(),
        b'f' => tapecard_fresh(&mut card.state),
        b'c' => tapecard_change(&mut card.state),
        b'p' => card.send(rt, bytes)?,
        b'i' => store(&mut card.image, bytes),
        b'r' => store(&mut card.state, bytes),
        b'd' => store(&mut card.buf, bytes),
        b'l' => card.room = place_of(bytes),
        b'm' => card.lent = place_of(bytes),
        b'x' => show_part(rt, &card.buf, bytes)?,
        b'y' => show_part(rt, &card.image, bytes)?,
        b'w' => show_part(rt, &card.state, bytes)?,
        _ => {}
    }
    Ok(())
}
