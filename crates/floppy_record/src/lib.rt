// 02, A1: the floppy tape device's record in bytes.
#![tactic(auto)]

ghost use Rattle.std.specs.Prelude.{◌≡◌, ◌≤◌, length};
ghost use Rattle.floppy_record.specs.FloppyRecord.{decode_tape, decode_floppy, encode_tape, encode_floppy};

use floppy_parts::tape::{Floppy, Reported, Tape};
use numbers::copying::copy_block;
use numbers::counts::{count2, put_count2};
use packet_record::{decode_state, encode_state};

// The fields of a list's page at other places, here and in encode_tape: nine places as parameters would be no plainer.
// Functions by name and no From: a From may ask nothing of a slice's length, and no type here would be this crate's own.
#[tactic(auto, unfolding(crate::specs::FloppyRecord::decode_tape))]
fn decode_tape(bytes: &[u8]) -> Tape
    requires { 32 ≤ length bytes.now }
    ensures { result ≡ decode_tape bytes.now }
{
    let reported = Reported {
        density: bytes[16],
        fill: bytes[17],
        sector: bytes[24],
        cylinder: bytes[25],
        head: bytes[26],
        ..Reported::flagged(bytes[19])
    };
    Tape {
        bseg: bytes[18],
        segtrk: count2(bytes, 20),
        trks: count2(bytes, 22),
        reported,
    }
}

// A slice of 32 bytes or more: this is public, so an array type, which has exactly 32, would ask more of its callers.
#[tactic(auto, unfolding(crate::specs::FloppyRecord::decode_floppy))]
pub fn decode_floppy(bytes: &[u8]) -> Floppy
    requires { 32 ≤ length bytes.now }
    ensures { result ≡ decode_floppy bytes.now }
{
    Floppy {
        shared: decode_state(bytes),
        tape: decode_tape(bytes),
    }
}

#[tactic(auto, unfolding(crate::specs::FloppyRecord::encode_tape))]
fn encode_tape(tape: Tape) -> [u8; 16]
    ensures { result ≡ encode_tape tape }
{
    let x = tape.reported;
    let mut bytes = [0; 16];
    bytes[0] = x.density;
    bytes[1] = x.fill;
    bytes[2] = tape.bseg;
    bytes[3] = x.flags_byte();
    put_count2(&mut bytes, 4, tape.segtrk);
    put_count2(&mut bytes, 6, tape.trks);
    bytes[8] = x.sector;
    bytes[9] = x.cylinder;
    bytes[10] = x.head;
    bytes
}

#[tactic(auto, unfolding(crate::specs::FloppyRecord::encode_floppy, packet_record::specs::PacketRecord::encode_state))]
pub fn encode_floppy(f: Floppy) -> [u8; 32]
    ensures { result ≡ encode_floppy f }
{
    let shared = encode_state(f.shared);
    let tape = encode_tape(f.tape);
    let mut bytes = [0; 32];
    copy_block(&mut bytes, &shared);
    copy_block(&mut bytes[16..], &tape);
    bytes
}
