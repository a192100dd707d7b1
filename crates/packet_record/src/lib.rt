// The packet drive's record and answer in bytes.
#![tactic(auto)]

ghost use Rattle.std.specs.Prelude.{◌≡◌, ◌≤◌, length};
ghost use Rattle.packet_record.specs.PacketRecord.{decode_state, encode_state, encode_answer};
ghost use Rattle.packet_state.specs.Answers.{numbered, answer_of};

use numbers::counts::{count2, count4, put_count2, put_count4};
use numbers::flags::{is_set, weight_of};
use numbers::refusals::Refusal;
use packet_state::state::{Attention, Sense, State, Told};

// Functions by name and no From: a From may ask nothing of a slice's length, and no type here would be this crate's own.
#[tactic(auto, unfolding(crate::specs::PacketRecord::decode_state))]
pub fn decode_state(bytes: &[u8]) -> State
    requires { 16 ≤ length bytes.now }
    ensures { result ≡ decode_state bytes.now }
{
    let door = bytes[4];
    let flags = bytes[11];
    let sense = Sense {
        key: bytes[8],
        asc: bytes[9],
        ascq: bytes[10],
        filemark: is_set(flags, 4),
        eom: is_set(flags, 2),
        valid: is_set(flags, 1),
        information: count4(bytes, 12),
    };
    State {
        position: count4(bytes, 0),
        loaded: is_set(door, 1),
        locked: is_set(door, 2),
        attention: Attention::from(bytes[5]),
        speed: count2(bytes, 6),
        sense,
    }
}

#[tactic(auto, unfolding(crate::specs::PacketRecord::encode_state))]
pub fn encode_state(state: State) -> [u8; 16]
    ensures { result ≡ encode_state state }
{
    let sense = state.sense;
    let door = weight_of(state.loaded, 1) + weight_of(state.locked, 2);
    let flags = weight_of(sense.valid, 1) + weight_of(sense.eom, 2) + weight_of(sense.filemark, 4);
    let mut bytes = [0; 16];
    put_count4(&mut bytes, 0, state.position);
    bytes[4] = door;
    bytes[5] = state.attention as u8;
    put_count2(&mut bytes, 6, state.speed);
    bytes[8] = sense.key;
    bytes[9] = sense.asc;
    bytes[10] = sense.ascq;
    bytes[11] = flags;
    put_count4(&mut bytes, 12, sense.information);
    bytes
}

// Of any number and any Told, since the number is a byte of the C answer; encode_answer, of what calls give, is over it.
#[tactic(auto, unfolding(crate::specs::PacketRecord::encode_answer))]
pub fn encode_numbered(number: u8, told: Told) -> [u8; 16]
    ensures { result ≡ encode_answer (numbered number told) }
{
    let mut bytes = [0; 16];
    bytes[0] = number;
    bytes[1] = told.status;
    put_count4(&mut bytes, 4, told.blocks);
    put_count4(&mut bytes, 8, told.bytes);
    put_count4(&mut bytes, 12, told.marked);
    bytes
}

// 01: "A refusal returns its number, status 0, 0 blocks and bytes"
const NOTHING: Told = Told {
    status: 0,
    blocks: 0,
    bytes: 0,
    marked: 0,
};

pub fn encode_answer(answer: Result<Told, Refusal>) -> [u8; 16]
    ensures { result ≡ encode_answer (answer_of answer) }
{
    match answer {
        Ok(told) => encode_numbered(0, told),
        Err(refusal) => encode_numbered(u8::from(refusal), NOTHING),
    }
}
