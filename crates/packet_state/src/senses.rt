// The sense of each ending: key, ASC, ASCQ, and what a stop adds.
ghost use Rattle.std.specs.Prelude.{◌≡◌};
ghost use Rattle.packet_state.specs.Senses.{key_byte, plain, stopped, no_sense, unit_attention, invalid_opcode, invalid_field, wrong_list_length, not_loaded};
ghost use Rattle.packet_state.specs.Senses.{removal_prevented, write_protected, filemark_detected, unreadable_block, end_of_data, volume_overflow};
ghost use Rattle.packet_state.specs.Senses.{early_warning, beginning_of_tape, beyond_data, wrong_list};

use crate::state::{Attention, Sense};

// 003, the sense keys that the card has; a record may hold others (refusal 3).
#[derive(Clone, Copy)]
pub enum Key {
    NoSense = 0x00,
    NotReady = 0x02,
    MediumError = 0x03,
    IllegalRequest = 0x05,
    UnitAttention = 0x06,
    DataProtect = 0x07,
    BlankCheck = 0x08,
    VolumeOverflow = 0x0D,
}

fn plain_sense(key: Key, asc: u8, ascq: u8) -> Sense
    ensures { result ≡ plain (key_byte key) asc ascq }
{
    Sense {
        key: key as u8,
        asc,
        ascq,
        filemark: false,
        eom: false,
        valid: false,
        information: 0,
    }
}

fn stop_sense(key: Key, asc: u8, ascq: u8, filemark: bool, eom: bool, left: u32) -> Sense
    ensures { result ≡ stopped (key_byte key) asc ascq filemark eom left }
{
    Sense {
        key: key as u8,
        asc,
        ascq,
        filemark,
        eom,
        valid: true,
        information: left,
    }
}

// Each sense by its name, a line over one of the two above: what differs is the values that 01 and 02 give it.

pub fn no_sense() -> Sense
    ensures { result ≡ no_sense }
{
    plain_sense(Key::NoSense, 0x00, 0x00)
}

// No From, since each sense is asked for by its name. Of Nothing none is ever told: a packet is held only where one of the other two is pending.
pub fn unit_attention(attention: Attention) -> Sense
    ensures { result ≡ unit_attention attention }
{
    match attention {
        Attention::Nothing => no_sense(),
        Attention::MediumChanged => plain_sense(Key::UnitAttention, 0x28, 0x00),
        Attention::Reset => plain_sense(Key::UnitAttention, 0x29, 0x00),
    }
}

pub fn invalid_opcode() -> Sense
    ensures { result ≡ invalid_opcode }
{
    plain_sense(Key::IllegalRequest, 0x20, 0x00)
}

pub fn invalid_field() -> Sense
    ensures { result ≡ invalid_field }
{
    plain_sense(Key::IllegalRequest, 0x24, 0x00)
}

pub fn wrong_list_length() -> Sense
    ensures { result ≡ wrong_list_length }
{
    plain_sense(Key::IllegalRequest, 0x1A, 0x00)
}

pub fn removal_prevented() -> Sense
    ensures { result ≡ removal_prevented }
{
    plain_sense(Key::IllegalRequest, 0x53, 0x02)
}

pub fn not_loaded() -> Sense
    ensures { result ≡ not_loaded }
{
    plain_sense(Key::NotReady, 0x3A, 0x00)
}

pub fn write_protected() -> Sense
    ensures { result ≡ write_protected }
{
    plain_sense(Key::DataProtect, 0x27, 0x00)
}

pub fn filemark_detected(left: u32) -> Sense
    ensures { result ≡ filemark_detected left }
{
    stop_sense(Key::NoSense, 0x00, 0x01, true, false, left)
}

pub fn unreadable_block(left: u32) -> Sense
    ensures { result ≡ unreadable_block left }
{
    stop_sense(Key::MediumError, 0x11, 0x00, false, false, left)
}

pub fn end_of_data(eom: bool, left: u32) -> Sense
    ensures { result ≡ end_of_data eom left }
{
    stop_sense(Key::BlankCheck, 0x00, 0x05, false, eom, left)
}

pub fn volume_overflow(left: u32) -> Sense
    ensures { result ≡ volume_overflow left }
{
    stop_sense(Key::VolumeOverflow, 0x00, 0x02, false, true, left)
}

pub fn early_warning() -> Sense
    ensures { result ≡ early_warning }
{
    stop_sense(Key::NoSense, 0x00, 0x02, false, true, 0)
}

pub fn beginning_of_tape(left: u32) -> Sense
    ensures { result ≡ beginning_of_tape left }
{
    stop_sense(Key::NoSense, 0x00, 0x04, false, true, left)
}

pub fn beyond_data() -> Sense
    ensures { result ≡ beyond_data }
{
    plain_sense(Key::BlankCheck, 0x00, 0x05)
}

pub fn wrong_list() -> Sense
    ensures { result ≡ wrong_list }
{
    plain_sense(Key::IllegalRequest, 0x26, 0x00)
}
