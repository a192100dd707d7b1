// The pulse drive's record, cartridge description and answer in bytes.
// Functions by name and no From: some take several values or ask for a length, and no type here would be this crate's own.
#![tactic(auto)]

ghost use Rattle.std.specs.Prelude.{◌≡◌, ◌%◌, ◌^◌, ◌≤◌, length};
ghost use Rattle.pulse_record.specs.PulseRecord.{unsent, waiting_of};
ghost use Rattle.pulse_record.specs.PulseRecord.{cartridge_of, cartridge_byte, described_cartridge, described_place, marks_of, marks_byte};
ghost use Rattle.pulse_record.specs.PulseRecord.{cartridge_in, head_in, report_in, waiting_in, decode_drive, encode_drive, encode_told};

use numbers::counts::{count2, high_byte, low_byte, put_count4};
use numbers::flags::{is_set, weight_of};
use pulse::Drive;
use pulse_codes::Waiting;
use pulse_parts::{Cartridge, Fault, Head, Marks, Motion, Report};

// docs/INTERFACE.md, bytes 18-19: "0 where no report is open"; what a host left there is not read.
#[tactic(auto, unfolding(crate::specs::PulseRecord::unsent))]
fn unsent(left: u8, bits: u16) -> u16
    ensures { result ≡ unsent left bits }
{
    if left == 0 {
        return 0;
    }
    bits
}

// Only the nibbles held count; four of them are the whole value.
#[tactic(auto, using(crate::proofs::ValueLaws::whole_value))]
fn held_value(held: u8, value: u16) -> u16
    ensures { result ≡ value % 16 ^ held }
{
    match held {
        0 => 0,
        1 => value % 16,
        2 => value % 256,
        3 => value % 4096,
        _ => value,
    }
}

#[tactic(auto, unfolding(crate::specs::PulseRecord::waiting_of))]
fn waiting_of(code: u8, held: u8, value: u16) -> Option<Waiting>
    ensures { result ≡ waiting_of code held value }
{
    if code == 0 {
        return None;
    }
    Some(Waiting {
        code,
        held,
        value: held_value(held, value),
    })
}

// What the record's bytes are where no arguments are waited for.
const NOTHING_WAITED: Waiting = Waiting {
    code: 0,
    held: 0,
    value: 0,
};

#[tactic(auto, unfolding(crate::specs::PulseRecord::cartridge_of))]
fn cartridge_of(segments: u16, tracks: u8, flags: u8, format: u8, kind: u8) -> Cartridge
    ensures { result ≡ cartridge_of segments tracks flags format kind }
{
    Cartridge {
        segments,
        tracks,
        protected: is_set(flags, 1),
        burst: is_set(flags, 2),
        wide: is_set(flags, 4),
        format,
        kind,
    }
}

fn cartridge_byte(c: Cartridge) -> u8
    ensures { result ≡ cartridge_byte c }
{
    weight_of(c.protected, 1) + weight_of(c.burst, 2) + weight_of(c.wide, 4)
}

// The description and the record have the same fields at other places, so both are read by `cartridge_of`.
#[tactic(auto, unfolding(crate::specs::PulseRecord::described_cartridge))]
pub fn described_cartridge(bytes: &[u8]) -> Cartridge
    requires { 8 ≤ length bytes.now }
    ensures { result ≡ described_cartridge bytes.now }
{
    cartridge_of(count2(bytes, 0), bytes[2], bytes[5], bytes[6], bytes[7])
}

#[tactic(auto, unfolding(crate::specs::PulseRecord::described_place))]
pub fn described_place(bytes: &[u8]) -> u16
    requires { 8 ≤ length bytes.now }
    ensures { result ≡ described_place bytes.now }
{
    count2(bytes, 3)
}

fn marks_of(flags: u8) -> Marks
    ensures { result ≡ marks_of flags }
{
    Marks {
        inside: is_set(flags, 1),
        referenced: is_set(flags, 2),
        fresh: is_set(flags, 4),
        asked: is_set(flags, 8),
    }
}

fn marks_byte(m: Marks, r: Report) -> u8
    ensures { result ≡ marks_byte m r }
{
    weight_of(m.inside, 1)
        + weight_of(m.referenced, 2)
        + weight_of(m.fresh, 4)
        + weight_of(m.asked, 8)
        + weight_of(r.repeat, 16)
}

// A slice of 32 bytes or more: decode_drive is public, so an array type, which has exactly 32, would ask more of its callers.
#[tactic(auto, unfolding(crate::specs::PulseRecord::cartridge_in))]
fn cartridge_in(bytes: &[u8]) -> Cartridge
    requires { 32 ≤ length bytes.now }
    ensures { result ≡ cartridge_in bytes.now }
{
    cartridge_of(count2(bytes, 2), bytes[4], bytes[5], bytes[6], bytes[7])
}

#[tactic(auto, unfolding(crate::specs::PulseRecord::head_in))]
fn head_in(bytes: &[u8]) -> Head
    requires { 32 ≤ length bytes.now }
    ensures { result ≡ head_in bytes.now }
{
    Head {
        place: count2(bytes, 8),
        target: count2(bytes, 10),
        track: bytes[12],
        motion: Motion::from(bytes[1]),
    }
}

#[tactic(auto, unfolding(crate::specs::PulseRecord::report_in))]
fn report_in(bytes: &[u8]) -> Report
    requires { 32 ≤ length bytes.now }
    ensures { result ≡ report_in bytes.now }
{
    Report {
        left: bytes[17],
        bits: unsent(bytes[17], count2(bytes, 18)),
        repeat: is_set(bytes[0], 16),
    }
}

#[tactic(auto, unfolding(crate::specs::PulseRecord::waiting_in))]
fn waiting_in(bytes: &[u8]) -> Option<Waiting>
    requires { 32 ≤ length bytes.now }
    ensures { result ≡ waiting_in bytes.now }
{
    waiting_of(bytes[20], bytes[21], count2(bytes, 22))
}

#[tactic(auto, unfolding(crate::specs::PulseRecord::decode_drive))]
pub fn decode_drive(bytes: &[u8]) -> Drive
    requires { 32 ≤ length bytes.now }
    ensures { result ≡ decode_drive bytes.now }
{
    let fault = Fault {
        error: bytes[14],
        command: bytes[15],
    };
    Drive {
        cart: cartridge_in(bytes),
        head: head_in(bytes),
        marks: marks_of(bytes[0]),
        fault,
        report: report_in(bytes),
        waiting: waiting_in(bytes),
        rate: bytes[13],
        level: is_set(bytes[16], 1),
        vendor: count2(bytes, 24),
        rom: bytes[26],
    }
}

#[tactic(auto, unfolding(crate::specs::PulseRecord::encode_drive))]
pub fn encode_drive(d: Drive) -> [u8; 32]
    ensures { result ≡ encode_drive d }
{
    let bits = unsent(d.report.left, d.report.bits);
    let waited = d.waiting.unwrap_or(NOTHING_WAITED);
    [
        marks_byte(d.marks, d.report),
        d.head.motion as u8,
        high_byte(d.cart.segments),
        low_byte(d.cart.segments),
        d.cart.tracks,
        cartridge_byte(d.cart),
        d.cart.format,
        d.cart.kind,
        high_byte(d.head.place),
        low_byte(d.head.place),
        high_byte(d.head.target),
        low_byte(d.head.target),
        d.head.track,
        d.rate,
        d.fault.error,
        d.fault.command,
        weight_of(d.level, 1),
        d.report.left,
        high_byte(bits),
        low_byte(bits),
        waited.code,
        waited.held,
        high_byte(waited.value),
        low_byte(waited.value),
        high_byte(d.vendor),
        low_byte(d.vendor),
        d.rom,
        0,
        0,
        0,
        0,
        0,
    ]
}

// The number is a byte of the C answer; the Result is taken apart where the record is written too (tapecard, leave_waited).
#[tactic(auto, unfolding(crate::specs::PulseRecord::encode_told))]
pub fn encode_told(number: u8, level: bool, ticks: u32) -> [u8; 8]
    ensures { result ≡ encode_told number level ticks }
{
    let mut bytes = [0; 8];
    bytes[0] = number;
    bytes[1] = weight_of(level, 1);
    put_count4(&mut bytes, 4, ticks);
    bytes
}
