// A report's items, and the bits of each report (000, table 2c).
ghost use Rattle.std.specs.Prelude.{◌≡◌, false};
ghost use Rattle.pulse_parts.specs.Reports.{no_report, report_of8, report_of16, is_open, items_left, item_level, report_fits, owing};
ghost use Rattle.pulse_parts.specs.Reports.{status_bits, error_bits, configuration_bits, tape_bits};

use crate::cartridge::Cartridge;
use crate::fault::Fault;
use crate::head::Head;
use crate::marks::Marks;
use numbers::{counts, flags};

// The items of a report of eight bits and of sixteen, with the final 1. 01: "report items left <= 17".
const BYTE_ITEMS: u8 = 9;

const WORD_ITEMS: u8 = 17;

const MOST_ITEMS: u8 = WORD_ITEMS;

// 000, table 2c: the type "307.5 ft. 550 Oe (XL)" is of extra length, the format QIC-80 is 2.
const EXTRA_LENGTH: u8 = 2;

const QIC_80: u8 = 2;

// As a host's record keeps them: the items left, the bits not sent yet, the next one lowest, and whether a repeat is owed.
// No Option: a record may owe a repeat with no report open, or have more items left than 17, until its rules are judged.
#[derive(Clone, Copy, PartialEq, Eq)]
pub struct Report {
    pub left: u8,
    pub bits: u16,
    pub repeat: bool,
}

impl Report {
    pub fn none() -> Self
        ensures { result ≡ no_report }
    {
        Report::of_items(0, 0)
    }

    pub fn of_byte(bits: u16) -> Self
        ensures { result ≡ report_of8 bits }
    {
        Report::of_items(BYTE_ITEMS, bits)
    }

    pub fn of_word(bits: u16) -> Self
        ensures { result ≡ report_of16 bits }
    {
        Report::of_items(WORD_ITEMS, bits)
    }

    fn of_items(left: u8, bits: u16) -> Self
        ensures { result ≡ record { left = left; bits = bits; repeat = false } }
    {
        Report {
            left,
            bits,
            repeat: false,
        }
    }

    pub fn is_open(self) -> bool
        ensures { result ≡ is_open self }
    {
        0 < self.left
    }

    pub fn fits(self) -> bool
        ensures { result ≡ report_fits self }
    {
        (self.left <= MOST_ITEMS) & (!self.repeat | self.is_open())
    }

    pub fn item_level(self) -> bool
        ensures { result ≡ item_level self }
    {
        (self.left <= 1) | (self.bits % 2 == 1)
    }

    pub fn items_left(self) -> Self
        ensures { result ≡ items_left self }
    {
        if self.left <= 1 {
            return Report::none();
        }
        Report::of_items(self.left - 1, self.bits / 2)
    }

    pub fn owing(self, repeat: bool) -> Self
        ensures { result ≡ owing self repeat }
    {
        Report { repeat, ..self }
    }
}

// The bits are sixteen wide for each report: a record may hold any rate, format and type until its rules are judged.
// Over the parts that 01 names: the drive is in a crate above.
pub fn status_bits(h: Head, f: Fault, m: Marks, c: Cartridge) -> u16
    ensures { result ≡ status_bits h f m c }
{
    let bits = flags::weight_of(h.stands(), 1)
        + flags::weight_of(f.is_held(), 2)
        + flags::weight_of(m.inside, 4)
        + flags::weight_of(c.protected, 8)
        + flags::weight_of(m.fresh, 16)
        + flags::weight_of(m.referenced, 32)
        + flags::weight_of(m.inside & (h.place == 0), 64)
        + flags::weight_of(m.inside & (h.place == c.segments), 128);
    bits as u16
}

pub fn error_bits(f: Fault) -> u16
    ensures { result ≡ error_bits f }
{
    counts::pair(f.command, f.error)
}

pub fn configuration_bits(rate: u8, m: Marks, c: Cartridge) -> u16
    ensures { result ≡ configuration_bits rate m c }
{
    let known = flags::weight_of(m.referenced & (c.kind == EXTRA_LENGTH), 64)
        + flags::weight_of(m.referenced & (c.format == QIC_80), 128);
    rate as u16 * 8 + known as u16
}

pub fn tape_bits(m: Marks, c: Cartridge) -> u16
    ensures { result ≡ tape_bits m c }
{
    let wide = flags::weight_of(c.wide, 128) as u16;
    if m.referenced {
        return c.format as u16 + c.kind as u16 * 16 + wide;
    }
    wide
}
