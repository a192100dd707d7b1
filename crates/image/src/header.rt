// 01, "The cartridge image": the header, read from every slice and judged.
ghost use Rattle.std.specs.Prelude.{◌≡◌, ◌*◌, ◌≤◌, length};
ghost use Rattle.numbers.specs.Member.{is_in};
ghost use Rattle.numbers.specs.RuleList.{all_hold};
ghost use Rattle.image.specs.Header.{block_sizes, fields_of, fixed_bytes, field_ranges, place_rules, header_of};

use numbers::counts::{count2, count4};

#[derive(Clone, Copy)]
pub struct Header {
    pub size: u16, // B, bytes of a block
    pub capacity: u32, // C, elements
    pub recorded: u32, // U, elements recorded
    pub kinds: u32, // K, where the kind table starts
    pub blocks: u32, // D, where the blocks start
    pub warning: u16, // W, early warning
    pub protect: u8, // 1 where the cartridge is write protected; a byte, since any may stand there until the ranges are judged
    pub medium: u8, // medium type
}

const HEADER_LENGTH: u16 = 32;

const MOST_ELEMENTS: u32 = 65535;

// Elements and bytes of a block within their bounds make at most 67,107,840 bytes: no more than 32 bits.
pub fn span(elements: u32, size: u16) -> u32
    requires { (elements ≤ 65535) × (size ≤ 1024) }
    ensures { (result ≡ elements * size) × (result ≤ 67107840) }
{
    elements * size as u32
}

#[tactic(auto, unfolding(numbers::specs::Member::is_in))]
fn is_block_size(size: u16) -> bool
    ensures { result ≡ is_in size block_sizes }
{
    matches!(size, 512 | 1024)
}

// No From: 32 bytes are asked for, and a From may ask nothing.
#[tactic(auto, unfolding(crate::specs::Header::fields_of))]
fn fields(image: &[u8]) -> Header
    requires { 32 ≤ length image.now }
    ensures { result ≡ fields_of image.now }
{
    Header {
        size: count2(image, 2),
        capacity: count4(image, 4),
        recorded: count4(image, 8),
        kinds: count4(image, 12),
        blocks: count4(image, 16),
        warning: count2(image, 22),
        protect: image[20],
        medium: image[21],
    }
}

// In these three a test for each rule of its list, in its order; the first stops before a slice that is too short is read.
#[tactic(auto, unfolding(numbers::specs::RuleList::all_hold))]
fn has_fixed_bytes(image: &[u8]) -> bool
    ensures { result ≡ all_hold (fixed_bytes image.now) }
{
    image.len() >= HEADER_LENGTH as usize
        && count2(image, 0) == HEADER_LENGTH
        && count4(image, 24) == 0
        && count4(image, 28) == 0
}

#[tactic(auto, unfolding(numbers::specs::RuleList::all_hold))]
fn keeps_ranges(h: Header) -> bool
    ensures { result ≡ all_hold (field_ranges h) }
{
    1 <= h.capacity
        && h.capacity <= MOST_ELEMENTS
        && h.recorded <= h.capacity
        && h.protect <= 1
        && h.warning as u32 <= h.capacity
        && is_block_size(h.size)
}

// K + C and D + C*B can pass 32 bits, so they are summed in the 64 of a place in the image.
// Asked only of a header that keeps its ranges: no type says that before header_of has judged, so the clause does.
#[tactic(auto, unfolding(numbers::specs::RuleList::all_hold))]
fn keeps_places(h: Header, n: usize) -> bool
    requires { (h.capacity ≤ 65535) × (h.size ≤ 1024) }
    ensures { result ≡ all_hold (place_rules h n) }
{
    h.kinds >= HEADER_LENGTH as u32
        && h.kinds as usize + h.capacity as usize <= h.blocks as usize
        && h.blocks as usize + span(h.capacity, h.size) as usize <= n
}

pub fn header_of(image: &[u8]) -> Option<Header>
    ensures { result ≡ header_of image.now }
{
    if has_fixed_bytes(image) {
        let h = fields(image);
        if keeps_ranges(h) {
            if keeps_places(h, image.len()) {
                return Some(h);
            }
        }
    }
    None
}
