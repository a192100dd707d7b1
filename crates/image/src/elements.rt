// 01: "Element i has its kind at K + i and its bytes at D + i*B."
ghost use Rattle.std.specs.Prelude.{◌≡◌, ◌+◌, ◌*◌, ◌<◌, ◌≤◌, length, set};
ghost use Rattle.image.specs.Elements.{kind_of, kind_byte, holds_data, is_filemark, is_marked, kind_at, block_at};
ghost use Rattle.image.specs.Elements.{lay_as, lay_block, lay_unreadable, lay_mark, set_recorded, record_to};

use crate::header::{Header, span};
use numbers::copying::copy_block;
use numbers::counts::put_count4;

#[derive(Clone, Copy, PartialEq, Eq)]
pub enum Kind {
    Unreadable = 0,
    Data = 1,
    Filemark = 2,
    Marked = 4, // 02, A6: data under a deleted address mark
}

impl From<u8> for Kind {
    ghost from_gives = { λ byte kind. kind ≡ kind_of byte };

    #[tactic(auto, unfolding(crate::specs::Elements::kind_of))]
    fn from(byte: u8) -> Kind {
        match byte {
            1 => Kind::Data,
            2 => Kind::Filemark,
            4 => Kind::Marked,
            _ => Kind::Unreadable,
        }
    }
}

impl Kind {
    // 01: "Filemark: P + 1, stop", "Unreadable: P + 1, stop"; 02, A6: "READ copies it as data"
    pub fn holds_data(self) -> bool
        ensures { result ≡ holds_data self }
    {
        matches!(self, Kind::Data | Kind::Marked)
    }

    // 02, A6: "SPACE counts it as a block"
    pub fn is_filemark(self) -> bool
        ensures { result ≡ is_filemark self }
    {
        self == Kind::Filemark
    }

    pub fn is_marked(self) -> bool
        ensures { result ≡ is_marked self }
    {
        self == Kind::Marked
    }
}

const RECORDED_FIELD: usize = 8;

// The one place where a kind is stored, whatever it was before: 02, A6: "WRITE still stores kind 1."
fn put_kind(image: &mut [u8], place: usize, kind: Kind)
    requires { place < length image.old }
    ensures { image.new ≡ set image.old place (kind_byte kind) }
{
    image[place] = kind as u8;
}

// What these ask of a header is what a good one gives (`Sound`); they take any, so each says it.
impl Header {
    fn kind_place(self, i: u32) -> usize
        ensures { result ≡ self.kinds + i }
    {
        self.kinds as usize + i as usize
    }

    // D + i*B can pass 32 bits, so it is summed in the 64 of a place in the image.
    pub fn block_place(self, i: u32) -> usize
        requires { (i ≤ 65535) × (self.size ≤ 1024) }
        ensures { result ≡ self.blocks + i * self.size }
    {
        self.blocks as usize + span(i, self.size) as usize
    }

    #[tactic(auto, unfolding(crate::specs::Elements::kind_at))]
    pub fn kind_at(self, image: &[u8], i: u32) -> Kind
        requires { self.kinds + i < length image.now }
        ensures { result ≡ kind_at image.now self.kinds i }
    {
        Kind::from(image[self.kind_place(i)])
    }

    #[tactic(auto, unfolding(crate::specs::Elements::block_at))]
    pub fn block<'a>(self, image: &'a [u8], i: u32) -> &'a [u8]
        requires { (i < 65535) × (self.size ≤ 1024) × (self.blocks + (i + 1) * self.size ≤ length image.now) }
        ensures { result.now ≡ block_at image.now self.size self.blocks i }
    {
        let from = self.block_place(i);
        &image[from..from + self.size as usize]
    }

    // The bytes of a block become those of element i, which is of this kind.
    fn lay_as(self, kind: Kind, image: &mut [u8], i: u32, block: &[u8])
        requires size_bound { self.size ≤ 1024 }
        requires i_bound { i < 65535 }
        requires kind_below_blocks { self.kinds + i < self.blocks }
        requires block_inside { self.blocks + (i + 1) * self.size ≤ length image.old }
        requires whole_block { length block.now ≡ self.size }
        ensures { image.new ≡ lay_as (kind_byte kind) image.old self.size self.kinds self.blocks i block.now }
    {
        copy_block(&mut image[self.block_place(i)..], block);
        put_kind(image, self.kind_place(i), kind);
    }

    // Two names, and lay_as for this file alone: with bytes an element is laid as one of these two kinds and no other.
    #[tactic(auto, unfolding(crate::specs::Elements::lay_block))]
    pub fn lay_block(self, image: &mut [u8], i: u32, block: &[u8])
        requires size_bound { self.size ≤ 1024 }
        requires i_bound { i < 65535 }
        requires kind_below_blocks { self.kinds + i < self.blocks }
        requires block_inside { self.blocks + (i + 1) * self.size ≤ length image.old }
        requires whole_block { length block.now ≡ self.size }
        ensures { image.new ≡ lay_block image.old self.size self.kinds self.blocks i block.now }
    {
        self.lay_as(Kind::Data, image, i, block);
    }

    // 02, A7: its bytes are kept, and it stays unreadable.
    #[tactic(auto, unfolding(crate::specs::Elements::lay_unreadable))]
    pub fn lay_unreadable(self, image: &mut [u8], i: u32, block: &[u8])
        requires size_bound { self.size ≤ 1024 }
        requires i_bound { i < 65535 }
        requires kind_below_blocks { self.kinds + i < self.blocks }
        requires block_inside { self.blocks + (i + 1) * self.size ≤ length image.old }
        requires whole_block { length block.now ≡ self.size }
        ensures { image.new ≡ lay_unreadable image.old self.size self.kinds self.blocks i block.now }
    {
        self.lay_as(Kind::Unreadable, image, i, block);
    }

    // A filemark becomes element i; no block's bytes change.
    #[tactic(auto, unfolding(crate::specs::Elements::lay_mark))]
    pub fn lay_mark(self, image: &mut [u8], i: u32)
        requires { self.kinds + i < length image.old }
        ensures { image.new ≡ lay_mark image.old self.kinds i }
    {
        put_kind(image, self.kind_place(i), Kind::Filemark);
    }
}

// 02, A7: "Import sets U to the elements read".
pub fn set_recorded(image: &mut [u8], u: u32)
    requires { 12 ≤ length image.old }
    ensures { image.new ≡ set_recorded image.old u }
{
    put_count4(image, RECORDED_FIELD, u);
}

// Where a run from place p stored something, the elements up to its new place are those recorded.
#[tactic(auto, unfolding(crate::specs::Elements::record_to))]
pub fn record_to(image: &mut [u8], p: u32, place: u32)
    requires { 12 ≤ length image.old }
    ensures { image.new ≡ record_to image.old p place }
{
    let stored = p < place;
    if stored {
        put_count4(image, RECORDED_FIELD, place);
    }
}
