// What stands at a place of a file.
ghost use Rattle.std.specs.Prelude.{◌≡◌, ◌+◌, ◌≤◌, length};
ghost use Rattle.tap.specs.Items.{record_at, item_at};

use numbers::words::word_at;

// Places and no slice: the definition tells an item by its places in the file.
#[derive(Clone, Copy)]
pub struct TapeRecord {
    pub from: usize, // where its bytes start
    pub length: u32, // how many they are
    pub unreadable: bool,
    pub next: usize, // the place after its second word
}

// 02, A7 has these four things at a place; that one of them is refused is for the judge to say.
#[derive(Clone, Copy)]
pub enum Item {
    Ends(usize), // the end mark or the end of the file, and the place after it
    Mark(usize), // a tape mark, and the place after it
    Record(TapeRecord),
    Cut, // refusal 11
}

// Words of the format, as they stand in a file.
pub const TAPE_MARK: u32 = 0;

pub const END_MARK: u32 = 0xffffffff;

pub const HIGH_BIT: u32 = 0x80000000;

// What is left after the first word is compared, and not the place of the second: that could pass 64 bits.
// 01, "Forms by place": "few thin functions over a covered core of slice and number"; this and item_at are the core.
#[tactic(auto, using(crate::proofs::ItemLaws::record_ways))]
fn record_at(file: &[u8], at: usize, w: u32) -> Item
    requires { at + 4 ≤ length file.now }
    ensures { result ≡ record_at file.now at w }
{
    let bytes = w % HIGH_BIT;
    let span = bytes as usize + bytes as usize % 2; // SIMH's pad byte
    if file.len() - at < span + 8 {
        return Item::Cut;
    }
    if word_at(file, at + span + 4) != w {
        return Item::Cut;
    }
    Item::Record(TapeRecord {
        from: at + 4,
        length: bytes,
        unreadable: w >= HIGH_BIT,
        next: at + span + 8,
    })
}

#[tactic(auto, using(crate::proofs::ItemLaws::item_ways))]
pub fn item_at(file: &[u8], at: usize) -> Item
    ensures { result ≡ item_at file.now at }
{
    let n = file.len();
    if at >= n {
        return Item::Ends(at);
    }
    if n - at < 4 {
        return Item::Cut;
    }
    match word_at(file, at) {
        TAPE_MARK => Item::Mark(at + 4),
        END_MARK => Item::Ends(at + 4),
        w => record_at(file, at, w),
    }
}
