// Refusals 9 and 10: an index that is too short, or differs from a fresh one.
ghost use Rattle.std.specs.Prelude.{◌≡◌, ◌+◌, ◌*◌, ◌<◌, ◌≤◌, ltb, length, Some};
ghost use Rattle.image.specs.Header.{header_of};
ghost use Rattle.index.specs.Entries.{marks_from, is_fresh};
ghost use Rattle.index.specs.Checking.{compared_at, compared_with, are_blank};

use crate::entries::entry_at;
use image::header::Header;

pub fn is_short(index: &[u8], capacity: u32) -> bool
    ensures { result ≡ ltb (length index.now) (4 * capacity) }
{
    index.len() < 4 * capacity as usize
}

// Place p, where it is a filemark's, against entry n; the answer is the entry to compare next.
// Place and mark are two parameters: an Option of the place would be made by the loop only to be taken apart here.
#[tactic(auto, unfolding(crate::specs::Checking::compared_at))]
fn compare_entry(index: &[u8], n: u32, p: u32, mark: bool) -> Option<u32>
    requires { (4 * n + 4 ≤ length index.now) × (n < 65535) }
    ensures { result ≡ compared_at mark index.now n p }
{
    if !mark {
        return Some(n);
    }
    (entry_at(index, n) == p).then_some(n + 1)
}

// How many filemarks there are, where they are the first entries: the kinds below the end are read once.
#[tactic(auto, using(crate::proofs::LoopLaws::compare_ways))]
fn compare_marks(image: &[u8], h: Header, index: &[u8]) -> Option<u32>
    requires { (h.kinds + h.recorded ≤ length image.now) × (h.recorded ≤ 65535) × (4 * h.recorded ≤ length index.now) }
    ensures { result ≡ compared_with index.now (marks_from image.now h.kinds h.recorded 0) }
{
    let mut n: u32 = 0;
    for at in 0..h.recorded {
        n = compare_entry(index, n, at, h.kind_at(image, at).is_filemark())?;
    }
    Some(n)
}

// 02, A4: "the rest of the first 4*C bytes is FFh", bytes that a host reads. By `all`, which stops at the first, it took five times as long.
// By place: so a mistake at one place, the last entry of the longest index, can be planted, and is refused for what it makes false.
#[tactic(auto, using(crate::proofs::BlankLaws::blank_next, crate::proofs::BlankLaws::blank_done))]
fn are_blank(bytes: &[u8]) -> bool
    ensures { result ≡ are_blank bytes.now }
{
    let mut blank = true;
    for at in 0..bytes.len() {
        blank &= bytes[at] == 0xff;
    }
    blank
}

#[tactic(auto, using(crate::proofs::CheckLaws::fresh_ways))]
pub fn is_fresh(image: &[u8], h: Header, index: &[u8]) -> bool
    requires image_value { header_of image.now ≡ Some h }
    requires capacity_in_bounds { 4 * h.capacity ≤ length index.now }
    ensures { result ≡ is_fresh image.now index.now }
{
    match compare_marks(image, h, index) {
        Some(n) => are_blank(&index[4 * n as usize..4 * h.capacity as usize]),
        None => false,
    }
}
