// The entries of an index, four bytes each.
ghost use Rattle.std.specs.Prelude.{◌≡◌, ◌+◌, ◌*◌, ◌-◌, ◌<◌, ◌≤◌, length, replicate, if◌then◌else◌};
ghost use Rattle.numbers.specs.Counts.{put_count};
ghost use Rattle.numbers.specs.Over.{over};
ghost use Rattle.index.specs.Entries.{marks_from, no_filemark, entry_bytes};
ghost use Rattle.index.specs.Spacing.{entry_at, BelowFirst, AllBelow, entries_below};
ghost use Rattle.index.specs.Rewriting.{entries_put};

use image::header::Header;
use numbers::counts::{count4, put_count4};

// 02, A4: bytes that a host reads, so no None.
const NO_FILEMARK: u32 = 0xffffffff;

// An index and the number of an entry: four big-endian bytes of a lent buffer are no slice of numbers.
pub fn entry_at(index: &[u8], j: u32) -> u32
    requires { 4 * j + 4 ≤ length index.now }
    ensures { result ≡ entry_at index.now j }
{
    count4(index, 4 * j as usize)
}

// How many of the first n entries are below place p, by halving: big-endian bytes in a lent buffer are no slice of numbers for `partition_point`.
pub fn entries_below(index: &[u8], p: u32, n: u32) -> u32
    requires n_in_bounds { 4 * n ≤ length index.now }
    requires below_first { BelowFirst index.now p n }
    ensures value { result ≡ entries_below index.now p n }
    ensures upper_bound { result ≤ n }
    ensures all_below { AllBelow index.now result p }
{
    let mut low: u32 = 0;
    let mut high = n;
    while low < high {
        let middle = low + (high - low) / 2;
        if entry_at(index, middle) < p {
            low = middle + 1;
        } else {
            high = middle;
        }
    }
    low
}

// Place p becomes entry n where it is a filemark's; the answer is the next entry.
// Place and mark are two parameters: an Option of the place would be made by the loop only to be taken apart here.
fn put_entry(index: &mut [u8], n: u32, p: u32, mark: bool) -> u32
    requires { (4 * n + 4 ≤ length index.old) × (n < 65535) }
    ensures value { result ≡ (if mark then n + 1 else n) }
    ensures index_after { index.new ≡ (if mark then put_count index.old (4 * n) 4 p else index.old) }
{
    if mark {
        put_count4(index, 4 * n as usize, p);
        return n + 1;
    }
    n
}

// The filemarks from place p to the end become the entries from `first` on; the answer is the entry after the last. No loop is shared with the comparison,
// which stores nothing and ends at the first difference.
fn put_marks(image: &[u8], h: Header, p: u32, end: u32, index: &mut [u8], first: u32) -> u32
    requires p_le_end { (p ≤ end) × (h.kinds + end ≤ length image.now) }
    requires first_le_p { (first ≤ p) × (end ≤ 65535) × (4 * end ≤ length index.old) }
    ensures value { result ≡ first + length (marks_from image.now h.kinds (end - p) p) }
    ensures upper_bound { result ≤ end }
    ensures index_after { index.new ≡ over index.old (4 * first) (entry_bytes (marks_from image.now h.kinds (end - p) p)) }
{
    let mut n = first;
    for at in p..end {
        n = put_entry(index, n, at, h.kind_at(image, at).is_filemark());
    }
    n
}

// The entries from `first` to `last` become FFh.
// Entry by entry, as the promise has it: fill needs a range, so first at most last, which a WRITE FILEMARK may not leave.
fn put_blanks(index: &mut [u8], first: u32, last: u32)
    requires { (4 * last ≤ length index.old) × (last ≤ 65535) }
    ensures { index.new ≡ over index.old (4 * first) (entry_bytes (replicate (last - first) no_filemark)) }
{
    for n in first..last {
        put_count4(index, 4 * n as usize, NO_FILEMARK);
    }
}

// The filemarks from place p to the end become the entries from `first` on, and those after them, before `last`, FFh.
#[tactic(auto, using(crate::proofs::LoopLaws::put_both))]
pub fn write_entries(
    image: &[u8],
    h: Header,
    p: u32,
    end: u32,
    index: &mut [u8],
    first: u32,
    last: u32,
) -> u32
    requires p_le_end { (p ≤ end) × (h.kinds + end ≤ length image.now) }
    requires first_le_p { (first ≤ p) × (end ≤ 65535) × (4 * end ≤ length index.old) }
    requires last_bound { (last ≤ 65535) × (4 * last ≤ length index.old) }
    ensures value { result ≡ first + length (marks_from image.now h.kinds (end - p) p) }
    ensures index_after { index.new ≡ entries_put index.old first last (marks_from image.now h.kinds (end - p) p) }
{
    let next = put_marks(image, h, p, end, index, first);
    put_blanks(index, next, last);
    next
}
