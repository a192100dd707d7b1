// 02, A7: a little-endian word of four bytes, joined and split as a count is.
ghost use Rattle.std.specs.Prelude.{◌≡◌, ◌+◌, ◌≤◌, length};
ghost use Rattle.numbers.specs.Over.{over};
ghost use Rattle.numbers.specs.Words.{word_at, word_bytes};

use crate::counts::pair;

// A slice and a place in it, as for counts.
#[tactic(auto, using(crate::proofs::WordLaws::word_so))]
pub fn word_at(s: &[u8], at: usize) -> u32
    requires { at + 4 ≤ length s.now }
    ensures { result ≡ word_at s.now at }
{
    let low = pair(s[at + 1], s[at]);
    let high = pair(s[at + 3], s[at + 2]);
    high as u32 * 65536 + low as u32
}

#[tactic(auto, using(crate::proofs::WordLaws::stored_so), unfolding(crate::specs::Words::word_bytes))]
pub fn put_word(s: &mut [u8], at: usize, w: u32)
    requires { at + 4 ≤ length s.old }
    ensures { s.new ≡ over s.old at (word_bytes w) }
{
    s[at] = (w % 256) as u8;
    s[at + 1] = (w / 256 % 256) as u8;
    s[at + 2] = (w / 256 / 256 % 256) as u8;
    s[at + 3] = (w / 256 / 256 / 256 % 256) as u8;
}
