// 02, A6: how many of the blocks copied were marked.
ghost use Rattle.std.specs.Prelude.{◌≡◌, ◌+◌, ◌≤◌, length};
ghost use Rattle.transfer.specs.Marked.{marked_from};

use image::header::Header;

#[tactic(auto, using(crate::proofs::MarkedLaws::marked_ways))]
pub fn count_marked(image: &[u8], h: Header, n: u32, p: u32) -> u32
    requires n_bound { p + n ≤ 65535 }
    requires n_in_bounds { h.kinds + (p + n) ≤ length image.now }
    ensures { result ≡ marked_from image.now h.kinds n p }
{
    let mut marked: u32 = 0;
    for at in p..p + n {
        if h.kind_at(image, at).is_marked() {
            marked += 1;
        }
    }
    marked
}
