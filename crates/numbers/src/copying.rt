// Bytes copied onto bytes.
ghost use Rattle.std.specs.Prelude.{◌≡◌, ◌≤◌, length};
ghost use Rattle.numbers.specs.Over.{over};

// All of src onto the start of dst; what dst has beyond it stays.
// By a loop: copy_from_slice would have the archive ask its host for memmove, beside the memcpy and memset that docs/INTERFACE.md names.
#[tactic(auto, using(crate::proofs::OverLaws::copied_next, crate::proofs::OverLaws::copied_all))]
pub fn copy_block(dst: &mut [u8], src: &[u8])
    requires { length src.now ≤ length dst.old }
    ensures { dst.new ≡ over dst.old 0 src.now }
{
    for (i, byte) in src.iter().enumerate() {
        dst[i] = *byte;
    }
}
