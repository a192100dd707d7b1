// 02, A7: "The reader of such a file keeps the file's bytes and its place together as one thing to pass around." Its functions are thin: each leaves the work
// to `item_at`, which takes the slice and the number; `read` has plain parameters, so no caller of it holds the struct.
ghost use Rattle.std.specs.Prelude.{◌≡◌};
ghost use Rattle.tap.specs.Items.{item_at};

use crate::items::{Item, item_at};

#[derive(Clone, Copy)]
pub struct Reader<'a> {
    pub file: &'a [u8],
    pub at: usize,
}

pub fn reader_at<'a>(file: &'a [u8], at: usize) -> Reader<'a>
    ensures { (result.file ≡ file.entry) × (result.at ≡ at) }
{
    Reader { file, at }
}

pub fn next<'a>(r: Reader<'a>) -> Item
    ensures { result ≡ item_at r.entry.file.now r.entry.at }
{
    item_at(r.file, r.at)
}

pub fn read(file: &[u8], at: usize) -> Item
    ensures { result ≡ item_at file.now at }
{
    next(reader_at(file, at))
}
