// A record, and the words that are no record's length. No pad byte is written: the card's blocks are of 512 or 1024 bytes.
ghost use Rattle.std.specs.Prelude.{◌≡◌, ◌+◌, ◌%◌, ◌<◌, ◌≤◌, length};
ghost use Rattle.numbers.specs.Flags.{weight_of};
ghost use Rattle.numbers.specs.Over.{over};
ghost use Rattle.tap.specs.Items.{high_bit};
ghost use Rattle.tap.specs.Files.{Block, bytes_of};

use crate::items::HIGH_BIT;
use numbers::copying::copy_block;
use numbers::words::put_word;

fn length_word(length: u32, unreadable: bool) -> u32
    requires { length < high_bit }
    ensures { result ≡ length + weight_of unreadable high_bit }
{
    if unreadable {
        return length + HIGH_BIT;
    }
    length
}

// The block becomes a record from place `at` of the file on; the answer is the place after it, since records differ in length.
#[tactic(auto, using(crate::proofs::WriteLaws::record_put))]
pub fn put_record(file: &mut [u8], at: usize, block: &[u8], unreadable: bool) -> usize
    requires even_length { length block.now % 2 ≡ 0 }
    requires length_bound { length block.now < high_bit }
    requires record_in_bounds { at + length block.now + 8 ≤ length file.old }
    ensures value { result ≡ at + length block.now + 8 }
    ensures file_after { file.new ≡ over file.old at (bytes_of (Block unreadable block.now)) }
{
    let word = length_word(block.len() as u32, unreadable);
    let bytes = at + 4;
    let second = bytes + block.len();
    put_word(file, at, word);
    copy_block(&mut file[bytes..], block);
    put_word(file, second, word);
    second + 4
}
