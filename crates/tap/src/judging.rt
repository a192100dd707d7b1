// Refusals 11, 12 and 13: a whole file is judged before anything of it is used.
ghost use Rattle.std.specs.Prelude.{◌≡◌};
ghost use Rattle.tap.specs.Files.{reads};
ghost use Rattle.tap.specs.Judging.{turn_of, found_from};

use crate::items::Item;
use crate::reader::read;
use numbers::refusals::Refusal;

// What an item means for a reader with blocks of one size: ControlFlow's two ways, by the names that the definition has.
#[derive(Clone, Copy)]
pub enum Turn {
    Takes(usize), // an element, and the place after it
    Stops(usize), // the end, and the place after it
}

#[derive(Clone, Copy)]
pub struct Found {
    pub elements: u32,
    pub used: usize, // bytes that they take, with the end mark
}

#[tactic(auto, unfolding(crate::specs::Judging::turn_of))]
fn turn_of(item: Item, size: u16) -> Result<Turn, Refusal>
    ensures { result ≡ turn_of size item }
{
    match item {
        Item::Ends(used) => Ok(Turn::Stops(used)),
        Item::Cut => Err(Refusal::CutLengths),
        Item::Mark(next) => Ok(Turn::Takes(next)),
        Item::Record(r) if r.length == size as u32 => Ok(Turn::Takes(r.next)),
        Item::Record(_) => Err(Refusal::OtherLength),
    }
}

// After so many elements one turn more: nothing is taken then, and an element there is one too many.
#[tactic(auto, using(crate::proofs::JudgeLaws::judge_ways))]
pub fn judge(file: &[u8], size: u16, most: u32) -> Result<Found, Refusal>
    ensures { result ≡ found_from 0 (reads size file.now most 0) }
{
    let mut at: usize = 0; // a place in the file: each item tells the next
    for elements in 0..=most {
        match turn_of(read(file, at), size)? {
            Turn::Takes(next) => at = next,
            Turn::Stops(used) => return Ok(Found { elements, used }),
        }
    }
    Err(Refusal::TooManyItems)
}
