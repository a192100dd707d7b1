// 02, A7: "read theirs in". An export lends the image and an import changes it, so the two share no loop: no more than the for is alike.
ghost use Rattle.std.specs.Prelude.{◌≡◌, ◌<◌, length};
ghost use Rattle.image.specs.Header.{header_of};
ghost use Rattle.tap.specs.Items.{item_at};
ghost use Rattle.tap.specs.Files.{elements_in, reads};
ghost use Rattle.tap.specs.Taking.{Taken, element_in, place_after};
ghost use Rattle.exchange.specs.Importing.{lay_element, lay_elements, ImportPromise};

use image::elements::set_recorded;
use image::header::{Header, header_of};
use numbers::refusals::Refusal;
use packet_parts::answers::{GOOD, told};
use packet_state::state::{Outcome, State};
use tap::items::Item;
use tap::judging::judge;
use tap::reader::read;

// The item at place `at` of a file that was judged becomes element i; the answer is the place after it, which only the item tells.
// Image and header are two parameters: an import changes the image that the header was read from.
#[tactic(auto, using(crate::proofs::ImportLaws::item_ways))]
fn store_item(image: &mut [u8], h: Header, i: u32, file: &[u8], at: usize) -> usize
    requires image_value { header_of image.old ≡ Some h }
    requires i_lt_capacity { i < h.capacity }
    requires taken { Taken h.size (item_at file.now at) }
    ensures value { result ≡ place_after (item_at file.now at) }
    ensures image_after { image.new ≡ lay_element h (element_in file.now (item_at file.now at)) i image.old }
{
    let Item::Record(r) = read(file, at) else {
        h.lay_mark(image, i); // no other item is an element
        return at + 4;
    };
    let block = &file[r.from..r.from + r.length as usize];
    if r.unreadable {
        h.lay_unreadable(image, i, block);
    } else {
        h.lay_block(image, i, block);
    }
    r.next
}

#[tactic(auto, using(crate::proofs::ImportLaws::store_ways))]
fn store_elements(image: &mut [u8], h: Header, file: &[u8], n: u32)
    requires image_value { header_of image.old ≡ Some h }
    requires n_value { n ≡ length (elements_in (reads h.size file.now h.capacity 0)) }
    ensures { image.new
        ≡ lay_elements h (elements_in (reads h.size file.now h.capacity 0)) 0 image.old }
{
    let mut at: usize = 0; // a place in the file
    for i in 0..n {
        at = store_item(image, h, i, file, at);
    }
}

// The whole file is judged before the first byte is stored; write protection and the packet record's rules are not looked at.
#[tactic(auto, using(crate::proofs::ImportLaws::import_ways))]
pub fn import(image: &mut [u8], state: State, file: &[u8]) -> Result<Outcome<State>, Refusal>
    ensures { ImportPromise image.old state file.now result image.new }
{
    let h = header_of(image).ok_or(Refusal::BrokenImage)?;
    let found = judge(file, h.size, h.capacity)?;
    store_elements(image, h, file, found.elements);
    set_recorded(image, found.elements);
    Ok(Outcome {
        answer: told(GOOD, found.elements, found.used as u32),
        state: state.changed(),
    })
}
