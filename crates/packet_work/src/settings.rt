// The speed that 15h sets, 1Bh and 1Eh.
ghost use Rattle.std.specs.Prelude.{◌≡◌, ◌≤◌, length};
ghost use Rattle.packet_work.specs.Settings.{good_list, speed_work, load_work, lock_work};

use numbers::counts::count2;
use packet_parts::answers::end;
use packet_parts::replies::{DEVICE_PAGE, DEVICE_PAGE_LENGTH, FULL_LIST, SHORT_LIST};
use packet_state::rules::is_speed;
use packet_state::senses::wrong_list;
use packet_state::state::{Outcome, State};

// Where the page's speed stands in a list: bytes 14-15 after the header.
const LIST_SPEED: usize = 26;

#[tactic(auto, unfolding(crate::specs::Settings::good_list))]
fn is_good_list(list: &[u8]) -> bool
    requires { 32 ≤ length list.now }
    ensures { result ≡ good_list list.now }
{
    let known = is_speed(count2(list, LIST_SPEED));
    list[SHORT_LIST..].starts_with(&[DEVICE_PAGE, DEVICE_PAGE_LENGTH]) & known
}

// A list of 32 bytes.
#[tactic(auto, unfolding(crate::specs::Settings::speed_work))]
pub fn select_speed(state: State, list: &[u8]) -> Outcome<State>
    requires { 32 ≤ length list.now }
    ensures { result ≡ speed_work state list.now }
{
    if is_good_list(list) {
        let speed = count2(list, LIST_SPEED);
        return end(state.with_speed(speed), Ok(()), 0, FULL_LIST as u32);
    }
    end(state, Err(wrong_list()), 0, 0)
}

#[tactic(auto, unfolding(crate::specs::Settings::load_work))]
pub fn load_unload(state: State, load: bool) -> Outcome<State>
    ensures { result ≡ load_work state load }
{
    end(state.at_place(0).with_loaded(load), Ok(()), 0, 0)
}

// 02, A8: "PREVENT/ALLOW MEDIUM REMOVAL (1Eh, byte 4 bit 0)".
#[tactic(auto, unfolding(crate::specs::Settings::lock_work))]
pub fn prevent_allow(state: State, prevent: bool) -> Outcome<State>
    ensures { result ≡ lock_work state prevent }
{
    end(state.with_locked(prevent), Ok(()), 0, 0)
}
