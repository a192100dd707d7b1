// 01, refusal 3: "packet record has P > U, a speed outside the five, or a sense key above 15".
ghost use Rattle.std.specs.Prelude.{◌≡◌};
ghost use Rattle.numbers.specs.Member.{is_in};
ghost use Rattle.packet_state.specs.States.{speeds, keeps_record_rules};

use crate::state::State;
use numbers::tables::is_in;

const SPEEDS: [u16; 5] = [0, 62, 125, 250, 500];

const HIGHEST_KEY: u8 = 15;

pub fn is_speed(speed: u16) -> bool
    ensures { result ≡ is_in speed speeds }
{
    is_in(speed, &SPEEDS)
}

#[tactic(auto, unfolding(crate::specs::States::keeps_record_rules))]
pub fn keeps_record_rules(end: u32, state: State) -> bool
    ensures { result ≡ keeps_record_rules end state }
{
    (state.position <= end) & is_speed(state.speed) & (state.sense.key <= HIGHEST_KEY)
}
