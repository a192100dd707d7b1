// The calls of the pulse drive.
ghost use Rattle.std.specs.Prelude.{◌≡◌};
ghost use Rattle.tapecard.specs.Leaving.{at_once, waited_card};
ghost use Rattle.tapecard.specs.PulseCalls.{list_card, pulse_card};
ghost use Rattle.tapecard.specs.PulseCalls.{PulsePowerOnPromise, PulseTrainPromise, PulseTrainsPromise, PulseTickPromise};
ghost use Rattle.tapecard.specs.PulseCalls.{PulseInsertPromise, PulseRemovePromise, PulseWaitPromise};

use crate::leaving::leave_waited;
use numbers::refusals::Refusal;
use pulse::{Drive, Waited};
use pulse_record::{decode_drive, described_cartridge, described_place, encode_drive};

// The answer of every call but the wait tells 0 ticks, that of a tick too.
fn at_once(left: Result<Drive, Refusal>) -> Result<Waited, Refusal>
    ensures { result ≡ at_once left }
{
    Ok(Waited {
        ticks: 0,
        drive: left?,
    })
}

#[tactic(auto, using(crate::proofs::CallLaws::power_left))]
pub fn tapecard_pulse_power_on(state: &mut [u8; 32], vendor: u16, rom: u8)
    ensures { PulsePowerOnPromise vendor rom state.new }
{
    *state = encode_drive(Drive::power_on(vendor, rom));
}

#[tactic(auto, using(crate::proofs::CallLaws::train_left))]
pub fn tapecard_pulse_train(state: &mut [u8; 32], pulses: u16, answer: &mut [u8; 8])
    ensures { PulseTrainPromise state.old pulses (pulse_card state.new answer.new) }
{
    let left = decode_drive(state).train(pulses);
    leave_waited(state, answer, at_once(left));
}

// What a list leaves, refused or not: told as a train is, at once, and with the level of the drive that it leaves.
fn leave_list(state: &mut [u8; 32], answer: &mut [u8; 8], left: Result<Drive, Refusal>)
    ensures { pulse_card state.new answer.new ≡ waited_card state.old (at_once left) }
{
    leave_waited(state, answer, at_once(left)); // the level is the drive's
}

pub fn tapecard_pulse_trains(
    state: &mut [u8; 32],
    counts: &[u16],
    levels: &mut [u8],
    answer: &mut [u8; 8],
)
    ensures { PulseTrainsPromise state.old counts.now levels.old
        (list_card (pulse_card state.new answer.new) levels.new) }
{
    let left = decode_drive(state).trains(counts, levels);
    leave_list(state, answer, left);
}

#[tactic(auto, using(crate::proofs::CallLaws::tick_left))]
pub fn tapecard_pulse_tick(state: &mut [u8; 32], answer: &mut [u8; 8])
    ensures { PulseTickPromise state.old (pulse_card state.new answer.new) }
{
    let left = decode_drive(state).tick();
    leave_waited(state, answer, at_once(left));
}

#[tactic(auto, using(crate::proofs::CallLaws::insert_left))]
pub fn tapecard_pulse_insert(state: &mut [u8; 32], cartridge: &[u8; 8], answer: &mut [u8; 8])
    ensures { PulseInsertPromise state.old cartridge.now (pulse_card state.new answer.new) }
{
    let described = described_cartridge(cartridge);
    let place = described_place(cartridge);
    let left = decode_drive(state).insert(described, place);
    leave_waited(state, answer, at_once(left));
}

#[tactic(auto, using(crate::proofs::CallLaws::remove_left))]
pub fn tapecard_pulse_remove(state: &mut [u8; 32], answer: &mut [u8; 8])
    ensures { PulseRemovePromise state.old (pulse_card state.new answer.new) }
{
    let left = decode_drive(state).remove();
    leave_waited(state, answer, at_once(left));
}

#[tactic(auto, using(crate::proofs::CallLaws::wait_left))]
pub fn tapecard_pulse_wait(state: &mut [u8; 32], limit: u32, answer: &mut [u8; 8])
    ensures { PulseWaitPromise state.old limit (pulse_card state.new answer.new) }
{
    let left = decode_drive(state).wait(limit);
    leave_waited(state, answer, left);
}
