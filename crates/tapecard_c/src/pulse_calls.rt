// The calls of the pulse drive.
ghost use Rattle.tapecard.specs.PulseCalls.{list_card, pulse_card};
ghost use Rattle.tapecard.specs.PulseCalls.{PulsePowerOnPromise, PulseTrainPromise, PulseTrainsPromise, PulseTickPromise};
ghost use Rattle.tapecard.specs.PulseCalls.{PulseInsertPromise, PulseRemovePromise, PulseWaitPromise};

#[unsafe(no_mangle)]
pub extern "C" fn tapecard_pulse_power_on(state: &mut [u8; 32], vendor: u16, rom: u8)
    ensures { PulsePowerOnPromise vendor rom state.new }
{
    tapecard::pulse_calls::tapecard_pulse_power_on(state, vendor, rom);
}

#[unsafe(no_mangle)]
pub extern "C" fn tapecard_pulse_train(state: &mut [u8; 32], pulses: u16, answer: &mut [u8; 8])
    ensures { PulseTrainPromise state.old pulses (pulse_card state.new answer.new) }
{
    tapecard::pulse_calls::tapecard_pulse_train(state, pulses, answer);
}

#[unsafe(no_mangle)]
pub extern "C" fn tapecard_pulse_trains(
    state: &mut [u8; 32],
    counts: &[u16],
    levels: &mut [u8],
    answer: &mut [u8; 8],
)
    ensures { PulseTrainsPromise state.old counts.now levels.old
        (list_card (pulse_card state.new answer.new) levels.new) }
{
    tapecard::pulse_calls::tapecard_pulse_trains(state, counts, levels, answer);
}

#[unsafe(no_mangle)]
pub extern "C" fn tapecard_pulse_tick(state: &mut [u8; 32], answer: &mut [u8; 8])
    ensures { PulseTickPromise state.old (pulse_card state.new answer.new) }
{
    tapecard::pulse_calls::tapecard_pulse_tick(state, answer);
}

#[unsafe(no_mangle)]
pub extern "C" fn tapecard_pulse_insert(
    state: &mut [u8; 32],
    cartridge: &[u8; 8],
    answer: &mut [u8; 8],
)
    ensures { PulseInsertPromise state.old cartridge.now (pulse_card state.new answer.new) }
{
    tapecard::pulse_calls::tapecard_pulse_insert(state, cartridge, answer);
}

#[unsafe(no_mangle)]
pub extern "C" fn tapecard_pulse_remove(state: &mut [u8; 32], answer: &mut [u8; 8])
    ensures { PulseRemovePromise state.old (pulse_card state.new answer.new) }
{
    tapecard::pulse_calls::tapecard_pulse_remove(state, answer);
}

#[unsafe(no_mangle)]
pub extern "C" fn tapecard_pulse_wait(state: &mut [u8; 32], limit: u32, answer: &mut [u8; 8])
    ensures { PulseWaitPromise state.old limit (pulse_card state.new answer.new) }
{
    tapecard::pulse_calls::tapecard_pulse_wait(state, limit, answer);
}
