// One call sent, printed with what it is answered; the line is left open.
use lines::show::Hex;
use numbers::counts::count4;
use pulse_codes::codes::REPORT_NEXT_BIT;
use std::io;
use tapecard::pulse_calls::{
    tapecard_pulse_insert, tapecard_pulse_power_on, tapecard_pulse_remove, tapecard_pulse_tick,
    tapecard_pulse_train, tapecard_pulse_wait,
};

// The drive as its record's bytes.
#[derive(Clone, Copy)]
pub struct Drive {
    pub state: [u8; 32],
}

impl Drive {
    pub fn power_on(vendor: u16, rom: u8) -> Drive {
        let mut state = [0u8; 32];
        tapecard_pulse_power_on(&mut state, vendor, rom);
        Drive { state }
    }

    // A power-on, which has no answer.
    pub fn restart(&mut self, rt: &impl Print, vendor: u16, rom: u8) -> io::Result<()> {
        *self = Drive::power_on(vendor, rom);
        print!(rt; " power-on vendor {vendor} ROM {rom}")
    }

    // What the call answers: number and level are printed, and of a refused call whether it left the record as it was.
    // plates compares its card in the same way, but prints other things before and after: no more than the test is alike.
    fn answered<F: FnOnce(&mut [u8; 32], &mut [u8; 8])>(
        &mut self,
        rt: &impl Print,
        call: F,
    ) -> io::Result<[u8; 8]>
        requires { F.IsAlwaysCallable call }
    {
        let before = self.state;
        let mut answer = [0u8; 8];
        call(&mut self.state, &mut answer);
        let (number, level) = (answer[0], answer[1]);
        print!(rt; ": number {number} level {level}")?;
        if number == 0 {
            return Ok(answer);
        }
        if before == self.state {
            rt.print(" record unchanged")?;
        } else {
            rt.print(" CHANGED")?;
        }
        Ok(answer)
    }

    // A train, and after it so many 2s, of which the levels alone are printed.
    pub fn train(&mut self, rt: &impl Print, pulses: u16, twos: u8) -> io::Result<()> {
        print!(rt; " train {pulses}")?;
        self.answered(
            rt,
            |state, answer| tapecard_pulse_train(state, pulses, answer),
        )?;
        if twos > 0 {
            rt.print(", then")?;
        }
        for _ in 0..twos {
            self.next_bit(rt)?;
        }
        Ok(())
    }

    fn next_bit(&mut self, rt: &impl Print) -> io::Result<()> {
        let mut answer = [0u8; 8];
        tapecard_pulse_train(&mut self.state, REPORT_NEXT_BIT, &mut answer);
        let level = answer[1];
        print!(rt; " {level}")
    }

    pub fn tick(&mut self, rt: &impl Print) -> io::Result<()> {
        rt.print(" tick")?;
        self.answered(rt, tapecard_pulse_tick)?;
        Ok(())
    }

    pub fn insert(&mut self, rt: &impl Print, cartridge: [u8; 8]) -> io::Result<()> {
        let described = Hex(&cartridge);
        print!(rt; " insertion{described}")?;
        self.answered(
            rt,
            |state, answer| tapecard_pulse_insert(state, &cartridge, answer),
        )?;
        Ok(())
    }

    pub fn remove(&mut self, rt: &impl Print) -> io::Result<()> {
        rt.print(" removal")?;
        self.answered(rt, tapecard_pulse_remove)?;
        Ok(())
    }

    pub fn wait(&mut self, rt: &impl Print, limit: u32) -> io::Result<()> {
        print!(rt; " wait {limit}")?;
        let answer = self.answered(
            rt,
            |state, answer| tapecard_pulse_wait(state, limit, answer),
        )?;
        let ticks = count4(&answer, 4);
        print!(rt; " ticks {ticks}")
    }
}
