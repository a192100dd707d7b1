// The error that is held until it is read, and the code it came with.
ghost use Rattle.std.specs.Prelude.{◌≡◌};
ghost use Rattle.pulse_codes.specs.Errors.{error_byte};
ghost use Rattle.pulse_parts.specs.Faults.{error_held, fault_of, no_fault, power_on_fault};

use pulse_codes::ErrorNumber;

// Bytes and no Option: a record may hold any error until its rules are judged, and a command beside error 0 is sent too.
#[derive(Clone, Copy, PartialEq, Eq)]
pub struct Fault {
    pub error: u8,
    pub command: u8,
}

impl Fault {
    // The record's byte where no error is held.
    const NO_ERROR: u8 = 0;

    // The record's byte for the command of an error that no train gave; 01: "error 26 with command 0".
    pub const NO_COMMAND: u8 = 0;

    pub fn none() -> Self
        ensures { result ≡ no_fault }
    {
        Fault {
            error: Fault::NO_ERROR,
            command: Fault::NO_COMMAND,
        }
    }

    pub fn of(error: ErrorNumber, command: u8) -> Self
        ensures { result ≡ fault_of (error_byte error) command }
    {
        Fault {
            error: u8::from(error),
            command,
        }
    }

    pub fn at_power_on() -> Self
        ensures { result ≡ power_on_fault }
    {
        Fault::of(ErrorNumber::PowerOnReset, Fault::NO_COMMAND)
    }

    pub fn is_held(self) -> bool
        ensures { result ≡ error_held self }
    {
        self.error != Fault::NO_ERROR
    }
}
