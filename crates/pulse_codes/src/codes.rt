// The pulse codes (000, table 2a) and what 01 says of each. They are numbers: a train may have any count of pulses.
ghost use Rattle.std.specs.Prelude.{◌≡◌, not, ◌<◌};
ghost use Rattle.pulse_codes.specs.Codes.{supported, ignored, is_report, is_skip, stops_motion, needs_cartridge, needs_reference};

pub const SOFT_RESET: u16 = 1;

pub const REPORT_NEXT_BIT: u16 = 2;

pub const PAUSE: u16 = 3;

pub const REPORT_STATUS: u16 = 6;

pub const REPORT_ERROR: u16 = 7;

pub const REPORT_CONFIGURATION: u16 = 8;

pub const REPORT_ROM: u16 = 9;

pub const LOGICAL_FORWARD: u16 = 10;

pub const PHYSICAL_REVERSE: u16 = 11;

pub const PHYSICAL_FORWARD: u16 = 12;

pub const SEEK_TRACK: u16 = 13;

pub const SEEK_LOAD_POINT: u16 = 14;

pub const STOP_TAPE: u16 = 18;

pub const SKIP_REVERSE: u16 = 25;

pub const SKIP_FORWARD: u16 = 26;

pub const SELECT_RATE: u16 = 27;

pub const REPORT_VENDOR: u16 = 32;

pub const REPORT_TAPE: u16 = 33;

pub const SKIP_EXTENDED_REVERSE: u16 = 34;

pub const SKIP_EXTENDED_FORWARD: u16 = 35;

fn is_supported(n: u16) -> bool
    ensures { result ≡ supported n }
{
    matches!(
        n,
        SOFT_RESET..=PAUSE
            | REPORT_STATUS..=SEEK_LOAD_POINT
            | STOP_TAPE
            | SKIP_REVERSE..=SELECT_RATE
            | REPORT_VENDOR..=SKIP_EXTENDED_FORWARD
    )
}

pub fn is_unsupported(n: u16) -> bool
    ensures { result ≡ not (supported n) }
{
    !is_supported(n)
}

pub fn is_ignored(n: u16) -> bool
    ensures { result ≡ ignored n }
{
    !is_supported(n) & (REPORT_VENDOR < n)
}

pub fn is_report(n: u16) -> bool
    ensures { result ≡ is_report n }
{
    matches!(n, REPORT_STATUS..=REPORT_ROM | REPORT_VENDOR | REPORT_TAPE)
}

pub(crate) fn is_skip(n: u16) -> bool
    ensures { result ≡ is_skip n }
{
    matches!(
        n,
        SKIP_REVERSE | SKIP_FORWARD | SKIP_EXTENDED_REVERSE | SKIP_EXTENDED_FORWARD
    )
}

pub fn stops_motion(n: u16) -> bool
    ensures { result ≡ stops_motion n }
{
    matches!(n, PAUSE | STOP_TAPE) | is_skip(n)
}

pub fn needs_cartridge(n: u16) -> bool
    ensures { result ≡ needs_cartridge n }
{
    matches!(n, LOGICAL_FORWARD..=SEEK_LOAD_POINT) | is_skip(n)
}

pub fn needs_reference(n: u16) -> bool
    ensures { result ≡ needs_reference n }
{
    matches!(n, LOGICAL_FORWARD | SEEK_TRACK) | is_skip(n)
}

// A code that the drive hears fits a byte, as the record keeps it.
pub fn as_byte(n: u16) -> u8
    requires { n < 256 }
    ensures { result ≡ n }
{
    n as u8
}
