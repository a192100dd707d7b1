// Flag bits in a byte, each by its weight: 1 for bit 0, 2 for bit 1, 4 for bit 2.
// By division, and by a choice where a flag is stored: for 02, A9 nothing here shifts or masks (reading A9.2).
ghost use Rattle.std.specs.Prelude.{◌≡◌, ◌<◌, ◌≤◌};
ghost use Rattle.numbers.specs.Flags.{is_set, weight_of};

pub fn is_set(byte: u8, weight: u8) -> bool
    requires { 0 < weight }
    ensures { result ≡ is_set byte weight }
{
    byte / weight % 2 == 1
}

pub fn weight_of(on: bool, weight: u8) -> u8
    ensures { (result ≡ weight_of on weight) × (result ≤ weight) }
{
    if on { weight } else { 0 }
}
