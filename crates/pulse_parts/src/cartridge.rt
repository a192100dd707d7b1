// 01: "Cartridge: segments G 1-4095, tracks 1-64, place S 0-G, protected, burst present, format 0-4, type 0-7, wide."
ghost use Rattle.std.specs.Prelude.{◌≡◌};
ghost use Rattle.pulse_parts.specs.Cartridges.{no_cartridge, is_none};

#[derive(Clone, Copy, PartialEq, Eq)]
pub struct Cartridge {
    pub segments: u16,
    pub tracks: u8,
    pub protected: bool,
    pub burst: bool,
    pub wide: bool,
    pub format: u8,
    pub kind: u8,
}

impl Cartridge {
    // 01: "with none, these and the description 0".
    pub fn none() -> Self
        ensures { result ≡ no_cartridge }
    {
        Cartridge {
            segments: 0,
            tracks: 0,
            protected: false,
            burst: false,
            wide: false,
            format: 0,
            kind: 0,
        }
    }

    pub fn is_none(self) -> bool
        ensures { result ≡ is_none self }
    {
        self == Cartridge::none()
    }
}
