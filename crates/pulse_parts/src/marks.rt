// What the drive remembers of the cartridge: that one is in, referenced, new (fresh), and that its status was asked.
ghost use Rattle.std.specs.Prelude.{◌≡◌, true, false, not, ◌&&◌, option_map};
ghost use Rattle.pulse_codes.specs.Errors.{error_byte};
ghost use Rattle.pulse_parts.specs.Marking.{no_marks, new_marks, mark_asked, mark_fresh, mark_referenced, command_error};

use pulse_codes::{ErrorNumber, codes};

#[derive(Clone, Copy, PartialEq, Eq)]
pub struct Marks {
    pub inside: bool,
    pub referenced: bool,
    pub fresh: bool,
    pub asked: bool,
}

impl Marks {
    pub fn none() -> Self
        ensures { result ≡ no_marks }
    {
        Marks {
            inside: false,
            referenced: false,
            fresh: false,
            asked: false,
        }
    }

    // A cartridge was put in.
    pub fn inserted() -> Self
        ensures { result ≡ new_marks }
    {
        Marks {
            inside: true,
            fresh: true,
            ..Marks::none()
        }
    }

    pub fn after_asking(self) -> Self
        ensures { result ≡ mark_asked self true }
    {
        Marks {
            asked: true,
            ..self
        }
    }

    // The new mark stays until a status report was asked for.
    pub fn after_reading(self) -> Self
        ensures { result ≡ mark_fresh self (self.fresh && not self.asked) }
    {
        Marks {
            fresh: self.fresh & !self.asked,
            ..self
        }
    }

    pub fn forgotten(self) -> Self
        ensures { result ≡ mark_asked (mark_referenced self false) false }
    {
        Marks {
            referenced: false,
            asked: false,
            ..self
        }
    }

    // What a command is refused for.
    #[tactic(auto, unfolding(crate::specs::Marking::command_error))]
    pub fn command_error(self, code: u8) -> Option<ErrorNumber>
        ensures { option_map error_byte result ≡ command_error self code }
    {
        let n = code as u16;
        if self.fresh {
            return Some(ErrorNumber::NewCartridgePending);
        }
        if codes::needs_cartridge(n) & !self.inside {
            return Some(ErrorNumber::CartridgeMissing);
        }
        if codes::needs_reference(n) & !self.referenced {
            return Some(ErrorNumber::NotReferenced);
        }
        None
    }
}
