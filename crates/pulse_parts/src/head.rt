// Where the tape stands and where it goes.
ghost use Rattle.std.specs.Prelude.{◌≡◌, ◌&&◌};
ghost use Rattle.numbers.specs.Choice.{◌≡ᵇ◌};
ghost use Rattle.pulse_codes.specs.Codes.{stops_motion};
ghost use Rattle.pulse_parts.specs.Heads.{motion_of, is_still, is_run, motion_fits, standing_at, held_at, headed_for, stood_at, on_track};
ghost use Rattle.pulse_parts.specs.Heads.{toward, skipped_back, skipped_on};

use pulse_codes::codes;
use std::cmp::Ordering;

#[derive(Clone, Copy, PartialEq, Eq)]
pub enum Motion {
    Still = 0,
    Run = 1,
    Load = 2,
}

impl From<u8> for Motion {
    ghost from_gives = { λ byte motion. motion ≡ motion_of byte };

    #[tactic(auto, unfolding(crate::specs::Heads::motion_of))]
    fn from(byte: u8) -> Motion {
        match byte {
            1 => Motion::Run,
            2 => Motion::Load,
            _ => Motion::Still,
        }
    }
}

#[derive(Clone, Copy, PartialEq, Eq)]
pub struct Head {
    pub place: u16,
    pub target: u16,
    pub track: u8,
    pub motion: Motion,
}

impl Head {
    pub fn standing_at(place: u16) -> Self
        ensures { result ≡ standing_at place }
    {
        Head {
            place,
            target: place,
            track: 0,
            motion: Motion::Still,
        }
    }

    pub fn stands(self) -> bool
        ensures { result ≡ is_still self.motion }
    {
        self.motion == Motion::Still
    }

    pub fn runs(self) -> bool
        ensures { result ≡ is_run self.motion }
    {
        self.motion == Motion::Run
    }

    pub fn is_on_target(self) -> bool
        ensures { result ≡ (self.place ≡ᵇ self.target) }
    {
        self.place == self.target
    }

    pub fn fits(self) -> bool
        ensures { result ≡ motion_fits self.motion self.place self.target }
    {
        let there = self.is_on_target();
        match self.motion {
            Motion::Still => there,
            Motion::Run => !there,
            Motion::Load => !there & (self.target == 0),
        }
    }

    // A run gives way to the code: it stops, and the code goes on.
    pub fn gives_way(self, code: u8) -> bool
        ensures { result ≡ (is_run self.motion && stops_motion code) }
    {
        self.runs() & codes::stops_motion(code as u16)
    }

    // A stop sets the target to the place.
    pub fn held(self) -> Self
        ensures { result ≡ held_at self }
    {
        self.headed_for(self.place, Motion::Still)
    }

    pub fn headed_for(self, target: u16, motion: Motion) -> Self
        ensures { result ≡ headed_for self target motion }
    {
        Head {
            target,
            motion,
            ..self
        }
    }

    pub fn on_track(self, track: u8) -> Self
        ensures { result ≡ on_track self track }
    {
        Head { track, ..self }
    }

    fn next_place(self) -> u16
        ensures { result ≡ toward self.place self.target }
    {
        match self.place.cmp(&self.target) {
            Ordering::Less => self.place + 1,
            Ordering::Equal => self.place,
            Ordering::Greater => self.place - 1,
        }
    }

    pub fn moved(self) -> Self
        ensures { result ≡ stood_at self (toward self.place self.target) }
    {
        Head {
            place: self.next_place(),
            ..self
        }
    }

    pub fn skip_back(self, count: u16) -> u16
        ensures { result ≡ skipped_back self.place count }
    {
        self.place.saturating_sub(count)
    }

    pub fn skip_on(self, segments: u16, count: u16) -> u16
        ensures { result ≡ skipped_on self.place segments count }
    {
        self.place.saturating_add(count).min(segments)
    }
}
