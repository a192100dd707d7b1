// The early warning, which a tape gives before its end.
ghost use Rattle.std.specs.Prelude.{◌≡◌, ◌≤◌};
ghost use Rattle.stream_parts.specs.Warning.{past_warning};

use image::header::Header;

// Of any header, as its callers have it: no type keeps that W is at most C.
// 01, 0Ah and 34h: "P > C - W"; 02, A3: "U > C - W".
pub fn is_past_warning(h: Header, place: u32) -> bool
    requires { h.warning ≤ h.capacity }
    ensures { result ≡ past_warning h place }
{
    place > h.capacity - h.warning as u32
}
