// 02, A1: refusal "3 also when the product exceeds C or P exceeds the product".
ghost use Rattle.std.specs.Prelude.{◌≡◌};
ghost use Rattle.floppy_parts.specs.Rules.{keeps_floppy_rules};

use crate::tape::Floppy;
use image::header::Header;
use packet_state::rules::keeps_record_rules;

#[tactic(auto, unfolding(crate::specs::Rules::keeps_floppy_rules))]
pub fn keeps_floppy_rules(h: Header, floppy: Floppy) -> bool
    ensures { result ≡ keeps_floppy_rules h floppy }
{
    let product = floppy.tape.product();
    keeps_record_rules(h.recorded, floppy.shared)
        & (product <= h.capacity as u64)
        & (floppy.shared.position as u64 <= product)
}
