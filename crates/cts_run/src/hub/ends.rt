// What the words of a hub name.
ghost use Rattle.std.specs.Prelude.{◌≡◌, ◌<◌, ◌≤◌, true, IfSome, length};
ghost use Rattle.cts_entry.specs.Workers.{is_slot};
ghost use Rattle.cts_run.specs.Hub.{cut_number, ends_of};

use crate::tie::Tie;
use cts_base::read_whole;
use cts_def::Site;
use cts_scriptread::{interface_named, slot_named};

/// A slot of the site above, an interface of the site below, and how many bytes a piece has.
#[derive(Clone, Copy)]
pub struct Ends {
    pub slot: u32,
    pub interface: u32,
    pub cut: u32,
}

/// The slot, the interface and the size of pieces that the words name, if all three are.
#[tactic(auto, using(crate::proofs::EndsLemmas::slot_there, crate::proofs::EndsLemmas::interface_there))]
pub(crate) fn ends_of(above: &Site, below: &Site, tie: &Tie<'_>) -> Option<Ends>
    ensures named { result ≡ ends_of above.now below.now tie.now }
    ensures slot { IfSome result (λ ends. is_slot above.now ends.slot ≡ true) }
    ensures interface { IfSome result (λ ends. ends.interface < length below.now.interfaces) }
    ensures least { IfSome result (λ ends. 1 ≤ ends.cut) }
    ensures most { IfSome result (λ ends. ends.cut ≤ 65536) }
{
    let slot = slot_named(above, tie.who())?;
    let interface = interface_named(below, tie.name())?;
    let cut = cut_number(tie.cut())?;
    Some(Ends {
        slot,
        interface,
        cut,
    })
}

// The size of pieces that a word writes: 1 to 65,536, in decimal digits without a leading zero.
#[tactic(auto, unfolding(crate::specs::Hub::cut_number))]
fn cut_number(digits: &[u8]) -> Option<u32>
    ensures number { result ≡ cut_number digits.now }
    ensures least { IfSome result (λ n. 1 ≤ n) }
    ensures most { IfSome result (λ n. n ≤ 65536) }
{
    if digits.is_empty() || digits[0] < b'1' || b'9' < digits[0] {
        return None;
    }
    match read_whole(digits) {
        Some(number) if 1 <= number && number <= 65_536 => Some(number as u32),
        _ => None,
    }
}
