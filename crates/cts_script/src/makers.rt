// The text of an entry's maker.
ghost use Rattle.std.specs.Prelude.{◌≡◌, ◌++◌, ◌∷◌, ◌<◌, OnOk};
ghost use Rattle.cts_script.specs.Lines.{maker_text, slot_text};

use crate::texts::{put_number, put_text, put_word};
use cts_base::Memory;
use cts_def::{FIRST_DESK, FIRST_SLOT, SCRIBE, Site, interface_name, router_name};

/// A space and the maker.
pub(crate) fn put_maker_word(out: &mut Vec<u8>, site: &Site, by: u32) -> Result<(), Memory>
    ensures { OnOk result (out.new.items ≡ out.old.items ++ 32 ∷ maker_text site.now by) }
{
    if by < FIRST_SLOT {
        put_word(out, interface_name(site, by))
    } else if by < FIRST_DESK {
        put_slot_word(out, site, by - FIRST_SLOT)
    } else if by < SCRIBE {
        put_word(out, b"DESK/")?;
        put_number(out, u64::from(by - FIRST_DESK))
    } else if by == SCRIBE {
        put_word(out, b"SCRIBE")
    } else {
        put_word(out, b"SERVER")
    }
}

fn put_slot_word(out: &mut Vec<u8>, site: &Site, slot: u32) -> Result<(), Memory>
    ensures { OnOk result (out.new.items ≡ out.old.items ++ 32 ∷ slot_text site.now slot) }
{
    put_word(out, router_name(site, slot / 2))?;
    put_text(out, b"/")?;
    put_number(out, u64::from(slot % 2))
}
