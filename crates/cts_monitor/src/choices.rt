// The current limits set.
ghost use Rattle.std.specs.Prelude.{◌≡◌, option_map};
ghost use Rattle.cts_def.specs.Packets.{default_set};
ghost use Rattle.cts_monitor.specs.Settings.{choice_told};

use cts_base::Name;
use cts_def::Site;
use cts_entry::{Entry, What};

/// The name of the set that every item with limits has.
pub(crate) const DEFAULT: &[u8] = b"DEFAULT";

/// The name DEFAULT, which stands first among the names of every site's sets.
pub(crate) fn default_name(site: &Site) -> &Name
    ensures { result.now ≡ default_set }
{
    &site.definitions.set_names.as_slice()[0]
}

/// The set that the entry makes the current one, if it does.
pub(crate) fn set_chosen(entry: &Entry) -> Option<&Name>
    ensures { option_map (λ n. n.now) result ≡ choice_told entry.now }
{
    match &entry.what {
        What::LimitsSetIs { set } => Some(set),
        _ => None,
    }
}
