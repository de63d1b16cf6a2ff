// Targets that are missing.
ghost use Rattle.std.specs.Prelude.{◌≡◌, option_map};
ghost use Rattle.cts_hub.specs.Ties.{first_missing};

use cts_base::Name;
use cts_def::Interface;

/// The first of these targets that the interface has not.
pub(crate) fn first_missing<'a>(interface: &Interface, names: &'a [Name]) -> Option<&'a Name>
    ensures { option_map (λ n. n.now) result ≡ first_missing interface.now.targets names.now }
{
    let (first, later) = names.split_first()?;
    if interface.has_target(first) {
        return first_missing(interface, later);
    }
    Some(first)
}
