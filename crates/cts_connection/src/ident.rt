// Which definition an output is.
ghost use Rattle.std.specs.Prelude.{◌≡◌, ℕ, List, Option, None, Some, true, option_map};
ghost use Rattle.cts_framing.specs.Framing.{Output};
ghost use Rattle.cts_connection.specs.LinePlaces.{is_line};
ghost use Rattle.cts_connection.specs.Routings.{ident_of, identified_by};

use cts_def::{FIRST_SLOT, Ident, Site};
use cts_ident::{identify, identify_command, named};

/// Which definition an output of a line's chain is: by the names that it brings along, and else by its id fields. A packet by an
/// interface, a command by a slot.
pub(crate) fn ident_by(site: &Site, by: u32, bytes: &[u8], names: Option<(&[u8], &[u8])>) -> Ident
    requires { is_line site.now by ≡ true }
    ensures { (o : Output) → o.bytes ≡ bytes.now
        → option_map {U = List ℕ × List ℕ} (λ n. (n.0.now, n.1.now)) names.entry ≡ option_map {U = List ℕ × List ℕ} (λ h. (h.target, h.packet)) o.heading
        → result ≡ ident_of site.now by o }
{
    // A site has at most sixteen interfaces, so they are workers by their numbers.
    let _interfaces = site.interfaces.len();
    match names {
        Some((target, packet)) => named(site, by, target, packet),
        None => identified(site, by, bytes),
    }
}

fn identified(site: &Site, by: u32, bytes: &[u8]) -> Ident
    requires { is_line site.now by ≡ true }
    ensures { result ≡ identified_by site.now by bytes.now }
{
    let _interfaces = site.interfaces.len();
    if by < FIRST_SLOT {
        identify(site, by, bytes)
    } else {
        identify_command(site, (by - FIRST_SLOT) / 2, bytes)
    }
}
