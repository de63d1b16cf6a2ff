// Which makers are lines, and where the connection of each stands among those of its site.
ghost use Rattle.std.specs.Prelude.{◌≡◌, ◌≤◌, true, false, length, MatchOption};
ghost use Rattle.cts_def.specs.Most.{most_lines};
ghost use Rattle.cts_def.specs.Sites.{IsSoundSite};
ghost use Rattle.cts_entry.specs.Workers.{is_interface, is_slot};
ghost use Rattle.cts_connection.specs.LinePlaces.{is_line, line_count, line_place};

use cts_def::{FIRST_SLOT, Site};

/// The place of a line's connection among those of its site: the interfaces stand first, and then the slots of the routers. None where
/// the site has no such line.
pub fn line_place(site: &Site, by: u32) -> Option<usize>
    ensures { MatchOption result (is_line site.now by ≡ false) (λ place. (is_line site.now by ≡ true) × (place ≡ line_place site.now by)) }
{
    if is_interface(site, by) {
        return Some(by as usize);
    }
    if is_slot(site, by) {
        return Some(interfaces_of(site) + (by - FIRST_SLOT) as usize);
    }
    None
}

/// How many lines a site has: its interfaces, and two slots for each router.
pub fn line_count(site: &Site) -> usize
    ensures count { result ≡ line_count site.now }
    ensures few { result ≤ most_lines }
    ensures sound { IsSoundSite site.now }
{
    site.interfaces.as_slice().len() + 2 * site.routers.as_slice().len()
}

/// Whether a maker is an interface or a slot of a router.
pub fn is_line(site: &Site, by: u32) -> bool
    ensures { result ≡ is_line site.now by }
{
    is_slot(site, by) || is_interface(site, by)
}

/// Whether a maker is an interface.
pub fn is_interface(site: &Site, by: u32) -> bool
    ensures { result ≡ is_interface site.now by }
{
    (by as usize) < interfaces_of(site)
}

/// Whether a maker is a slot of a router.
pub fn is_slot(site: &Site, by: u32) -> bool
    ensures { result ≡ is_slot site.now by }
{
    if by < FIRST_SLOT {
        return false;
    }
    let router = ((by - FIRST_SLOT) / 2) as usize;
    router < site.routers.as_slice().len()
}

fn interfaces_of(site: &Site) -> usize
    ensures { result ≡ length site.now.interfaces }
{
    site.interfaces.as_slice().len()
}
