// What holds of the definitions that the contracts cite.
ghost use Rattle.std.specs.Prelude.{List};
ghost use Rattle.cts_entry.specs.declared.entry.Entry.{Entry};
ghost use Rattle.cts_monitor.specs.Sets.{HasKnownSets};

use cts_def::Site;

/// The known limits sets are those of the site, DEFAULT first, and those that entries name, each where it is named first: a name
/// is among them exactly where its set is known, none stands twice, and every list of which this holds is as long.
pub fn known_sets_stand_once(site: &Site)
    ensures { (h : List Entry) → HasKnownSets site.now h }
{
    let _sets = &site.definitions.set_names;
}
