// Entries that are lent one by one, where nobody counts the looks.
ghost use Rattle.std.specs.Prelude.{◌≡◌, ◌<◌, Some, length, slice_get};

use cts_entry::{Entry, Stands, Steps};
use std::marker::Brand;
use std::sync::ledger::{Blank, Ledger};

/// The entry of this number, by one look of a count of its own.
pub(crate) fn lend<H: Stands>(history: &H, n: u64) -> &Entry
    requires { n < length (H.list history.now) }
    ensures { slice_get (H.list history.now) n ≡ Some result.now }
{
    lend_counted::<Brand, H>(history, n, Blank::new(1))
}

fn lend_counted<L: Ledger, H: Stands>(history: &H, n: u64, blank: Blank) -> &Entry
    requires within { n < length (H.list history.now) }
    requires name { blank.name ≡ L.name }
    requires parts { blank.parts ≡ L.parts }
    requires some { 0 < L.parts }
    ensures { slice_get (H.list history.now) n ≡ Some result.now }
{
    let mut steps: Steps<L> = Steps::begin(blank);
    history.lend(n, &mut steps)
}
