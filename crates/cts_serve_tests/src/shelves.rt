// Shelves of boxes for commands, and what commands say of a shelf that lacks one.
use crate::failing::Failing;
use crate::table::command_ends_so;
use cts_fixed::Fixed;
use cts_preid::Preidentified;
use cts_proto::{Boxed, Shelf};
use cts_stream::{Burst, Length, Terminated};
use std::alloc::Global;
use std::test::Fail;

/// Puts a box on a shelf.
pub fn put(shelf: &mut Shelf, protocol: Boxed) -> Result<(), Fail> {
    match shelf.put(protocol) {
        Ok(()) => Ok(()),
        Err(_) => Err(Fail::new("out of memory")),
    }
}

/// Puts a box of LENGTH on a shelf.
fn put_length(alloc: Global, shelf: &mut Shelf) -> Result<(), Fail> {
    put(shelf, Box::new(alloc, Length::blank(alloc))?)
}

/// Puts a box of each kind but LENGTH on a shelf.
fn put_others(alloc: Global, shelf: &mut Shelf) -> Result<(), Fail> {
    put(shelf, Box::new(alloc, Burst::blank(alloc))?)?;
    put(shelf, Box::new(alloc, Fixed::blank(alloc))?)?;
    put(shelf, Box::new(alloc, Terminated::blank(alloc))?)?;
    put(shelf, Box::new(alloc, Preidentified::blank(alloc))?)
}

/// A shelf with a box of each kind but LENGTH.
pub fn without_length(alloc: Global) -> Result<Shelf, Fail> {
    let mut shelf = Shelf::new(alloc);
    put_others(alloc, &mut shelf)?;
    Ok(shelf)
}

/// A shelf with two boxes of each kind but LENGTH, and four of LENGTH.
pub fn stocked(alloc: Global) -> Result<Shelf, Fail> {
    let mut shelf = without_length(alloc)?;
    put_others(alloc, &mut shelf)?;
    for _ in 0..4 {
        put_length(alloc, &mut shelf)?;
    }
    Ok(shelf)
}

// Words, definitions and the site have their refusals before the shelf is looked at, and the script after it: where the shelf is
// short it is not touched. A check takes no box. All chains count together, and the first kind in their order is told.
const SHORT: &str = "\
a replay that needs a box which is not there|replay d s c||INTERFACE I tcpip_client_interface.rb h 1 1 nil nil LENGTH 0 16 0 1|OPEN I|ShelfEmpty shelf empty: LENGTH needed 1 stocked 0;
a check takes none|check d s||INTERFACE I tcpip_client_interface.rb h 1 1 nil nil LENGTH 0 16 0 1||Ok telemetry 0 commands 0 items 0 interfaces 1 routers 0;
words come first|replay d s|||x|Usage usage: check DEFS SITE | replay DEFS SITE SCRIPT | rehearse N | dump LOG | serve DEFS SITE | play DEFS SITE LOG | extract DEFS LOG TARGET PACKET KIND ITEMS | hub DEFS SITE SCRIPT SITE2 WHO NAME CUT;
definitions come first|replay d s c|x|INTERFACE I tcpip_client_interface.rb h 1 1 nil nil LENGTH 0 16 0 1|-|ConfigRefused refused: d line 1: UnknownKeyword;
the site comes first|replay d s c||INTERFACE I tcpip_client_interface.rb h 1 1 nil nil LENGTH 0 16 0 1;x|-|ConfigRefused refused: s line 2: UnknownKeyword;
both slots of a router count, and the first kind is told|replay d s c||INTERFACE I tcpip_client_interface.rb h 1 1 nil nil LENGTH 0 16 0 1;ROUTER R tcpip_server_interface.rb 2 2 nil nil BURST|-|ShelfEmpty shelf empty: BURST needed 2 stocked 1;
the script comes after it, where it is not there|replay d s c||INTERFACE I tcpip_client_interface.rb h 1 1 nil nil LENGTH 0 16 0 1|-|ShelfEmpty shelf empty: LENGTH needed 1 stocked 0;
the script comes after it, where it is refused|replay d s c||INTERFACE I tcpip_client_interface.rb h 1 1 nil nil LENGTH 0 16 0 1|x|ShelfEmpty shelf empty: LENGTH needed 1 stocked 0;
all chains count together|replay d s c||INTERFACE I tcpip_client_interface.rb h 1 1 nil nil LENGTH 0 16 0 1;INTERFACE J tcpip_client_interface.rb h 2 2 nil nil LENGTH 0 16 0 1|OPEN I|ShelfEmpty shelf empty: LENGTH needed 2 stocked 0;
a site that needs no box|replay d s c|||OPEN I|ScriptRefused refused: c line 1: UnknownMaker;";

#[test]
fn a_shelf_that_lacks_a_box_ends_the_replay(rt: HostRuntime) -> Result<(), Fail> {
    let mut failing = Failing::new(rt.alloc());
    for row in SHORT.split('\n') {
        let mut shelf = without_length(rt.alloc())?;
        command_ends_so(rt.alloc(), &mut shelf, row, &mut failing)?;
    }
    failing.told()
}

// The box that one replay took is gone: the next one finds none.
const AGAIN: &str = "\
the first replay has the box|replay d s c||INTERFACE I tcpip_client_interface.rb h 8080 8080 10.0 nil LENGTH 0 16 0 1|OPEN I|Ok 0 0.000000 I OPENED;END 1;
the second one finds it gone|replay d s c||INTERFACE I tcpip_client_interface.rb h 8080 8080 10.0 nil LENGTH 0 16 0 1|OPEN I|ShelfEmpty shelf empty: LENGTH needed 1 stocked 0;";

#[test]
fn a_replay_takes_its_boxes_from_the_shelf(rt: HostRuntime) -> Result<(), Fail> {
    let mut shelf = without_length(rt.alloc())?;
    put_length(rt.alloc(), &mut shelf)?;
    let mut failing = Failing::new(rt.alloc());
    for row in AGAIN.split('\n') {
        command_ends_so(rt.alloc(), &mut shelf, row, &mut failing)?;
    }
    failing.told()
}
