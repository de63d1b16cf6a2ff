// What an output says in its entry.
ghost use Rattle.std.specs.Prelude.{◌≡◌, true};
ghost use Rattle.cts_connection.specs.LinePlaces.{is_line};
ghost use Rattle.cts_connection.specs.Takings.{SaysOf};
ghost use Rattle.cts_trace.specs.Routing.{sent_on};
ghost use Rattle.cts_entry.specs.Workers.{interface_of};

use cts_base::Bytes;
use cts_def::{FIRST_SLOT, Ident};
use cts_entry::{NotSent, What};
use cts_table::Hall;

/// What an output of a line's chain says after the entries of a hall. By an interface it is a packet, stored or not. By a slot it is a
/// command where the interface of its target is connected, and else it is not sent on.
pub fn said(hall: &Hall, by: u32, ident: Ident, stored: bool, bytes: Bytes) -> What
    requires { is_line hall.now.basis.site by ≡ true }
    ensures { SaysOf hall.now.basis.site hall.now.entries by ident stored bytes result }
{
    // A site has at most sixteen interfaces, so they stand below the first slot.
    let _interfaces = hall.site().interfaces.len();
    if by < FIRST_SLOT {
        return What::Packet {
            ident,
            stored,
            bytes,
        };
    }
    match ident {
        Ident::Known(command) => sent_on(hall, command, bytes),
        Ident::Unknown => What::Unrouted {
            why: NotSent::Unknown,
            bytes,
        },
    }
}

// A command goes to its interface where that one is connected.
fn sent_on(hall: &Hall, command: u32, bytes: Bytes) -> What
    ensures { result ≡ sent_on hall.now.entries (interface_of hall.now.basis.site command) command bytes }
{
    match hall.route(command) {
        Ok(interface) => What::Command {
            interface,
            command,
            bytes,
        },
        Err(_) => What::Unrouted {
            why: NotSent::NotConnected,
            bytes,
        },
    }
}
