// Names of packets.
ghost use Rattle.std.specs.Prelude.{◌≡◌};
ghost use Rattle.std.specs.List.{AllByRecursion};
ghost use Rattle.cts_def.specs.Packets.{PacketData};
ghost use Rattle.cts_ident_laws.specs.Named.{HaveNames, IsNamed, NamesAreKnown};

use cts_def::{Definitions, Packet};

/// Does nothing: its contract is a law. By its names an interface knows each packet of its targets again, and none where no definition
/// fitted.
pub fn names_are_known()
    ensures { NamesAreKnown }
{}

/// Does nothing: definitions have such names.
pub fn names_are_kept(definitions: &Definitions)
    ensures { HaveNames definitions.now }
{
    kept_names(definitions.telemetry.as_slice());
}

// Does nothing: packets have such names.
fn kept_names(packets: &[Packet])
    ensures { AllByRecursion IsNamed packets.now }
{
    if let Some((packet, later)) = packets.split_first() {
        is_named(packet);
        kept_names(later);
    }
}

fn is_named(packet: &Packet)
    ensures { IsNamed packet.now }
{
    let _target = packet.target.as_slice();
    let _name = packet.name.as_slice();
}
