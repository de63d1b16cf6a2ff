// What items, packets and commands keep by their types. Each function looks at them, by which the proof learns it, and does nothing else.
ghost use Rattle.std.specs.Prelude.{option_map};
ghost use Rattle.std.specs.List.{AllByRecursion};
ghost use Rattle.cts_cmd.specs.Builds.{AreBytes};
ghost use Rattle.cts_cmd_laws.specs.Existing.{StandAsBytes};
ghost use Rattle.cts_cmd_laws.specs.Sound.{AreCommands, IsItem, IsPacket, IsPreset};

use cts_def::{Definitions, Item, Packet, Preset};

fn are_bytes(bytes: &[u8])
    ensures { AreBytes bytes.now }
{}

fn is_preset(preset: &Preset)
    ensures { IsPreset preset.now }
{
    if let Preset::Raw(bytes) = preset {
        are_bytes(bytes.as_slice());
    }
}

fn keeps_item(item: &Item)
    ensures { IsItem item.now }
{
    is_preset(&item.preset);
}

fn keep_items(items: &[Item])
    ensures { AllByRecursion IsItem items.now }
{
    for item in items {
        keeps_item(item);
    }
}

pub(crate) fn keeps_packet(packet: &Packet)
    ensures { IsPacket packet.now }
{
    keep_items(packet.items.as_slice());
}

fn keep_packets(packets: &[Packet])
    ensures { AllByRecursion IsPacket packets.now }
{
    for packet in packets {
        keeps_packet(packet);
    }
}

pub(crate) fn keep_commands(definitions: &Definitions)
    ensures { AreCommands definitions.now.commands }
{
    keep_packets(definitions.commands.as_slice());
}

pub(crate) fn stand_as_bytes(current: Option<&[u8]>)
    ensures { StandAsBytes (option_map (λ t. t.now) current.entry) }
{
    if let Some(bytes) = current {
        are_bytes(bytes);
    }
}
