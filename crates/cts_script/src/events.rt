// The lines of limits events.
ghost use Rattle.std.specs.Prelude.{◌≡◌, ◌++◌, OnOk};
ghost use Rattle.cts_script.specs.Events.{color_text, event_line, event_lines};

use crate::LimitsEvent;
use crate::texts::{put_text, put_word};
use cts_base::Memory;
use cts_def::{Color, Site, item_name, packet_names};

/// The lines of events, one after the other.
pub(crate) fn put_events(
    out: &mut Vec<u8>,
    site: &Site,
    events: &[LimitsEvent],
) -> Result<(), Memory>
    ensures { OnOk result (out.new.items ≡ out.old.items ++ event_lines site.now events.now) }
{
    for event in events {
        put_event(out, site, event)?;
    }
    Ok(())
}

fn put_event(out: &mut Vec<u8>, site: &Site, event: &LimitsEvent) -> Result<(), Memory>
    ensures { OnOk result (out.new.items ≡ out.old.items ++ event_line site.now event.now) }
{
    let (target, name) = packet_names(site, event.packet);
    put_text(out, b"EVENT")?;
    put_word(out, target)?;
    put_word(out, name)?;
    put_word(out, item_name(site, event.packet, event.item))?;
    put_word(out, color(event.before))?;
    put_word(out, color(event.after))?;
    put_text(out, b"\n")
}

fn color(color: Color) -> &'static [u8]
    ensures { result.now ≡ color_text color }
{
    match color {
        Color::RedLow => b"RED_LOW",
        Color::YellowLow => b"YELLOW_LOW",
        Color::Green => b"GREEN",
        Color::GreenLow => b"GREEN_LOW",
        Color::Blue => b"BLUE",
        Color::GreenHigh => b"GREEN_HIGH",
        Color::YellowHigh => b"YELLOW_HIGH",
        Color::RedHigh => b"RED_HIGH",
        Color::Stale => b"STALE",
        Color::StateRed => b"RED",
        Color::StateYellow => b"YELLOW",
        Color::StateGreen => b"GREEN",
    }
}
