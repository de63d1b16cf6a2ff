// The sample that bytes give of an item, and the limits state after it.
ghost use Rattle.std.specs.Prelude.{◌≡◌, ◌≢◌, ◌<◌, ◌-◌, ◌^◌, IsTrue};
ghost use Rattle.std.specs.Option.{ForSome};
ghost use Rattle.std.specs.List.{Contains};
ghost use Rattle.cts_def.specs.Spans.{is_number};
ghost use Rattle.cts_def.specs.declared.color.Color.TheVariants.{Stale};
ghost use Rattle.cts_conv.specs.Conversions.{before_states, state_of};
ghost use Rattle.cts_conv.specs.Raws.{is_raw_of, raw_value};
ghost use Rattle.cts_limits.specs.States.{change_from};
ghost use Rattle.cts_monitor.specs.Samples.{color_in, color_seen, sample_of};
ghost use Rattle.cts_monitor.specs.Settings.{watched};
ghost use Rattle.cts_monitor.specs.Steps.{stepped};

use crate::types::Setting;
use cts_conv::{Value, measured, raw_number, state_seen};
use cts_def::{Color, Item, Limits, Packet};
use cts_limits::{Change, RunState, judge, step};

fn state_color(item: &Item, raw: &Value) -> Option<Color>
    requires { IsTrue (is_raw_of item.now raw.now) }
    ensures { result ≡ color_in (state_of item.now (before_states item.now raw.now)) }
{
    match state_seen(item, raw) {
        Some(state) => state.color,
        None => None,
    }
}

fn number_color(item: &Item, limits: Option<Limits>, raw: &Value) -> Option<Color>
    requires { IsTrue (is_raw_of item.now raw.now) }
    ensures { result ≡ color_seen limits item.now raw.now }
{
    match limits {
        Some(limits) => Some(judge(&limits, measured(item, raw))),
        None => state_color(item, raw),
    }
}

/// The colour that bytes of the packet give an item: by limits, and where there are none that of the value's state. Only
/// numbers have a colour.
fn color_seen(packet: &Packet, item: &Item, limits: Option<Limits>, bytes: &[u8]) -> Option<Color>
    requires held { Contains packet.now.items item.now }
    requires number { ForSome limits (λ _. IsTrue (is_number item.now.kind)) }
    ensures color { result ≡ color_seen limits item.now (raw_value packet.now item.now bytes.now) }
    ensures fresh { ForSome result (λ c. c ≢ Stale) }
{
    if item.kind.is_number() {
        number_color(item, limits, &raw_number(packet, item, bytes))
    } else {
        None
    }
}

/// The limits state of an item after bytes of its packet, and the change of it.
pub(crate) fn take(
    packet: &Packet,
    item: &Item,
    setting: Setting,
    bytes: &[u8],
    state: RunState,
) -> (RunState, Option<Change>)
    requires held { Contains packet.now.items item.now }
    requires number { ForSome setting.limits (λ _. IsTrue (is_number item.now.kind)) }
    requires run { state.run < 2 ^ 32 - 1 }
    ensures state { result.0 ≡ stepped state (sample_of (watched packet.now item.now 0 0) setting bytes.now) }
    ensures change { result.1 ≡ change_from state.color result.0.color }
{
    if !setting.enabled {
        return (state, None);
    }
    match color_seen(packet, item, setting.limits, bytes) {
        Some(color) => step(state, setting.persistence.max(1), color),
        None => (state, None),
    }
}
