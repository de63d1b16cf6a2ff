// The colour of a value.
ghost use Rattle.std.specs.Prelude.{◌≡◌, ◌≢◌};
ghost use Rattle.cts_limits.specs.Colors.{color_of, green_of};
ghost use Rattle.cts_def.specs.declared.color.Color.TheVariants.{Stale};

use cts_base::Decimal;
use cts_def::{Color, Limits};

/// The colour of a value by its limits, as the documentation of COSMOS 4 names the zones: red at a red limit or past it, else
/// yellow at a yellow limit or past it. Between the yellow limits it is green without green limits, blue between them, and
/// green low or green high at one of them or past it. It is never `Stale`.
pub fn judge(limits: &Limits, v: Decimal) -> Color
    ensures color { result ≡ color_of limits.now v }
    ensures judged { result ≢ Stale }
{
    let at = v.parts;
    if at <= limits.red_low.parts {
        Color::RedLow
    } else if at <= limits.yellow_low.parts {
        Color::YellowLow
    } else if at >= limits.red_high.parts {
        Color::RedHigh
    } else if at >= limits.yellow_high.parts {
        Color::YellowHigh
    } else {
        by_green(limits.green, at)
    }
}

// The colour of a value between the yellow limits.
fn by_green(green: Option<(Decimal, Decimal)>, at: i128) -> Color
    ensures color { result ≡ green_of green at }
    ensures judged { result ≢ Stale }
{
    match green {
        None => Color::Green,
        Some((low, _)) if at <= low.parts => Color::GreenLow,
        Some((_, high)) if at >= high.parts => Color::GreenHigh,
        Some(_) => Color::Blue,
    }
}
