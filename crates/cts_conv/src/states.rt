// The states of values.
ghost use Rattle.std.specs.Prelude.{◌≡◌, option_map};
ghost use Rattle.std.specs.List.{find};
ghost use Rattle.cts_conv.specs.Conversions.{is_state_of, state_of};

use crate::Value;
use cts_def::{Item, StateDef};

/// How many parts a whole has.
pub(crate) const PARTS: i128 = 1_000_000_000_000;

/// The state of a value, if one names it: the first of the item's states whose value is the number, as whole number or as decimal.
/// The value is one before states, as [`crate::before_states`] gives it. It takes no memory.
pub fn state_of<'a>(item: &'a Item, value: &Value) -> Option<&'a StateDef>
    ensures { option_map (λ s. s.now) result ≡ state_of item.now value.now }
{
    item.states
        .as_slice()
        .iter()
        .find(|state| is_state_of(value, state))
}

fn is_state_of(value: &Value, state: &StateDef) -> bool
    ensures { result ≡ is_state_of value.now state.now }
{
    match value {
        Value::Whole(x) => state.value == *x,
        Value::Parts(decimal) => state.value.checked_mul(PARTS) == Some(decimal.parts),
        Value::Text(_) | Value::Raw(_) => false,
    }
}
