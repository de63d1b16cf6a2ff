//! Numbers with a fraction or an exponent, anywhere in a value.

ghost use Rattle.std.specs.Prelude.{◌≡◌};
ghost use Rattle.serde_json.specs.View.{view, items_view, members_view};
ghost use Rattle.serde_json.specs.Written.{has_float, items_have_float, members_have_float};

use serde_json::{Map, Value};

// Whether a value has a number with a fraction or an exponent. The three functions are loops, since a cycle of calls
// cannot go through a closure.
#[cycle(walk)]
fn has_fraction(value: &Value) -> bool
    ensures { result ≡ has_float (view value.now) }
{
    match value {
        Value::Null | Value::Bool(_) | Value::String(_) => false,
        Value::Number(n) => n.is_f64(),
        Value::Array(items) => any_fraction(items),
        Value::Object(members) => any_member_fraction(members),
    }
}

// Whether one of an object's values has such a number.
#[cycle(walk)]
fn any_member_fraction(members: &Map<String, Value>) -> bool
    ensures { result ≡ members_have_float (members_view members.now.entries) }
{
    let mut found = false;
    for (_, member) in members.iter() {
        if has_fraction(member) {
            found = true;
        }
    }
    found
}

/// Whether one of the values has such a number.
#[cycle(walk)]
pub(crate) fn any_fraction(items: &Vec<Value>) -> bool
    ensures { result ≡ items_have_float (items_view items.now.items) }
{
    let mut found = false;
    for item in items {
        if has_fraction(item) {
            found = true;
        }
    }
    found
}
