// Definitions that are the same.
ghost use Rattle.std.specs.Prelude.{◌≡◌, true, false};
ghost use Rattle.cts_hub.specs.Ties.{SameFront, SamePlace, SameRules, SameTexts, SameValues};

use cts_base::{Bytes, Decimal, Name};
use cts_def::{
    Color, Conversion, Definitions, Item, Limits, LimitsSetup, Packet, Preset, Segment, StateDef,
};

/// Values that can be told from one another.
pub(crate) trait Same {
    /// Whether both are the same.
    fn same(&self, other: &Self) -> bool
        ensures same { result ≡ true → self.now ≡ other.now }
        ensures apart { result ≡ false → self.now ≡ other.now → ⊥ };
}

/// Whether both definitions are the same.
impl Same for Definitions {
    fn same(&self, other: &Self) -> bool {
        same_all(self.telemetry.as_slice(), other.telemetry.as_slice())
            && same_all(self.commands.as_slice(), other.commands.as_slice())
            && same_all(self.set_names.as_slice(), other.set_names.as_slice())
    }
}

// Whether the lists have the same elements in the same order.
fn same_all<T: Same>(one: &[T], other: &[T]) -> bool
    ensures same { result ≡ true → one.now ≡ other.now }
    ensures apart { result ≡ false → one.now ≡ other.now → ⊥ }
{
    match (one.split_first(), other.split_first()) {
        (None, None) => true,
        (Some((a, later)), Some((b, rest))) => a.same(b) && same_all(later, rest),
        _ => false,
    }
}

/// Whether both are there and the same, or none is there.
pub(crate) fn same_option<T: Same>(one: &Option<T>, other: &Option<T>) -> bool
    ensures same { result ≡ true → one.now ≡ other.now }
    ensures apart { result ≡ false → one.now ≡ other.now → ⊥ }
{
    match (one, other) {
        (None, None) => true,
        (Some(a), Some(b)) => a.same(b),
        _ => false,
    }
}

impl<A: Same, B: Same> Same for (A, B) {
    fn same(&self, other: &Self) -> bool {
        self.0.same(&other.0) && self.1.same(&other.1)
    }
}

impl Same for Packet {
    fn same(&self, other: &Self) -> bool {
        self.target.same(&other.target)
            && self.name.same(&other.name)
            && same_all(self.items.as_slice(), other.items.as_slice())
            && self.length == other.length
            && self.variable == other.variable
            && self.hazardous == other.hazardous
    }
}

impl Same for Item {
    #[tactic(auto, using(crate::proofs::Equal::item_is))]
    fn same(&self, other: &Self) -> bool {
        same_front(self, other)
            && same_place(self, other)
            && same_rules(self, other)
            && same_values(self, other)
            && same_texts(self, other)
    }
}

fn same_front(one: &Item, other: &Item) -> bool
    ensures same { result ≡ true → SameFront one.now other.now }
    ensures apart { result ≡ false → one.now ≡ other.now → ⊥ }
{
    one.name.same(&other.name) && one.kind == other.kind
}

fn same_place(one: &Item, other: &Item) -> bool
    ensures same { result ≡ true → SamePlace one.now other.now }
    ensures apart { result ≡ false → one.now ≡ other.now → ⊥ }
{
    one.offset == other.offset && one.size == other.size
}

fn same_rules(one: &Item, other: &Item) -> bool
    ensures same { result ≡ true → SameRules one.now other.now }
    ensures apart { result ≡ false → one.now ≡ other.now → ⊥ }
{
    one.order == other.order
        && same_option(&one.id, &other.id)
        && same_option(&one.range, &other.range)
        && one.required == other.required
        && one.overflow == other.overflow
}

fn same_values(one: &Item, other: &Item) -> bool
    ensures same { result ≡ true → SameValues one.now other.now }
    ensures apart { result ≡ false → one.now ≡ other.now → ⊥ }
{
    one.preset.same(&other.preset)
        && same_all(one.states.as_slice(), other.states.as_slice())
        && one.conversion.same(&other.conversion)
}

fn same_texts(one: &Item, other: &Item) -> bool
    ensures same { result ≡ true → SameTexts one.now other.now }
    ensures apart { result ≡ false → one.now ≡ other.now → ⊥ }
{
    same_option(&one.limits, &other.limits)
        && same_option(&one.units, &other.units)
        && same_option(&one.format, &other.format)
}

impl Same for Preset {
    fn same(&self, other: &Self) -> bool {
        match (self, other) {
            (Preset::Whole(a), Preset::Whole(b)) => *a == *b,
            (Preset::Raw(a), Preset::Raw(b)) => a.same(b),
            _ => false,
        }
    }
}

impl Same for StateDef {
    fn same(&self, other: &Self) -> bool {
        self.name.same(&other.name)
            && self.value == other.value
            && same_option(&self.color, &other.color)
            && self.hazardous == other.hazardous
    }
}

impl Same for Conversion {
    fn same(&self, other: &Self) -> bool {
        match (self, other) {
            (Conversion::Plain, Conversion::Plain) => true,
            (Conversion::Poly(a), Conversion::Poly(b)) => same_all(a.as_slice(), b.as_slice()),
            (Conversion::Segments(a), Conversion::Segments(b)) => {
                same_all(a.as_slice(), b.as_slice())
            }
            _ => false,
        }
    }
}

impl Same for Segment {
    fn same(&self, other: &Self) -> bool {
        self.bound.same(&other.bound)
            && same_all(self.coefficients.as_slice(), other.coefficients.as_slice())
    }
}

impl Same for Decimal {
    fn same(&self, other: &Self) -> bool {
        self.parts == other.parts
    }
}

impl Same for LimitsSetup {
    fn same(&self, other: &Self) -> bool {
        same_all(self.sets.as_slice(), other.sets.as_slice())
            && self.persistence == other.persistence
            && self.enabled == other.enabled
    }
}

impl Same for Limits {
    fn same(&self, other: &Self) -> bool {
        self.red_low.same(&other.red_low)
            && self.yellow_low.same(&other.yellow_low)
            && self.yellow_high.same(&other.yellow_high)
            && self.red_high.same(&other.red_high)
            && same_option(&self.green, &other.green)
    }
}

impl Same for Name {
    #[tactic(auto, using(crate::proofs::Equal::same_is, crate::proofs::Equal::is_same_itself))]
    fn same(&self, other: &Self) -> bool {
        self == other
    }
}

impl Same for Bytes {
    #[tactic(auto, using(crate::proofs::Equal::same_is, crate::proofs::Equal::is_same_itself))]
    fn same(&self, other: &Self) -> bool {
        self == other
    }
}

impl Same for Color {
    fn same(&self, other: &Self) -> bool {
        *self == *other
    }
}

impl Same for i128 {
    fn same(&self, other: &Self) -> bool {
        *self == *other
    }
}

impl Same for u64 {
    fn same(&self, other: &Self) -> bool {
        *self == *other
    }
}
