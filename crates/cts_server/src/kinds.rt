// Workers of four kinds.
ghost use Rattle.std.specs.Prelude.{◌≡◌};

use cts_base::List;
use cts_desk::DeskWhy;
use cts_line::LineWhy;
use cts_scribe::ScribeWhy;

/// One of four kinds: an interface, a slot of a router, a desk, or the scribe.
#[derive(Drop)]
pub enum ByKind<I, S, D, C> {
    Interface(I),
    Slot(S),
    Desk(D),
    Scribe(C),
}

/// What a line works with: what makes its connections, and what cuts the pieces that it takes.
#[derive(Drop)]
pub struct Line<X, C> {
    /// Its dialer or its door.
    pub device: X,
    /// Its chain, to which nothing was fed.
    pub chain: C,
}

impl<X, C: Drop> Line<X, C> {
    /// Its device, where the line is not to run.
    pub(crate) fn into_device(self) -> X
        ensures { result ≡ self.device }
    {
        let Self { device, chain: _ } = self;
        device
    }
}

/// What a line leaves.
#[derive(Drop)]
pub struct LineLeft<X> {
    /// Its dialer or its door.
    pub device: X,
    /// Why it ended.
    pub why: LineWhy,
}

/// What a desk leaves.
#[derive(Drop)]
pub struct DeskLeft<X> {
    /// Its door.
    pub door: X,
    /// The fronts of its requests, in order.
    pub fronts: List<u64>,
    /// Why it ended.
    pub why: DeskWhy,
    /// Whether its replies are of the one history. Those of a desk that reads under the turn always are.
    pub tied: bool,
}

/// What the scribe leaves.
#[derive(Drop)]
pub struct ScribeLeft<V> {
    /// Its vault.
    pub vault: V,
    /// Why it ended.
    pub why: ScribeWhy,
}

/// What a worker works with.
pub type Work<D, Q, V, C> = ByKind<Line<D, C>, Line<Q, C>, Q, V>;

/// What a worker leaves.
pub type Left<D, Q, V> = ByKind<LineLeft<D>, LineLeft<Q>, DeskLeft<Q>, ScribeLeft<V>>;
