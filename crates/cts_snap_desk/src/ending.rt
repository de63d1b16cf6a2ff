// How a desk that reads from a pane ends.
ghost use Rattle.std.specs.Prelude.{◌≡◌};
ghost use Rattle.cts_snap_desk.specs.Ending.{of_desk};

use cts_base::List;
use cts_desk::DeskWhy;
use cts_table::Hall;
use cts_turn::Pass;

/// Why a desk ended.
#[derive(Clone, Copy, Debug, PartialEq, Eq)]
pub enum SnapWhy {
    /// A Stop stands.
    Stopped,
    /// Its door has no client any more.
    Finished,
    /// A dial of its door failed.
    DoorFailed,
    /// It was not started.
    Cancelled,
}

/// The end of a desk.
#[derive(Drop)]
pub struct SnapDeskEnd<P> {
    /// Its pass.
    pub pass: Pass<Hall>,
    /// The front of each request, in order.
    pub fronts: List<u64>,
    /// Why it ended.
    pub why: SnapWhy,
    /// The pane that it read from.
    pub reader: P,
}

/// The reason with the same name.
pub(crate) fn of_desk(why: DeskWhy) -> SnapWhy
    ensures { result ≡ of_desk why }
{
    match why {
        DeskWhy::Stopped => SnapWhy::Stopped,
        DeskWhy::Finished => SnapWhy::Finished,
        DeskWhy::DoorFailed => SnapWhy::DoorFailed,
        DeskWhy::Cancelled => SnapWhy::Cancelled,
    }
}
