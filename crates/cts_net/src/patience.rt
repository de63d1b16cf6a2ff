// How long a dialer bears with a peer, and how long it rests.
ghost use Rattle.std.specs.Prelude.{◌≡◌};

/// How long a dialer bears with its peers, in takes that find nothing, and how long it rests between them (a rule of this project).
#[derive(Clone, Copy, Debug, PartialEq, Eq)]
pub struct Patience {
    /// How many milliseconds a take waits for bytes, unless the bell of its line rings.
    pub take: u64,
    /// How many takes in a row may find nothing: the next one that does fails.
    pub in_row: u64,
    /// How many takes of one connection may find nothing in all: so nobody keeps a door for good by a byte now and then.
    pub in_all: u64,
    /// How many milliseconds a door rests at least after a hang-up and after a dial that failed.
    pub rest: u64,
}

/// How many takes of a connection found nothing.
#[derive(Clone, Copy, Debug, PartialEq, Eq)]
pub(crate) struct Waited {
    /// Those since bytes came last.
    pub(crate) in_row: u64,
    /// All of them.
    pub(crate) in_all: u64,
}

impl Waited {
    /// That of a connection that begins.
    pub(crate) fn none() -> Waited
        ensures { result ≡ record { in_row = 0; in_all = 0 } }
    {
        Waited {
            in_row: 0,
            in_all: 0,
        }
    }
}
