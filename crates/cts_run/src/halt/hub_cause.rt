// Why a router of one site can't be tied to an interface of another.
ghost use Rattle.std.specs.Prelude.{◌≡◌};

/// Why a router of one site can't be tied to an interface of another.
#[derive(Clone, Copy)]
pub enum HubCause {
    /// What the router writes and what the interface reads is not one PREIDENTIFIED with the same parameters in both.
    Chain,
    /// A target of an interface that is routed is none of the interface's.
    Target,
}

impl HubCause {
    ghost use Rattle.cts_run.specs.Lines.{hub_line};

    /// The line for it. It takes no memory.
    pub fn line(self) -> &'static [u8]
        ensures { result.now ≡ hub_line self }
    {
        match self {
            HubCause::Chain => b"hub refused: Chain\n",
            HubCause::Target => b"hub refused: Target\n",
        }
    }
}
