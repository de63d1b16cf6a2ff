// What a statement may belong to.
ghost use Rattle.std.specs.Prelude.{◌≡◌};
ghost use Rattle.cts_defstatement.specs.Refusals.{open_kind, has_item, form_kind, is_of_other_kind};

/// What a definition defines.
#[derive(Clone, Copy, Debug)]
pub enum PacketKind {
    /// A packet that a target sends.
    Telemetry,
    /// A command that a target takes.
    Command,
}

/// What is open before a statement: the last definition, and whether it has an item.
#[derive(Clone, Copy, Debug)]
pub enum Open {
    /// No definition stands before it.
    Nothing,
    /// A definition without items.
    Packet(PacketKind),
    /// A definition with an item.
    Item(PacketKind),
}

impl Open {
    /// What the open definition defines, where one is open.
    pub fn kind(self) -> Option<PacketKind>
        ensures { result ≡ open_kind self }
    {
        match self {
            Open::Nothing => None,
            Open::Packet(kind) | Open::Item(kind) => Some(kind),
        }
    }

    /// Whether the open definition has an item.
    pub(crate) fn has_item(self) -> bool
        ensures { result ≡ has_item self }
    {
        matches!(self, Open::Item(_))
    }

    /// The kind by which words are judged, where it matters.
    pub(crate) fn form_kind(self) -> PacketKind
        ensures { result ≡ form_kind (open_kind self) }
    {
        match self.kind() {
            Some(kind) => kind,
            None => PacketKind::Telemetry,
        }
    }
}

/// Whether a keyword is of the other kind of definition than the open one.
pub(crate) fn is_of_other_kind(opened: Option<PacketKind>, keyword: Option<PacketKind>) -> bool
    ensures { result ≡ is_of_other_kind opened keyword }
{
    match (opened, keyword) {
        (Some(PacketKind::Telemetry), Some(PacketKind::Command)) => true,
        (Some(PacketKind::Command), Some(PacketKind::Telemetry)) => true,
        _ => false,
    }
}
