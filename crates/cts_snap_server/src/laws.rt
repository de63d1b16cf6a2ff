// What is owed, when others append.
ghost use Rattle.std.specs.Prelude.{ℕ, List};
ghost use Rattle.cts_def.specs.Sites.{SiteData};
ghost use Rattle.cts_desk.specs.declared.ending.DeskWhy.{DeskWhy};
ghost use Rattle.cts_outside.specs.Seen.{LineSeen};
ghost use Rattle.cts_publisher.specs.Publishing.{publisher};
ghost use Rattle.cts_publisher.specs.declared.ending.PublisherWhy.{PublisherWhy};
ghost use Rattle.cts_snap.specs.Copies.{Writes};
ghost use Rattle.cts_snap_server.specs.Lasting.{Lasts};
ghost use Rattle.cts_snap_server.specs.Publishers.{OwesPublisher};
ghost use Rattle.cts_snap_server.specs.SnapDesks.{OwesSnapDesk, PaneSeen};
ghost use Rattle.cts_table.specs.declared.basis.Basis.{Basis};

/// What such a desk owes, and what the publisher owes, holds of every longer history with the same entries of the worker.
pub fn owed_lasts()
    ensures desk { (basis : Basis) (by : ℕ) (found : List ℕ) (old new : LineSeen) (before now : PaneSeen) (fronts : List ℕ) (why : DeskWhy)
        → Lasts by (λ history. OwesSnapDesk basis by found history old new before now fronts why) }
    ensures publisher { (site : SiteData) (now : Writes) (why : PublisherWhy) → Lasts publisher (λ history. OwesPublisher site history now why) }
{}
