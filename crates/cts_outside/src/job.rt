// Work that may be done on a thread of its own.
ghost use Rattle.std.specs.Prelude.{◌≡◌, Bool, true, false};

/// Work that may be done on a thread of its own. A job owns its devices and refers to the runtime, so its calls take neither,
/// and its end gives the devices back.
pub trait Job: Send + Drop {
    /// What is left when the job is over.
    type End: Send + Drop;

    /// When the job may be worked or cancelled.
    ghost is_ready: { Self → Type 0 };

    /// Which ends its work may give.
    ghost works_to: { Self → Self.End → Type 0 };

    /// Which ends cancelling it may give.
    ghost cancels_to: { Self → Self.End → Type 0 };

    /// Whether an end is that of a cancelled job.
    ghost is_cancelled: { Self.End → Bool };

    /// Does the work. It may wait.
    fn work(self) -> Self::End
        requires { is_ready self }
        ensures gives { works_to self result }
        ensures worked { is_cancelled result ≡ false };

    /// Ends the job without its work, where its start was refused. It may wait, but for no other job of its crew: those that
    /// come later are not started yet.
    fn cancel(self) -> Self::End
        requires { is_ready self }
        ensures gives { cancels_to self result }
        ensures cancelled { is_cancelled result ≡ true };

    /// Whether `cancel` gave this end, and not `work`.
    fn cancelled(end: &Self::End) -> bool
        ensures { result ≡ is_cancelled end.now };
}
