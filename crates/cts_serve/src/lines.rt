// The last lines that a server alone puts.
ghost use Rattle.std.specs.Prelude.{◌≡◌};
ghost use Rattle.cts_serve.specs.Lines.{door_fault_line, no_worker_line};

/// The line for a worker that was not started. It takes no memory.
pub(crate) fn no_worker_text() -> &'static [u8]
    ensures { result.now ≡ no_worker_line }
{
    b"no worker\n"
}

/// The line for a door that failed. It takes no memory.
pub(crate) fn door_fault_text() -> &'static [u8]
    ensures { result.now ≡ door_fault_line }
{
    b"door fault\n"
}
