//! Laws of what entries give to the logs.

ghost use Rattle.cts_log_batch.specs.Laying.{CommandsGrow, PacketsGrow};

/// What more entries give to a log is what the first of them give, and then what the others give.
pub fn logs_grow()
    ensures packets { PacketsGrow }
    ensures commands { CommandsGrow }
{}
