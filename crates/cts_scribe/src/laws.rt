//! Laws of the logs that a scribe keeps.

ghost use Rattle.cts_scribe.specs.Laws.{ClosedLogsAreWhole, LogsGrow, StopsLeaveLogs, StopsLeaveLogsOf};
ghost use Rattle.cts_scribe.specs.Logs.{OnePartWithoutCycle};

use crate::bounds::recall_entries;
use cts_table::Hall;

/// The log of more entries is the log, and then what those give to it.
pub fn logs_grow()
    ensures { LogsGrow }
{}

/// At a site without a cycle a log is one part.
pub fn one_part_without_cycle()
    ensures { OnePartWithoutCycle }
{}

/// What any stop of the program or of the system leaves of the parts of a log that a scribe has appended to is a beginning of the parts of the log of the
/// history, in which each part but the last is whole; and the reader of logs reads, file by file, a beginning of the log's entries, in which each entry that
/// was synced stands once.
pub fn stops_leave_logs()
    ensures { StopsLeaveLogs }
{}

/// The same of the logs of any history that a hall holds, and of each beginning of it, with any digest of 16 bytes: nothing else has to be known of its
/// entries. It goes over the entries, and does nothing.
pub fn stops_leave_logs_of_halls(hall: &Hall, digest: &[u8; 16])
    ensures { StopsLeaveLogsOf hall.now.basis.site hall.now.entries digest.now }
{
    recall_entries(hall);
    let _digest = digest.len();
}

/// Where every worker but the scribe has ended, nothing comes to the logs any more: the logs of the closed history, and their parts, are those of what stood
/// then.
pub fn closed_logs_are_whole()
    ensures { ClosedLogsAreWhole }
{}
