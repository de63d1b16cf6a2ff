// Laws of the definitions. The functions do nothing: their contracts are the laws.
ghost use Rattle.cts_run.specs.Laws.{AllIsSynced, BytesAreKept, HasOutcome, HasOneOutcome, NoCountRises, RefusedExactly, ShortExactly};
ghost use Rattle.cts_run.specs.Laws.{MisusedExactly, StopsAreDumped, TextsArePut, UnknownExactly, UntiedExactly};
ghost use Rattle.cts_run.specs.Rehearsed.{RehearsalsAreDone};

/// The words of a command, the boxes on the shelf and the content of the files decide one outcome: its status, and all that is
/// put and appended. Its status is that of a shelf that is short exactly where all chains of the site need more boxes of a kind than the
/// shelf holds, and nothing is refused before. It is that of a refused log exactly where a dump is asked for of files of which
/// one, after whole logs with one head, is too large, has another head than the first, or is no head with whole entries alone after it; and
/// where columns are asked for by definitions that are taken, of a file that is too large, or in which no word is unknown and that is no head
/// with whole entries alone after it. It is that of an unknown name exactly where columns are asked for by a word that names nothing.
/// It is that of a hub that is refused exactly where two sites are taken and what is named in them can't be tied, and that of words that fit no command
/// where they don't, and where a hub's words name nothing in its sites or are no size of pieces.
pub fn outcomes()
    ensures some { HasOutcome }
    ensures one { HasOneOutcome }
    ensures short { ShortExactly }
    ensures refused { RefusedExactly }
    ensures unknown { UnknownExactly }
    ensures untied { UntiedExactly }
    ensures misused { MisusedExactly }
{}

/// Of 1 to 64 parts that a stop leaves of a log a dump, in their order, puts the lines of a beginning of the log's entries, in which each entry that
/// lay whole in what was synced stands once.
pub fn left_parts()
    ensures dumped { StopsAreDumped }
{}

/// What acts leave that were done, one after another: the sink has all their texts, each log all bytes that they append to it, and no
/// count rises. Where both logs are synced last, all their bytes are synced.
pub fn acts()
    ensures texts { TextsArePut }
    ensures bytes { BytesAreKept }
    ensures synced { AllIsSynced }
    ensures counts { NoCountRises }
{}

/// The outcome of each rehearsal that words may ask for is that all is done, where the shelf has boxes for all chains of the demo's site,
/// and else that the shelf is short: no event of one is refused, and none finds the history full.
pub fn rehearsals()
    ensures { RehearsalsAreDone }
{}
