// Laws of the definitions. Each function does nothing: its contract is the law.
ghost use Rattle.cts_encode.specs.ReadBack.{HeadsAreRead, OneSpelling, SpellingsAreRead};
ghost use Rattle.cts_encode.specs.Spelled.{SpellingsAreBytes, SpellingsAreTold};

/// What a protocol writes without a refusal it reads again, as one frame with the bytes that were
/// written, nothing skipped and nothing left: PREIDENTIFIED always, with the time and names of the
/// label and, in layout 4, its flag, LENGTH with fill where its sync pattern and its field lie within the discarded bytes and
/// share none, and TERMINATED where the termination that is written is the one that is looked for
/// and is stripped, with fill and a sync pattern within the discarded bytes, or without both.
pub fn spellings()
    ensures { SpellingsAreRead }
{}

/// Bytes that are not refused have one spelling by a protocol and a label.
pub fn one_spelling()
    ensures { OneSpelling }
{}

/// The spelling by a protocol is a function of the label and the bytes: there is none exactly where the bytes are refused,
/// and else the one frame that is their spelling. What is written of bytes is bytes.
pub fn spellings_are_told()
    ensures told { SpellingsAreTold }
    ensures bytes { SpellingsAreBytes }
{}

/// A head that was written is read again, whatever follows it: its time, its names and its
/// count, and that it ends where it was written to.
pub fn heads_are_read()
    ensures { HeadsAreRead }
{}
