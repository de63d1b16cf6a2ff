// Laws of the definitions. Each function does nothing: its contract is the law.
ghost use Rattle.cts_framing.specs.Bursts.{AllBurstCuts};
ghost use Rattle.cts_framing.specs.ChainLaws.{AllMakersHaveTheirChains, ChainsAreSound, ChainsHaveStages};
ghost use Rattle.cts_framing.specs.Laws.{HasCut, HasOneCut, HasOneStage, HasPackets, HasOnePackets, PacketsGrow, HoweverCut};
ghost use Rattle.cts_framing.specs.Rests.{RestsAreShort};
ghost use Rattle.cts_framing.specs.RowLaws.{AreSound, AreNoLonger, FramesAreExact, OutputsAreExact, ErrorsAreExact, HeadsAreExact};
ghost use Rattle.cts_framing.specs.SoFar.{NothingSoFar, MoreIsTaken, PieceComes, AllIsTaken};
ghost use Rattle.cts_framing.specs.SyncPatterns.{CutsFollowThePattern, NothingIsSkipped};
ghost use Rattle.cts_framing.specs.WorkedCuts.{WorkedCuts};

/// Under a sound framing each list of bytes has exactly one cut: what it gives and leaves, its
/// frames, and the bytes skipped before each. So a stage cuts what comes to it in one way.
pub fn cuts()
    ensures some { HasCut }
    ensures one { HasOneCut }
    ensures stage { HasOneStage }
{}

/// Under a sound framing the cut is said by the occurrences of the sync pattern alone: each frame
/// begins at the leftmost occurrence after the frame before it. Where the pattern occurs in what is
/// left after the last frame, the rest begins at its leftmost occurrence, and where it does not, the
/// rest is the longest suffix that may become the pattern. What lies before frames and before the
/// rest is skipped: nothing where the pattern is empty.
pub fn cuts_follow_the_sync_pattern()
    ensures rules { CutsFollowThePattern }
    ensures nothing { NothingIsSkipped }
{}

/// What a stage has given so far of its pieces: of no pieces it is nothing, what is taken of the
/// pending bytes is added to it, and where all that could be given was given, a next piece goes
/// after what is pending, and it is the stage's cut. So it is of a framing that cuts all bytes and
/// of one that cuts each piece for itself.
pub fn taken_so_far()
    ensures nothing { NothingSoFar }
    ensures more { MoreIsTaken }
    ensures piece { PieceComes }
    ensures all { AllIsTaken }
{}

/// A chain of sound framings cuts each list of pieces in exactly one way, more pieces only add
/// packets, and where the first stage cuts all bytes as one list, packets, loss and error depend
/// on the bytes alone, however they were cut into pieces.
pub fn packets()
    ensures some { HasPackets }
    ensures one { HasOnePackets }
    ensures grow { PacketsGrow }
    ensures however_cut { HoweverCut }
{}

/// Each protocol, with any parameters, is a sound framing, so the laws of cuts and packets hold of
/// it, and what a frame gives is no longer than the frame. With parameters that a site may give, the
/// test of a protocol passes exactly the frames of which all conditions of its description hold, what
/// they give is what the description takes of them, and an error stands exactly where it is the first
/// that the description has there.
pub fn rows()
    ensures sound { AreSound }
    ensures no_longer { AreNoLonger }
    ensures frames { FramesAreExact }
    ensures outputs { OutputsAreExact }
    ensures errors { ErrorsAreExact }
{}

/// With parameters that a site may give, what is left where neither a whole frame nor an error stands
/// has fewer bytes than the greatest frame. Of FIXED it may also be fewer than decide, the discarded
/// bytes with the least id size, where these are more.
pub fn rests()
    ensures { RestsAreShort }
{}

/// BURST cuts off the rest so far and a piece after it one frame: all bytes from the leftmost
/// occurrence of its sync pattern to the end. One that is too long is an error, and without an
/// occurrence the longest suffix that may become the pattern is kept.
pub fn bursts()
    ensures { AllBurstCuts }
{}

/// The bytes of each interface, and of each slot of a router, are cut by those of its protocols that
/// read, in order, and no other maker's bytes are cut. These framings are sound, and a chain that a
/// site may have has one to four of them.
pub fn chains()
    ensures makers { AllMakersHaveTheirChains }
    ensures sound { ChainsAreSound }
    ensures stages { ChainsHaveStages }
{}

/// Bytes hold a whole head exactly where they begin with the bytes of one.
pub fn heads()
    ensures { HeadsAreExact }
{}

/// Worked examples: bytes before a sync pattern, a part of one that is kept, a frame without bytes,
/// two stages, pieces cut each for itself, the greatest frame, and packets by how they begin.
pub fn worked_cuts()
    ensures { WorkedCuts }
{}
