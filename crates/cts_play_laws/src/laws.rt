// Laws of the definitions. Each function does nothing: its contract is the law.
ghost use Rattle.cts_play_laws.specs.Files.{LogFilesArePlayed, LogFilesAreRead, LogFilesEnd};
ghost use Rattle.cts_play_laws.specs.Handing.{AreHandedOn};
ghost use Rattle.cts_play_laws.specs.Hearing.{SitesEnd, SitesHear};
ghost use Rattle.cts_play_laws.specs.Hubs.{HubsHandOn, HubsHandOnAll, HubsRun};
ghost use Rattle.cts_play_laws.specs.Putting.{LastPutIsRouted};
ghost use Rattle.cts_play_laws.specs.Keeping.{RunsKeepPackets};
ghost use Rattle.cts_play_laws.specs.Plays.{AllPlayLogs, LogsArePlayed, LogsArePlayedThere};
ghost use Rattle.cts_play_laws.specs.Tying.{HubsAreTied};
ghost use Rattle.cts_play_laws.specs.Values.{BroughtSaysAll, PlayedSaysSame};

/// Where a device whose bytes are cut by one framing brings the first bytes of a stream, however they are cut into pieces, and then ends,
/// the history has exactly the packets of the spellings that stand whole in them, with their times and names, between its Opened and its
/// Closed; and the Closed counts as held the bytes after these, and nothing else.
/// All of its events are done where the history has room for all of the stream.
pub fn devices_hear<X>()
    ensures heard { SitesHear X }
    ensures ends { SitesEnd X }
{}

/// What is routed to a slot of one site, or its first bytes, handed to an interface of another: the interface's history has exactly the
/// packets of the routed interfaces that stand whole in these bytes, with their times, idents and bytes, and in layout 4 their stored
/// flags; and all of them where it is all. What a slot put on its last connection is such first bytes. What a hub ties is tied so.
pub fn hubs_hand_on()
    ensures tied { HubsAreTied }
    ensures handed { AreHandedOn }
    ensures first { HubsHandOn }
    ensures all { HubsHandOnAll }
    ensures put { LastPutIsRouted }
    ensures run { HubsRun }
{}

/// A log of packets that is played gives a history with exactly its packets, and all is done where a history has room for them. Where
/// every interface is logged, the layout carries the stored flags or there are none, and nobody injects or sets anything, its current
/// bytes, its counts and its limits events are those of the history that was logged, but for the numbers of entries.
pub fn logs_are_played()
    ensures played { LogsArePlayed }
    ensures hears { AllPlayLogs }
    ensures there { LogsArePlayedThere }
    ensures read { LogFilesAreRead }
    ensures ends { LogFilesEnd }
    ensures files { LogFilesArePlayed }
    ensures brought { BroughtSaysAll }
    ensures values { PlayedSaysSame }
{}

/// In every run each packet of an interface has bytes, and is one of the targets of this interface where a definition fits.
pub fn runs_keep_packets()
    ensures { RunsKeepPackets }
{}
