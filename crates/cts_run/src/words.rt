// What the words of the command line ask for.
ghost use Rattle.std.specs.Prelude.{◌≡◌, map, option_map};
ghost use Rattle.cts_extract.specs.Words.{kind_named};
ghost use Rattle.cts_run.specs.Wanted.{wanted_of};
ghost use Rattle.cts_run.specs.Words.{asked, asked_of, dump_asked, extract_asked, hub_asked, rehearsal_number, sited_asked};
ghost use Rattle.cts_run.specs.declared.words.Command.TheVariants.{Rehearse};

use crate::file_name::{FileName, FileNames};
use crate::tie::Tie;
use crate::wanted::Wanted;
use cts_base::read_whole;
use cts_extract::{has_few_texts, kind_named};

/// A command with the files that it needs, by their names.
#[derive(Drop)]
pub enum Command<'a> {
    /// Puts how much definitions and a site have.
    Check {
        definitions: FileName<'a>,
        site: FileName<'a>,
    },
    /// Does the events of a script in the world of a site.
    Replay {
        definitions: FileName<'a>,
        site: FileName<'a>,
        script: FileName<'a>,
    },
    /// Does the events that are made from a number in the world of the demo's site, and puts what they were.
    Rehearse {
        number: u32,
    },
    /// Puts the entries of logs, file after file.
    Dump {
        logs: FileNames<'a>,
    },
    /// Plays a log of packets in the world of the site that plays it.
    Play {
        definitions: FileName<'a>,
        site: FileName<'a>,
        log: FileName<'a>,
    },
    /// Puts columns of a log.
    Extract {
        definitions: FileName<'a>,
        log: FileName<'a>,
        wanted: Wanted<'a>,
    },
    /// Hands what a slot of the one site puts in the events of a script to an interface of the other site.
    Hub {
        definitions: FileName<'a>,
        site: FileName<'a>,
        script: FileName<'a>,
        below: FileName<'a>,
        tie: Tie<'a>,
    },
}

// How many files a dump takes at most.
const MOST_LOGS: usize = 64;

/// The command that the words ask for, if they fit one.
pub fn read_words<'a>(words: &'a [&'a str]) -> Option<Command<'a>>
    ensures { result ≡ asked (map (λ w. w.now) words.now) }
{
    let Some((command, words)) = words.split_first() else {
        return None;
    };
    if *command == "dump" {
        return read_dump(words);
    }
    if *command == "extract" {
        return read_extract(words);
    }
    if *command == "hub" {
        return read_hub(words);
    }
    read_named(*command, words)
}

// The command of this name that takes as many words, if they fit it.
fn read_named<'a>(command: &str, words: &'a [&'a str]) -> Option<Command<'a>>
    ensures { result ≡ asked_of command.now (map (λ w. w.now) words.now) }
{
    match words {
        [number] if command == "rehearse" => read_rehearse(*number),
        [definitions, site] if command == "check" => Some(Command::Check {
            definitions: FileName::of(*definitions),
            site: FileName::of(*site),
        }),
        [definitions, site, last] => read_sited(command, *definitions, *site, *last),
        _ => None,
    }
}

// The command of this name over a site that reads one more file.
fn read_sited<'a>(
    command: &str,
    definitions: &'a str,
    site: &'a str,
    last: &'a str,
) -> Option<Command<'a>>
    ensures { result ≡ sited_asked command.now definitions.now site.now last.now }
{
    if command == "replay" {
        return Some(Command::Replay {
            definitions: FileName::of(definitions),
            site: FileName::of(site),
            script: FileName::of(last),
        });
    }
    if command == "play" {
        return Some(Command::Play {
            definitions: FileName::of(definitions),
            site: FileName::of(site),
            log: FileName::of(last),
        });
    }
    None
}

// Columns, where the words are as many and fit them.
fn read_extract<'a>(words: &[&'a str]) -> Option<Command<'a>>
    ensures { result ≡ extract_asked (map (λ w. w.now) words.now) }
{
    match words {
        [definitions, log, target, packet, kind, items] => Some(Command::Extract {
            definitions: FileName::of(*definitions),
            log: FileName::of(*log),
            wanted: wanted_of(*target, *packet, *kind, *items)?,
        }),
        _ => None,
    }
}

// A hub, where the words are as many.
fn read_hub<'a>(words: &[&'a str]) -> Option<Command<'a>>
    ensures { result ≡ hub_asked (map (λ w. w.now) words.now) }
{
    match words {
        [definitions, site, script, below, who, name, cut] => Some(Command::Hub {
            definitions: FileName::of(*definitions),
            site: FileName::of(*site),
            script: FileName::of(*script),
            below: FileName::of(*below),
            tie: Tie::of(*who, *name, *cut),
        }),
        _ => None,
    }
}

// The columns that these words ask for, if the one names a kind of values and the other at most 64 items.
fn wanted_of<'a>(target: &'a str, packet: &'a str, kind: &str, items: &'a str) -> Option<Wanted<'a>>
    ensures { result ≡ wanted_of target.now packet.now items.now (kind_named kind.now) }
{
    let kind = kind_named(kind)?;
    if !has_few_texts(items.as_bytes()) {
        return None;
    }
    Some(Wanted::of(target, packet, kind, items))
}

// A dump of these files, where there are 1 to 64.
fn read_dump<'a>(logs: &'a [&'a str]) -> Option<Command<'a>>
    ensures { result ≡ dump_asked (map (λ w. w.now) logs.now) }
{
    if logs.is_empty() || MOST_LOGS < logs.len() {
        return None;
    }
    Some(Command::Dump {
        logs: FileNames::of(logs),
    })
}

// A rehearsal, where the word is a number of it.
fn read_rehearse<'a>(word: &'a str) -> Option<Command<'a>>
    ensures { result ≡ option_map Rehearse (rehearsal_number word.now) }
{
    Some(Command::Rehearse {
        number: rehearsal_number(word)?,
    })
}

// The number that a word writes: 1 to 1,000,000, in decimal digits without a leading zero.
#[tactic(auto, unfolding(crate::specs::Words::rehearsal_number))]
fn rehearsal_number(word: &str) -> Option<u32>
    ensures { result ≡ rehearsal_number word.now }
{
    let digits = word.as_bytes();
    if digits.is_empty() || digits[0] < b'1' || b'9' < digits[0] {
        return None;
    }
    match read_whole(digits) {
        Some(number) if 0 <= number && number <= 1_000_000 => Some(number as u32),
        _ => None,
    }
}
