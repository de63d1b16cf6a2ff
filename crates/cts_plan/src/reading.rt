//! Statements read to a site.

ghost use Rattle.std.specs.Prelude.{◌≡◌, [], None, IfOk, OnOk, find, option_map, if◌then◌else◌};
ghost use Rattle.cts_words.specs.Refusals.{first_refusal};
ghost use Rattle.cts_def.specs.Sites.{IsSoundSite};
ghost use Rattle.cts_plan.specs.Lines.{line_of};
ghost use Rattle.cts_plan.specs.Standing.{start, closed};
ghost use Rattle.cts_plan.specs.Causes.{holds, order};
ghost use Rattle.cts_plan.specs.Completing.{due};
ghost use Rattle.cts_plan.specs.SiteFiles.{parts, opening, step, refusal_in, refusal, at_end, after, site_in, site_of};
ghost use Rattle.cts_plan.specs.Keeping.{KeepsRules};
ghost use Rattle.cts_reader.specs.Reading.{Gives, Settles, at_line};

use crate::causes::first_cause;
use crate::draft::Draft;
use crate::fault::{SiteCause, SiteFault};
use crate::keyword::{Keyword, keyword_of};
use crate::line::{Line, line_of};
use cts_base::Bytes;
use cts_def::{Definitions, Site};
use cts_reader::unless_refused;
use cts_words::Statement;
use std::alloc::Global;

/// The keyword, and the words after it.
fn parts(words: &[Bytes]) -> Option<(Keyword, &[Bytes])>
    ensures { option_map (λ p. (p.0, p.1.now)) result ≡ parts words.now }
{
    let (first, rest) = words.split_first()?;
    let keyword = keyword_of(first.as_slice())?;
    Some((keyword, rest))
}

fn opens(keyword: Keyword) -> bool
    ensures { result ≡ opening keyword }
{
    match keyword {
        Keyword::Interface => true,
        Keyword::Router => true,
        _ => false,
    }
}

impl Draft {
    // Completes what is read, where a statement with this keyword opens the next one.
    fn make_ready(&mut self, alloc: Global, keyword: Keyword) -> Result<(), SiteFault>
        requires { KeepsRules self.old }
        ensures settled { Settles result (if opening keyword then due self.old else None) }
        ensures ready { OnOk result (self.new ≡ (if opening keyword then closed self.old else self.old)) }
    {
        if opens(keyword) {
            self.complete(alloc)
        } else {
            Ok(())
        }
    }

    // What a statement says where this stands, or why it is refused.
    fn judge(
        &self,
        alloc: Global,
        line: u32,
        keyword: Keyword,
        words: &[Bytes],
    ) -> Result<Line, SiteFault>
        ensures settled { Settles result (at_line line (find (λ c. holds c self.now keyword words.now (line_of line keyword words.now)) order)) }
        ensures said { IfOk result (λ l. l ≡ line_of line keyword words.now) }
    {
        let said = line_of(alloc, line, keyword, words)?;
        let cause = first_cause(self, keyword, words, &said);
        unless_refused(line, cause, said)
    }

    // Adds what a statement says, or says why it is refused.
    fn read(&mut self, alloc: Global, statement: &Statement) -> Result<(), SiteFault>
        requires { KeepsRules self.old }
        ensures settled { Settles result (refusal_in self.old statement.now) }
        ensures stands { OnOk result (self.new ≡ step self.old statement.now) }
    {
        let line = statement.line;
        let Some((keyword, words)) = parts(statement.words.as_slice()) else {
            return Err(SiteFault::Refused {
                line,
                cause: SiteCause::UnknownKeyword,
            });
        };
        self.make_ready(alloc, keyword)?;
        let said = self.judge(alloc, line, keyword, words)?;
        Ok(self.add(said)?)
    }

    // Adds what all statements say, and completes what is read then, or says why they are refused.
    fn read_all(&mut self, alloc: Global, statements: &[Statement]) -> Result<(), SiteFault>
        requires { self.old ≡ start self.old.site.definitions }
        ensures settled { Settles result (first_refusal (refusal self.old.site.definitions) (at_end self.old.site.definitions) [] statements.now) }
        ensures said { OnOk result (self.new.site ≡ site_in (after self.old.site.definitions statements.now)) }
        ensures sound { OnOk result (IsSoundSite self.new.site) }
    {
        for statement in statements {
            self.read(alloc, statement)?;
        }
        self.complete(alloc)
    }
}

/// The site that the statements say, with the definitions of its packets.
///
/// # Errors
///
/// [`SiteFault::Refused`] with the line of the first statement with a cause, and the first of its causes in the order of
/// [`SiteCause`]. What can be judged of an interface or router only when it is complete is judged at the statement that
/// opens the next one, before that statement's own causes, or at the end, and names the line of the FIXED protocol, or
/// that of the interface or router. [`SiteFault::Memory`] where no memory was found. The definitions are dropped then.
pub fn read_site(
    alloc: Global,
    statements: &[Statement],
    definitions: Definitions,
) -> Result<Site, SiteFault>
    ensures said { Gives result (site_of definitions statements.now) }
    ensures sound { IfOk result (λ site. IsSoundSite site) }
{
    let mut draft = Draft::new(alloc, definitions);
    let read = draft.read_all(alloc, statements);
    read.and(Ok(draft.into_site()))
}
