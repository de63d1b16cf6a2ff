// Command texts.
ghost use Rattle.std.specs.Prelude.{ℕ, IfOk, IfErr};
ghost use Rattle.cts_cmd.specs.declared.request.Request.{Request};
ghost use Rattle.cts_cmd.specs.declared.text_fault.TextCause.{TextCause};
ghost use Rattle.cts_cmd.specs.declared.text_fault.TextFault.TheVariants.{Refused};
ghost use Rattle.cts_cmd.specs.Seen.{StopsBy};
ghost use Rattle.cts_cmd.specs.Texts.{Fails, FailsAt, FailsInTail, IsCommandText, IsOrMemory, IsRead, IsTail};

use crate::param::{Missing, Stopped, params};
use crate::words::{Stop, after_white, word_first};
use crate::{Given, Request, TextCause, TextFault};
use cts_base::{Bytes, List, spells};
use std::alloc::Global;

/// What follows the name of a command: nothing, or `with` and parameters.
fn tail(alloc: Global, text: &[u8]) -> Result<Vec<(Bytes, Given)>, Stopped<'_>>
    ensures params { IfOk result (λ v. IsTail text.now v.items) }
    ensures stopped { IfErr result (λ e. StopsBy (λ cause here. FailsInTail cause text.now here) e) }
{
    match word_first(Stop::White, text) {
        Err(_) => Ok(Vec::new(alloc)),
        Ok((word, rest)) => {
            if !spells(word, b"WITH") {
                return Err(Stopped::Missing(Missing {
                    cause: TextCause::NoWith,
                    here: after_white(text),
                }));
            }
            params(alloc, rest)
        }
    }
}

fn read(alloc: Global, text: &[u8]) -> Result<Request, Stopped<'_>>
    ensures request { IfOk result (λ r. IsCommandText text.now r) }
    ensures stopped { IfErr result (λ e. StopsBy (λ cause here. Fails cause text.now here) e) }
{
    let (target, gap) = match word_first(Stop::White, text) {
        Ok(parts) => parts,
        Err(here) => {
            return Err(Stopped::Missing(Missing {
                cause: TextCause::NoTarget,
                here,
            }));
        }
    };
    let (command, rest) = match word_first(Stop::White, gap) {
        Ok(parts) => parts,
        Err(here) => {
            return Err(Stopped::Missing(Missing {
                cause: TextCause::NoCommand,
                here,
            }));
        }
    };
    let params = match tail(alloc, rest) {
        Ok(params) => List::of(params),
        Err(stopped) => return Err(stopped),
    };
    Ok(Request {
        target: Bytes::copy(alloc, target)?,
        command: Bytes::copy(alloc, command)?,
        params,
    })
}

fn read_text(alloc: Global, text: &[u8]) -> Result<Request, TextFault>
    ensures { IsRead text.now result }
{
    match read(alloc, text) {
        Ok(request) => Ok(request),
        Err(Stopped::Memory) => Err(TextFault::Memory),
        Err(Stopped::Missing(missing)) => Err(TextFault::Refused {
            place: (text.len() - missing.here.len()) as u64,
            cause: missing.cause,
        }),
    }
}

/// What a command text asks for: a target, a command, and perhaps `with` in any case and parameters with commas between
/// them. A parameter is a name and a value: a text in quotes, or a word; a word that writes a whole number gives that
/// number, and any other its text. White space is space, tab and carriage return, and may stand round each part.
///
/// # Errors
///
/// `Refused` with the first place at which this form fails, and what is missing there; `Memory` where none was found.
pub fn parse(alloc: Global, text: &[u8]) -> Result<Request, TextFault>
    ensures read { IsRead text.now result }
    ensures taken { (r : Request) → IsCommandText text.now r → IsOrMemory result (Ok r) }
    ensures refused { (place : ℕ) (cause : TextCause) → FailsAt text.now place cause
        → IsOrMemory result (Err (Refused place cause)) }
{
    read_text(alloc, text)
}
