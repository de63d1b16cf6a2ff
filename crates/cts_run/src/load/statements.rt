// The statements of a file.
ghost use Rattle.std.specs.Prelude.{◌≡◌, ◌≤◌, length, IfOk, IfSome};
ghost use Rattle.cts_run.specs.Causes.{words_cause, words_halt};
ghost use Rattle.cts_run.specs.Load.Files.{GivesBytes, GivesDigested, GivesStatements, Says, file_limit, too_large};
ghost use Rattle.cts_run.specs.Phases.{LoadCounts, answer_seen};

use crate::digest::Digest;
use crate::file_name::FileName;
use crate::halt::Halt;
use crate::halt::cause::Cause;
use crate::halt::file_kind::FileKind;
use crate::load::file::read_file;
use cts_base::Bytes;
use cts_outside::Files;
use cts_words::{Statement, WordFault, statements};
use std::alloc::Global;

// The greatest file that is taken.
const FILE_LIMIT: usize = 67_108_864;

/// The statements of a file. Its bytes are let go before anything is made of them.
pub fn read_statements<'a, F: Files>(
    alloc: Global,
    files: &mut F,
    name: &FileName<'a>,
    kind: FileKind,
) -> Result<Vec<Statement>, Halt<'a>>
    ensures stays { (F.seen files.new).told ≡ (F.seen files.old).told }
    ensures content { IfSome (F.seen files.old).told (λ all. GivesStatements kind name.now (all name.now) (answer_seen (λ v. v.items) result)) }
    ensures counts { LoadCounts result (F.seen files.old) (F.seen files.new) }
{
    match read_text(alloc, files, name, kind) {
        Ok(bytes) => statements_in(alloc, bytes.as_slice(), name, kind),
        Err(halt) => Err(halt),
    }
}

/// The statements of a file, and the digest of its bytes.
pub(crate) fn read_digested<'a, F: Files>(
    alloc: Global,
    files: &mut F,
    name: &FileName<'a>,
    kind: FileKind,
) -> Result<(Vec<Statement>, Digest), Halt<'a>>
    ensures stays { (F.seen files.new).told ≡ (F.seen files.old).told }
    ensures content { IfSome (F.seen files.old).told (λ all. GivesDigested kind name.now (all name.now) (answer_seen (λ v. (v.0.items, v.1)) result)) }
    ensures counts { LoadCounts result (F.seen files.old) (F.seen files.new) }
{
    match read_text(alloc, files, name, kind) {
        Ok(bytes) => {
            let digest = Digest::of(bytes.as_slice());
            match statements_in(alloc, bytes.as_slice(), name, kind) {
                Ok(found) => Ok((found, digest)),
                Err(halt) => Err(halt),
            }
        }
        Err(halt) => Err(halt),
    }
}

// The bytes of a file. One that is too large is refused as a whole.
fn read_text<'a, F: Files>(
    alloc: Global,
    files: &mut F,
    name: &FileName<'a>,
    kind: FileKind,
) -> Result<Bytes, Halt<'a>>
    ensures stays { (F.seen files.new).told ≡ (F.seen files.old).told }
    ensures content { IfSome (F.seen files.old).told (λ all. GivesBytes file_limit (too_large kind name.now) name.now (all name.now) result) }
    ensures small { IfOk result (λ bytes. length bytes ≤ file_limit) }
    ensures counts { LoadCounts result (F.seen files.old) (F.seen files.new) }
{
    let large = Halt::Refused {
        name: name.again(),
        kind,
        line: 0,
        cause: Cause::TooLarge,
    };
    read_file(alloc, files, name, FILE_LIMIT, large)
}

// The statements of a text, or why a command halts at it.
fn statements_in<'a>(
    alloc: Global,
    text: &[u8],
    name: &FileName<'a>,
    kind: FileKind,
) -> Result<Vec<Statement>, Halt<'a>>
    requires { length text.now ≤ file_limit }
    ensures { Says kind name.now text.now (answer_seen (λ v. v.items) result) }
{
    match statements(alloc, text) {
        Ok(found) => Ok(found),
        Err(fault) => Err(words_halt(name, kind, fault)),
    }
}

// Why a command halts at a file of this kind whose words have this fault. A text that is none has no lines.
fn words_halt<'a>(name: &FileName<'a>, kind: FileKind, fault: WordFault) -> Halt<'a>
    ensures { result ≡ words_halt kind name.now fault }
{
    let (line, cause) = match fault {
        WordFault::OpenQuote(line) => (line, Cause::OpenQuote),
        WordFault::DanglingJoin(line) => (line, Cause::DanglingJoin),
        WordFault::NotText(_) => (0, Cause::NotText),
        WordFault::Memory => return Halt::Memory,
    };
    Halt::Refused {
        name: name.again(),
        kind,
        line,
        cause: words_cause(kind, cause),
    }
}

// The cause that is told of the words of a file of this kind.
fn words_cause(kind: FileKind, cause: Cause) -> Cause
    ensures { result ≡ words_cause kind cause }
{
    match kind {
        FileKind::Script => Cause::WrongCount,
        FileKind::Configuration => cause,
    }
}
