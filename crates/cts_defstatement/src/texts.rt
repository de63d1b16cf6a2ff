// The names that words spell.
ghost use Rattle.std.specs.Prelude.{◌≡◌, IfOk, IsTrue, map};
ghost use Rattle.cts_base.specs.Names.{in_upper_case, is_name};

use cts_base::{Memory, Name};
use std::alloc::Global;

/// The name that a word spells which is one.
pub(crate) fn name(alloc: Global, word: &[u8]) -> Result<Name, Memory>
    requires { IsTrue (is_name word.now) }
    ensures { IfOk result (λ n. n ≡ in_upper_case word.now) }
{
    match Name::read(alloc, word) {
        Ok(name) => Ok(name),
        Err(_) => Err(Memory),
    }
}
