use crate::keys::{Key, differs, set_answers};
use cts_base::Name;
use cts_rows::{Answers, as_text, debug_of, rows_end_so, same};
use cts_samples::name_of;
use std::alloc::Global;
use std::test::Fail;

/// The name of a text, or why it is none.
fn told(alloc: Global, text: &str) -> Result<String, Fail> {
    match Name::read(alloc, text.as_bytes()) {
        Ok(name) => shown(alloc, name.as_slice()),
        Err(fault) => debug_of(alloc, &fault),
    }
}

fn shown(alloc: Global, name: &[u8]) -> Result<String, Fail> {
    Ok(as_text(name)?.to_string(alloc)?)
}

struct Names;

impl Answers for Names {
    fn answer(alloc: Global, asked: &str) -> Result<String, Fail> {
        told(alloc, asked)
    }
}

const NAMES: &str = "\
Temp_9z|TEMP_9Z
|BadName
A-B|BadName
A B|BadName
@|BadName
[|BadName
`|BadName
{|BadName
\u{c9}|BadName";

#[test]
fn a_name_has_letters_digits_and_underscores_in_upper_case(rt: HostRuntime) -> Result<(), Fail> {
    rows_end_so::<Names>(rt.alloc(), NAMES)
}

fn is_told(alloc: Global, text: &str, wanted: &str) -> Result<(), Fail> {
    let found = told(alloc, text)?;
    same(found.as_str(), wanted, text)
}

/// What is told of so many letters `a`.
fn is_told_of(alloc: Global, letters: usize, wanted: &str) -> Result<(), Fail> {
    let text = "a".repeat(alloc, letters)?;
    is_told(alloc, text.as_str(), wanted)
}

#[test]
fn a_name_has_at_most_255_letters(rt: HostRuntime) -> Result<(), Fail> {
    let upper = "A".repeat(rt.alloc(), 255)?;
    is_told_of(rt.alloc(), 255, upper.as_str())?;
    is_told_of(rt.alloc(), 256, "BadName")
}

impl Key for Name {
    fn read(alloc: Global, word: &str) -> Result<Name, Fail> {
        name_of(alloc, word)
    }
}

#[test]
fn names_are_compared_and_cloned(rt: HostRuntime) -> Result<(), Fail> {
    let other = <Name as Key>::read(rt.alloc(), "TEMP_9")?;
    differs(rt.alloc(), "Temp_9z", &other)
}

#[test]
fn a_set_finds_a_name_in_any_case(rt: HostRuntime) -> Result<(), Fail> {
    set_answers::<Name>(
        rt.alloc(),
        "temp1 TEMP1 ?Temp1 ?TEMP",
        "([true, false, true, false], 1)",
    )
}

#[test]
fn a_set_finds_a_pair_of_names(rt: HostRuntime) -> Result<(), Fail> {
    set_answers::<(Name, Name)>(
        rt.alloc(),
        "inst.temp inst.volt INST.TEMP ?Inst.Volt ?volt.inst",
        "([true, true, false, true, false], 2)",
    )
}
