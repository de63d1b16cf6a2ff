use crate::keys::{Key, differs, set_answers};
use cts_base::Bytes;
use cts_rows::{debug_of, same};
use std::alloc::Global;
use std::test::Fail;

impl Key for Bytes {
    fn read(alloc: Global, word: &str) -> Result<Bytes, Fail> {
        Ok(Bytes::copy(alloc, word.as_bytes())?)
    }
}

#[test]
fn bytes_are_compared(rt: HostRuntime) -> Result<(), Fail> {
    let beat = Bytes::of(b"beat".to_vec(rt.alloc())?);
    differs(rt.alloc(), "beam", &beat)
}

fn shows(alloc: Global, bytes: &[u8]) -> Result<(), Fail> {
    let found = debug_of(alloc, &bytes)?;
    same(found.as_str(), "[98, 101, 97, 109]", "beam")
}

#[test]
fn bytes_are_copied_and_given_back(rt: HostRuntime) -> Result<(), Fail> {
    let beam = Bytes::copy(rt.alloc(), b"beam")?;
    shows(rt.alloc(), beam.as_slice())?;
    shows(rt.alloc(), &beam.into_vec())
}

#[test]
fn a_set_finds_its_bytes(rt: HostRuntime) -> Result<(), Fail> {
    set_answers::<Bytes>(
        rt.alloc(),
        "beam bea beam ?beams beams ?bea",
        "([true, true, false, false, true, true], 3)",
    )
}
