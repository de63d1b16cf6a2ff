// A console over a real file, and over a writer that halts.
use crate::console::Console;
use cts_outside::{PutFailed, Sink};
use std::fs::File;
use std::io::{ErrorKind, Write};
use std::test::Fail;
use std::{fs, io};

// What one write of the halting writer does.
#[derive(Clone, Copy)]
enum Step {
    Takes(usize),
    Fails(ErrorKind),
}

// A writer that goes through a list of steps, and then fails.
#[derive(Drop)]
struct Halting<'a> {
    steps: &'a [Step],
    taken: usize,
}

impl Write for Halting<'_> {
    fn write(&mut self, buf: &[u8]) -> io::Result<usize> {
        let Some((step, rest)) = self.steps.split_first() else {
            return Err(io::Error::from(ErrorKind::Other));
        };
        self.steps = rest;
        match *step {
            Step::Takes(count) => {
                let count = count.min(buf.len());
                self.taken = self.taken.saturating_add(count);
                Ok(count)
            }
            Step::Fails(kind) => Err(io::Error::from(kind)),
        }
    }

    fn flush(&mut self) -> io::Result<()> {
        Ok(())
    }
}

#[test]
fn puts_reach_a_real_file(rt: HostRuntime) -> Result<(), Fail> {
    let mut console = Console::new(File::create(&rt, "console_test.txt")?);
    for piece in [b"one\n".as_slice(), b"", b"two"] {
        assert_eq!(rt; console.put(piece), Ok(()));
        assert_eq!(rt; console.faults, 0);
    }
    let written = fs::read(&rt, "console_test.txt")?;
    fs::remove_file(&rt, "console_test.txt")?;
    assert_eq!(rt; written.as_slice(), b"one\ntwo".as_slice());
    Ok(())
}

#[test]
fn a_write_that_halts_is_a_fault(rt: HostRuntime) -> Result<(), Fail> {
    let stopped = Step::Fails(ErrorKind::Interrupted);
    let rows: [(&[Step], Result<(), PutFailed>, usize); 5] = [
        (&[Step::Takes(2), stopped, Step::Takes(9)], Ok(()), 5),
        (
            &[stopped, Step::Takes(4), Step::Takes(0)],
            Err(PutFailed),
            4,
        ),
        (
            &[Step::Takes(1), Step::Fails(ErrorKind::BrokenPipe)],
            Err(PutFailed),
            1,
        ),
        (&[Step::Takes(0)], Err(PutFailed), 0),
        (&[], Err(PutFailed), 0),
    ];
    for (steps, answer, taken) in rows {
        let mut console = Console::new(Halting { steps, taken: 0 });
        assert_eq!(rt; console.put(b"hello"), answer);
        assert_eq!(rt; console.out.taken, taken);
        assert_eq!(rt; console.faults, if answer.is_ok() { 0 } else { 1 });
    }
    Ok(())
}
