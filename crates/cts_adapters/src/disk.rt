// Files of the system.
ghost use Rattle.std.specs.Prelude.{◌≡◌, None};
ghost use Rattle.std.specs.Io.{ReadsAtMost};
ghost use Rattle.cts_outside.specs.Causes.{Rose};

use cts_outside::{FileGot, Files};
use std::fs::File;
use std::io;
use std::io::ErrorKind;
use std::os::unix::fs::FileExt;

/// Files of the system. It tells nothing of what they hold, since no proof sees that. The file that was read last stays
/// open, so that one which is read in pieces is opened once, and its pieces are of one file.
#[derive(Drop)]
pub struct DiskFiles<'a, R> {
    rt: &'a R,
    last: Option<Opened>,
    faults: u64,
    absences: u64,
}

// An open file, and its name where memory for it was found.
#[derive(Drop)]
struct Opened {
    name: Option<String>,
    file: File,
}

impl Opened {
    fn is_called(&self, name: &str) -> bool {
        match &self.name {
            Some(own) => own.as_str() == name,
            None => false,
        }
    }
}

impl<'a, R: std::rt::Files<File = File> + AllocGlobal> DiskFiles<'a, R> {
    /// No file is open yet.
    pub fn new(rt: &'a R) -> DiskFiles<'a, R>
        ensures faults { result.faults ≡ 0 }
        ensures absences { result.absences ≡ 0 }
    {
        DiskFiles {
            rt,
            last: None,
            faults: 0,
            absences: 0,
        }
    }

    // The file of that name: the one that is open, or one that is opened now.
    fn open(&mut self, name: &str) -> io::Result<Opened>
        ensures faults { self.new.faults ≡ self.old.faults }
        ensures absences { self.new.absences ≡ self.old.absences }
    {
        match self.last.take() {
            Some(last) if last.is_called(name) => Ok(last),
            _ => Ok(Opened {
                name: String::from_str(self.rt.alloc(), name).ok(),
                file: File::open(self.rt, name)?,
            }),
        }
    }

    fn absent(&mut self) -> FileGot
        ensures got { result ≡ FileGot.Absent }
        ensures faults { self.new.faults ≡ self.old.faults }
        ensures absences { Rose self.old.absences self.new.absences }
    {
        self.absences = self.absences.saturating_add(1);
        FileGot::Absent
    }

    fn failed(&mut self) -> FileGot
        ensures got { result ≡ FileGot.Failed }
        ensures faults { Rose self.old.faults self.new.faults }
        ensures absences { self.new.absences ≡ self.old.absences }
    {
        self.faults = self.faults.saturating_add(1);
        FileGot::Failed
    }
}

impl<'a, R: std::rt::Files<File = File> + AllocGlobal> Files for DiskFiles<'a, R> {
    ghost seen = { λ s. record { told = None; faults = s.faults; absences = s.absences } };

    fn read(&mut self, name: &str, from: u64, buffer: &mut [u8]) -> FileGot {
        let opened = match self.open(name) {
            Ok(opened) => opened,
            Err(error) if error.kind() == ErrorKind::NotFound => return self.absent(),
            Err(_) => return self.failed(),
        };
        match read_from(&opened.file, from, buffer) {
            Ok(count) => {
                self.last = Some(opened);
                if count == 0 {
                    FileGot::End
                } else {
                    FileGot::Got(count)
                }
            }
            Err(_) => self.failed(),
        }
    }
}

// Reads from a place on, again where the read is interrupted. No file reaches a place past the greatest signed number.
fn read_from(file: &File, from: u64, buffer: &mut [u8]) -> io::Result<usize>
    ensures { ReadsAtMost result buffer.new }
{
    if from > i64::MAX as u64 {
        return Ok(0);
    }
    'tries: for _ in 0..u64::MAX {
        match file.read_at(buffer, from) {
            Err(error) if error.kind() == ErrorKind::Interrupted => {}
            read => return read,
        }
    }
    Err(io::Error::from(ErrorKind::Interrupted))
}

#[cfg(test)]
mod tests;
