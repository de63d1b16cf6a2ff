// The packet logs in files of the system.
ghost use Rattle.std.specs.Prelude.{◌≡◌, None};
ghost use Rattle.cts_outside.specs.Causes.{Cause};

use crate::console::write_whole;
use cts_base::Memory;
use cts_outside::{LogKind, PutFailed, Vault};
use std::alloc::{AllocGlobal, Global};
use std::fs::File;
use std::rt::Files;

/// How the files of a vault are opened.
#[derive(Clone, Copy, Debug, PartialEq, Eq)]
pub enum Opening {
    /// A file of that name is replaced.
    Replaced,
    /// There must be no file of that name yet.
    New,
}

/// The two packet logs in files of the system. The file of part 0 has the name of its log, and that of part n has `_n` in front of the
/// ending of that name, with n in decimal. Each file is opened at its first append, so a part to which nothing is appended has none, and
/// then the folder that has it is synced; an append that can't open it or sync the folder fails. It tells nothing of what the files hold,
/// since no proof sees that.
#[derive(Drop)]
pub struct DiskVault<'a, R> {
    rt: &'a R,
    opening: Opening,
    tlm: DiskLog<'a>,
    cmd: DiskLog<'a>,
    faults: u64,
}

// A log by the name of its first file, the number of its last part, and the file of that, which is open once something was appended.
#[derive(Drop)]
struct DiskLog<'a> {
    name: &'a str,
    part: u64,
    file: Option<File>,
}

impl<'a> DiskLog<'a> {
    fn append<R: Files<File = File> + AllocGlobal>(
        &mut self,
        rt: &R,
        opening: Opening,
        bytes: &[u8],
    ) -> Result<(), PutFailed> {
        let mut file = match self.file.take() {
            Some(file) => file,
            None => self.open(rt, opening)?,
        };
        let written = write_whole(&mut file, bytes);
        self.file = Some(file);
        written
    }

    fn open<R: Files<File = File> + AllocGlobal>(
        &self,
        rt: &R,
        opening: Opening,
    ) -> Result<File, PutFailed> {
        if self.part == 0 {
            return open(rt, opening, self.name);
        }
        match name_of_part(rt.alloc(), self.name, self.part) {
            Ok(name) => open(rt, opening, name.as_str()),
            Err(_) => Err(PutFailed),
        }
    }

    fn sync(&self) -> Result<(), PutFailed> {
        match &self.file {
            Some(file) => file.sync_all().map_err(|_| PutFailed),
            None => Ok(()),
        }
    }

    fn part(&mut self) -> Result<(), PutFailed> {
        match self.part.checked_add(1) {
            Some(next) => {
                self.part = next;
                self.file = None;
                Ok(())
            }
            None => Err(PutFailed),
        }
    }
}

// The name of the file of a part but the first: that of the log, with the number in front of its ending.
fn name_of_part(alloc: Global, name: &str, part: u64) -> Result<String, Memory> {
    match name.rsplit_once('.') {
        Some((stem, ending)) => Ok(format!(in alloc; "{stem}_{part}.{ending}")?),
        None => Ok(format!(in alloc; "{name}_{part}")?),
    }
}

fn open<R: Files<File = File>>(rt: &R, opening: Opening, name: &str) -> Result<File, PutFailed> {
    let opened = match opening {
        Opening::Replaced => File::create(rt, name),
        Opening::New => File::create_new(rt, name),
    };
    match opened {
        Ok(file) => {
            sync_folder(rt, name)?;
            Ok(file)
        }
        Err(_) => Err(PutFailed),
    }
}

// Makes sure that the name of a file which was opened outlives a stop of the system, as its bytes do once they are synced.
fn sync_folder<R: Files<File = File>>(rt: &R, name: &str) -> Result<(), PutFailed> {
    let folder = match name.rsplit_once('/') {
        Some(("", _)) => "/",
        Some((folder, _)) => folder,
        None => ".",
    };
    match File::open(rt, folder) {
        Ok(folder) => folder.sync_all().map_err(|_| PutFailed),
        Err(_) => Err(PutFailed),
    }
}

impl<'a, R: Files<File = File> + AllocGlobal> DiskVault<'a, R> {
    /// A vault over files of these names, none of which is open yet.
    pub fn new(rt: &'a R, opening: Opening, tlm: &'a str, cmd: &'a str) -> DiskVault<'a, R>
        ensures opening { result.opening ≡ opening }
        ensures names { (result.tlm.name.now ≡ tlm.now) × (result.cmd.name.now ≡ cmd.now) }
        ensures faults { result.faults ≡ 0 }
    {
        DiskVault {
            rt,
            opening,
            tlm: DiskLog {
                name: tlm,
                part: 0,
                file: None,
            },
            cmd: DiskLog {
                name: cmd,
                part: 0,
                file: None,
            },
            faults: 0,
        }
    }

    // Counts the call if it failed.
    fn counted(&mut self, answer: Result<(), PutFailed>) -> Result<(), PutFailed>
        ensures same { result ≡ answer }
        ensures cause { Cause result self.old.faults self.new.faults }
    {
        if answer.is_err() {
            self.faults = self.faults.saturating_add(1);
        }
        answer
    }
}

impl<'a, R: Files<File = File> + AllocGlobal> Vault for DiskVault<'a, R> {
    ghost seen = { λ v. record { told = None; faults = v.faults } };

    fn append(&mut self, kind: LogKind, bytes: &[u8]) -> Result<(), PutFailed> {
        let appended = match kind {
            LogKind::Tlm => self.tlm.append(self.rt, self.opening, bytes),
            LogKind::Cmd => self.cmd.append(self.rt, self.opening, bytes),
        };
        self.counted(appended)
    }

    fn sync(&mut self, kind: LogKind) -> Result<(), PutFailed> {
        let synced = match kind {
            LogKind::Tlm => self.tlm.sync(),
            LogKind::Cmd => self.cmd.sync(),
        };
        self.counted(synced)
    }

    fn part(&mut self, kind: LogKind) -> Result<(), PutFailed> {
        let begun = match kind {
            LogKind::Tlm => self.tlm.part(),
            LogKind::Cmd => self.cmd.part(),
        };
        self.counted(begun)
    }
}

#[cfg(test)]
mod tests;
