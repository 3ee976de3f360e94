// The real shelf. It tells nothing of content, and counts each fault, and what it is asked to read and to write.
use crate::retry::{read_some, write_some};
use sd_base::{Failed, Name, Shelf};
use std::alloc::Global;
use std::io::Write;
use std::rt::Files;
use std::{fs, mem};

/// What is in hand: no file, or an opened one with its name.
#[derive(Drop)]
pub enum InHand<F> {
    Nothing,
    /// One that is read, with how many bytes were read.
    Read(F, Name, u64),
    /// One that is written.
    Write(F, Name),
}

/// The files of the system, under their paths.
#[derive(Drop)]
pub struct FileShelf<'a, R: Files> {
    rt: &'a R,
    alloc: Global,
    hand: InHand<R::File>,
    // the file that was written when a `finish` last failed
    unfinished: Option<Name>,
    // how many calls have failed; at its last value a count stands
    read_faults: u64,
    write_faults: u64,
    // how many readings and writings were begun; at its last value a count stands
    readings: u64,
    writings: u64,
}

impl<'a, R: Files> FileShelf<'a, R> {
    ghost use Rattle.std.specs.Prelude.{◌≡◌, []};
    ghost use Rattle.sd_base.specs.Asked.{AreCounts};
    ghost use Rattle.sd_base.specs.Shelf.{NoFile};
    ghost use Rattle.sd_cli.specs.Outside.{hand_of, unfinished_of};

    /// The shelf with no file in hand, no fault counted, and nothing asked of it.
    pub fn new(rt: &'a R, alloc: Global) -> Self
        ensures hand { hand_of result.hand ≡ NoFile }
        ensures unfinished { unfinished_of result.unfinished ≡ NoFile }
        ensures asked { AreCounts result.readings result.writings [] }
    {
        FileShelf {
            rt,
            alloc,
            hand: InHand::Nothing,
            unfinished: None,
            read_faults: 0,
            write_faults: 0,
            readings: 0,
            writings: 0,
        }
    }
}

impl<'a, R: Files> Shelf for FileShelf<'a, R> {
    ghost use Rattle.std.specs.Prelude.{None};
    ghost use Rattle.sd_base.specs.Asked.{AreCounts};
    ghost use Rattle.sd_cli.specs.Outside.{hand_of, unfinished_of};

    ghost files = { λ _. None };

    ghost hand = { λ shelf. hand_of shelf.hand };

    ghost read_faults = { λ shelf. shelf.read_faults };

    ghost write_faults = { λ shelf. shelf.write_faults };

    ghost unfinished = { λ shelf. unfinished_of shelf.unfinished };

    // the readings and the writings that are begun are counted
    ghost asked = { λ shelf requests. AreCounts shelf.readings shelf.writings requests };

    fn start_read(&mut self, name: &str) -> Result<(), Failed> {
        self.readings = self.readings.saturating_add(1);
        let Ok(held) = Name::copy_of(self.alloc, name) else {
            self.read_faults = self.read_faults.saturating_add(1);
            return Err(Failed);
        };
        match fs::open(self.rt, name) {
            Ok(file) => {
                self.hand = InHand::Read(file, held, 0);
                Ok(())
            }
            Err(_) => {
                self.read_faults = self.read_faults.saturating_add(1);
                Err(Failed)
            }
        }
    }

    fn read(&mut self, into: &mut [u8]) -> Result<usize, Failed> {
        if let InHand::Read(file, _, offset) = &mut self.hand {
            if let Some(count) = read_some(file, into) {
                if let Some(next) = offset.checked_add(count as u64) {
                    *offset = next;
                    return Ok(count);
                }
            }
        }
        self.hand = InHand::Nothing;
        self.read_faults = self.read_faults.saturating_add(1);
        Err(Failed)
    }

    fn start_write(&mut self, name: &str) -> Result<(), Failed> {
        self.writings = self.writings.saturating_add(1);
        let Ok(held) = Name::copy_of(self.alloc, name) else {
            self.write_faults = self.write_faults.saturating_add(1);
            return Err(Failed);
        };
        match fs::create(self.rt, name) {
            Ok(file) => {
                self.hand = InHand::Write(file, held);
                Ok(())
            }
            Err(_) => {
                self.write_faults = self.write_faults.saturating_add(1);
                Err(Failed)
            }
        }
    }

    fn append(&mut self, piece: &[u8]) -> Result<usize, Failed> {
        if let InHand::Write(file, _) = &mut self.hand {
            if let Some(count) = write_some(file, piece) {
                return Ok(count);
            }
        }
        self.hand = InHand::Nothing;
        self.write_faults = self.write_faults.saturating_add(1);
        Err(Failed)
    }

    fn finish(&mut self) -> Result<(), Failed> {
        let InHand::Write(mut file, name) = mem::replace(&mut self.hand, InHand::Nothing) else {
            return Ok(());
        };
        if file.flush().is_ok() {
            return Ok(());
        }
        self.unfinished = Some(name);
        self.write_faults = self.write_faults.saturating_add(1);
        Err(Failed)
    }
}
