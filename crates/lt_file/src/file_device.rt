//! A file as a device.

ghost use Rattle.std.specs.Prelude.{◌≡◌, ◌<◌, ◌^◌, OnOk, OnErr, IsOk, ◌↔◌};
ghost use Rattle.lt_terms.specs.Causes.{next_count};
ghost use Rattle.lt_device.specs.State.{tells_nothing, Wrote};

use super::counts::risen;
use lt_device::Device;
use lt_page::{Failed, Page};
use std::fs::File;
use std::io;
use std::marker::Model;
use std::os::unix::fs::FileExt;

/// How many blocks the device has: with 4,096 bytes each, 64 GiB.
const BLOCKS: u64 = 1 << 24;

/// A file as a device of 2^24 blocks. Block b lies at offset 4,096 b; past the file's end all bytes are
/// zeros. The count of faults rises with each call of the system that fails.
#[derive(Drop)]
pub struct FileDevice {
    file: File,
    reads: u64,
    faults: u64,
}

impl Model for FileDevice {
    ghost use Rattle.lt_file.specs.Counts.{DeviceCounts};

    ghost Value = { DeviceCounts };

    ghost view = { λ d. record { reads = d.reads; faults = d.faults } };
}

impl FileDevice {
    /// A device over a file that is open for reading and writing. No block was read, and there was no
    /// fault.
    pub fn new(file: File) -> FileDevice
        ensures { result ≡ record { reads = 0; faults = 0 } }
    {
        FileDevice {
            file,
            reads: 0,
            faults: 0,
        }
    }

    /// What a call of the system answered; its error is counted.
    fn counted(&mut self, answer: io::Result<()>) -> Result<(), Failed>
        ensures answer { IsOk result ↔ IsOk answer }
        ensures ok { OnOk result (self.new ≡ self.old) }
        ensures err { OnErr result (self.new ≡ record self.old { faults = next_count self.old.faults }) }
    {
        if answer.is_err() {
            self.faults = risen(self.faults);
            return Err(Failed);
        }
        Ok(())
    }
}

impl Device for FileDevice {
    ghost blocks = { λ _. 2 ^ 24 };

    ghost reads = { λ device. device.reads };

    ghost faults = { λ device. device.faults };

    ghost state = { λ _. tells_nothing };

    fn blocks(&self) -> u64 {
        BLOCKS
    }

    fn reads(&self) -> u64 {
        self.reads
    }

    fn read(&mut self, block: u64, into: &mut Page) -> Result<(), Failed>
        requires { block < 2 ^ 24 }
        ensures counted { self.new.reads ≡ next_count self.old.reads }
        ensures ok { OnOk result (self.new.faults ≡ self.old.faults) }
        ensures err { OnErr result (self.new.faults ≡ next_count self.old.faults) }
    {
        self.reads = risen(self.reads);
        let answer = read_block(&self.file, block, into);
        self.counted(answer)
    }

    #[tactic(auto, using(lt_device::proofs::Silent::wrote_nothing))]
    fn write(&mut self, block: u64, from: &Page) -> Result<(), Failed>
        requires { block < 2 ^ 24 }
        ensures wrote { Wrote (2 ^ 24) block tells_nothing tells_nothing }
        ensures ok { OnOk result (self.new ≡ self.old) }
        ensures err { OnErr result (self.new ≡ record self.old { faults = next_count self.old.faults }) }
    {
        let answer = self.file.write_all_at(from.bytes(), block * 4096);
        self.counted(answer)
    }

    fn sync(&mut self) -> Result<(), Failed>
        ensures ok { OnOk result (self.new ≡ self.old) }
        ensures err { OnErr result (self.new ≡ record self.old { faults = next_count self.old.faults }) }
    {
        let answer = self.file.sync_data();
        self.counted(answer)
    }
}

/// Reads a block at its offset, with zeros past the file's end.
pub(super) fn read_block<F: FileExt>(file: &F, block: u64, into: &mut Page) -> io::Result<()>
    requires { block < 2 ^ 24 }
{
    let mut bytes = [0; Page::LEN];
    let mut at = 0;
    while at < Page::LEN {
        let count = file.read_at(&mut bytes[at..], block * 4096 + at as u64)?;
        if count == 0 {
            break;
        }
        at += count;
    }
    into.fill_from(0, &bytes);
    Ok(())
}
