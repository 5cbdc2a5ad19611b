//! A disk over memory that crashes, of which each clause of `Disk` is proved.

ghost use Rattle.std.specs.Prelude.{◌≡◌, ℕ, ◌≤◌, [], IfOk, OnErr, OnOk};
ghost use Rattle.pocsag_journal.specs.Moments.{Elapses};
ghost use Rattle.pocsag_command_cases.specs.Disks.{DiskLeaves, LeavesFrom, LeftSince, lines_length, moment_after, text_front};

use pocsag_journal::Disk;
use pocsag_pages::WholeFault;
use pocsag_words::DeviceFault;
use std::alloc::{AllocError, Global};

// What was put on a disk at once, and the lines that were written behind it.
#[derive(Drop)]
struct Text {
    begun: Vec<u8>,
    lines: Vec<u8>,
}

impl Text {
    // What was put there at once, and at most so many bytes of the lines.
    fn front(&self, alloc: Global, most: usize) -> Result<Vec<u8>, AllocError>
        ensures { IfOk result (λ bytes. bytes.items ≡ text_front self.now most) }
    {
        let mut bytes = self.begun.to_vec(alloc)?;
        bytes.extend_from_slice(&self.lines.as_slice()[..most.min(self.lines.len())])?;
        Ok(bytes)
    }
}

// Puts a text in the place of the one that is there, which joins the past ones.
fn put(alloc: Global, text: &mut Text, past: &mut Vec<Text>, bytes: &[u8]) -> Result<(), AllocError>
    ensures begun { OnOk result (text.new.begun.items ≡ bytes.now) }
    ensures lines { OnOk result (text.new.lines.items ≡ []) }
    ensures same_text { OnErr result (text.new ≡ text.old) }
    ensures same_past { OnErr result (past.new.items ≡ past.old.items) }
    ensures time { OnOk result ((synced : ℕ) → synced ≤ lines_length text.old →
        Elapses (moment_after past.old.items synced) (moment_after past.new.items 0)
        (LeftSince past.old.items text.old) (LeftSince past.new.items text.new) (LeavesFrom text.new 0)) }
{
    let begun = bytes.to_vec(alloc)?;
    past.push(Text {
        begun: text.begun.to_vec(alloc)?,
        lines: text.lines.to_vec(alloc)?,
    })?;
    *text = Text {
        begun,
        lines: Vec::new(alloc),
    };
    Ok(())
}

/// A disk over memory, of which a crash leaves what was synchronised, and of the rest any first bytes. It takes so many
/// bytes of lines in all, and serves so many calls of `sync` and `replace`; after these each call fails.
#[derive(Drop)]
pub(crate) struct CrashDisk {
    alloc: Global,
    text: Text,
    // How many bytes of its lines are not synchronised.
    unsynced: usize,
    past: Vec<Text>,
    bytes_left: usize,
    compactions_left: u64,
    pub(crate) syncs: u64,
    failures: u64,
    // Whether a `sync` failed: no later one brings to the disk what was to be written.
    is_lost: bool,
}

impl CrashDisk {
    ghost use Rattle.std.specs.Prelude.{false};
    ghost use Rattle.pocsag_journal.specs.Moments.{IsSafe};
    ghost use Rattle.pocsag_command_cases.specs.Disks.{disk_bytes};

    /// A disk that holds these bytes, which no crash takes away.
    pub(crate) fn of(
        alloc: Global,
        bytes: &[u8],
        takes: usize,
        compacts: u64,
    ) -> Result<CrashDisk, AllocError>
        ensures held { IfOk result (λ disk. disk_bytes disk ≡ bytes.now) }
        ensures safe { IfOk result (λ disk. IsSafe bytes.now (DiskLeaves disk)) }
        ensures sound { IfOk result (λ disk. disk.is_lost ≡ false) }
    {
        let text = Text {
            begun: bytes.to_vec(alloc)?,
            lines: Vec::new(alloc),
        };
        Ok(CrashDisk {
            alloc,
            text,
            unsynced: 0,
            past: Vec::new(alloc),
            bytes_left: takes,
            compactions_left: compacts,
            syncs: 0,
            failures: 0,
            is_lost: false,
        })
    }

    // What a crash leaves, where so many bytes more than were synchronised are on the disk.
    pub(crate) fn left(&self, more: usize) -> Result<Vec<u8>, AllocError>
        ensures { IfOk result (λ bytes. DiskLeaves self.now bytes.items) }
    {
        let synced = self.text.lines.len().saturating_sub(self.unsynced);
        self.text.front(self.alloc, synced.saturating_add(more))
    }
}

impl Disk for CrashDisk {
    ghost use Rattle.pocsag_command_cases.specs.Disks.{DiskLeftSince, counts_now, disk_bytes, disk_moment, disk_synced, only_now};
    ghost use Rattle.std.specs.Prelude.{false};

    ghost is_known = { Unit {0} };

    ghost held = { disk_bytes };

    ghost may_leave = { DiskLeaves };

    ghost moment = { disk_moment };

    ghost left_since = { DiskLeftSince };

    ghost failures = { λ disk. disk.failures };

    ghost is_sound = { λ disk. disk.is_lost ≡ false };

    ghost counts_now = { λ disk t left is_known le now. counts_now disk.past.items disk.text (disk_synced disk) t left le now };

    ghost only_now = { λ disk left is_known since. only_now disk.past.items disk.text (disk_synced disk) left since };

    fn read(&mut self, alloc: Global, most: usize) -> Result<Vec<u8>, WholeFault> {
        let all = self.text.lines.len();
        match self.text.front(alloc, all) {
            Ok(bytes) if bytes.len() > most => Err(WholeFault::TooLarge),
            Ok(bytes) => Ok(bytes),
            Err(_) => Err(WholeFault::OutOfMemory),
        }
    }

    fn append(&mut self, line: &[u8]) -> Result<(), DeviceFault> {
        // It has failed unless it is done.
        let failures = self.failures;
        self.failures = failures.saturating_add(1);
        let front = &line[..line.len().min(self.bytes_left)];
        let synced = self.text.lines.len().saturating_sub(self.unsynced);
        let Ok(()) = self.text.lines.extend_from_slice(front) else {
            return Err(DeviceFault);
        };
        self.bytes_left -= front.len();
        self.unsynced = self.text.lines.len() - synced;
        if front.len() < line.len() {
            return Err(DeviceFault);
        }
        self.failures = failures;
        Ok(())
    }

    fn sync(&mut self) -> Result<(), DeviceFault> {
        self.syncs = self.syncs.saturating_add(1);
        if self.compactions_left == 0 {
            self.is_lost = true;
            self.failures = self.failures.saturating_add(1);
            return Err(DeviceFault);
        }
        self.compactions_left -= 1;
        if !self.is_lost {
            self.unsynced = 0;
        }
        Ok(())
    }

    fn replace(&mut self, text: &[u8]) -> Result<(), DeviceFault> {
        // It has failed unless it is done.
        let failures = self.failures;
        self.failures = failures.saturating_add(1);
        if self.compactions_left == 0 {
            return Err(DeviceFault);
        }
        let Ok(()) = put(self.alloc, &mut self.text, &mut self.past, text) else {
            return Err(DeviceFault);
        };
        self.failures = failures;
        self.compactions_left -= 1;
        self.unsynced = 0;
        self.is_lost = false;
        Ok(())
    }
}
