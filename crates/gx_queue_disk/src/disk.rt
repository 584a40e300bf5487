//! The device in memory whose calls are kept.
ghost use Rattle.std.specs.Prelude.{◌≡◌, ◌+◌, ◌*◌, ◌/◌, ◌^◌, ◌<◌, ◌++◌, ◌∷◌, []};
ghost use Rattle.std.specs.Prelude.{true, length, take, IsOk, IfErr, MatchResult};
ghost use Rattle.gx_disk.specs.Sectors.{IsSpan};
ghost use Rattle.gx_disk.specs.Device.{Counts, Reads, Writes, Syncs};
ghost use Rattle.gx_queue_disk.specs.Calls.{Write, Sync, bytes_after};
ghost use Rattle.gx_queue_disk.specs.Devices.{device_of, image_counts, image_is_now};

use crate::image::Image;
use crate::past::Past;
use crate::queue::CallQueue;
use crate::queues::QueuesCalls;
use gx_disk::{DiskFault, SECTOR_SIZE, SectorDisk};
use std::alloc::Global;
use std::mem;

/// A device in memory that keeps the calls that it made in a queue, until they are taken. A write or sync fails only if
/// there is no memory for it in the queue; it isn't made then.
#[derive(Drop)]
pub struct QueueDisk {
    sectors: usize,
    image: Image,
    queue: CallQueue,
    past: Past,
    ghost addressable: { 512 * sectors < 2 ^ 64 },
    ghost whole: { length image ≡ 512 * sectors },
    // the calls since the device was made have led to its bytes
    ghost led: { bytes_after (past.drained ++ queue) past.start ≡ image },
}

impl QueueDisk {
    /// Makes a device of the image's whole sectors, with nothing pending and no call in its queue.
    pub fn new(alloc: Global, image: Image) -> QueueDisk
        ensures sectors { result.sectors ≡ length image / 512 }
        ensures image { result.image ≡ take (512 * result.sectors) image }
        ensures queue { result.queue ≡ [] }
        ensures past { result.past ≡ record { start = result.image; drained = []; faults = 0; calls = 0 } }
    {
        let sectors = image.len() / SECTOR_SIZE;
        let mut image = image;
        image.cut(SECTOR_SIZE * sectors);
        let past = Past::of(&image);
        QueueDisk {
            sectors,
            image,
            queue: CallQueue::new(alloc),
            past,
        }
    }
}

impl SectorDisk for QueueDisk {
    ghost state = { λ d. device_of d.sectors d.past.start (d.past.drained ++ d.queue) d.image
        d.past.faults d.past.calls };

    ghost whole = { λ d honest. d.whole };

    ghost counts_now = { λ d t image honest. image_counts d.sectors d.past.start (d.past.drained ++ d.queue) d.image
        d.past.faults d.past.calls d.led t image };

    ghost only_now = { λ d image honest. image_is_now d.sectors d.past.start (d.past.drained ++ d.queue) d.image
        d.past.faults d.past.calls d.led image };

    fn sectors(&self) -> u64 {
        self.sectors as u64
    }

    #[tactic(auto, unfolding(gx_disk::specs::Sectors::span_of))]
    fn read(&mut self, first: u64, buffer: &mut [u8]) -> Result<(), DiskFault>
        requires { IsSpan self.old.sectors first (length buffer.old) }
        ensures counts { Counts 0 (⟦<QueueDisk as SectorDisk>⟧.state self.old)
            (⟦<QueueDisk as SectorDisk>⟧.state self.new) result }
        ensures reads { Reads first buffer.new (⟦<QueueDisk as SectorDisk>⟧.state self.old)
            (⟦<QueueDisk as SectorDisk>⟧.state self.new) result }
        ensures done { IsOk result }
        ensures same { self.new ≡ self.old }
    {
        let at = SECTOR_SIZE * first as usize;
        buffer.copy_from_slice(self.image.part(at, buffer.len()));
        Ok(())
    }

    fn write(&mut self, first: u64, bytes: &[u8]) -> Result<(), DiskFault>
        requires { IsSpan self.old.sectors first (length bytes.now) }
        ensures counts { Counts 1 (⟦<QueueDisk as SectorDisk>⟧.state self.old)
            (⟦<QueueDisk as SectorDisk>⟧.state self.new) result }
        ensures writes { Writes first (length bytes.now / SECTOR_SIZE) bytes.now
            (⟦<QueueDisk as SectorDisk>⟧.state self.old) (⟦<QueueDisk as SectorDisk>⟧.state self.new) result }
        ensures queue { MatchResult result (λ _. self.new.queue ≡ self.old.queue ++ Write first bytes.now ∷ [])
            (λ _. self.new.queue ≡ self.old.queue) }
        ensures drained { self.new.past.drained ≡ self.old.past.drained }
        ensures fault { IfErr result (λ fault. fault ≡ DiskFault.Memory) }
    {
        match self.queue.push_write(first, bytes) {
            Ok(()) => {
                self.past = self.past.counted(false);
                self.image.overwrite(SECTOR_SIZE * first as usize, bytes);
                Ok(())
            }
            Err(_) => {
                self.past = self.past.counted(true);
                Err(DiskFault::Memory)
            }
        }
    }

    fn sync(&mut self) -> Result<(), DiskFault>
        ensures counts { Counts 1 (⟦<QueueDisk as SectorDisk>⟧.state self.old)
            (⟦<QueueDisk as SectorDisk>⟧.state self.new) result }
        ensures syncs { Syncs (⟦<QueueDisk as SectorDisk>⟧.state self.old)
            (⟦<QueueDisk as SectorDisk>⟧.state self.new) result }
        ensures queue { MatchResult result (λ _. self.new.queue ≡ self.old.queue ++ Sync ∷ [])
            (λ _. self.new.queue ≡ self.old.queue) }
        ensures drained { self.new.past.drained ≡ self.old.past.drained }
        ensures fault { IfErr result (λ fault. fault ≡ DiskFault.Memory) }
    {
        match self.queue.push_sync() {
            Ok(()) => {
                self.past = self.past.counted(false);
                Ok(())
            }
            Err(_) => {
                self.past = self.past.counted(true);
                Err(DiskFault::Memory)
            }
        }
    }
}

impl QueuesCalls for QueueDisk {
    ghost queued = { λ d. d.queue };

    fn drain(&mut self, calls: &mut CallQueue) {
        self.past = self.past.with_drained(&self.queue);
        mem::swap(&mut self.queue, calls);
    }
}
