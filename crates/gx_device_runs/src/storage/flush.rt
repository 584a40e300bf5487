//! The flusher's calls, and what a refused step waits for.
use crate::storage::counts::Done;
use crate::storage::fault::{StorageFault, What};
use crate::storage::run::{Run, snapshot};
use crate::storage::volume::{Fault, NoSplit};
use gx_class::{Box2Class, KeyClass};
use gx_events::Need;
use gx_geom::{Box2, Refusal};
use gx_glog::{Stage, Turn};
use gx_record::{Mark, Record};
use gx_store::StoreFault;
use gx_tree::{SplitFault, StepFault};

/// How often a call is tried.
pub(crate) const TRIES: u32 = 200;

impl Run {
    /// Handles a failed call of the device: the machine stops, or the call is made again.
    pub(crate) fn failed(&mut self) -> Result<(), StorageFault> {
        self.counts.count(Done::Faults);
        if self.failing.stops {
            return Err(StorageFault::Stopped);
        }
        Ok(())
    }

    /// What a call of the device was refused for.
    fn refused(&mut self, refusal: Refusal) -> Result<(), StorageFault> {
        match refusal {
            Refusal::Device => self.failed(),
            _ => Err(StorageFault::Unexpected(What::Device)),
        }
    }

    /// Makes the event that a refused step waits for.
    pub(crate) fn help(&mut self, fault: Fault) -> Result<(), StorageFault> {
        match fault {
            StepFault::Pages(StoreFault::Device) => self.failed(),
            StepFault::Pages(fault) => self.follow(fault),
            StepFault::Damaged => Err(StorageFault::Unexpected(What::Step)),
        }
    }

    /// Makes the event that a refused split waits for.
    pub(crate) fn help_split(&mut self, fault: NoSplit) -> Result<(), StorageFault> {
        match fault {
            SplitFault::PagesFull => Err(StorageFault::PagesFull),
            SplitFault::Step(fault) => self.help(fault),
        }
    }

    /// Makes the event that the storage names.
    fn follow(&mut self, fault: StoreFault) -> Result<(), StorageFault> {
        match self.volume.help(fault) {
            Some(Need::Log) => {
                self.counts.count(Done::LogHelps);
                self.log_step()
            }
            Some(Need::Write(page)) => {
                self.counts.count(Done::WriteHelps);
                self.write_page(page)
            }
            Some(Need::Checkpoint) => self.checkpoint(),
            None => Ok(()),
        }
    }

    /// Before a batch begins: what is expected once it is gated.
    fn prepare_batch(&mut self) -> Result<(), StorageFault> {
        if self.expected.flight.is_none() && self.expected.fills {
            let next = snapshot(self.alloc, &self.tree, &self.book)?;
            self.expected.flight = Some(next);
            self.expected.fills = false;
        }
        Ok(())
    }

    /// The log's call was made.
    fn logged(&mut self, stage: Stage) {
        if stage == Stage::Gate {
            self.expected.gate_written = true;
        }
        if stage == Stage::GateSync {
            self.counts.count(Done::Batches);
            if let Some(gated) = self.expected.flight.take() {
                self.expected.gated = gated;
            }
            self.expected.gate_written = false;
        }
        self.expected.last = stage;
    }

    /// Makes the log's next call, or tries it.
    pub(crate) fn log_step(&mut self) -> Result<(), StorageFault> {
        self.prepare_batch()?;
        match self.volume.log_step() {
            Ok(Stage::Idle) => Ok(()),
            Ok(stage) => {
                self.counts.count(Done::Calls);
                self.logged(stage);
                Ok(())
            }
            Err(refusal) => {
                if self.expected.last == Stage::BodySync && self.failing.done {
                    self.expected.gate_written = true;
                }
                self.refused(refusal)
            }
        }
    }

    /// Makes the log's calls until all is gated.
    pub(crate) fn gate_all(&mut self) -> Result<(), StorageFault> {
        for _call in 0..TRIES {
            if self.expected.flight.is_none() && !self.expected.fills {
                return Ok(());
            }
            self.log_step()?;
        }
        Err(StorageFault::Unexpected(What::Log))
    }

    /// Writes a page, or tries it.
    pub(crate) fn write_page(&mut self, page: u32) -> Result<(), StorageFault> {
        match self.volume.write_page(page) {
            Ok(true) => {
                self.counts.count(Done::Calls);
                self.counts.count(Done::Written);
                Ok(())
            }
            Ok(false) => Err(StorageFault::Unexpected(What::PageWrite)),
            Err(refusal) => self.refused(refusal),
        }
    }

    /// Writes the least page that may be written, if there is one. Returns whether there was.
    pub(crate) fn write_least(&mut self) -> Result<bool, StorageFault> {
        match self.volume.dirty() {
            Some(page) => {
                self.write_page(page)?;
                Ok(true)
            }
            None => Ok(false),
        }
    }

    /// Writes each page that may be written.
    fn write_all(&mut self) -> Result<(), StorageFault> {
        for _page in 0..TRIES {
            if !self.write_least()? {
                return Ok(());
            }
        }
        Err(StorageFault::Unexpected(What::PageWrite))
    }

    /// Makes all writes durable.
    pub(crate) fn sync(&mut self) -> Result<(), StorageFault> {
        for _try in 0..TRIES {
            match self.volume.sync() {
                Ok(()) => {
                    self.counts.count(Done::Calls);
                    if self.expected.gate_written {
                        self.expected.last = Stage::GateSync;
                    }
                    return Ok(());
                }
                Err(refusal) => self.refused(refusal)?,
            }
        }
        Err(StorageFault::Unexpected(What::Sync))
    }

    /// Puts the notes of a session's transaction into the head.
    fn put_notes(&mut self, session: usize, transaction: u64) -> Result<(), StorageFault> {
        for row in 0..self.book.rows.len() {
            let entry = self.book.entry(row)?;
            let found = self.book.row(row)?;
            if found.owner == Some(session) && found.touched {
                let key = spelled(&entry.key);
                self.volume.put_head(&Record::Note {
                    tx: transaction,
                    row: entry.row,
                    key: &key,
                    before: if found.settled {
                        Mark::Live
                    } else {
                        Mark::Marked
                    },
                    leaf: found.leaf,
                })?;
            }
        }
        Ok(())
    }

    /// Puts the counters into the head.
    fn put_counters(&mut self, n: u64, next: u64) -> Result<(), StorageFault> {
        let counters = Record::Counters {
            n,
            counter: self.tree.counter(),
            used: self.tree.used(),
            next,
        };
        self.volume.put_head(&counters)?;
        Ok(())
    }

    /// Puts the head of the renewed log: the counters, and then the notes by transaction.
    fn put_head(&mut self) -> Result<(), StorageFault> {
        self.put_counters(self.book.number, self.book.next)?;
        let mut last = 0;
        for _session in 0..self.book.sessions.len() {
            if let Some((session, transaction)) = self.book.session_after(last) {
                self.put_notes(session, transaction)?;
                last = transaction;
            }
        }
        Ok(())
    }

    /// Makes the turn to the other extent.
    fn turn(&mut self) -> Result<(), StorageFault> {
        for _call in 0..TRIES {
            match self.volume.turn_step() {
                Ok(Turn::Done) => {
                    self.counts.count(Done::Calls);
                    self.counts.count(Done::Turns);
                    return Ok(());
                }
                Ok(_) => self.counts.count(Done::Calls),
                Err(refusal) => self.refused(refusal)?,
            }
        }
        Err(StorageFault::Unexpected(What::Turn))
    }

    /// Makes a checkpoint.
    pub(crate) fn checkpoint(&mut self) -> Result<(), StorageFault> {
        self.gate_all()?;
        self.write_all()?;
        self.sync()?;
        self.put_head()?;
        self.turn()
    }
}

/// A key's bytes.
fn spelled(key: &Box2) -> [u8; 16] {
    let mut bytes = [0; 16];
    Box2Class::encode(*key, &mut bytes);
    bytes
}
