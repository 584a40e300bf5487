//! Pages with their log. Its contracts need to know only that no turn of the log is under way.
ghost use Rattle.std.specs.Prelude.{◌≡◌, ◌<◌, false};
ghost use Rattle.gx_glog.specs.declared.extent.TheConstants.{PLACES};
ghost use Rattle.gx_glog.specs.declared.stage.Turn.TheVariants.{Closed};
ghost use Rattle.gx_record.specs.Format.{IsInRange};
ghost use Rattle.gx_record.specs.Seen.{rec_of};
ghost use Rattle.gx_device_runs.specs.Ready.{IsReady};

use gx_class::{Probing, ReadKeys};
use gx_disk::SectorDisk;
use gx_events::Need;
use gx_geom::Refusal;
use gx_glog::{PLACES, Stage, Turn};
use gx_machine::Entry;
use gx_node::MAX_ENTRIES;
use gx_record::Record;
use gx_storage::Storage;
use gx_store::StoreFault;
use gx_tree::{Descended, RootSplit, Sought, Split, SplitFault, StepFault, TraversalItem};

/// Why a call of the pages was refused.
pub(crate) type Fault = StepFault<StoreFault>;

/// Why a split was refused.
pub(crate) type NoSplit = SplitFault<StoreFault>;

/// Pages with their log.
#[derive(Drop)]
pub(crate) struct Volume<D: SectorDisk, K: ReadKeys> {
    storage: Storage<D, K>,
    /// Whether a turn of the log may be under way.
    turning: bool,
    ghost ready: { IsReady turning storage },
}

impl<D: SectorDisk, K: ReadKeys> Volume<D, K> {
    pub(crate) fn new(storage: Storage<D, K>) -> Volume<D, K>
        requires { IsReady false storage }
    {
        Volume {
            storage,
            turning: false,
        }
    }

    /// The device, as the calls left it.
    pub(crate) fn into_disk(self) -> D {
        let Volume {
            storage,
            turning: _,
        } = self;
        storage.into_disk()
    }

    /// Whether no record has a place while a turn is under way, or each place is taken.
    fn is_closed(&self) -> bool
        ensures { result ≡ false → (self.now.storage.log.turn ≡ Closed) × (self.now.storage.log.used < PLACES) }
    {
        self.turning || self.storage.places() >= PLACES
    }

    pub(crate) fn help(&self, fault: StoreFault) -> Option<Need> {
        self.storage.help(fault)
    }

    /// How many places of the log are taken.
    pub(crate) fn places(&self) -> u8 {
        self.storage.places()
    }

    /// The least page that may be written.
    pub(crate) fn dirty(&self) -> Option<u32> {
        self.storage.dirty()
    }

    pub(crate) fn log_step(&mut self) -> Result<Stage, Refusal> {
        self.storage.log_step()
    }

    pub(crate) fn write_page(&mut self, page: u32) -> Result<bool, Refusal> {
        self.storage.write_page(page)
    }

    pub(crate) fn sync(&mut self) -> Result<(), Refusal> {
        self.storage.sync()
    }

    /// Puts a record into the head of a turn, once nothing is in flight. `TooSmall` if it doesn't go there.
    pub(crate) fn put_head(&mut self, logged: &Record<'_>) -> Result<(), Refusal>
        requires in_range { IsInRange (rec_of logged.now) }
    {
        let Stage::Idle = self.storage.log_step()? else {
            return Err(Refusal::CallOpen);
        };
        match self.storage.put_head(logged) {
            Ok(()) => Ok(()),
            Err(_) => Err(Refusal::TooSmall),
        }
    }

    /// Makes the next call of a turn. `CallOpen` if it may not begin.
    pub(crate) fn turn_step(&mut self) -> Result<Turn, Refusal> {
        if !self.storage.may_turn() {
            return Err(Refusal::CallOpen);
        }
        self.turning = true;
        let made = self.storage.turn_step()?;
        if let Turn::Done = made {
            self.turning = false;
        }
        Ok(made)
    }

    pub(crate) fn append_commit(&mut self, transaction: u64, number: u64) -> Result<(), Fault> {
        if self.is_closed() {
            return Err(StepFault::Pages(StoreFault::NoRoom));
        }
        self.storage.append_commit(transaction, number)?;
        Ok(())
    }

    pub(crate) fn append_end(&mut self, transaction: u64) -> Result<(), Fault> {
        if self.is_closed() {
            return Err(StepFault::Pages(StoreFault::NoRoom));
        }
        self.storage.append_end(transaction)?;
        Ok(())
    }

    pub(crate) fn add(
        &mut self,
        transaction: u64,
        page: u32,
        entry: &Entry<K::Key>,
    ) -> Result<(), Fault> {
        if self.is_closed() {
            return Err(StepFault::Pages(StoreFault::NoRoom));
        }
        self.storage.add(transaction, page, entry)
    }

    pub(crate) fn descend(
        &mut self,
        item: &TraversalItem,
        coming: &K::Key,
    ) -> Result<Descended<K::Key>, Fault> {
        if self.is_closed() {
            return Err(StepFault::Pages(StoreFault::NoRoom));
        }
        self.storage.descend(item, coming)
    }
}

impl<D: SectorDisk, K: ReadKeys> Volume<D, K> {
    pub(crate) fn sweep<F: Fn(Entry<K::Key>) -> bool>(
        &mut self,
        page: u32,
        claimed: F,
    ) -> Result<bool, Fault>
        requires { F.IsAlwaysCallable claimed }
    {
        if self.is_closed() {
            return Err(StepFault::Pages(StoreFault::NoRoom));
        }
        self.storage.sweep(page, claimed)
    }
}

impl<D: SectorDisk, K: ReadKeys> Volume<D, K> {
    pub(crate) fn split(
        &mut self,
        page: u32,
        parent: u32,
        keys: &mut [K::Key],
    ) -> Result<Option<Split<K::Key>>, NoSplit> {
        if self.is_closed() || keys.len() < MAX_ENTRIES {
            return Err(NoSplit::from(StoreFault::NoRoom));
        }
        self.storage.split(page, parent, keys)
    }

    pub(crate) fn split_root(&mut self, keys: &mut [K::Key]) -> Result<RootSplit<K::Key>, NoSplit> {
        if self.is_closed() || keys.len() < MAX_ENTRIES {
            return Err(NoSplit::from(StoreFault::NoRoom));
        }
        self.storage.split_root(keys)
    }
}

impl<D: SectorDisk, K: ReadKeys + Probing> Volume<D, K> {
    pub(crate) fn set_mark(
        &mut self,
        transaction: u64,
        page: u32,
        entry: &Entry<K::Key>,
        marked: bool,
    ) -> Result<Sought, Fault> {
        if self.is_closed() {
            return Err(StepFault::Pages(StoreFault::NoRoom));
        }
        self.storage.set_mark(transaction, page, entry, marked)
    }
}
