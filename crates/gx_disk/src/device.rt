//! What a device of whole sectors promises.
ghost use Rattle.std.specs.Prelude.{◌≡◌, ◌+◌, ◌*◌, ◌/◌, ◌≤◌, ℕ, List, true, length};
ghost use Rattle.gx_disk.specs.Sectors.{IsSpan};
ghost use Rattle.gx_disk.specs.Device.{Device, MayLeave, Counts, Reads, Writes, Syncs};

use gx_geom::Refusal;
use std::io::ErrorKind;

/// How many bytes a sector has.
pub const SECTOR_SIZE: usize = 512;

/// Why a call of a device failed.
#[derive(Clone, Copy, Debug, PartialEq, Eq)]
pub enum DiskFault {
    /// There was no memory for the record of a call, or for a handle for early syncs.
    Memory,
    /// The call was made to fail, in a test.
    Fuse,
    /// The system refused a call on the file, with an error of this kind. It is `UnexpectedEof` if the file is shorter
    /// than it was.
    File(ErrorKind),
    /// The system met an input or output error, for which `ErrorKind` has no name.
    InputOutput,
    /// Another opener has the file.
    InUse,
    /// The file was opened for reading alone.
    ReadOnly,
}

/// A function that calls a device is refused with `Device` if that call failed.
impl From<DiskFault> for Refusal {
    ghost use Rattle.gx_geom.specs.declared.refusal.Refusal.TheVariants.{Device as DeviceRefusal};

    ghost from_gives = { λ _ refusal. refusal ≡ DeviceRefusal };

    fn from(_fault: DiskFault) -> Refusal {
        Refusal::Device
    }
}

pub trait SectorDisk {
    /// How contracts see the device.
    ghost state: { Self → Device };

    /// How many sectors the device has.
    fn sectors(&self) -> u64
        ensures { result ≡ (state self.now).sectors };

    /// Reads whole sectors.
    fn read(&mut self, first: u64, buffer: &mut [u8]) -> Result<(), DiskFault>
        requires { IsSpan (state self.old).sectors first (length buffer.old) }
        ensures counts { Counts 0 (state self.old) (state self.new) result }
        ensures reads { (state self.old).honest ≡ true
            → Reads first buffer.new (state self.old) (state self.new) result };

    /// Writes whole sectors.
    fn write(&mut self, first: u64, bytes: &[u8]) -> Result<(), DiskFault>
        requires { IsSpan (state self.old).sectors first (length bytes.now) }
        ensures counts { Counts 1 (state self.old) (state self.new) result }
        ensures writes { (state self.old).honest ≡ true
            → Writes first (length bytes.now / SECTOR_SIZE) bytes.now (state self.old) (state self.new) result };

    /// Makes every sector durable.
    fn sync(&mut self) -> Result<(), DiskFault>
        ensures counts { Counts 1 (state self.old) (state self.new) result }
        ensures syncs { (state self.old).honest ≡ true → Syncs (state self.old) (state self.new) result };

    /// The device reads whole sectors.
    ghost whole: { (d : Self) → (state d).honest ≡ true → length (state d).seen ≡ 512 * (state d).sectors };

    /// What a crash may leave now is among what a crash may have left since each earlier moment.
    ghost counts_now: { (d : Self) (t : ℕ) (image : List ℕ) → (state d).honest ≡ true → t ≤ (state d).moment
        → MayLeave (state d) image → (state d).left_since t image };

    /// What a crash may have left since this moment is what a crash may leave now.
    ghost only_now: { (d : Self) (image : List ℕ) → (state d).honest ≡ true
        → (state d).left_since (state d).moment image → MayLeave (state d) image };
}
