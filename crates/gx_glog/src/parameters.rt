//! The sector that says what a device is formatted for.
ghost use Rattle.std.specs.Prelude.{◌≡◌, ◌++◌, ◌+◌, ◌≤◌, length, take, drop, replicate};
ghost use Rattle.gx_glog.specs.Parameters.{parameters_bytes};

use gx_disk::SECTOR_SIZE;

/// The sector that has the parameters.
pub const PARAMETERS: u64 = 1;

/// What a device is formatted for. Any numbers can be spelled; an opening tests whether they are in range.
#[derive(Clone, Copy, Debug, PartialEq, Eq)]
pub struct Parameters {
    /// How many pages there is room for.
    pub pages: u32,
    /// How many entries a node has at most.
    pub most: u16,
    /// The number of the class of keys.
    pub class: u16,
}

// Writes bytes over those from a place on.
pub(crate) fn write_at(sector: &mut [u8], at: usize, bytes: &[u8])
    requires { at + length bytes.now ≤ length sector.old }
    ensures { sector.new ≡ take at sector.old ++ (bytes.now ++ drop (at + length bytes.now) sector.old) }
{
    sector[at..at + bytes.len()].copy_from_slice(bytes);
}

impl Parameters {
    /// The one sector of these parameters: pages, entries and class, the greatest byte first, and zeros.
    pub fn encode(&self) -> [u8; SECTOR_SIZE]
        ensures { result ≡ parameters_bytes self.now ++ replicate 504 0 }
    {
        let mut sector = [0; SECTOR_SIZE];
        write_at(&mut sector, 0, &self.pages.to_be_bytes());
        write_at(&mut sector, 4, &self.most.to_be_bytes());
        write_at(&mut sector, 6, &self.class.to_be_bytes());
        sector
    }

    /// The parameters of a sector, of which only the first eight bytes are read.
    pub fn decode(sector: &[u8; SECTOR_SIZE]) -> Parameters
        ensures { take 8 sector.now ≡ parameters_bytes result }
    {
        Parameters {
            pages: u32::from_be_bytes([sector[0], sector[1], sector[2], sector[3]]),
            most: u16::from_be_bytes([sector[4], sector[5]]),
            class: u16::from_be_bytes([sector[6], sector[7]]),
        }
    }
}
