//! The kinds of address, and what stops an access.

ghost use Rattle.std.specs.Prelude.{◌≡◌, ◌+◌, ◌*◌, ◌/◌, ◌%◌, ◌^◌, ◌<◌};
ghost use Rattle.sb_memory.specs.declared.page.TheConstants.{PAGE_SIZE};
ghost use Rattle.sb_memory.specs.Address.{is_canonical};

use crate::page::PAGE_SIZE;
use thiserror::Error;

/// The number of a frame: 4,096 bytes of physical memory.
#[derive(Clone, Copy, Debug, PartialEq, Eq, PartialOrd, Ord, Hash)]
pub struct Frame(pub u32);

impl Frame {
    /// The place of its first byte.
    pub fn base(self) -> PhysAddr
        ensures { result.0 ≡ PAGE_SIZE * self.0 }
    {
        PhysAddr(PAGE_SIZE * u64::from(self.0))
    }

    /// The place of the word of 8 bytes with an index, from 0 to 511.
    pub fn word(self, index: u64) -> PhysAddr
        requires { 8 * index < PAGE_SIZE }
        ensures { result.0 ≡ PAGE_SIZE * self.0 + 8 * index }
    {
        PhysAddr(PAGE_SIZE * u64::from(self.0) + 8 * index)
    }
}

/// An address in physical memory.
#[derive(Clone, Copy, Debug, PartialEq, Eq, PartialOrd, Ord, Hash)]
pub struct PhysAddr(pub u64);

/// An address before the EPT translates it.
#[derive(Clone, Copy, Debug, PartialEq, Eq, PartialOrd, Ord, Hash)]
pub struct GuestPhys(pub u64);

impl GuestPhys {
    /// Where it lies in its page, in bytes.
    pub fn offset(self) -> u64
        ensures value { result ≡ self.0 % PAGE_SIZE }
        ensures range { result < PAGE_SIZE }
    {
        self.0 % PAGE_SIZE
    }
}

/// An address as instructions use it, before paging translates it.
#[derive(Clone, Copy, Debug, PartialEq, Eq, PartialOrd, Ord, Hash)]
pub struct Linear(pub u64);

impl Linear {
    /// Whether bits 63 to 47 are all the same (SDM volume 1, section 3.3.7.1).
    pub fn is_canonical(self) -> bool
        ensures { result ≡ is_canonical self.0 }
    {
        self.0 >> 47 == 0 || self.0 >> 47 == 0x1_FFFF
    }

    /// The number of its page.
    pub fn page(self) -> u64
        ensures { result ≡ self.0 / PAGE_SIZE }
    {
        self.0 / PAGE_SIZE
    }

    /// Where it lies in its page, in bytes.
    pub fn offset(self) -> u64
        ensures value { result ≡ self.0 % PAGE_SIZE }
        ensures range { result < PAGE_SIZE }
    {
        self.0 % PAGE_SIZE
    }

    /// The address so many bytes further. After the last address comes address 0.
    pub fn further(self, bytes: u64) -> Linear
        ensures { result.0 ≡ (self.0 + bytes) % 2 ^ 64 }
    {
        Linear(self.0.wrapping_add(bytes))
    }
}

/// What an access does with the bytes that it reaches.
#[derive(Clone, Copy, Debug, PartialEq, Eq)]
pub enum Access {
    Read,
    Write,
    /// Fetch of an instruction's bytes.
    Fetch,
}

/// A frame that this memory does not have.
#[derive(Clone, Copy, Debug, PartialEq, Eq, Error)]
#[error("no frame {number}", number = .frame.0)]
pub struct Missing {
    pub frame: Frame,
}

/// Why the EPT gives no physical address. Levels run from 4, the PML4 table, to 1, the page table.
#[derive(Clone, Copy, Debug, PartialEq, Eq, Error)]
pub enum EptStop {
    /// The guest-physical address has more than 48 bits.
    #[error("the guest-physical address has more than 48 bits")]
    TooWide,
    /// This memory does not have the frame of a table.
    #[error("no frame {number}", number = .0.0)]
    Missing(Frame),
    /// EPT violation: an entry permits nothing.
    #[error("EPT violation: nothing is permitted at level {level}")]
    NotPresent { level: u8 },
    /// EPT misconfiguration: write permitted without read, or a memory type other than 6 (write-back).
    #[error("EPT misconfiguration at level {level}")]
    Misconfigured { level: u8 },
    /// An entry maps a large page, which this machine does not have.
    #[error("a large page at level {level}")]
    Large { level: u8 },
    /// An entry leads past the end of memory.
    #[error("the entry at level {level} leads past the end of memory")]
    Outside { level: u8 },
    /// EPT violation: an entry does not permit this access.
    #[error("EPT violation: the access is not permitted at level {level}")]
    Denied { level: u8 },
}
