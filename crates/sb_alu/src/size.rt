//! The sizes of operands.

ghost use Rattle.std.specs.Prelude.{◌≡◌, ◌-◌, ◌<◌};
ghost use Rattle.sb_alu.specs.Size.{size_bytes, size_bits, modulus, half, low};

/// One, four or eight bytes.
#[derive(Clone, Copy, Debug, PartialEq, Eq)]
pub enum Size {
    Byte,
    Doubleword,
    Quadword,
}

impl Size {
    /// The number of bytes.
    pub fn bytes(self) -> u8
        ensures { result ≡ size_bytes self }
    {
        match self {
            Size::Byte => 1,
            Size::Doubleword => 4,
            Size::Quadword => 8,
        }
    }

    /// The number of bits.
    pub fn bits(self) -> u32
        ensures { result ≡ size_bits self }
    {
        match self {
            Size::Byte => 8,
            Size::Doubleword => 32,
            Size::Quadword => 64,
        }
    }

    /// The largest number.
    pub fn mask(self) -> u64
        ensures { result ≡ modulus self - 1 }
    {
        match self {
            Size::Byte => 0xFF,
            Size::Doubleword => 0xFFFF_FFFF,
            Size::Quadword => u64::MAX,
        }
    }

    /// The number of which only the top bit is set: half of the modulus.
    pub fn half(self) -> u64
        ensures { result ≡ half self }
    {
        match self {
            Size::Byte => 0x80,
            Size::Doubleword => 0x8000_0000,
            Size::Quadword => 0x8000_0000_0000_0000,
        }
    }

    /// The lowest bits of a number.
    #[tactic(auto, unfolding(crate::specs::Size::low))]
    pub fn low(self, value: u64) -> u64
        ensures value { result ≡ low self value }
        ensures range { result < modulus self }
    {
        match self {
            Size::Byte => value % 0x100,
            Size::Doubleword => value % 0x1_0000_0000,
            Size::Quadword => value,
        }
    }
}
