//! Registers, by their numbers too, and flags.

/// The number of RAX, the accumulator (the numbers of registers: SDM volume 2, section 2.2.1).
pub const RAX: usize = 0;

/// The number of RCX, which CL is the lowest byte of.
pub const RCX: usize = 1;

/// The number of RDX.
pub const RDX: usize = 2;

/// The number of RBX.
pub const RBX: usize = 3;

/// The number of RSP, the address of the top of the stack.
pub const RSP: usize = 4;

/// The number of RBP.
pub const RBP: usize = 5;

/// The number of RSI.
pub const RSI: usize = 6;

/// The number of RDI.
pub const RDI: usize = 7;

/// The number of R8.
pub const R8: usize = 8;

/// The number of R9.
pub const R9: usize = 9;

/// The number of R10.
pub const R10: usize = 10;

/// The number of R11.
pub const R11: usize = 11;

/// The number of R12.
pub const R12: usize = 12;

/// The number of R13.
pub const R13: usize = 13;

/// The number of R14.
pub const R14: usize = 14;

/// The number of R15.
pub const R15: usize = 15;

/// The status flags (SDM volume 1, section 3.4.3.1). AF is not kept.
#[derive(Clone, Copy, Debug, PartialEq, Eq)]
pub struct Flags {
    /// Carry.
    pub cf: bool,
    /// Parity of the lowest byte.
    pub pf: bool,
    /// Zero.
    pub zf: bool,
    /// Sign.
    pub sf: bool,
    /// Overflow.
    pub of: bool,
}

impl Flags {
    ghost use Rattle.std.specs.Prelude.{◌≡◌};
    ghost use Rattle.sb_insn.specs.Registers.{flags_image};

    /// All flags clear.
    pub const CLEAR: Flags = Flags {
        cf: false,
        pf: false,
        zf: false,
        sf: false,
        of: false,
    };

    /// The flags at their places in RFLAGS: CF bit 0, PF bit 2, ZF bit 6, SF bit 7, OF bit 11. The other bits are 0.
    pub fn image(&self) -> u64
        ensures { result ≡ flags_image self.now }
    {
        u64::from(self.cf)
            + 4 * u64::from(self.pf)
            + 64 * u64::from(self.zf)
            + 128 * u64::from(self.sf)
            + 2048 * u64::from(self.of)
    }
}

/// The registers of a thread.
#[derive(Clone, Copy, Debug, PartialEq, Eq)]
pub struct Regs {
    /// In the order of their numbers: RAX RCX RDX RBX RSP RBP RSI RDI, and R8 to R15.
    pub general: [u64; 16],
    /// The address of the next instruction.
    pub rip: u64,
    /// The status flags.
    pub flags: Flags,
}
