//! An instruction, what is before it, and what has to be after it.

use crate::board::Board;
use sb_bus::BusStop;
use sb_exec::{Effect, execute, fetch_insn};
use sb_insn::{Flags, Regs};

/// What is looked at of the registers.
#[derive(Clone, Copy, Debug, PartialEq, Eq)]
pub struct Seen {
    /// RAX, RCX, RSP and R12.
    pub general: [u64; 4],
    pub flags: u64,
    pub rip: u64,
}

/// An instruction at address 0, what is before it, and what has to be after it.
#[derive(Clone, Copy)]
pub struct Row {
    pub shows: &'static str,
    pub code: &'static [u8],
    /// The eight bytes of data.
    pub word: u64,
    pub before: Seen,
    pub after: Seen,
    pub effect: Effect,
    pub noted: Option<(u64, u8, u64)>,
}

/// Every flag set.
pub const SET: u64 = 0x8C5;

/// RAX, RCX, RSP and R12 and the flags before; they stay, and RIP goes on.
pub fn instruction(shows: &'static str, code: &'static [u8], general: [u64; 4], flags: u64) -> Row {
    let before = Seen {
        general,
        flags,
        rip: 0,
    };
    Row {
        shows,
        code,
        word: 2,
        before,
        after: Seen {
            rip: code.len() as u64,
            ..before
        },
        effect: Effect::Next,
        noted: None,
    }
}

impl Row {
    /// RAX, RCX, RSP and R12 and the flags after.
    pub fn gives(self, general: [u64; 4], flags: u64) -> Row {
        let after = Seen {
            general,
            flags,
            rip: self.after.rip,
        };
        Row { after, ..self }
    }

    pub fn leads_to(self, rip: u64) -> Row {
        let after = Seen { rip, ..self.after };
        Row { after, ..self }
    }

    pub fn over(self, word: u64) -> Row {
        Row { word, ..self }
    }

    pub fn stores(self, address: u64, size: u8, value: u64) -> Row {
        Row {
            noted: Some((address, size, value)),
            ..self
        }
    }

    pub fn ends_in(self, effect: Effect) -> Row {
        Row {
            effect,
            after: self.before,
            ..self
        }
    }
}

pub fn regs_of(seen: Seen) -> Regs {
    let [rax, rcx, rsp, r12] = seen.general;
    Regs {
        general: [rax, rcx, 0, 0, rsp, 0, 0, 0, 0, 0, 0, 0, r12, 0, 0, 0],
        rip: seen.rip,
        flags: Flags {
            cf: seen.flags & 1 != 0,
            pf: seen.flags & 4 != 0,
            zf: seen.flags & 0x40 != 0,
            sf: seen.flags & 0x80 != 0,
            of: seen.flags & 0x800 != 0,
        },
    }
}

/// The answer of a row's instruction, the registers after it, and what was stored.
pub fn run(row: &Row, writable: bool) -> (Result<Effect, BusStop>, Regs, Option<(u64, u8, u64)>) {
    let bytes = row.word.to_le_bytes();
    let mut board = Board {
        text: row.code,
        bytes: &bytes,
        writable,
        noted: None,
    };
    let mut regs = regs_of(row.before);
    let answer = match fetch_insn(&mut board, 0) {
        Ok(insn) => execute(&insn, &mut regs, &mut board),
        Err(stop) => Err(stop),
    };
    (answer, regs, board.noted)
}

/// The first row that is not as it has to be.
pub fn first_failure(rows: &[Row]) -> Option<&'static str> {
    for row in rows {
        let (answer, regs, noted) = run(row, true);
        if answer != Ok(row.effect) || regs != regs_of(row.after) || noted != row.noted {
            return Some(row.shows);
        }
    }
    None
}
