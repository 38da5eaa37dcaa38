//! The bytes of a few instructions.

ghost use Rattle.std.specs.Prelude.{◌≡◌, ◌+◌, ◌≤◌, [], ◌++◌, length};
ghost use Rattle.sb_insn.specs.Spelling.{spelling};

use arrayvec::ArrayVec;
use sb_insn::{ByteSink, Insn, spell_into};
use std::marker::Model;

/// At most 64 bytes: to contracts, the list of them. The longest piece of a form has 50.
#[derive(Debug, Drop)]
pub struct Code {
    bytes: ArrayVec<u8, 64>,
}

impl Model for Code {
    ghost use Rattle.std.specs.Prelude.{ℕ, List};

    ghost Value = { List ℕ };

    ghost view = { λ code. code.bytes.items };
}

impl ByteSink for Code {
    ghost items = { λ code. code };

    ghost capacity = { 64 };

    fn put_bytes(&mut self, more: &[u8]) {
        let result = self.bytes.try_extend_from_slice(more);
        prove!(result.is_ok());
    }
}

impl Code {
    /// The bytes.
    pub fn bytes(&self) -> &[u8]
        ensures { result.now ≡ self.now }
    {
        self.bytes.as_slice()
    }

    /// No bytes.
    pub(crate) fn new() -> Code
        ensures { result ≡ [] }
    {
        Code {
            bytes: ArrayVec::new(),
        }
    }

    /// How many bytes.
    pub(crate) fn len(&self) -> usize
        ensures { result ≡ length self.now }
    {
        self.bytes.len()
    }

    /// Puts an instruction behind the bytes, as the grammar spells it.
    pub(crate) fn put(&mut self, insn: &Insn)
        requires { length self.old + length (spelling insn.now) ≤ 64 }
        ensures code { self.new ≡ self.old ++ spelling insn.now }
        ensures size { length self.new ≡ length self.old + length (spelling insn.now) }
    {
        spell_into(insn, self);
    }

    /// The bytes of one instruction.
    pub(crate) fn of(insn: &Insn) -> Code
        requires { length (spelling insn.now) ≤ 64 }
        ensures code { result ≡ spelling insn.now }
        ensures size { length result ≡ length (spelling insn.now) }
    {
        let mut code = Code::new();
        code.put(insn);
        code
    }
}
