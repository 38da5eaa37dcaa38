//! The encoder: the one spelling of an instruction.
//!
//! `encode` gives the bytes that the grammar of `sb_insn` spells, and takes no memory. Decoding them, whatever stands
//! behind, gives the instruction back; and what is decoded is encoded as the bytes that were read (`encodes_back`).
//! Not inside: what is valid (`sb_insn`), and which of several instructions does a job.
//!
//! So `XOR EAX, EAX` with opcode `31` is encoded as `31 C0`. `33 C0` does the same, and is another instruction.
#![tactic(auto)]

ghost use Rattle.std.specs.Prelude.{◌≡◌, ◌+◌, ◌≤◌, ◌++◌, length};
ghost use Rattle.sb_insn.specs.Spelling.{spelling};
ghost use Rattle.sb_insn.specs.Grammar.{IsValid};
ghost use Rattle.sb_encode.specs.RoundTrip.{DecodesBack, EncodesBack};

use arrayvec::ArrayVec;
use sb_insn::{ByteSink, Insn, spell_into};

/// Room for the longest instruction that a processor takes: 15 bytes (SDM volume 2, section 2.3.11).
#[derive(Drop)]
struct Bytes {
    bytes: ArrayVec<u8, 15>,
}

impl ByteSink for Bytes {
    ghost items = { λ sink. sink.bytes.items };

    ghost capacity = { 15 };

    fn put_bytes(&mut self, more: &[u8]) {
        let result = self.bytes.try_extend_from_slice(more);
        prove!(result.is_ok());
    }
}

/// The one encoding of a valid instruction: LOCK, REX, opcode, ModRM, SIB, displacement, immediate.
#[tactic(auto, using(sb_insn::proofs::Longest::spelling_13))]
pub fn encode(insn: &Insn) -> ArrayVec<u8, 15>
    requires { IsValid insn.now }
    ensures spelled { result.items ≡ spelling insn.now }
    ensures back { DecodesBack insn.now result.items }
{
    let mut sink = Bytes {
        bytes: ArrayVec::new(),
    };
    spell_into(insn, &mut sink);
    sink.bytes
}

/// A law of the grammar: what is decoded is encoded as the bytes that were read.
#[tactic(auto, using(crate::proofs::RoundTrip::encodes_back))]
pub fn encodes_back()
    ensures { EncodesBack }
{}
