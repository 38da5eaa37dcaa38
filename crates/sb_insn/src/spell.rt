//! The bytes of an instruction, put into any sink.

ghost use Rattle.std.specs.Prelude.{◌≡◌, ◌+◌, ◌≤◌, ◌++◌, ℕ, List, length};
ghost use Rattle.std.specs.Option.{option_to_list};
ghost use Rattle.sb_insn.specs.Spelling.{lock_bytes, op_bytes, disp_bytes, imm_bytes, spelling};

use crate::insn::{Disp, Imm, Insn, Op};

/// Bytes in a room of a fixed size, which an encoder puts more bytes after.
pub trait ByteSink {
    /// The bytes that it holds.
    ghost items: { Self → List ℕ };

    /// How many bytes it has room for.
    ghost capacity: { ℕ };

    /// Puts more bytes after those that it holds.
    fn put_bytes(&mut self, more: &[u8])
        requires { length (items self.old) + length more.now ≤ capacity }
        ensures { items self.new ≡ items self.old ++ more.now };
}

/// Puts LOCK after the bytes, if it stands.
fn put_lock<S: ByteSink>(sink: &mut S, lock: bool)
    requires { length (S.items sink.old) + length (lock_bytes lock) ≤ S.capacity }
    ensures { S.items sink.new ≡ S.items sink.old ++ lock_bytes lock }
{
    if lock {
        sink.put_bytes(&[0xF0]);
    }
}

/// Puts a field of one byte after the bytes, if it stands.
fn put_field<S: ByteSink>(sink: &mut S, field: Option<u8>)
    requires { length (S.items sink.old) + length (option_to_list field) ≤ S.capacity }
    ensures { S.items sink.new ≡ S.items sink.old ++ option_to_list field }
{
    if let Some(byte) = field {
        sink.put_bytes(&[byte]);
    }
}

/// Puts the opcode after the bytes.
fn put_op<S: ByteSink>(sink: &mut S, op: Op)
    requires { length (S.items sink.old) + length (op_bytes op) ≤ S.capacity }
    ensures { S.items sink.new ≡ S.items sink.old ++ op_bytes op }
{
    match op {
        Op::One(opcode) => sink.put_bytes(&[opcode]),
        Op::Two(opcode) => sink.put_bytes(&[0x0F, opcode]),
        Op::Endbr => sink.put_bytes(&[0xF3, 0x0F, 0x1E, 0xFA]),
        Op::Vmfunc => sink.put_bytes(&[0x0F, 0x01, 0xD4]),
    }
}

/// Puts the displacement after the bytes, its lowest byte first.
fn put_disp<S: ByteSink>(sink: &mut S, disp: Disp)
    requires { length (S.items sink.old) + length (disp_bytes disp) ≤ S.capacity }
    ensures { S.items sink.new ≡ S.items sink.old ++ disp_bytes disp }
{
    match disp {
        Disp::None => {}
        Disp::D8(value) => sink.put_bytes(&value.to_le_bytes()),
        Disp::D32(value) => sink.put_bytes(&value.to_le_bytes()),
    }
}

/// Puts the immediate after the bytes, its lowest byte first.
fn put_imm<S: ByteSink>(sink: &mut S, imm: Imm)
    requires { length (S.items sink.old) + length (imm_bytes imm) ≤ S.capacity }
    ensures { S.items sink.new ≡ S.items sink.old ++ imm_bytes imm }
{
    match imm {
        Imm::None => {}
        Imm::I8(value) => sink.put_bytes(&value.to_le_bytes()),
        Imm::I32(value) => sink.put_bytes(&value.to_le_bytes()),
        Imm::I64(value) => sink.put_bytes(&value.to_le_bytes()),
    }
}

/// Puts the one spelling of an instruction after the bytes of a sink: LOCK, REX, opcode, ModRM, SIB, displacement,
/// immediate. The instruction may be an invalid one.
pub fn spell_into<S: ByteSink>(insn: &Insn, sink: &mut S)
    requires { length (S.items sink.old) + length (spelling insn.now) ≤ S.capacity }
    ensures { S.items sink.new ≡ S.items sink.old ++ spelling insn.now }
{
    put_lock(sink, insn.lock);
    put_field(sink, insn.rex);
    put_op(sink, insn.op);
    put_field(sink, insn.modrm);
    put_field(sink, insn.sib);
    put_disp(sink, insn.disp);
    put_imm(sink, insn.imm);
}
