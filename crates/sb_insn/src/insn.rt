//! Instructions by their fields (SDM volume 2, sections 2.1 and 2.2.1).

ghost use Rattle.std.specs.Prelude.{◌≡◌, ◌≤◌, length, IsTrue, ◌↔◌, ◌&&◌};
ghost use Rattle.std.specs.Option.{option_to_list};
ghost use Rattle.sb_insn.specs.Spelling.{disp_bytes, imm_bytes, op_bytes, spelling};
ghost use Rattle.sb_insn.specs.Fields.{kind_of_disp, kind_of_imm, is_rex_field, is_modrm_field, is_sib_field};
ghost use Rattle.sb_insn.specs.Branch.{imm_value, is_direct, direct_target};
ghost use Rattle.sb_insn.specs.Grammar.{IsByte, FitsDisp, FitsImm, IsValid};

use crate::fields::{disp_kind, imm_kind, is_rex, permits_modrm, stands_alone, wants_sib};
use crate::opcode_map::{Cell, OperandForm};
use crate::opcodes::cell_of;

/// An opcode, by the map in which it stands (SDM volume 2, section 2.1.2 and appendix A).
#[derive(Clone, Copy, Debug, PartialEq, Eq)]
pub enum Op {
    /// This byte, in the one-byte opcode map.
    One(u8),
    /// `0F` and this byte, in the two-byte opcode map.
    Two(u8),
    /// `F3 0F 1E FA`: ENDBR64.
    Endbr,
    /// `0F 01 D4`: VMFUNC (SDM volume 3).
    Vmfunc,
}

/// A displacement as it is encoded (SDM volume 2, section 2.1.4).
///
/// The number is the one of the encoding: whoever adds it to an address extends its sign.
#[derive(Clone, Copy, Debug, PartialEq, Eq)]
pub enum Disp {
    /// No displacement.
    None,
    /// One byte.
    D8(i8),
    /// Four bytes, the lowest first.
    D32(i32),
}

/// An immediate as it is encoded (SDM volume 2, section 2.1.4).
///
/// The number is the one of the encoding: whoever takes it as an operand extends its sign.
#[derive(Clone, Copy, Debug, PartialEq, Eq)]
pub enum Imm {
    /// No immediate.
    None,
    /// One byte.
    I8(i8),
    /// Four bytes, the lowest first.
    I32(i32),
    /// Eight bytes, the lowest first.
    I64(i64),
}

/// Which displacement stands, without its value.
#[derive(Clone, Copy, Debug, PartialEq, Eq)]
pub enum DispKind {
    /// No displacement.
    None,
    /// One byte.
    D8,
    /// Four bytes.
    D32,
}

/// Which immediate stands, without its value.
#[derive(Clone, Copy, Debug, PartialEq, Eq)]
pub enum ImmKind {
    /// No immediate.
    None,
    /// One byte.
    I8,
    /// Four bytes.
    I32,
    /// Eight bytes.
    I64,
}

/// An instruction by its fields, each as it is encoded, in the order of the encoding (SDM volume 2, figure 2-1).
///
/// Any values may stand beside each other here: `is_valid` says which are an instruction of the subset.
#[derive(Clone, Copy, Debug, PartialEq, Eq)]
pub struct Insn {
    /// Whether the prefix `F0`, LOCK, stands (SDM volume 2, section 2.1.1).
    pub lock: bool,
    /// The REX prefix, the whole byte, if one stands (SDM volume 2, section 2.2.1).
    pub rex: Option<u8>,
    /// The opcode.
    pub op: Op,
    /// The ModRM byte, if one stands: mod, reg and rm (SDM volume 2, section 2.1.3).
    pub modrm: Option<u8>,
    /// The SIB byte, if one stands: scale, index and base (SDM volume 2, section 2.1.3).
    pub sib: Option<u8>,
    /// The displacement.
    pub disp: Disp,
    /// The immediate. The distance of a direct jump or call is kept here.
    pub imm: Imm,
}

impl Disp {
    /// Which displacement it is, without its value.
    pub fn kind(self) -> DispKind
        ensures kind { result ≡ kind_of_disp self }
        ensures fits { FitsDisp self }
    {
        match self {
            Disp::None => DispKind::None,
            Disp::D8(_) => DispKind::D8,
            Disp::D32(_) => DispKind::D32,
        }
    }

    /// How many bytes it has. The bound is what the sum over the fields needs.
    #[inline(always)]
    fn length(&self) -> usize
        ensures value { result ≡ length (disp_bytes self.now) }
        ensures bound { result ≤ 8 }
    {
        match self {
            Disp::None => 0,
            Disp::D8(_) => 1,
            Disp::D32(_) => 4,
        }
    }
}

impl Imm {
    /// Which immediate it is, without its value.
    pub fn kind(self) -> ImmKind
        ensures kind { result ≡ kind_of_imm self }
        ensures fits { FitsImm self }
    {
        match self {
            Imm::None => ImmKind::None,
            Imm::I8(_) => ImmKind::I8,
            Imm::I32(_) => ImmKind::I32,
            Imm::I64(_) => ImmKind::I64,
        }
    }

    /// The number, sign-extended to 64 bits; 0 where there is none.
    #[inline(always)]
    pub fn value(self) -> u64
        ensures { result ≡ imm_value self }
    {
        match self {
            Imm::None => 0,
            Imm::I8(value) => i64::from(value).cast_unsigned(),
            Imm::I32(value) => i64::from(value).cast_unsigned(),
            Imm::I64(value) => value.cast_unsigned(),
        }
    }

    /// How many bytes it has.
    #[inline(always)]
    fn length(&self) -> usize
        ensures value { result ≡ length (imm_bytes self.now) }
        ensures bound { result ≤ 8 }
    {
        match self {
            Imm::None => 0,
            Imm::I8(_) => 1,
            Imm::I32(_) => 4,
            Imm::I64(_) => 8,
        }
    }
}

impl Op {
    /// How many bytes it has.
    #[inline(always)]
    fn length(&self) -> usize
        ensures value { result ≡ length (op_bytes self.now) }
        ensures bound { result ≤ 8 }
    {
        match self {
            Op::One(_) => 1,
            Op::Two(_) => 2,
            Op::Endbr => 4,
            Op::Vmfunc => 3,
        }
    }
}

/// How many bytes a field has that is one byte, if it stands.
#[inline(always)]
fn byte_count(field: Option<u8>) -> usize
    ensures value { result ≡ length (option_to_list field) }
    ensures bound { result ≤ 1 }
{
    match field {
        None => 0,
        Some(_) => 1,
    }
}

/// Whether this REX field may stand at all.
fn is_rex_field(rex: Option<u8>) -> bool
    ensures { result ≡ is_rex_field rex }
{
    match rex {
        None => true,
        Some(byte) => is_rex(byte),
    }
}

/// Whether this ModRM field may stand behind these prefixes and an opcode of this cell.
fn is_modrm_field(cell: Cell, lock: bool, rex: Option<u8>, modrm: Option<u8>) -> bool
    ensures test { result ≡ is_modrm_field cell lock rex modrm }
    ensures byte { IsByte modrm }
{
    match modrm {
        None => stands_alone(cell, lock, rex),
        Some(modrm) => permits_modrm(cell, lock, rex, modrm),
    }
}

/// Whether this SIB field may stand behind this ModRM field.
fn is_sib_field(modrm: Option<u8>, sib: Option<u8>) -> bool
    ensures test { result ≡ is_sib_field modrm sib }
    ensures byte { IsByte sib }
{
    match sib {
        None => !wants_sib(modrm),
        Some(_) => wants_sib(modrm),
    }
}

impl Insn {
    /// Whether it is an instruction of the subset: each field is one that the fields before it permit.
    ///
    /// LOCK, REX and ModRM go by the opcode's cell of the opcode map, SIB by ModRM, the displacement by ModRM and SIB,
    /// and the immediate by the cell, ModRM and REX.
    pub fn is_valid(&self) -> bool
        ensures { IsTrue result ↔ IsValid self.now }
    {
        let cell = cell_of(self.op);
        if !is_rex_field(self.rex) {
            return false;
        }
        if !is_modrm_field(cell, self.lock, self.rex, self.modrm) {
            return false;
        }
        if !is_sib_field(self.modrm, self.sib) {
            return false;
        }
        if self.disp.kind() != disp_kind(self.modrm, self.sib) {
            return false;
        }
        self.imm.kind() == imm_kind(cell, self.modrm, self.rex)
    }

    /// Whether it is JMP, Jcc or CALL with a distance (SDM volume 2), by its opcode alone.
    #[inline(always)]
    #[tactic(auto, using(crate::proofs::Direct::direct_by_cell))]
    pub fn is_direct(&self) -> bool
        ensures { result ≡ is_direct self.now }
    {
        match cell_of(self.op) {
            Cell::NoModRm(opcode) => matches!(opcode.instruction.form, OperandForm::Relative),
            // No opcode with a ModRM byte has a distance.
            Cell::Absent | Cell::ModRm(_) | Cell::Extended(..) => false,
        }
    }

    /// Where it leads from an address if it is a direct jump or call (SDM volume 2: JMP, Jcc, CALL): its distance from
    /// the next instruction, modulo 2^64. None for all other instructions.
    #[inline(always)]
    #[tactic(auto, unfolding(crate::specs::Branch::direct_target))]
    pub fn direct_target(&self, at: u64) -> Option<u64>
        ensures { result ≡ direct_target self.now at }
    {
        if !self.is_direct() {
            return None;
        }
        let next = at.wrapping_add(self.length() as u64);
        Some(next.wrapping_add(self.imm.value()))
    }

    /// How many bytes its spelling has; 13 at most where it is valid.
    #[inline(always)]
    #[tactic(auto, using(crate::proofs::Longest::spelling_13))]
    pub fn length(&self) -> usize
        ensures value { result ≡ length (spelling self.now) }
        ensures longest { IsValid self.now → result ≤ 13 }
    {
        self.field_lengths()
    }

    /// The sum over the fields, which the proof of `length` bounds for valid instructions alone.
    #[inline(always)]
    fn field_lengths(&self) -> usize
        ensures value { result ≡ length (spelling self.now) }
        ensures bound { result ≤ 28 }
    {
        let lock = if self.lock { 1 } else { 0 };
        lock + byte_count(self.rex)
            + self.op.length()
            + byte_count(self.modrm)
            + byte_count(self.sib)
            + self.disp.length()
            + self.imm.length()
    }
}
