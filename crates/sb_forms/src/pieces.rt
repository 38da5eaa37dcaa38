//! The instructions that stand around a moved one.

ghost use Rattle.std.specs.Prelude.{◌≡◌, ◌+◌, ◌≤◌, ◌<◌, ◌++◌, length, pos};
ghost use Rattle.sb_insn.specs.Spelling.{spelling};
ghost use Rattle.sb_insn.specs.declared.insn.Disp.{Disp};
ghost use Rattle.sb_forms.specs.Pieces.{
  opcode_alone,
  wide,
  at_address,
  wide_at_address,
  save,
  restore,
  save_half,
  load_number,
  add_number,
  lowered_displacement,
  lacking,
  add_step_back,
  load_constant,
  low_half,
  high_half,
  is_sib_0f,
  sib_exchanged,
  without_sib_0f,
  load_address,
  address_from,
  address_at,
  load_address_of_operand,
  jump_insn,
  jump_through,
};
ghost use Rattle.sb_forms.specs.Places.{text_end};
ghost use Rattle.sb_forms.specs.Table.{spelled_bytes};

use crate::code::Code;
use crate::helper::Helper;
use crate::pattern::number_holds_pattern;
use sb_abi::SCRATCH_ADDRESS;
use sb_insn::{
    Disp, Imm, Insn, Op, is_from_next, mod_field, modrm_of, rex_b, rex_x, rm_field,
    with_x_b_exchanged,
};

/// Where a slot saves its first helper: the first word of the scratch page (docs/FORMS.md).
pub const FIRST_SAVED: i32 = SCRATCH_ADDRESS as i32;

/// Where a slot saves its second helper.
pub const SECOND_SAVED: i32 = FIRST_SAVED + 8;

/// A constant of eight bytes by halves, or where a jump leads.
pub const SCRATCH_WORD: i32 = FIRST_SAVED + 16;

/// The upper half of that word.
pub const UPPER_HALF: i32 = SCRATCH_WORD + 4;

/// What a number is lowered by that would hold the bytes of VMFUNC: it changes the byte 01, or 0F where that comes second.
const STEP: i32 = 0x100;

/// An opcode of one byte, and nothing else.
pub fn opcode_alone(opcode: u8) -> Insn
    ensures { result ≡ opcode_alone opcode }
{
    Insn {
        lock: false,
        rex: None,
        op: Op::One(opcode),
        modrm: None,
        sib: None,
        disp: Disp::None,
        imm: Imm::None,
    }
}

/// An opcode and ModRM, with REX.W.
pub fn wide(opcode: u8, modrm: u8) -> Insn
    ensures { result ≡ wide opcode modrm }
{
    Insn {
        rex: Some(0x48),
        modrm: Some(modrm),
        ..opcode_alone(opcode)
    }
}

/// Register reg, and memory at an address: SIB 25 is no base and no index.
fn at_address(opcode: u8, reg: u8, address: i32) -> Insn
    requires { reg ≤ 7 }
    ensures { result ≡ at_address opcode reg address }
{
    Insn {
        modrm: Some(8 * reg + 4),
        sib: Some(0x25),
        disp: Disp::D32(address),
        ..opcode_alone(opcode)
    }
}

/// The same with REX.W.
pub fn wide_at_address(opcode: u8, reg: u8, address: i32) -> Insn
    requires { reg ≤ 7 }
    ensures { result ≡ wide_at_address opcode reg address }
{
    Insn {
        rex: Some(0x48),
        ..at_address(opcode, reg, address)
    }
}

/// `mov [address], helper`.
#[tactic(auto, unfolding(crate::specs::Pieces::save))]
pub fn save(helper: Helper, address: i32) -> Insn
    ensures value { result ≡ save helper address }
    ensures size { length (spelling result) ≡ 8 }
{
    wide_at_address(0x89, helper.number(), address)
}

/// `mov helper, [address]`.
#[tactic(auto, unfolding(crate::specs::Pieces::restore))]
pub fn restore(helper: Helper, address: i32) -> Insn
    ensures value { result ≡ restore helper address }
    ensures size { length (spelling result) ≡ 8 }
{
    wide_at_address(0x8B, helper.number(), address)
}

/// `mov [address], the helper's lower half`.
#[tactic(auto, unfolding(crate::specs::Pieces::save_half))]
pub fn save_half(helper: Helper, address: i32) -> Insn
    ensures value { result ≡ save_half helper address }
    ensures size { length (spelling result) ≡ 7 }
{
    at_address(0x89, helper.number(), address)
}

/// `mov helper, value`, extended by its sign.
#[tactic(auto, unfolding(crate::specs::Pieces::load_number))]
fn load_number(helper: Helper, value: i32) -> Insn
    ensures value { result ≡ load_number helper value }
    ensures size { length (spelling result) ≡ 7 }
{
    Insn {
        imm: Imm::I32(value),
        ..wide(0xC7, 0xC0 + helper.number())
    }
}

/// `lea helper, [helper + amount]`, which changes no flag.
#[tactic(auto, unfolding(crate::specs::Pieces::add_number))]
fn add_number(helper: Helper, amount: i32) -> Insn
    ensures value { result ≡ add_number helper amount }
    ensures size { length (spelling result) ≡ 7 }
{
    Insn {
        disp: Disp::D32(amount),
        ..wide(0x8D, 0x80 + 9 * helper.number())
    }
}

/// The number, or 100 less where it holds the bytes of VMFUNC.
#[tactic(auto, using(crate::proofs::Lowered::lowered_fits), unfolding(crate::specs::Pieces::lowered_displacement))]
fn lowered_displacement(value: i32) -> i32
    ensures { result ≡ lowered_displacement value }
{
    if number_holds_pattern(value) {
        value - STEP
    } else {
        value
    }
}

/// What the lowered number lacks.
#[tactic(auto, unfolding(crate::specs::Pieces::lacking))]
fn lacking(value: i32) -> u64
    ensures value { result ≡ lacking value }
    ensures small { result ≤ 0x100 }
{
    if number_holds_pattern(value) {
        0x100
    } else {
        0
    }
}

/// The lowered number to the helper.
fn load_lowered(helper: Helper, value: i32) -> Insn
    ensures value { result ≡ load_number helper (lowered_displacement value) }
    ensures size { length (spelling result) ≡ 7 }
{
    load_number(helper, lowered_displacement(value))
}

/// Puts what adds to the helper what the lowered number lacks.
#[tactic(auto, unfolding(crate::specs::Pieces::add_step_back))]
fn put_raise(code: &mut Code, helper: Helper, value: i32)
    requires { length code.old + 7 ≤ 64 }
    ensures code { code.new ≡ code.old ++ spelled_bytes (add_step_back helper value) }
    ensures size { length code.new ≤ length code.old + 7 }
{
    if number_holds_pattern(value) {
        code.put(&add_number(helper, STEP));
    }
}

/// Puts a number into the helper.
#[tactic(auto, unfolding(crate::specs::Pieces::load_constant))]
pub fn put_constant(code: &mut Code, helper: Helper, value: i32)
    requires { length code.old + 14 ≤ 64 }
    ensures code { code.new ≡ code.old ++ spelled_bytes (load_constant helper value) }
    ensures size { length code.new ≤ length code.old + 14 }
{
    code.put(&load_lowered(helper, value));
    put_raise(code, helper, value);
}

/// The lower half of eight bytes.
#[tactic(auto, unfolding(crate::specs::Pieces::low_half))]
pub fn low_half(value: i64) -> i32
    ensures { result ≡ low_half value }
{
    ((value.cast_unsigned() % (1 << 32)) as u32).cast_signed()
}

/// The upper half of eight bytes.
#[tactic(auto, unfolding(crate::specs::Pieces::high_half))]
pub fn high_half(value: i64) -> i32
    ensures { result ≡ high_half value }
{
    ((value.cast_unsigned() / (1 << 32)) as u32).cast_signed()
}

/// Whether the SIB byte is 0F: scale 1, index RCX, base RDI.
pub fn is_sib_0f(sib: Option<u8>) -> bool
    ensures { result ≡ is_sib_0f sib }
{
    match sib {
        None => false,
        Some(sib) => sib == 0x0F,
    }
}

/// The instruction with the base and the index of SIB 0F exchanged.
#[tactic(auto, unfolding(crate::specs::Pieces::sib_exchanged))]
pub fn sib_exchanged(insn: &Insn) -> Insn
    ensures { result ≡ sib_exchanged insn.now }
{
    Insn {
        rex: with_x_b_exchanged(insn.rex),
        sib: Some(0x39),
        ..*insn
    }
}

/// The instruction with base and index exchanged where SIB is 0F.
#[tactic(auto, unfolding(crate::specs::Pieces::without_sib_0f))]
fn without_sib_0f(insn: &Insn) -> Insn
    ensures { result ≡ without_sib_0f insn.now }
{
    if is_sib_0f(insn.sib) {
        sib_exchanged(insn)
    } else {
        *insn
    }
}

/// `lea helper, [operand]`, with this displacement.
#[tactic(auto, unfolding(crate::specs::Pieces::load_address))]
fn load_address(helper: Helper, insn: &Insn, disp: Disp) -> Insn
    ensures value { result ≡ load_address helper insn.now disp }
    ensures size { length (spelling result) ≤ 8 }
{
    let modrm = modrm_of(insn);
    Insn {
        rex: Some(0x48 + 2 * rex_x(insn.rex) + rex_b(insn.rex)),
        sib: insn.sib,
        disp,
        ..wide(
            0x8D,
            64 * mod_field(modrm) + 8 * helper.number() + rm_field(modrm),
        )
    }
}

/// Adds the next instruction's address to the helper, and what the lowered distance lacks.
fn add_next(helper: Helper, next: u64, distance: i32) -> Insn
    requires { next ≤ text_end + 16 }
    ensures value { result ≡ add_number helper (pos (next + lacking distance)) }
    ensures size { length (spelling result) ≡ 7 }
{
    add_number(helper, (next + lacking(distance)) as i32)
}

/// `lea helper, [operand]` with the lowered displacement.
fn load_lowered_address(helper: Helper, insn: &Insn, distance: i32) -> Insn
    ensures value { result ≡ load_address helper insn.now (Disp.D32 (lowered_displacement distance)) }
    ensures size { length (spelling result) ≤ 8 }
{
    load_address(helper, insn, Disp::D32(lowered_displacement(distance)))
}

/// Puts the address at a distance from the next instruction into the helper.
#[tactic(auto, unfolding(crate::specs::Pieces::address_from))]
fn put_address_from(code: &mut Code, helper: Helper, next: u64, distance: i32)
    requires room { length code.old + 15 ≤ 64 }
    requires next { next ≤ text_end + 16 }
    ensures code { code.new ≡ code.old ++ spelled_bytes (address_from helper next distance) }
    ensures size { length code.new ≤ length code.old + 15 }
{
    code.put(&load_lowered(helper, distance));
    code.put(&add_next(helper, next, distance));
}

/// Puts the address of a memory operand with a displacement of four bytes into the helper.
#[tactic(auto, unfolding(crate::specs::Pieces::address_at))]
fn put_address_at(code: &mut Code, helper: Helper, insn: &Insn, next: u64, distance: i32)
    requires room { length code.old + 15 ≤ 64 }
    requires next { next ≤ text_end + 16 }
    ensures code { code.new ≡ code.old ++ spelled_bytes (address_at helper insn.now next distance) }
    ensures size { length code.new ≤ length code.old + 15 }
{
    if is_from_next(modrm_of(insn)) {
        put_address_from(code, helper, next, distance);
    } else {
        code.put(&load_lowered_address(helper, insn, distance));
        put_raise(code, helper, distance);
    }
}

/// Puts the address of the memory operand into the helper. `next` is the address of the next instruction.
#[tactic(auto, unfolding(crate::specs::Pieces::load_address_of_operand))]
pub fn put_address(code: &mut Code, helper: Helper, insn: &Insn, next: u64)
    requires room { length code.old + 15 ≤ 64 }
    requires next { next ≤ text_end + 16 }
    ensures code { code.new ≡ code.old ++ spelled_bytes (load_address_of_operand helper insn.now next) }
    ensures size { length code.new ≤ length code.old + 15 }
{
    let operand = without_sib_0f(insn);
    match insn.disp {
        Disp::D32(distance) => put_address_at(code, helper, &operand, next, distance),
        Disp::None | Disp::D8(_) => code.put(&load_address(helper, &operand, insn.disp)),
    }
}

/// `jmp` by a distance of four bytes, from where the jump itself stands.
#[tactic(auto, unfolding(crate::specs::Pieces::jump_insn))]
pub fn jump(from: u64, to: u64) -> Insn
    requires from { from ≤ text_end + 16 }
    requires to { to ≤ text_end + 16 }
    ensures value { result ≡ jump_insn from to }
    ensures size { length (spelling result) ≡ 5 }
{
    Insn {
        imm: Imm::I32(to as i32 - (from as i32 + 5)),
        ..opcode_alone(0xE9)
    }
}

/// The bytes of a `jmp` from one address to another, both in the text or the rewrite area.
pub fn jump_code(from: u64, to: u64) -> Code
    requires from { from ≤ text_end + 16 }
    requires to { to ≤ text_end + 16 }
    ensures { result ≡ spelling (jump_insn from to) }
{
    Code::of(&jump(from, to))
}

/// `jmp [address]`.
#[tactic(auto, unfolding(crate::specs::Pieces::jump_through))]
pub fn jump_through(address: i32) -> Insn
    ensures value { result ≡ jump_through address }
    ensures size { length (spelling result) ≡ 7 }
{
    at_address(0xFF, 4, address)
}
