//! Instructions of the x86-64 subset, by their fields, and the registers.
//!
//! Inside: `Insn`, an instruction with each field as it is encoded; the opcode maps, which say what stands behind each
//! opcode; and the grammar over them (`specs/`), of which the decoder, the encoder and the executor speak. Not inside:
//! reading bytes (`sb_decode`) and what an instruction does (`sb_exec`).
//!
//! For the decoder alone: `Cell`, `Group`, `RexRule`, `DispKind`, `ImmKind`, `cell_of`, `is_rex`, `permitted_rule`,
//! `wants_sib`, `disp_kind` and `imm_kind_of`. For the encoders: `ByteSink` and `spell_into`. For the rewriter: REX with other
//! bits (`with_r_b`, `with_x_b_exchanged`), and the numbers of the registers that the fields name.
//!
//! The grammar goes field by field in the order LOCK, REX, opcode, ModRM, SIB, displacement, immediate (SDM volume 2,
//! chapter 2): each field is one that the fields before it permit. So `31 C0` is `XOR EAX, EAX`: opcode `31` in the
//! one-byte map has a ModRM byte, and `C0` is mod 3, reg 0, rm 0. The maps stand once, for the grammar and for the
//! executor: `instruction_of` says which instruction an `Insn` is, and each valid one is in them (`valid_is_in_maps`).
#![tactic(auto)]

mod cells;
mod fields;
mod insn;
mod lookup;
mod opcode_map;
mod opcodes;
mod register_numbers;
pub mod registers;
mod rex;
mod spell;

pub use fields::{
    base, disp_kind, has_memory, imm_kind_of, index, is_from_next, is_rex, mod_field,
    permitted_rule, reg_field, rex_b, rex_r, rex_w, rex_x, rm_field, scale, wants_sib,
};
pub use insn::{Disp, DispKind, Imm, ImmKind, Insn, Op};
pub use lookup::{instruction_of, modrm_opcode_of, valid_is_in_maps};
pub use opcode_map::{
    Cell, Group, ImmRule, Instruction, Mnemonic, ModRmOpcode, NoModRmOpcode, OperandForm, RexRule,
    RmRule,
};
pub use opcodes::cell_of;
pub use register_numbers::{
    base_number, index_number, last_opcode_byte, modrm_of, opcode_number, reg_number,
    register_number, rm_number,
};
pub use registers::{Flags, Regs};
pub use rex::{with_r_b, with_x_b_exchanged};
pub use spell::{ByteSink, spell_into};
