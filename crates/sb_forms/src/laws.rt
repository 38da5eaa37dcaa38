//! Laws of the grammar and of the table of forms, as functions with nothing to run.

ghost use Rattle.sb_forms.specs.Places.{BehindOpcode, AtModrm, AtLeastFive, InImmediate, NotInJumps};
ghost use Rattle.sb_forms.specs.Immediates.{WithFour, WithEight};
ghost use Rattle.sb_forms.specs.Borders.{NoneWithD4, OneWith01D4, AcrossBorder, FormsBorder};
ghost use Rattle.sb_forms.specs.Laws.{HeldForeseen, Helpers, FormsSmall};
ghost use Rattle.sb_forms.specs.Valid.{ReplacementsValid};

/// Laws of the grammar: where the bytes of VMFUNC can stand in an instruction that is not VMFUNC.
///
/// They begin behind the opcode. They begin at ModRM only in `81 /1` and `69`, where ModRM is 0F. An instruction that holds
/// them has at least five bytes. Without a memory operand they lie in the immediate. And no direct jump or call from a text
/// into a text or the trampoline page holds them.
#[tactic(auto, using(crate::proofs::Where::behind_opcode_only))]
pub fn pattern_places()
    ensures behind_opcode { BehindOpcode }
    ensures at_modrm { AtModrm }
    ensures at_least_five { AtLeastFive }
    ensures in_immediate { InImmediate }
    ensures not_in_jumps { NotInJumps }
{}

/// Which instructions other than VMFUNC hold the bytes of VMFUNC: those for which the table of forms has a row.
///
/// Such an instruction is listed in the opcode maps. With no immediate, or one of a byte, it has a memory operand. With one
/// of four bytes it stands in the last form's table, or is a direct jump or call, which `form` does not take. With one of
/// eight bytes it is MOV to the register in the opcode. So no case of the table for other instructions ever comes.
pub fn held_instructions()
    ensures { HeldForeseen }
{}

/// A valid instruction leaves two helpers free: it names neither, and they differ.
pub fn free_helpers()
    ensures { Helpers }
{}

/// Each form of a valid instruction fits its slot.
#[tactic(auto, using(crate::proofs::Small::forms_small))]
pub fn forms_small()
    ensures { FormsSmall }
{}

/// The instructions that the table puts in place of a valid one are valid: all that stand in its slot, and those in its place.
pub fn replacements_valid()
    ensures { ReplacementsValid }
{}

/// Which instructions have an immediate of four or of eight bytes.
pub fn wide_immediates()
    ensures four { WithFour }
    ensures eight { WithEight }
{}

/// Where the bytes of VMFUNC stand across two instructions, and across what stands in their places.
pub fn across_borders()
    ensures none { NoneWithD4 }
    ensures one { OneWith01D4 }
    ensures across { AcrossBorder }
    ensures forms { FormsBorder }
{}
