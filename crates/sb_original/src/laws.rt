//! Laws of the pieces and of the forms, as functions with nothing to run.

ghost use Rattle.sb_original.specs.Laws.{PiecesDo, Exchanged, Displaced, Addressed, WithConstant, WithBoth, MainSteps, Jumping, Adding, WideMoving, Pushing, ThroughExchanged, Passing, ReplacementsGo, RestGives};

/// A memory with a scratch page, beside the memory of the original code. It has no values: a type stands for the pair.
pub trait Rewritten {
    ghost use Rattle.std.specs.Prelude.{ℕ};
    ghost use Rattle.sb_bus.specs.declared.stop.BusStop.{BusStop};
    ghost use Rattle.sb_exec.specs.Interface.{Interface};
    ghost use Rattle.sb_original.specs.Words.{Words};

    ghost Meaning: { Type 0 };

    ghost Account: { Type 0 };

    ghost Other: { Type 0 };

    ghost OtherAccount: { Type 0 };

    ghost bus: { Interface Meaning Account };

    ghost original: { Interface Other OtherAccount };

    /// The rewritten memory holds these words, and is the other one beside its scratch page.
    ghost holds: { Words → Meaning → Other → Type 0 };

    /// An access to bytes outside the scratch page.
    ghost outside: { ℕ → ℕ → Type 0 };

    ghost naming: { BusStop → BusStop };
}

/// Each piece of a slot changes one register or one word of the scratch page, and no flag.
pub fn pieces_do<R: Rewritten>()
    ensures { PiecesDo R.bus R.holds }
{}

/// With base and index exchanged an instruction does the same in place.
pub fn exchanged<R: Rewritten>()
    ensures { Exchanged R.bus R.holds }
{}

/// With a displacement behind ModRM 0F it does the same in a slot.
pub fn displaced<R: Rewritten>()
    ensures { Displaced R.bus R.holds }
{}

/// With its memory operand's address in a helper it does the same.
pub fn addressed<R: Rewritten>()
    ensures { Addressed R.bus R.holds }
{}

/// With its immediate in a helper it does the same.
pub fn with_constant<R: Rewritten>()
    ensures { WithConstant R.bus R.holds }
{}

/// With the address in one helper and the immediate in another it does the same.
pub fn with_both<R: Rewritten>()
    ensures { WithBoth R.bus R.holds }
{}

/// Rows with the same accesses end alike on both memories, where they are outside the scratch page or one of them is refused.
pub fn main_steps<R: Rewritten>()
    ensures { MainSteps R.bus R.original R.holds R.outside R.naming }
{}

/// JMP through memory jumps to the same address from a slot.
pub fn jumping<R: Rewritten>()
    ensures { Jumping R.bus R.holds }
{}

/// The bytes 03 E2 do what 01 D4 does.
#[tactic(auto, using(crate::proofs::FormSmall::add_law))]
pub fn adding()
    ensures { Adding }
{}

/// MOV of eight bytes to a register does the same from a slot.
pub fn wide_moving<R: Rewritten>()
    ensures { WideMoving R.bus R.holds }
{}

/// PUSH of four bytes does the same from a slot.
pub fn pushing<R: Rewritten>()
    ensures { Pushing R.bus R.holds }
{}

/// JMP and CALL through memory do the same in place with base and index exchanged.
pub fn through_exchanged()
    ensures { ThroughExchanged }
{}

/// Three NOPs in place of VMFUNC do nothing but go on.
pub fn passing<R: Rewritten>()
    ensures { Passing R.bus R.holds }
{}

/// What the table of forms puts in place of an instruction does what the instruction does.
pub fn replacements_go<R: Rewritten>()
    ensures { ReplacementsGo R.bus R.holds }
{}

/// Behind main the original state is what the rest of the slot gives.
pub fn rest_gives<R: Rewritten>()
    ensures { RestGives R.bus R.holds }
{}
