//! Worked texts: their listings, what they are rewritten to, and why they are refused.

use crate::same::assert_same;
use sb_insn::{Disp, Imm, Insn, Op};
use sb_rewrite::{
    AREA_SIZE, Edit, ListRefusal, Listing, Mark, RewriteRefusal, Rewritten, Starts, list, rewrite,
};
use std::alloc::{AllocError, Global};
use std::test::Fail;

/// Lists a text, without the contract of `list`, which tests do not need.
fn listed(alloc: Global, text: &[u8]) -> Result<Listing, ListRefusal> {
    list(alloc, text)
}

/// Texts and where their instructions start, or why they have no listing.
#[rattlefmt::skip]
const LISTINGS: [(&str, &[u8], Result<&[u64], ListRefusal>); 6] = [
    ("no byte", &[], Ok(&[])),
    ("three instructions", &[0xBF, 7, 0, 0, 0, 0x31, 0xC0, 0x0F, 5], Ok(&[0x40_0000, 0x40_0005, 0x40_0007])),
    ("the first byte", &[0xCC], Err(ListRefusal::Undecoded { at: 0x40_0000 })),
    ("behind an instruction", &[0x31, 0xC0, 0xCC, 0x31, 0xC0], Err(ListRefusal::Undecoded { at: 0x40_0002 })),
    ("an instruction that the text's end cuts", &[0x31, 0xC0, 0xB8, 1, 0, 0],
        Err(ListRefusal::Undecoded { at: 0x40_0002 })),
    ("an operand size prefix", &[0x66, 0x90], Err(ListRefusal::Undecoded { at: 0x40_0000 })),
];

/// The starts around a short text.
fn addresses(alloc: Global, starts: &Starts) -> Result<Vec<u64>, AllocError> {
    let mut addresses = Vec::new(alloc);
    for at in 0x3F_FFFF..0x40_0010 {
        if starts.contains(at) {
            addresses.push(at)?;
        }
    }
    Ok(addresses)
}

#[test]
fn lists_instructions_or_says_where_none_stands(rt: HostRuntime) -> Result<(), Fail> {
    for (name, text, expected) in &LISTINGS {
        match listed(rt.alloc(), text) {
            Ok(listing) => {
                let starts = addresses(rt.alloc(), listing.starts())?;
                assert_same(&rt, name, &Ok(starts.as_slice()), expected);
            }
            Err(refusal) => assert_same(&rt, name, &Err(refusal), expected),
        }
    }
    Ok(())
}

/// An instruction of an opcode and an immediate.
fn plain(op: Op, imm: Imm) -> Insn {
    Insn {
        lock: false,
        rex: None,
        op,
        modrm: None,
        sib: None,
        disp: Disp::None,
        imm,
    }
}

/// Opcodes and immediates at an address, and where they lead.
#[rattlefmt::skip]
const JUMPS: [(&str, Op, Imm, u64, Option<u64>); 13] = [
    ("JMP to itself", Op::One(0xEB), Imm::I8(-2), 0x40_0000, Some(0x40_0000)),
    ("JMP to the next", Op::One(0xEB), Imm::I8(0), 0x40_0000, Some(0x40_0002)),
    ("JMP with four bytes", Op::One(0xE9), Imm::I32(0x6FC0_0034), 0x40_0007, Some(0x7000_0040)),
    ("CALL back", Op::One(0xE8), Imm::I32(-5), 0x40_0010, Some(0x40_0010)),
    ("JO", Op::One(0x70), Imm::I8(1), 0x40_0000, Some(0x40_0003)),
    ("JG", Op::One(0x7F), Imm::I8(1), 0x40_0000, Some(0x40_0003)),
    ("JO with four bytes", Op::Two(0x80), Imm::I32(1), 0x40_0000, Some(0x40_0007)),
    ("JG with four bytes", Op::Two(0x8F), Imm::I32(1), 0x40_0000, Some(0x40_0007)),
    ("below address 0", Op::One(0xEB), Imm::I8(-3), 0, Some(0xFFFF_FFFF_FFFF_FFFF)),
    ("RET", Op::One(0xC3), Imm::None, 0x40_0000, None),
    ("PUSH of a number", Op::One(0x6A), Imm::I8(1), 0x40_0000, None),
    ("MOV EAX", Op::One(0xB8), Imm::I32(1), 0x40_0000, None),
    ("SYSCALL", Op::Two(0x05), Imm::None, 0x40_0000, None),
];

#[test]
fn says_where_a_direct_jump_leads(rt: HostRuntime) {
    for &(name, op, imm, at, target) in &JUMPS {
        assert_same(&rt, name, &plain(op, imm).direct_target(at), &target);
    }
}

/// IMUL RCX, [RDI], 0000D401: its slot has 13 bytes.
const SHORT_SLOT: [u8; 7] = [0x48, 0x69, 0x0F, 0x01, 0xD4, 0, 0];

/// ADD EAX, 00D4010F: its slot has 37 bytes.
const LONG_SLOT: [u8; 5] = [0x05, 0x0F, 0x01, 0xD4, 0];

/// Rewrites a text, without its contract, which tests do not need.
fn rewritten(alloc: Global, text: &[u8]) -> Result<Rewritten, RewriteRefusal> {
    if text.len() > 2_097_152 {
        return Err(RewriteRefusal::Memory);
    }
    rewrite(alloc, text)
}

/// Whether these bytes stand at a place of others.
fn stand_at(bytes: &[u8], place: usize, wanted: &[u8]) -> bool {
    match bytes.get(place..) {
        Some(rest) => rest.starts_with(wanted),
        None => false,
    }
}

/// Texts, and what stands in their place and in the area.
#[rattlefmt::skip]
const REWRITINGS: [(&str, &[u8], &[u8], &[u8]); 9] = [
    ("no byte", &[], &[], &[]),
    ("VMFUNC", &[0x0F, 1, 0xD4], &[0x90, 0x90, 0x90], &[]),
    ("ADD ESP, EDX behind 0F", &[0x6A, 0x0F, 1, 0xD4], &[0x6A, 0x0F, 3, 0xE2], &[]),
    ("ADD ESP, EDX at the prefix", &[1, 0xD4, 0x6A, 0x0F], &[1, 0xD4, 0x6A, 0x0F], &[]),
    ("base and index exchanged", &[0x48, 0x8D, 0x9C, 0x0F, 1, 0xD4, 0, 0], &[0x48, 0x8D, 0x9C, 0x39, 1, 0xD4, 0, 0], &[]),
    ("base and index exchanged, and their REX bits", &[0x4A, 0x8D, 0x9C, 0x0F, 1, 0xD4, 0, 0],
        &[0x49, 0x8D, 0x9C, 0x39, 1, 0xD4, 0, 0], &[]),
    ("a displacement of 0 put in", &SHORT_SLOT, &[0xE9, 0xFB, 0x0F, 0xC0, 0xFF, 0x90, 0x90],
        &[0x48, 0x69, 0x4F, 0, 1, 0xD4, 0, 0, 0xE9, 0xFA, 0xEF, 0x3F, 0]),
    ("an immediate in a helper", &LONG_SLOT, &[0xE9, 0xFB, 0x0F, 0xC0, 0xFF],
        &[0x48, 0x89, 0x0C, 0x25, 0, 0x40, 0, 0x70, 0x48, 0xC7, 0xC1, 0x0F, 0, 0xD4, 0, 0x48, 0x8D, 0x89, 0, 1, 0, 0, 1,
            0xC8, 0x48, 0x8B, 0x0C, 0x25, 0, 0x40, 0, 0x70, 0xE9, 0xE0, 0xEF, 0x3F, 0]),
    ("an address in a helper", &[0x48, 0x8B, 0x83, 0x0F, 1, 0xD4, 0], &[0xE9, 0xFB, 0x0F, 0xC0, 0xFF, 0x90, 0x90],
        &[0x48, 0x89, 0x0C, 0x25, 0, 0x40, 0, 0x70, 0x48, 0x8D, 0x8B, 0x0F, 0, 0xD4, 0, 0x48, 0x8D, 0x89, 0, 1, 0, 0, 0x48,
            0x8B, 0x41, 0, 0x48, 0x8B, 0x0C, 0x25, 0, 0x40, 0, 0x70, 0xE9, 0xE0, 0xEF, 0x3F, 0]),
];

#[test]
fn rewrites_texts(rt: HostRuntime) -> Result<(), Fail> {
    for (name, text, new_text, area) in &REWRITINGS {
        let made = rewritten(rt.alloc(), text)?;
        assert_same(&rt, name, &made.text(), new_text);
        assert_same(&rt, name, &made.area(), area);
    }
    Ok(())
}

/// Texts of one instruction, and the main that becomes of it.
#[rattlefmt::skip]
const MAINS: [(&str, &[u8], &[u8]); 3] = [
    ("ADD R8 without its register", &[0x49, 5, 0x0F, 1, 0xD4, 0], &[0x48, 1, 0xC8]),
    ("JMP through memory", &[0xFF, 0xA3, 0x0F, 1, 0xD4, 0], &[0x48, 0x8B, 0x49, 0]),
    ("IMUL R8, and its result from the helper", &[0x4C, 0x69, 0xC0, 0x0F, 1, 0xD4, 0],
        &[0x48, 0x0F, 0xAF, 0xC8, 0x49, 0x89, 0xC8]),
];

#[test]
fn puts_mains_behind_what_comes_before(rt: HostRuntime) -> Result<(), Fail> {
    for (name, text, main) in &MAINS {
        let made = rewritten(rt.alloc(), text)?;
        assert_same(&rt, name, &stand_at(made.area(), 0x16, main), &true);
        assert_same(&rt, name, &made.original_of(0x1016), &Some(0x40_0000));
    }
    Ok(())
}

/// Texts, and why they are refused.
#[rattlefmt::skip]
const REFUSALS: [(&str, &[u8], RewriteRefusal); 8] = [
    ("CALL through memory", &[0xFF, 0x94, 0x24, 0x0F, 1, 0xD4, 0], RewriteRefusal::Unmovable { at: 0x40_0000 }),
    ("a jump to the text's end", &[0xEB, 0], RewriteRefusal::BadTarget { at: 0x40_0000 }),
    ("a jump into an instruction", &[0x90, 0xEB, 0xFF], RewriteRefusal::BadTarget { at: 0x40_0001 }),
    ("a jump before the trampoline", &[0xE9, 0xFA, 0xFF, 0xBF, 0x6F], RewriteRefusal::BadTarget { at: 0x40_0000 }),
    ("an operand size prefix", &[0x66, 0x90], RewriteRefusal::Undecoded { at: 0x40_0000 }),
    ("undecoded behind a bad jump", &[0xEB, 5, 0xCC], RewriteRefusal::Undecoded { at: 0x40_0002 }),
    ("a bad jump behind CALL through memory", &[0xFF, 0x94, 0x24, 0x0F, 1, 0xD4, 0, 0xEB, 5],
        RewriteRefusal::BadTarget { at: 0x40_0007 }),
    ("a jump that holds the bytes of VMFUNC", &[0xE9, 0x0F, 1, 0xD4, 0], RewriteRefusal::BadTarget { at: 0x40_0000 }),
];

#[test]
fn refuses_texts(rt: HostRuntime) {
    for &(name, text, refusal) in &REFUSALS {
        assert_same(
            &rt,
            name,
            &rewritten(rt.alloc(), text).err(),
            &Some(refusal),
        );
    }
}

/// What stands in the place of a text, and where.
const MIXED_EDITS: [Edit; 2] = [
    Edit {
        at: 0x40_0001,
        old_len: 3,
        slot: None,
    },
    Edit {
        at: 0x40_0004,
        old_len: 5,
        slot: Some((0x1000, 37)),
    },
];

/// Addresses, and the original instruction that runs there.
#[rattlefmt::skip]
const PLACES: [(&str, u64, Option<u64>); 9] = [
    ("a start that was kept", 0x40_0000, Some(0x40_0000)),
    ("a start rewritten in place", 0x40_0001, Some(0x40_0001)),
    ("behind it", 0x40_0002, None),
    ("a start that was moved", 0x40_0004, None),
    ("the last start", 0x40_0009, Some(0x40_0009)),
    ("the text's end", 0x40_000A, None),
    ("the slot's first instruction", 0x1000, None),
    ("the main", 0x1016, Some(0x40_0004)),
    ("behind the main", 0x1018, None),
];

#[test]
fn knows_what_runs_where(rt: HostRuntime) -> Result<(), Fail> {
    // NOP; VMFUNC; ADD EAX, 00D4010F; RET.
    let text = [0x90, 0x0F, 0x01, 0xD4, 0x05, 0x0F, 0x01, 0xD4, 0, 0xC3];
    let made = rewritten(rt.alloc(), &text)?;
    let expected = [0x40_0000, 0x40_0001, 0x40_0004, 0x40_0009];
    let starts = addresses(rt.alloc(), made.starts())?;
    assert_same(&rt, "starts", &starts.as_slice(), &expected.as_slice());
    assert_same(&rt, "edits", &made.edits().items(), &MIXED_EDITS.as_slice());
    for (name, at, start) in &PLACES {
        assert_same(&rt, name, &made.original_of(*at), start);
    }
    Ok(())
}

/// Names, where a step of that text is and goes, whether it accesses the scratch page, and its mark.
#[rattlefmt::skip]
const MARKS: [(&str, u64, u64, bool, Mark); 10] = [
    ("a start that was kept", 0x40_0000, 0x40_0001, false, Mark::Step),
    ("the first NOP in place of VMFUNC", 0x40_0001, 0x40_0002, false, Mark::Step),
    ("the second", 0x40_0002, 0x40_0003, false, Mark::Extra),
    ("the third", 0x40_0003, 0x40_0004, false, Mark::Extra),
    ("the jump to the slot", 0x40_0004, 0x1000, false, Mark::Extra),
    ("the slot's first instruction", 0x1000, 0x1008, true, Mark::Extra),
    ("the one before the main", 0x100F, 0x1016, false, Mark::Extra),
    ("the main", 0x1016, 0x1018, false, Mark::Step),
    ("the jump behind it", 0x1020, 0x40_0009, false, Mark::Extra),
    ("a jump into the slot", 0x40_0009, 0x1016, false, Mark::Stray),
];

#[test]
fn marks_steps(rt: HostRuntime) -> Result<(), Fail> {
    // NOP; VMFUNC; ADD EAX, 00D4010F; RET.
    let text = [0x90, 0x0F, 0x01, 0xD4, 0x05, 0x0F, 0x01, 0xD4, 0, 0xC3];
    let made = rewritten(rt.alloc(), &text)?;
    for (name, at, next, scratch, mark) in &MARKS {
        assert_same(&rt, name, &made.mark(*at, *next, *scratch), mark);
    }
    Ok(())
}

/// A text of so many instructions with short slots, so many with long ones, and these bytes.
fn slots_and(alloc: Global, short: u32, long: u32, last: &[u8]) -> Result<Vec<u8>, AllocError> {
    let mut text = Vec::new(alloc);
    for _ in 0..short {
        text.extend_from_slice(&SHORT_SLOT)?;
    }
    for _ in 0..long {
        text.extend_from_slice(&LONG_SLOT)?;
    }
    text.extend_from_slice(last)?;
    Ok(text)
}

/// What stands behind a text whose slots fill the area, and how many bytes of the area are taken then.
#[rattlefmt::skip]
const BEHIND_A_FULL_AREA: [(&str, &[u8], Result<usize, RewriteRefusal>); 4] = [
    ("nothing", &[], Ok(AREA_SIZE)),
    ("a short slot", &SHORT_SLOT, Err(RewriteRefusal::AreaFull { at: 0x40_898E })),
    ("CALL through memory, behind the slot that has no room",
        &[0x48, 0x69, 0x0F, 0x01, 0xD4, 0, 0, 0xFF, 0x94, 0x24, 0x0F, 0x01, 0xD4, 0],
        Err(RewriteRefusal::Unmovable { at: 0x40_8995 })),
    ("a long slot", &LONG_SLOT, Err(RewriteRefusal::AreaFull { at: 0x40_898E })),
];

#[test]
fn fills_the_area(rt: HostRuntime) -> Result<(), Fail> {
    for (name, last, expected) in &BEHIND_A_FULL_AREA {
        let text = slots_and(rt.alloc(), 5027, 5, last)?;
        match rewritten(rt.alloc(), &text) {
            Ok(made) => assert_same(&rt, name, &Ok(made.area().len()), expected),
            Err(refusal) => assert_same(&rt, name, &Err(refusal), expected),
        }
    }
    Ok(())
}
