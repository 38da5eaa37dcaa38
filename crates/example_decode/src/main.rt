//! The decoder by itself: lists the instructions of a few bytes.
#![tactic(auto)]

ghost use Rattle.std.specs.Prelude.{◌<◌, length, IfOk};

use sb_decode::{DecodeFault, decode};
use sb_insn::{Insn, instruction_of};
use std::io;

/// `mov edi, 7`, `xor eax, eax`, `syscall`, and the first byte of an `add`.
const TEXT: [u8; 10] = [0xBF, 7, 0, 0, 0, 0x31, 0xC0, 0x0F, 0x05, 0x01];

/// The first instruction, and the bytes behind it, which are fewer.
fn split_first(bytes: &[u8]) -> Result<(Insn, &[u8]), DecodeFault>
    ensures { IfOk result (λ found. length found.1.now < length bytes.now) }
{
    let (insn, length) = decode(bytes)?;
    Ok((insn, &bytes[length..]))
}

fn main(rt: HostRuntime) -> io::Result<()> {
    let mut rest = TEXT.as_slice();
    for _ in 0..TEXT.len() {
        match split_first(rest) {
            Ok((insn, behind)) => {
                let name = instruction_of(&insn).map(|found| found.mnemonic);
                println!(rt; "{} bytes: {name:?}", rest.len() - behind.len())?;
                rest = behind;
            }
            Err(fault) => return println!(rt; "{} bytes are left: {fault}", rest.len()),
        }
    }
    Ok(())
}
