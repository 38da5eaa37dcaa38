//! Instructions fetched from memory.

ghost use Rattle.std.specs.Prelude.{◌≡◌, IfOk, IfSome};
ghost use Rattle.sb_insn.specs.Grammar.{IsValid, BeginsWith};
ghost use Rattle.sb_exec.specs.Fetching.{FetchesOn, OneFetch, OneFetchOn};

use sb_bus::{Bus, BusStop, FaultKind};
use sb_decode::{DecodeFault, decode};
use sb_insn::Insn;
use sb_memory::Linear;

/// The longest instruction, in bytes.
const LONGEST: usize = 13;

/// The instruction at an address.
///
/// Bytes are fetched one after another, modulo 2^64, as long as those so far are a proper prefix of an instruction.
///
/// # Errors
///
/// What the bus answers at the first byte that fails, or fault `undefined` at `rip` where no instruction begins with the
/// bytes.
pub fn fetch_insn<B: Bus>(bus: &mut B, rip: u64) -> Result<Insn, BusStop>
    ensures fetched { FetchesOn B.interface (B.meaning bus.old) rip (B.account bus.old) (B.account bus.new) result }
    ensures valid { IfOk result (λ insn. IsValid insn) }
    ensures same { B.meaning bus.new ≡ B.meaning bus.old }
    ensures kept { B.kept bus.new ≡ B.kept bus.old }
{
    let mut bytes = [0u8; LONGEST];
    let mut len = 0;
    loop {
        match decode(&bytes[..len]) {
            Ok((insn, _)) => return Ok(insn),
            Err(DecodeFault::Undecoded) => return Err(BusStop::Fault(
                FaultKind::Undefined,
                Linear(rip),
            )),
            Err(DecodeFault::Short) => {
                bytes[len] = bus.fetch(Linear(rip.wrapping_add(len as u64)))?;
                len += 1;
            }
        }
    }
}

/// The instruction with which bytes begin, where one does.
///
/// Where these bytes stand in memory from an address on, it is the one that `fetch_insn` gives there
/// (`proofs/AtOnce.antt`), so a bus that has the bytes of a page at hand need not ask for each of them.
pub fn first_insn(bytes: &[u8]) -> Option<Insn>
    ensures { IfSome result (λ insn. BeginsWith bytes.now insn) }
{
    match decode(bytes) {
        Ok((insn, _)) => Some(insn),
        Err(_) => None,
    }
}

/// A law of fetching: what memory gives determines the answer, and for how many bytes is asked.
pub fn one_fetch()
    ensures { OneFetch }
{}

/// A law of fetching on a bus: its meaning and account determine the answer, and the account after it.
pub fn one_fetch_on<B: Bus>()
    ensures { OneFetchOn B.interface }
{}
