//! Instructions fetched from any memory and executed over it.
//!
//! Promised: `fetch_insn` gives the one instruction whose bytes stand at an address, and fetches no byte more than it
//! needs. `execute` does to registers and memory what the row of the instruction says: it makes the row's accesses in
//! their order, up to and with the first that stops, and no others. After a stop all is as before.
//!
//! Inside: the trait `Bus`, which is all that an instruction sees of memory; what stops an access; and the meaning of
//! each instruction as a row of data (`specs/`): what is loaded, what is stored after it, and the registers and the
//! stored number as functions of the loaded number. A row is composed of the operands by their form, one function over
//! numbers for each operation, and the write back; which of them an instruction has, a table says by its name in the
//! opcode maps of `sb_insn`. Laws say when a row does the same on two memories (`Pair`), and that each leaves numbers of
//! 64 bits in the registers. Not inside: a memory, and what a system call or a switch does.
//!
//! Where the SDM leaves a value open, the rows choose. IMUL keeps ZF and PF. A shift by more than 1 clears OF. BSF
//! changes no flag but ZF, and of 0 leaves its destination whole, as CMPXCHG leaves a register that is not equal. A
//! 32-bit shift by 0 writes its result, which clears the upper half of the register. AF is not kept. A jump to an
//! address that is not canonical is done, and the next fetch faults.
//!
//! So `31 C0`, which is `XOR EAX, EAX`, loads and stores nothing, and leaves RAX 0, ZF and PF set, the other flags clear,
//! and RIP two bytes further on.
#![tactic(auto)]

mod action;
mod address;
mod branch;
mod exchange;
mod execution;
mod fetch;
mod operand;
mod pair;
mod rows;
mod table;
mod touch;
mod words;
mod write_back;

pub use action::{Action, Effect, Exchange, Load, Location, MemoryUse, Store};
pub use execution::execute;
pub use fetch::{fetch_insn, first_insn, one_fetch, one_fetch_on};
pub use pair::{
    Pair, executes_agreeing, executes_told, rows_agreeing, rows_alike, rows_in, rows_told,
};
pub use sb_alu::{Operation, OperationOutcome, Size};
pub use sb_bus::{Bus, BusStop, FaultKind};
pub use touch::touches;
pub use words::{executions_keep_words, rows_keep_words};
