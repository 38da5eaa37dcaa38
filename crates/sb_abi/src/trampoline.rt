//! The trampoline and the pages that belong to a view, and the phases of a landing (docs/FORMATS.md, "The trampoline").

/// The trampoline page of a view: a client calls its first byte, with the index of a binding in EDI.
pub const TRAMPOLINE_ADDRESS: u64 = 0x7000_0000;

/// The page number of the trampoline page.
pub const TRAMPOLINE_PAGE: u64 = 0x7_0000;

/// Where a handler returns to: the top word of each server stack.
pub const EXIT_STUB: u64 = 0x7000_0000;

/// The one place from which VMFUNC can be fetched.
pub const VMFUNC_ADDRESS: u64 = 0x7000_0040;

/// Where a thread goes on in its home: the instruction after the VMFUNC.
pub const RETURN_ADDRESS: u64 = 0x7000_0043;

/// The record page of a view.
pub const RECORD_ADDRESS: u64 = 0x7000_2000;

/// The page number of the record page.
pub const RECORD_PAGE: u64 = 0x7_0002;

/// The scratch page of a view.
pub const SCRATCH_ADDRESS: u64 = 0x7000_4000;

/// The page number of the scratch page.
pub const SCRATCH_PAGE: u64 = 0x7_0004;

/// The pool page of the process that a view shows: its first word has a bit for each server stack that is free.
pub const POOL_ADDRESS: u64 = 0x7000_6000;

/// The page number of the pool page.
pub const POOL_PAGE: u64 = 0x7_0006;

// ---- phases: the instructions of the server page after its VMFUNC, in their order

/// CMP of the key.
pub const COMPARE_KEY: u8 = 0;

/// JNE: where the key is wrong.
pub const BRANCH_ON_KEY: u8 = 1;

/// MOV of the pool word.
pub const LOAD_POOL: u8 = 2;

/// TEST of the mask, which is the pool word that was loaded.
pub const TEST_MASK: u8 = 3;

/// JE: where no stack is free.
pub const BRANCH_ON_POOL: u8 = 4;

/// LEA of the mask less 1.
pub const LESS_ONE: u8 = 5;

/// AND: the mask without its lowest bit.
pub const DROP_BIT: u8 = 6;

/// BSF: the number of the stack of that bit.
pub const FIND_STACK: u8 = 7;

/// CMPXCHG of the pool word: takes the stack.
pub const EXCHANGE_POOL: u8 = 8;

/// JNE: again, where another thread was first.
pub const BRANCH_ON_EXCHANGE: u8 = 9;

/// SHL of the stack's number to its offset, the first phase of a call that is entered.
pub const STACK_OFFSET: u8 = 10;

/// MOV of the first stack's top to RSP.
pub const LOAD_BASE: u8 = 11;

/// ADD of the offset to RSP.
pub const ADD_OFFSET: u8 = 12;

/// XOR of R10, where the offset was.
pub const CLEAR_OFFSET: u8 = 13;

/// XOR of ECX, where the index was.
pub const CLEAR_INDEX: u8 = 14;

/// XOR of EAX, where the mask was.
pub const CLEAR_MASK: u8 = 15;

/// JMP to the handler, the last phase of a call that is entered.
pub const ENTER: u8 = 16;

/// MOV of the status for a wrong key.
pub const STATUS_WRONG_KEY: u8 = 17;

/// JMP over the next phase.
pub const SKIP: u8 = 18;

/// MOV of the status for an empty pool.
pub const STATUS_POOL_EMPTY: u8 = 19;

/// XOR of R10, the first phase of leaving.
pub const LEAVE: u8 = 20;

/// XOR of ECX: the index of the home view.
pub const HOME_INDEX: u8 = 21;

/// XOR of EAX: the leaf of VMFUNC.
pub const HOME_LEAF: u8 = 22;

/// JMP to the VMFUNC.
pub const JUMP_BACK: u8 = 23;

/// VMFUNC of the way back, the last phase of a call that is not entered.
pub const GO_HOME: u8 = 24;

/// The phase of the line at which a flight begins: the client's own VMFUNC.
pub const VMFUNC_PHASE: u8 = 25;
