//! The state of the plain machine, and its memory.
//!
//! A state has pages by name, processes, threads with their registers, views and bindings, their flights, and what is left
//! to be given out. To each linear address of a view of a thread there is at most one page (`specs/Windows.antt`), with a mode
//! that its name gives. So a state is the memory of each thread, to which the meaning of instructions applies as to any other
//! memory (`specs/PlainMemory.antt`). `PlainState` is such a state with room for a page for each free frame, so no change of
//! it takes memory; `PlainBus` is the memory of a thread in a view, as instructions access it.
//!
//! Inside: threads with what they have (`state`, `bindings`, `end_kind`), the definitions of the state, its words, its memory,
//! and VMFUNC's bytes in it (`specs/`: State, PageWords, Windows, PlainMemory, Pattern, Start); what is kept of a process
//! (`process`), the state itself (`plain_state`) and its threads (`thread`), which page a thread sees at an address
//! (`address_space`, `translate`), what it reads and writes there (`read`, `write`, `bus`), VMFUNC's bytes in the heap
//! (`heap_pattern`), values of registers (`registers`), and the bytes of the first pages (`start_bytes`). The pages by name of
//! `sb_pages` are passed on. Not inside: what a step does with a state (`sb_trace`), and code that starts and steps
//! (`sb_plain`).
//!
//! ```text
//! PageName::Heap(0, 3)      // the fourth heap page of process 0, which each view that shows the process sees at C03000
//! PlainBus::new(&mut state, 1, 0).store(Linear(0xC0_3000), 8, 7)      // thread 1 writes there in its home view
//! ```
#![tactic(auto)]

mod address_space;
mod bindings;
mod bus;
mod end_kind;
mod heap_pattern;
mod laws;
pub mod page;
mod plain_state;
mod process;
mod read;
mod registers;
mod start_bytes;
mod state;
mod thread;
mod translate;
mod write;

pub use address_space::process_now;
pub use bindings::Bindings;
pub use bus::PlainBus;
pub use end_kind::EndKind;
pub use heap_pattern::last_two;
pub use laws::stores_change_what_they_reach;
pub use page::{Mode, Page, PageBytes, PageName, SeenPage};
pub use plain_state::PlainState;
pub use process::Process;
pub use registers::{eax, ecx, entry_regs, refusal_regs, start_registers, zero_flags};
pub use sb_pages::{PAGE_SIZE, Pages, put_words, zero_bytes};
pub use start_bytes::{home_record, home_trampoline, page_of, server_trampoline};
pub use state::{Binding, Decision, Flight, Registration, Thread};
pub use thread::no_thread;
pub use translate::page_for_access;
