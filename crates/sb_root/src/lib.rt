//! The Rootkernel: extended page tables, the lists of EPT pointers, and switching between views (SDM volume 3, sections 25.5.5.3
//! and 28.3; docs/LAYOUT.md).
//!
//! Inside: `RootKernel`, which builds the base EPT in fixed frames, gives a thread its list, and adds views to it. A view is
//! the base but for four pages: the page of the thread's CR3 leads to the page-table root of the process that the view shows,
//! and the trampoline, record and scratch page are the view's own. `switch` is VMFUNC's leaf 0 by the words of a list. Every
//! contract speaks of what `ept_walk` answers, in the base and in each view. Not inside: guest page tables, what a frame
//! holds, the trampoline's bytes, and who may bind to whom.
//!
//! ```text
//! let mut root = RootKernel::new(&mut memory);                    // 10000 to 1FFFF lead to themselves, 1000 to frame 1
//! root.add_list(&mut memory, &mut book, 0)?;                      // 512 zeros in the lowest free frame
//! root.add_view(&mut memory, &mut book, 0, Frame(16), Frame(17), &words, true)   // is Ok(0): its page 10000 is frame 17
//! switch(&mut memory, root.list_frame(0), 0, 0)                   // is Ok(Switch::To { eptp }), the pointer of that view
//! ```
#![tactic(auto)]

mod entry;
mod eptp_switch;
mod laws;
mod page;
mod root_kernel;
mod switch_answer;
mod tables;
mod taking;
mod view;

pub use entry::{RIGHT_EXECUTE, RIGHT_READ, RIGHT_READ_WRITE};
pub use eptp_switch::switch;
pub use laws::{
    base_answers, lists_lead_to_views, roots_keep_apart, views_answer, walks_read_tables,
};
pub use root_kernel::{NoFrames, RootKernel};
pub use switch_answer::Switch;
