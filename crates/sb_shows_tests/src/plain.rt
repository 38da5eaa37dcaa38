//! The plain state of the small machine.

ghost use Rattle.std.specs.Prelude.{◌≡◌, IfOk, length};

use crate::rows::{ROWS, VIEWS};
use sb_insn::{Flags, Regs};
use sb_list::Listed;
use sb_state::{
    Binding, Bindings, EndKind, Mode, Page, PageBytes, PageName, Pages, PlainState, Thread,
    home_trampoline, no_thread, put_words, server_trampoline, zero_bytes,
};
use sb_tramp::KeyWords;
use std::alloc::{AllocError, Global};

/// The bytes of a page with this first byte, and a filler behind it.
fn bytes_of(alloc: Global, first: u8, filler: u8) -> Result<PageBytes, AllocError>
    ensures { IfOk result (λ bytes. length bytes ≡ 4096) }
{
    let mut bytes = vec![in alloc; filler; 4096]?;
    bytes[0] = first;
    Ok(Listed::new(bytes))
}

/// A thread at home in a process.
fn thread(home: u32, bindings: Bindings) -> Thread {
    Thread {
        home,
        regs: Regs {
            general: [0; 16],
            rip: 0x40_0000,
            flags: Flags::CLEAR,
        },
        view: 0,
        bindings,
        state: EndKind::Running,
    }
}

/// The pages of each view alone: record and scratch page.
fn push_own(alloc: Global, pages: &mut Pages) -> Result<(), AllocError> {
    for view in VIEWS {
        let mut words = zero_bytes(alloc)?;
        put_words(&mut words, 0, &view.words.in_order());
        pages.push(Page {
            name: PageName::Record(u32::from(view.thread), u32::from(view.index)),
            executable: false,
            bytes: words,
        })?;
        pages.push(Page {
            name: PageName::Scratch(u32::from(view.thread), u32::from(view.index)),
            executable: false,
            bytes: zero_bytes(alloc)?,
        })?;
    }
    Ok(())
}

/// The two pages of the trampoline.
fn push_trampoline(alloc: Global, pages: &mut Pages) -> Result<(), AllocError> {
    pages.push(Page {
        name: PageName::HomeTrampoline,
        executable: false,
        bytes: home_trampoline(alloc)?,
    })?;
    pages.push(Page {
        name: PageName::ServerTrampoline,
        executable: false,
        bytes: server_trampoline(alloc)?,
    })
}

/// The two threads; the first is bound to the second process.
fn some_threads(alloc: Global) -> Result<Vec<Thread>, AllocError> {
    let mut bindings = Bindings::new();
    bindings.push(Binding {
        index: 1,
        server: 1,
        key: 0x1122_3344_5566_7788,
    });
    let mut threads = Vec::new(alloc);
    threads.push(thread(0, bindings))?;
    threads.push(thread(1, Bindings::new()))?;
    Ok(threads)
}

/// The state with these pages and threads.
pub fn plain_state(alloc: Global) -> Result<PlainState, AllocError> {
    let mut pages = Pages::new(alloc);
    for row in ROWS {
        pages.push(Page {
            name: row.name,
            executable: row.mode == Mode::Fetch,
            bytes: bytes_of(alloc, row.first, row.filler)?,
        })?;
    }
    push_own(alloc, &mut pages)?;
    push_trampoline(alloc, &mut pages)?;
    Ok(PlainState {
        pages,
        processes: Vec::new(alloc),
        threads: some_threads(alloc)?,
        absent: no_thread(),
        flights: vec![in alloc; None; 2]?,
        free: 0,
        keys: KeyWords::new(Vec::new(alloc)),
    })
}
