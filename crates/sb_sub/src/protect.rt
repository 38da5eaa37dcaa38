//! System call 4: a heap page is written, or executed.

ghost use Rattle.std.specs.Prelude.{◌≡◌, ◌<◌, ◌==◌, [], ◌∷◌, IfNone, IfSome};
ghost use Rattle.sb_pagewalk.specs.Standing.{HasTables};
ghost use Rattle.sb_pagewalk.specs.TableSet.{table_frame};
ghost use Rattle.sb_calls.specs.declared.refusals.TheConstants.{EXECUTE_MODE};
ghost use Rattle.sb_root.specs.Standing.{IsApart, Stands};
ghost use Rattle.sb_sub.specs.Heap.{FindsHeap, SetsMode, heap_mode, pattern_at};
ghost use Rattle.sb_sub.specs.Refusals.{pattern_refusal, heap_page_refusal};

use crate::heap::{heap_pattern, page_frame};
use crate::process::Process;
use sb_abi::CallRefusal;
use sb_calls::{EXECUTE_MODE, protect_refusal};
use sb_mapping::{heap_address, page_entry, page_rights};
use sb_memory::Memory;
use sb_root::RootKernel;
use sb_state::Mode;

/// The first refusal of a change of mode, and a second value with it.
fn refusal(
    process: &Process,
    memory: &mut Memory,
    page: u64,
    mode: u64,
) -> Option<(CallRefusal, u64)>
    requires finds { FindsHeap memory.old process.now.set process.now.process.heap_pages }
    ensures same { memory.new ≡ memory.old }
    ensures refusal { result ≡ heap_page_refusal memory.old process.now page mode }
    ensures within { IfNone result (page < process.now.process.heap_pages) }
{
    if let Some(refusal) = protect_refusal(process.plain.heap_pages, page, mode) {
        return Some((refusal, 0));
    }
    if mode == EXECUTE_MODE {
        pattern_refusal(process, memory, page as u32)
    } else {
        None
    }
}

/// The refusal of a page that holds the pattern.
fn pattern_refusal(process: &Process, memory: &mut Memory, page: u32) -> Option<(CallRefusal, u64)>
    requires finds { FindsHeap memory.old process.now.set process.now.process.heap_pages }
    requires page { page < process.now.process.heap_pages }
    ensures same { memory.new ≡ memory.old }
    ensures refusal { result ≡ pattern_refusal (pattern_at memory.old process.now.set page process.now.process.heap_pages) }
{
    let address = heap_pattern(memory, &process.set, page, process.plain.heap_pages)?;
    Some((CallRefusal::Pattern, address))
}

/// How a heap page may be accessed in its two modes.
fn heap_mode(executable: bool) -> Mode
    ensures { result ≡ heap_mode executable }
{
    if executable {
        Mode::Fetch
    } else {
        Mode::ReadWrite
    }
}

/// Gives a heap page a mode.
fn set_mode(
    process: &Process,
    memory: &mut Memory,
    root: &mut RootKernel,
    page: u32,
    executable: bool,
)
    requires finds { FindsHeap memory.old process.now.set process.now.process.heap_pages }
    requires page { page < process.now.process.heap_pages }
    requires tables { HasTables process.now.set memory.old }
    requires stands { Stands root.old memory.old }
    requires apart { IsApart root.old (table_frame process.now.set 7 ∷ []) }
    ensures root { root.new ≡ root.old }
    ensures sets { SetsMode process.now.set root.old memory.old memory.new page executable }
{
    let mode = heap_mode(executable);
    let frame = page_frame(memory, &process.set, page, process.plain.heap_pages);
    process
        .set
        .set_page(memory, heap_address(page), page_entry(frame.0, mode));
    root.expose(memory, frame, page_rights(mode));
}

/// Gives a heap page of a process a mode, or answers the first refusal and a second value. Where the bytes of VMFUNC refuse it,
/// that is the lowest address at which they stand.
pub fn protect(
    process: &Process,
    memory: &mut Memory,
    root: &mut RootKernel,
    page: u64,
    mode: u64,
) -> Option<(CallRefusal, u64)>
    requires finds { FindsHeap memory.old process.now.set process.now.process.heap_pages }
    requires tables { HasTables process.now.set memory.old }
    requires stands { Stands root.old memory.old }
    requires apart { IsApart root.old (table_frame process.now.set 7 ∷ []) }
    ensures refusal { result ≡ heap_page_refusal memory.old process.now page mode }
    ensures root { root.new ≡ root.old }
    ensures refused { IfSome result (λ _. memory.new ≡ memory.old) }
    ensures within { IfNone result (page < process.now.process.heap_pages) }
    ensures sets { IfNone result (SetsMode process.now.set root.old memory.old memory.new page (mode == EXECUTE_MODE)) }
{
    let refused = refusal(process, memory, page, mode);
    if refused.is_none() {
        set_mode(process, memory, root, page as u32, mode == EXECUTE_MODE);
    }
    refused
}
