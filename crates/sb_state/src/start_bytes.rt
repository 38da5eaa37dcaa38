//! The bytes of pages at the start.

ghost use Rattle.std.specs.Prelude.{◌≡◌, ◌*◌, ◌^◌, ◌<◌, ◌≤◌, IfOk, length, take};
ghost use Rattle.sb_memory.specs.declared.page.TheConstants.{PAGE_SIZE};
ghost use Rattle.sb_state.specs.Start.{page_padded, page_of, save_address, home_words, record_bytes};
ghost use Rattle.sb_tramp.specs.Home.{home_page};
ghost use Rattle.sb_tramp.specs.Server.{server_page};

use sb_abi::{STACKS_ADDRESS, THREAD_DISTANCE};
use sb_pages::{PAGE_SIZE, PageBytes, put_words, zero_bytes};
use sb_tramp::{RecordWords, put_home, put_server};
use std::alloc::{AllocError, Global};

/// The first bytes, as many as a page has.
#[tactic(auto, using(crate::proofs::Filling::short_page))]
fn first_page(bytes: &[u8]) -> &[u8]
    ensures first { result.now ≡ take PAGE_SIZE bytes.now }
    ensures within { length result.now ≤ PAGE_SIZE }
{
    if bytes.len() < PAGE_SIZE {
        bytes
    } else {
        &bytes[..PAGE_SIZE]
    }
}

/// A chunk of at most a page, filled up to a page.
#[tactic(auto, using(crate::proofs::Filling::filled_more, crate::proofs::Filling::filled_whole))]
fn page_padded(alloc: Global, filler: u8, chunk: &[u8]) -> Result<PageBytes, AllocError>
    requires { length chunk.now ≤ PAGE_SIZE }
    ensures bytes { IfOk result (λ bytes. bytes ≡ page_padded filler chunk.now) }
    ensures size { IfOk result (λ bytes. length bytes ≡ PAGE_SIZE) }
{
    let mut bytes = Vec::from_slice(alloc, chunk)?;
    for _ in chunk.len()..PAGE_SIZE {
        bytes.push(filler)?;
    }
    Ok(PageBytes::new(bytes))
}

/// One page of bytes that go over several pages, filled up where it is the last.
pub fn page_of(
    alloc: Global,
    filler: u8,
    bytes: &[u8],
    page: usize,
) -> Result<PageBytes, AllocError>
    requires { PAGE_SIZE * page < length bytes.now }
    ensures bytes { IfOk result (λ bytes_of_page. bytes_of_page ≡ page_of filler bytes.now page) }
    ensures size { IfOk result (λ bytes_of_page. length bytes_of_page ≡ PAGE_SIZE) }
{
    page_padded(alloc, filler, first_page(&bytes[PAGE_SIZE * page..]))
}

/// The linear address of a thread's save page.
fn save_address(thread: u32) -> u64
    ensures { result ≡ save_address thread }
{
    STACKS_ADDRESS + u64::from(thread) * THREAD_DISTANCE
}

/// The record page of a thread's home view.
#[tactic(auto, using(crate::proofs::Start::record_page))]
pub fn home_record(alloc: Global, thread: u32, home: u32) -> Result<PageBytes, AllocError>
    ensures bytes { IfOk result (λ bytes. bytes ≡ record_bytes (home_words thread home)) }
    ensures size { IfOk result (λ bytes. length bytes ≡ PAGE_SIZE) }
{
    let words = RecordWords {
        key: 0,
        base: 0,
        handler: 0,
        thread: u64::from(thread),
        save: save_address(thread),
        home: u64::from(home),
    };
    let mut bytes = zero_bytes(alloc)?;
    put_words(&mut bytes, 0, &words.in_order());
    Ok(bytes)
}

/// The trampoline page of every home view.
pub fn home_trampoline(alloc: Global) -> Result<PageBytes, AllocError>
    ensures bytes { IfOk result (λ bytes. bytes ≡ home_page) }
    ensures size { IfOk result (λ bytes. length bytes ≡ PAGE_SIZE) }
{
    let mut bytes = vec![in alloc; 0u8; PAGE_SIZE]?;
    put_home(&mut bytes);
    Ok(PageBytes::new(bytes))
}

/// The trampoline page of every server's view.
pub fn server_trampoline(alloc: Global) -> Result<PageBytes, AllocError>
    ensures bytes { IfOk result (λ bytes. bytes ≡ server_page) }
    ensures size { IfOk result (λ bytes. length bytes ≡ PAGE_SIZE) }
{
    let mut bytes = vec![in alloc; 0u8; PAGE_SIZE]?;
    put_server(&mut bytes);
    Ok(PageBytes::new(bytes))
}
