//! The cores of a bundle, each on a thread of its own.

ghost use Rattle.std.specs.Prelude.{◌≡◌, ◌+◌, ◌<◌, ◌≤◌, length, vec_len, IfOk, OnOk};
ghost use Rattle.sb_book.specs.History.{IsDone, IsOfTask};

use crate::book::{Book, Task};
use crate::history::History;
use crate::share::Share;
use crate::worker::{Gate, work};
use sb_load::Loaded;
use std::alloc::{AllocError, Global};
use std::marker::Brand;
use std::sync::ledger::{Blank, Ledger};
use std::sync::{Mutex, Wait};
use std::thread;
use std::thread::Threads;

/// A worker that is still to run: its core, and a share with one part.
#[derive(Drop)]
struct Job<E: Task, Z: Ledger> {
    core: u8,
    share: Share<E, Z>,
    ghost one_part: { (share.entries.parts ≡ 1) × (share.stops.parts ≡ 1) },
}

/// What a worker gives back: its share, with a stop unit.
#[derive(Drop)]
struct Stopped<E: Task, Z: Ledger> {
    share: Share<E, Z>,
    ghost one_part: { (share.entries.parts ≡ 1) × (share.stops.parts ≡ 1) },
    ghost stopped: { 0 < share.stops.amount },
}

/// A job for each core, with a part of each ledger for each; all parts are given away.
fn jobs<E: Task, Z: Ledger>(
    alloc: Global,
    cores: u8,
    all: &mut Share<E, Z>,
) -> Result<Vec<Job<E, Z>>, AllocError>
    requires parts { (all.old.entries.parts ≡ cores) × (all.old.stops.parts ≡ cores) }
    requires amounts { (all.old.entries.amount ≡ 0) × (all.old.stops.amount ≡ 0) }
    ensures jobs { IfOk result (λ jobs. vec_len jobs ≡ cores) }
    ensures parts { OnOk result ((all.new.entries.parts ≡ 0) × (all.new.stops.parts ≡ 0)) }
{
    let mut jobs = Vec::new(alloc);
    for core in 0..cores {
        let share = all.one_part();
        jobs.push(Job { core, share })?;
    }
    Ok(jobs)
}

/// Does a job.
fn worker<E: Task, Z: Ledger, W: Wait, G: Gate>(
    rt: &W,
    alloc: Global,
    book: &Mutex<Book<E, Z>>,
    gate: &G,
    block: u32,
    job: Job<E, Z>,
) -> Result<Stopped<E, Z>, AllocError>
    requires { 1 ≤ block }
{
    let Job { core, share } = job;
    let share = work(rt, alloc, book, gate, core, block, share)?;
    Ok(Stopped { share })
}

/// Takes the shares of the workers together; `Err` where one of them had no memory.
fn gather<E: Task, Z: Ledger>(
    all: &mut Share<E, Z>,
    mut stopped: Vec<Result<Stopped<E, Z>, AllocError>>,
) -> Result<(), AllocError>
    ensures parts { OnOk result ((all.new.entries.parts ≡ all.old.entries.parts + vec_len stopped)
        × (all.new.stops.parts ≡ all.old.stops.parts + vec_len stopped)) }
    ensures units { OnOk result (all.old.stops.amount + vec_len stopped ≤ all.new.stops.amount) }
{
    while let Some(one) = stopped.pop() {
        let Stopped { share } = one?;
        all.merge(share);
    }
    Ok(())
}

/// The history of a book whose workers have stopped: nothing is left to do.
fn audited<E: Task, Z: Ledger>(mut book: Book<E, Z>, mut all: Share<E, Z>) -> History
    requires parts { (all.entries.parts ≡ E.parts) × (all.stops.parts ≡ Z.parts) }
    requires stopped { 0 < all.stops.amount }
    ensures same { result ≡ book.history }
    ensures entries { all.entries.amount ≡ length result.journal }
    ensures done { IsDone result }
    ensures task { IsOfTask E.load E.limit result }
{
    book.audit(&mut all);
    book.into_history()
}

/// The same with the blanks of the two ledgers, which have a part for each core.
fn on_threads<
    E: Task + Send + Sync,
    Z: Ledger + Send + Sync,
    R: Threads + Wait + Sync,
    G: Gate + Sync,
>(
    rt: &R,
    alloc: Global,
    loaded: Loaded,
    steps: u32,
    block: u32,
    gate: &G,
    entries: Blank,
    stops: Blank,
) -> Result<History, AllocError>
    requires block { 1 ≤ block }
    requires task { (loaded ≡ E.load) × (steps ≡ E.limit) }
    requires entries { (entries.name ≡ E.name) × (entries.parts ≡ E.parts) }
    requires stops { (stops.name ≡ Z.name) × (stops.parts ≡ Z.parts) }
    requires parts { (entries.parts ≡ length loaded.bundle.cores) × (stops.parts ≡ length loaded.bundle.cores) }
    ensures done { IfOk result (λ history. IsDone history) }
    ensures task { IfOk result (λ history. IsOfTask loaded steps history) }
{
    let cores = loaded.bundle().cores.items().len() as u8;
    let (book, mut all) = Book::<E, Z>::new(alloc, loaded, steps, entries, stops)?;
    let jobs = jobs(alloc, cores, &mut all)?;
    let book = Mutex::new(book);
    let shared = &book;
    let stopped = thread::map_vec(
        rt,
        jobs,
        &|job: Job<E, Z>| worker(rt, alloc, shared, gate, block, job),
    )?;
    gather(&mut all, stopped)?;
    Ok(audited(book.into_inner(), all))
}

/// Runs what was loaded, each core on a thread of its own, until nothing is left to do: each thread has ended, or so many steps
/// were made. No return is promised. `block` is the most steps that a worker makes outside the lock at one go.
pub fn history_by_threads<R: Threads + Wait + Sync, G: Gate + Sync>(
    rt: &R,
    alloc: Global,
    loaded: Loaded,
    steps: u32,
    block: u32,
    gate: &G,
) -> Result<History, AllocError>
    requires { 1 ≤ block }
    ensures done { IfOk result (λ history. IsDone history) }
    ensures task { IfOk result (λ history. IsOfTask loaded steps history) }
{
    let parts = loaded.bundle().cores.items().len() as u64;
    on_threads::<Brand, Brand, R, G>(
        rt,
        alloc,
        loaded,
        steps,
        block,
        gate,
        Blank::new(parts),
        Blank::new(parts),
    )
}
