//! A block of one core, what the other one stores beside it, and what its commit answers.

ghost use Rattle.std.specs.Prelude.{◌≡◌, ◌<◌, ◌≤◌, IfOk};
ghost use Rattle.sb_book.specs.Commit.{IsBlockOf};

use crate::bundle::loaded;
use sb_block::{Block, Place, Stop};
use sb_book::{Book, CommitRefusal, Share, Task, Workbench};
use sb_load::Loaded;
use sb_trace::{Event, Line};
use std::alloc::Global;
use std::marker::Brand;
use std::sync::ledger::{Blank, Ledger};
use std::test::Fail;

/// The core whose block is committed last.
const FIRST: u8 = 0;

/// The core that stores beside it.
const OTHER: u8 = 1;

/// What a commit answered, where its block could be committed at all.
type Answer = Option<Result<(), CommitRefusal>>;

/// A block of core 0 is made, core 1 makes blocks of one step and commits them, and then the first block is committed.
#[derive(Clone, Copy)]
struct Row {
    name: &'static str,
    /// Where the cores start in the text.
    starts: [u8; 2],
    /// The most steps of the book.
    room: u32,
    /// The most steps of the block.
    limit: u32,
    /// How many blocks core 1 commits.
    stores: u32,
    answer: Wanted,
    /// The steps that were made.
    journal: usize,
    /// The room behind them.
    left: u32,
    /// How many lines are of additions of the rewriter.
    extras: usize,
}

/// What is to come of the last commit.
#[derive(Clone, Copy)]
enum Wanted {
    Made,
    Full { room: u32 },
    /// The word that core 1 stored into holds another value now.
    Stale { seen: u64, now: u64 },
}

/// What came of a row.
#[derive(Drop)]
struct Came {
    answer: Answer,
    /// What core 1 stored into last.
    stored: Option<Place>,
    journal: Vec<u8>,
    lines: Vec<Line>,
    room: u32,
}

#[rattlefmt::skip]
const ROWS: [Row; 4] = [
    Row { name: "a word that was changed and came back", starts: [0, 0x12], room: 9, limit: 1, stores: 2,
        answer: Wanted::Made, journal: 3, left: 6, extras: 0 },
    Row { name: "more steps than room", starts: [0x12, 0], room: 3, limit: 4, stores: 0,
        answer: Wanted::Full { room: 3 }, journal: 0, left: 3, extras: 0 },
    Row { name: "the other half of a word", starts: [7, 0x28], room: 9, limit: 1, stores: 1,
        answer: Wanted::Stale { seen: 0, now: 7 << 32 }, journal: 1, left: 8, extras: 0 },
    Row { name: "three NOPs in place of VMFUNC", starts: [0x33, 0], room: 9, limit: 4, stores: 0,
        answer: Wanted::Made, journal: 4, left: 5, extras: 2 },
];

/// A block of a core from where the book is, on copies of the frames that it asks for.
fn fresh_block<E: Task, Z: Ledger>(
    alloc: Global,
    book: &Book<E, Z>,
    frames: u32,
    core: u8,
    limit: u32,
) -> Result<Block, Fail>
    requires limit { 1 ≤ limit }
    requires some { 1 ≤ frames }
    requires few { frames ≤ 8192 }
    ensures { IfOk result (λ block. IsBlockOf frames block.core block.before block.after block.steps block.reads block.writes) }
{
    let mut bench = Workbench::new(core, limit, frames);
    let mut wanted = None;
    for _ in 0..64 {
        let begun = bench.begin(alloc, book, wanted)?;
        let Some(start) = begun else {
            return Err("the thread of the core runs".into());
        };
        match bench.block(alloc, &start) {
            Ok(block) => return Ok(block),
            Err(Stop::NeedFrame(frame)) => wanted = Some(frame),
            Err(Stop::Kernel | Stop::Memory) => return Err(
                "the core makes the step by itself".into(),
            ),
        }
    }
    Err("a block needs fewer frames".into())
}

/// Commits a block where that may be tried.
fn commit<E: Task, Z: Ledger>(
    book: &mut Book<E, Z>,
    share: &mut Share<E, Z>,
    frames: u32,
    block: &Block,
) -> Answer
    requires block { IsBlockOf frames block.now.core block.now.before block.now.after
        block.now.steps block.now.reads block.now.writes }
    requires parts { (0 < share.old.entries.parts) × (0 < share.old.stops.parts) }
    ensures kept { (share.new.entries.parts ≡ share.old.entries.parts) × (share.new.stops.parts ≡ share.old.stops.parts) }
{
    if book.may_commit(block, frames) {
        Some(book.commit(block, share))
    } else {
        None
    }
}

/// Core 1 makes blocks of one step and commits them; the place into which it stored last.
fn store<E: Task, Z: Ledger>(
    alloc: Global,
    book: &mut Book<E, Z>,
    share: &mut Share<E, Z>,
    frames: u32,
    count: u32,
) -> Result<Option<Place>, Fail>
    requires some { 1 ≤ frames }
    requires few { frames ≤ 8192 }
    requires parts { (0 < share.old.entries.parts) × (0 < share.old.stops.parts) }
    ensures kept { (share.new.entries.parts ≡ share.old.entries.parts) × (share.new.stops.parts ≡ share.old.stops.parts) }
{
    let mut stored = None;
    for _ in 0..count {
        let block = fresh_block(alloc, book, frames, OTHER, 1)?;
        if commit(book, share, frames, &block) != Some(Ok(())) {
            return Err("nothing stands against core 1".into());
        }
        stored = block.writes.items().first().map(|seen| seen.place);
    }
    Ok(stored)
}

/// What comes of a row, on a book of these ledgers.
fn came_of<E: Task, Z: Ledger>(
    alloc: Global,
    loaded: Loaded,
    row: &Row,
    entries: Blank,
    stops: Blank,
) -> Result<Came, Fail>
    requires task { (loaded ≡ E.load) × (row.now.room ≡ E.limit) }
    requires entries { (entries.name ≡ E.name) × (entries.parts ≡ E.parts) × (0 < entries.parts) }
    requires stops { (stops.name ≡ Z.name) × (stops.parts ≡ Z.parts) × (0 < stops.parts) }
{
    if row.limit == 0 {
        return Err("a block has steps".into());
    }
    let (mut book, mut share) = Book::<E, Z>::new(alloc, loaded, row.room, entries, stops)?;
    let frames = book.frames();
    let block = fresh_block(alloc, &book, frames, FIRST, row.limit)?;
    let stored = store(alloc, &mut book, &mut share, frames, row.stores)?;
    Ok(Came {
        answer: commit(&mut book, &mut share, frames, &block),
        stored,
        journal: Vec::from_slice(alloc, book.journal())?,
        lines: Vec::from_slice(alloc, book.lines())?,
        room: book.room(),
    })
}

/// What comes of a row.
fn answer_of(alloc: Global, row: &Row) -> Result<Came, Fail> {
    let loaded = loaded(alloc, row.starts)?;
    came_of::<Brand, Brand>(alloc, loaded, row, Blank::new(1), Blank::new(1))
}

/// The answer that is wanted, where core 1 stored into this place last.
fn wanted_of(row: &Row, stored: Option<Place>) -> Answer {
    match (row.answer, stored) {
        (Wanted::Made, _) => Some(Ok(())),
        (Wanted::Full { room }, _) => Some(Err(CommitRefusal::Full { room })),
        (Wanted::Stale { seen, now }, Some(place)) => {
            Some(Err(CommitRefusal::Stale { place, seen, now }))
        }
        (Wanted::Stale { .. }, None) => None,
    }
}

/// How many lines are of additions of the rewriter.
fn count_extras(lines: &[Line]) -> usize {
    lines
        .iter()
        .filter(|line| matches!(line.event, Event::Extra { .. }))
        .count()
}

#[test]
fn a_commit_asks_whether_what_was_read_still_holds(rt: HostRuntime) -> Result<(), Fail> {
    for row in &ROWS {
        let came = answer_of(rt.alloc(), row)?;
        assert_eq!(rt; came.answer, wanted_of(row, came.stored), "{}", row.name);
        assert_eq!(rt; came.journal.len(), row.journal, "{}", row.name);
        assert_eq!(rt; count_extras(&came.lines), row.extras, "{}", row.name);
        assert_eq!(rt; came.room, row.left, "{}", row.name);
    }
    Ok(())
}
