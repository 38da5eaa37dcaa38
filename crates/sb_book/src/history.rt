//! A machine with its journal.

ghost use Rattle.std.specs.Prelude.{◌≡◌, ◌+◌, ◌<◌, ◌≤◌, ◌↔◌, ◌∷◌, ◌++◌, [], length, replicate, IsTrue, IsFalse, vec_len, vec_capacity, IfOk, IfSome, IfNone};
ghost use Rattle.sb_abi.specs.declared.frames.TheConstants.{MIN_FRAMES, MAX_FRAMES};
ghost use Rattle.sb_memory.specs.Physical.{frame_count};
ghost use Rattle.sb_book.specs.Commit.{AreOwnSteps, LeadsBehind, line_marked, lines_marked};
ghost use Rattle.sb_book.specs.History.{IsBegun, IsRunning, AllEnded, IsRun, IsOneStep, IsDone, IsLowest, IsNext};

use crate::steps::make_steps;
use sb_block::{Block, Fact, MadeStep};
use sb_load::Loaded;
use sb_machine::{Machine, own_steps_are_plain};
use sb_trace::{Event, Line, line_of_mark};
use std::alloc::{AllocError, Global};
use std::marker::Model;

/// A machine that was started from what was loaded, with one entry and one line for each step that it made.
#[derive(Drop)]
pub struct History {
    loaded: Loaded,
    machine: Machine,
    journal: Vec<u8>,
    lines: Vec<Line>,
    room: u32,
}

impl Model for History {
    ghost use Rattle.std.specs.Prelude.{◌+◌, ◌≤◌, ◌<◌, ◌^◌, length, vec_len, vec_capacity};
    ghost use Rattle.sb_book.specs.History.{History, IsRun};

    ghost Value = { History };

    ghost view = { λ h.
        record { load = h.loaded; machine = h.machine; journal = h.journal.items; lines = h.lines.items; room = h.room } };

    ghost invariant = { λ h. IsRun (record {
      load = h.loaded;
      machine = h.machine;
      journal = h.journal.items;
      lines = h.lines.items;
      room = h.room;
    })
        × (vec_len h.journal + h.room ≤ vec_capacity h.journal) × (vec_len h.lines + h.room ≤ vec_capacity h.lines)
        × (length h.journal.items + h.room < 2 ^ 32) };
}

/// Appends a value for which there is room.
fn put<T: Drop>(list: &mut Vec<T>, value: T)
    requires { vec_len list.old < vec_capacity list.old }
    ensures items { list.new.items ≡ list.old.items ++ value ∷ [] }
    ensures len { vec_len list.new ≡ vec_len list.old + 1 }
    ensures capacity { vec_capacity list.old ≤ vec_capacity list.new }
{
    // There is room, so it is no error.
    let _ = list.push(value);
}

/// Appends an entry of a core so many times, for which there is room.
fn put_entries(journal: &mut Vec<u8>, core: u8, count: usize)
    requires { vec_len journal.old + count ≤ vec_capacity journal.old }
    ensures items { journal.new.items ≡ journal.old.items ++ replicate count core }
    ensures len { vec_len journal.new ≡ vec_len journal.old + count }
    ensures capacity { vec_capacity journal.old ≤ vec_capacity journal.new }
{
    for _ in 0..count {
        put(journal, core);
    }
}

/// The line of a step of a core with its mark, on a machine.
fn line_marked(machine: &Machine, core: u8, step: &MadeStep) -> Line
    requires { core < length machine.now.cores }
    ensures { result ≡ line_marked machine.now core step.now }
{
    let Fact {
        view,
        next,
        scratch,
    } = step.fact;
    let event = match step.event {
        Event::Step { rip } => line_of_mark(machine.mark(core, view, rip, next, scratch), rip),
        event => event,
    };
    Line { core, event }
}

/// Appends the lines of steps of a core with their marks on a machine, for which there is room.
fn put_lines(lines: &mut Vec<Line>, machine: &Machine, core: u8, steps: &[MadeStep])
    requires core { core < length machine.now.cores }
    requires room { vec_len lines.old + length steps.now ≤ vec_capacity lines.old }
    ensures items { lines.new.items ≡ lines.old.items ++ lines_marked machine.now core steps.now }
    ensures len { vec_len lines.new ≡ vec_len lines.old + length steps.now }
    ensures capacity { vec_capacity lines.old ≤ vec_capacity lines.new }
{
    for step in steps {
        put(lines, line_marked(machine, core, step));
    }
}

impl History {
    /// The machine at its start, with room for so many steps.
    #[tactic(auto, using(crate::proofs::Runs::cores_started))]
    pub fn new(alloc: Global, loaded: Loaded, room: u32) -> Result<History, AllocError>
        ensures { IfOk result (λ history. IsBegun loaded room history) }
    {
        let machine = Machine::new(alloc, &loaded)?;
        let journal = Vec::with_capacity(alloc, room as usize)?;
        let lines = Vec::with_capacity(alloc, room as usize)?;
        Ok(History {
            loaded,
            machine,
            journal,
            lines,
            room,
        })
    }

    /// What the machine started from.
    pub fn loaded(&self) -> &Loaded
        ensures { result.now ≡ self.now.load }
    {
        &self.loaded
    }

    /// The machine.
    pub fn machine(&self) -> &Machine
        ensures { result.now ≡ self.now.machine }
    {
        &self.machine
    }

    /// The core of each step.
    pub fn journal(&self) -> &[u8]
        ensures { result.now ≡ self.now.journal }
    {
        &self.journal
    }

    /// The line of each step, with its mark: these are the lines of the plain machine's run under the journal, and none is
    /// `idle`; the machine stands for the last state of that run.
    pub fn lines(&self) -> &[Line]
        ensures lines { result.now ≡ self.now.lines }
        ensures run { IsRun self.now }
    {
        &self.lines
    }

    /// The journal, the lines and the machine, for which no memory is taken.
    pub fn into_parts(self) -> (Vec<u8>, Vec<Line>, Machine)
        ensures journal { result.0.items ≡ self.journal }
        ensures lines { result.1.items ≡ self.lines }
        ensures machine { result.2 ≡ self.machine }
    {
        (self.journal, self.lines, self.machine)
    }

    /// How many further steps there is room for.
    pub fn room(&self) -> u32
        ensures { result ≡ self.now.room }
    {
        self.room
    }

    /// The number of cores.
    pub fn cores(&self) -> u8
        ensures cores { result ≡ length self.now.machine.cores }
        ensures bundle { result ≡ length self.now.load.bundle.cores }
    {
        self.loaded.bundle().cores.items().len() as u8
    }

    /// The number of frames of the bundle, which is that of the machine.
    pub fn frames(&self) -> u32
        ensures bundle { result ≡ self.now.load.bundle.frames }
        ensures machine { result ≡ frame_count self.now.machine.memory }
        ensures limits { (MIN_FRAMES ≤ result) × (result ≤ MAX_FRAMES) }
    {
        self.loaded.bundle().frames
    }

    /// Whether the thread of a core has ended. A core that has none is one whose thread has ended.
    pub fn ended(&self, core: u8) -> bool
        ensures { IsFalse result ↔ IsRunning self.now.machine core }
    {
        core >= self.cores() || self.machine.ended(core)
    }

    /// The lowest core whose thread goes on.
    pub fn running(&self) -> Option<u8>
        ensures some { IfSome result (λ core. IsLowest self.now.machine core) }
        ensures none { IfNone result (AllEnded self.now.machine) }
    {
        for core in 0..self.cores() {
            if !self.ended(core) {
                return Some(core);
            }
        }
        None
    }

    /// Whether each thread has ended.
    pub fn all_ended(&self) -> bool
        ensures { IsTrue result ↔ AllEnded self.now.machine }
    {
        self.running().is_none()
    }

    /// The core whose step a worker of this core makes: its own while its thread runs, else the lowest that runs. `None` where
    /// nothing is left to do.
    pub fn next(&self, core: u8) -> Option<u8>
        ensures some { IfSome result (λ next. IsNext self.now core next) }
        ensures none { IfNone result (IsDone self.now) }
    {
        if self.room == 0 {
            return None;
        }
        if !self.ended(core) {
            return Some(core);
        }
        self.running()
    }

    /// One step of a core whose thread runs, with its entry and its line. It takes no memory.
    #[tactic(auto, using(crate::proofs::Busy::busy_with_mark))]
    pub fn step(&mut self, core: u8)
        requires running { IsRunning self.old.machine core }
        requires room { 0 < self.old.room }
        ensures { IsOneStep self.old core self.new }
    {
        let line = self.machine.step(core);
        put(&mut self.journal, core);
        put(&mut self.lines, line);
        self.room -= 1;
    }

    /// Makes the steps of a block that lead to the core and the words behind it, with an entry and a line for each. The lines
    /// have their marks on the machine before them. It takes no memory.
    pub(crate) fn make(&mut self, block: &Block)
        requires core { block.now.core < length self.old.machine.cores }
        requires room { length block.now.steps ≤ self.old.room }
        requires leads { LeadsBehind self.old.machine block.now.core block.now.steps block.now.after block.now.writes }
        ensures { AreOwnSteps self.old block.now.core block.now.steps self.new }
    {
        own_steps_are_plain();
        let steps = block.steps.items();
        put_entries(&mut self.journal, block.core, steps.len());
        put_lines(&mut self.lines, &self.machine, block.core, steps);
        make_steps(&mut self.machine, block);
        self.room -= steps.len() as u32;
    }
}
