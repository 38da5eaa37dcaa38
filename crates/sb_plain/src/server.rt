//! What a process is as a server: its pool word, which has a bit for each server stack that is free, and what it told at
//! its registration.

ghost use Rattle.std.specs.Prelude.{◌≡◌, ◌<◌, ◌^◌, IsSome};
ghost use Rattle.sb_state.specs.declared.page.PageName.TheVariants.{Pool};
ghost use Rattle.sb_state.specs.State.{registration_at};
ghost use Rattle.sb_state.specs.PageWords.{with_word};
ghost use Rattle.sb_trace.specs.KernelCall.{pool_word, handler_in};

use sb_state::{PageName, PlainState, Registration};

/// The pool word of a process.
#[tactic(auto, unfolding(sb_state::specs::State::contents))]
pub fn pool_word(state: &PlainState, process: u32) -> u64
    ensures { result ≡ pool_word state.now process }
{
    state.pages.word(PageName::Pool(process), 0)
}

/// Puts the pool word of a process.
#[tactic(auto, unfolding(sb_state::specs::PageWords::with_word, sb_state::specs::State::contents, sb_state::specs::State::with_contents))]
pub fn set_pool_word(state: &mut PlainState, process: u32, word: u64)
    ensures put { state.new ≡ with_word state.old (Pool process) 0 word }
    ensures free { state.new.free ≡ state.old.free }
{
    state.pages.put_word(PageName::Pool(process), 0, word);
}

/// What the process of a number told as a server, if it did.
#[tactic(auto, unfolding(sb_state::specs::State::registration_at, sb_state::specs::State::process_at))]
pub fn registration_at(state: &PlainState, process: usize) -> Option<Registration>
    ensures told { result ≡ registration_at state.now process }
    ensures number { IsSome result → process < 2 ^ 32 }
{
    state.processes.get(process)?.registration
}

/// The address at which calls enter a process.
pub fn handler_of(state: &PlainState, process: u32) -> u64
    ensures { result ≡ handler_in (registration_at state.now process) }
{
    match registration_at(state, process as usize) {
        Some(registration) => registration.handler,
        None => 0,
    }
}
