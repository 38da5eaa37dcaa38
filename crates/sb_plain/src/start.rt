//! The plain machine at its start.

ghost use Rattle.std.specs.Prelude.{◌≡◌, IfOk, length, map};
ghost use Rattle.sb_state.specs.Start.{start_process};
ghost use Rattle.sb_trace.specs.Sound.{IsSound};
ghost use Rattle.sb_plain.specs.Start.{image_of, images_loaded, first_state};

use crate::plain::Plain;
use sb_bundle::Image;
use sb_load::Loaded;
use sb_rewrite::Rewritten;
use sb_state::{PlainState, Process, no_thread};
use sb_tramp::KeyWords;
use std::alloc::{AllocError, Global};

mod pages;
mod threads;

use pages::start_pages;
use threads::{start_flights, start_threads};

/// A process that is no server yet.
fn start_process(alloc: Global, image: &Image, made: &Rewritten) -> Result<Process, AllocError>
    ensures { IfOk result (λ process. process ≡ start_process (image_of image.now made.now)) }
{
    Ok(Process::new(made.map().copied(alloc)?, image.heap_pages))
}

/// The processes at the start, by their numbers.
fn start_processes(alloc: Global, loaded: &Loaded) -> Result<Vec<Process>, AllocError>
    ensures processes { IfOk result (λ processes. processes.items ≡ map start_process (images_loaded loaded.now)) }
    ensures count { IfOk result (λ processes. length processes.items ≡ length loaded.now.bundle.images) }
{
    let mut processes = Vec::new(alloc);
    for (number, image) in loaded.bundle().images.items().iter().enumerate() {
        let made = loaded.rewritten(number as u32);
        processes.push(start_process(alloc, image, made)?)?;
    }
    Ok(processes)
}

/// The state at the start, with a page for each free frame.
fn first_state(alloc: Global, loaded: &Loaded) -> Result<PlainState, AllocError>
    ensures first { IfOk result (λ state. state ≡ first_state loaded.now) }
    ensures sound { IfOk result (λ state. IsSound state) }
{
    let bundle = loaded.bundle();
    let cores = bundle.cores.items();
    let free = loaded.free();
    let mut pages = start_pages(alloc, loaded)?;
    pages.reserve(alloc, free)?;
    Ok(PlainState {
        pages,
        processes: start_processes(alloc, loaded)?,
        threads: start_threads(alloc, cores)?,
        absent: no_thread(),
        flights: start_flights(alloc, cores.len())?,
        free,
        keys: KeyWords::new(Vec::from_slice(alloc, bundle.keys.items())?),
    })
}

impl Plain {
    /// The machine at the start of a loaded bundle's run. It has a page for each free frame, so no step takes memory.
    ///
    /// Its state is sound (docs/LAWS.md).
    pub fn new(alloc: Global, loaded: &Loaded) -> Result<Plain, AllocError>
        ensures first { IfOk result (λ plain. plain ≡ first_state loaded.now) }
        ensures sound { IfOk result (λ plain. IsSound plain) }
    {
        Ok(Plain {
            state: first_state(alloc, loaded)?,
        })
    }
}
