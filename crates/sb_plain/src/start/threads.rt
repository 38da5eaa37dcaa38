//! The threads at the start.

ghost use Rattle.std.specs.Prelude.{◌≡◌, ◌^◌, ◌<◌, None, IfOk, length, map, replicate};
ghost use Rattle.sb_state.specs.Start.{start_threads};
ghost use Rattle.sb_plain.specs.Start.{entry_of};

use sb_bundle::CoreStart;
use sb_state::{Bindings, EndKind, Flight, Thread, start_registers};
use std::alloc::{AllocError, Global};

/// The threads at the start, one for each core.
pub fn start_threads(alloc: Global, cores: &[CoreStart]) -> Result<Vec<Thread>, AllocError>
    requires { length cores.now < 2 ^ 32 }
    ensures { IfOk result (λ threads. threads.items ≡ start_threads 0 (map entry_of cores.now)) }
{
    let mut threads = Vec::new(alloc);
    for (thread, core) in cores.iter().enumerate() {
        threads.push(Thread {
            home: core.process,
            regs: start_registers(thread as u32, core.entry),
            view: 0,
            bindings: Bindings::new(),
            state: EndKind::Running,
        })?;
    }
    Ok(threads)
}

/// The flights at the start: no thread is in flight.
pub fn start_flights(alloc: Global, threads: usize) -> Result<Vec<Option<Flight>>, AllocError>
    ensures { IfOk result (λ flights. flights.items ≡ replicate threads None) }
{
    vec![in alloc; None; threads]
}
