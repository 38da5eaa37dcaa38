//! A sink in memory that fails where it is told to.

ghost use Rattle.std.specs.Prelude.{◌≡◌, ◌<◌, ◌↔◌, ◌⊎◌, ◌++◌, [], Some, length, take, IfOk, OnErr, IsErr, Contains};
ghost use Rattle.std.specs.Io.{WritesAtMost};
ghost use Rattle.std.specs.Io.KnownBytes.{WriteAppends};
ghost use Rattle.sb_port.specs.Port.{HasCause, one_more};
ghost use Rattle.sb_port.specs.Memory.{IsFull, taken_count};

use crate::{Failed, Sink};
use std::alloc::{AllocError, Global};
use std::marker::Model;

/// A sink that holds its bytes in memory, at most `capacity` of them. It takes at most `per_call` bytes a call, and
/// fails the calls whose numbers, from 1, it was given, and each call once it is full.
#[derive(Debug, Drop)]
pub struct MemorySink {
    bytes: Vec<u8>,
    capacity: usize,
    per_call: usize,
    fails: Vec<u64>,
    calls: u64,
    faults: u64,
}

impl Model for MemorySink {
    ghost use Rattle.std.specs.Prelude.{◌<◌, ◌≤◌, vec_len, vec_capacity};
    ghost use Rattle.sb_port.specs.Memory.{SinkInMemory};

    ghost Value = { SinkInMemory };

    ghost view = { λ s. record {
      held = s.bytes.items;
      capacity = s.capacity;
      per_call = s.per_call;
      fails = s.fails.items;
      calls = s.calls;
      faults = s.faults;
    } };

    ghost invariant = { λ s. (0 < s.per_call) × (vec_len s.bytes ≤ s.capacity) × (s.capacity ≤ vec_capacity s.bytes) };
}

impl MemorySink {
    /// An empty sink. All the memory that it will need is taken here.
    ///
    /// # Errors
    ///
    /// `AllocError` if there is no memory for `capacity` bytes.
    pub fn new(
        alloc: Global,
        capacity: usize,
        per_call: usize,
        fails: Vec<u64>,
    ) -> Result<MemorySink, AllocError>
        requires { 0 < per_call }
        ensures { IfOk result (λ sink. sink ≡ record {
          held = [];
          capacity = capacity;
          per_call = per_call;
          fails = fails.items;
          calls = 0;
          faults = 0;
        }) }
    {
        Ok(MemorySink {
            bytes: Vec::with_capacity(alloc, capacity)?,
            capacity,
            per_call,
            fails,
            calls: 0,
            faults: 0,
        })
    }

    /// The bytes that it holds.
    pub fn held(&self) -> &[u8]
        ensures { result.now ≡ self.now.held }
    {
        &self.bytes
    }
}

impl Sink for MemorySink {
    ghost held = { λ sink. Some sink.held };

    ghost faults = { λ sink. sink.faults };

    fn put(&mut self, bytes: &[u8]) -> Result<usize, Failed>
        requires { 0 < length bytes.now }

        // What every sink says.
        ensures some { IfOk result (λ count. 0 < count) }
        ensures bound { WritesAtMost result bytes.now }
        ensures bytes { WriteAppends (Some self.old.held) (Some self.new.held) result bytes.now }
        ensures cause { HasCause self.old.faults self.new.faults result }

        // Exactly when this one fails, how much it takes, and what it is afterwards.
        ensures fails { IsErr result ↔ (Contains self.old.fails (one_more self.old.calls) ⊎ IsFull self.old) }
        ensures count { IfOk result (λ count. count ≡ taken_count self.old (length bytes.now)) }
        ensures after { IfOk result (λ count. self.new ≡ record self.old {
          held = self.old.held ++ take count bytes.now;
          calls = one_more self.old.calls;
        }) }
        ensures after_fault { OnErr result (self.new ≡ record self.old {
          calls = one_more self.old.calls;
          faults = one_more self.old.faults;
        }) }
    {
        self.calls = self.calls.saturating_add(1);
        let room = self.capacity - self.bytes.len();
        if room == 0 || self.fails.contains(&self.calls) {
            self.faults = self.faults.saturating_add(1);
            return Err(Failed);
        }
        let count = bytes.len().min(self.per_call).min(room);
        // `new` took the memory for all that there is room for.
        self.bytes.extend_from_slice(&bytes[..count]).unwrap();
        Ok(count)
    }
}
