//! A source in memory that fails where it is told to.

ghost use Rattle.std.specs.Prelude.{◌≡◌, ◌<◌, ◌↔◌, ◌++◌, Some, length, take, drop, IfOk, OnErr, IsErr, Contains};
ghost use Rattle.std.specs.Io.{ReadsAtMost};
ghost use Rattle.std.specs.Io.KnownBytes.{ReadConsumes};
ghost use Rattle.sb_port.specs.Port.{HasCause, one_more};
ghost use Rattle.sb_port.specs.Memory.{given_count};

use crate::{Failed, Source};
use std::marker::Model;

/// A source over bytes in memory. It gives at most `per_call` bytes a call, and fails the calls whose numbers, from 1,
/// it was given.
#[derive(Debug, Drop)]
pub struct MemorySource {
    bytes: Vec<u8>,
    at: usize,
    per_call: usize,
    fails: Vec<u64>,
    calls: u64,
    faults: u64,
}

impl Model for MemorySource {
    ghost use Rattle.std.specs.Prelude.{◌<◌, ◌≤◌, drop, vec_len};
    ghost use Rattle.sb_port.specs.Memory.{SourceInMemory};

    ghost Value = { SourceInMemory };

    ghost view = { λ s. record {
      left = drop s.at s.bytes.items;
      per_call = s.per_call;
      fails = s.fails.items;
      calls = s.calls;
      faults = s.faults;
    } };

    ghost invariant = { λ s. (0 < s.per_call) × (s.at ≤ vec_len s.bytes) };
}

impl MemorySource {
    /// A source that has all of `bytes` left.
    pub fn new(bytes: Vec<u8>, per_call: usize, fails: Vec<u64>) -> MemorySource
        requires { 0 < per_call }
        ensures { result ≡ record {
          left = bytes.items;
          per_call = per_call;
          fails = fails.items;
          calls = 0;
          faults = 0;
        } }
    {
        MemorySource {
            bytes,
            at: 0,
            per_call,
            fails,
            calls: 0,
            faults: 0,
        }
    }
}

impl Source for MemorySource {
    ghost left = { λ source. Some source.left };

    ghost faults = { λ source. source.faults };

    fn take(&mut self, into: &mut [u8]) -> Result<usize, Failed>
        // What every source says.
        ensures bound { ReadsAtMost result into.new }
        ensures bytes { ReadConsumes (Some self.old.left) (Some self.new.left) result into.new }
        ensures cause { HasCause self.old.faults self.new.faults result }

        // Exactly when this one fails, how much it gives, and what it is afterwards.
        ensures fails { IsErr result ↔ Contains self.old.fails (one_more self.old.calls) }
        ensures count { IfOk result (λ count. count ≡ given_count self.old (length into.old)) }
        ensures given { IfOk result (λ count. into.new ≡ take count self.old.left ++ drop count into.old) }
        ensures after { IfOk result (λ count. self.new ≡ record self.old {
          left = drop count self.old.left;
          calls = one_more self.old.calls;
        }) }
        ensures after_fault { OnErr result (self.new ≡ record self.old {
          calls = one_more self.old.calls;
          faults = one_more self.old.faults;
        }) }
        ensures untouched { OnErr result (into.new ≡ into.old) }
    {
        self.calls = self.calls.saturating_add(1);
        if self.fails.contains(&self.calls) {
            self.faults = self.faults.saturating_add(1);
            return Err(Failed);
        }
        let left = &self.bytes[self.at..];
        let count = into.len().min(self.per_call).min(left.len());
        into[..count].copy_from_slice(&left[..count]);
        self.at += count;
        Ok(count)
    }
}
