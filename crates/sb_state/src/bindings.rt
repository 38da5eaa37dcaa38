//! The bindings of a thread.

ghost use Rattle.std.specs.Prelude.{◌≡◌, ◌<◌, ◌≤◌, ◌++◌, ◌∷◌, [], length};
ghost use Rattle.sb_abi.specs.declared.space.TheConstants.{MAX_BINDINGS};
ghost use Rattle.sb_state.specs.Bindings.{binding_with, has_index, free_index, IsFreeIndex};

use crate::state::Binding;
use arrayvec::ArrayVec;
use sb_abi::MAX_BINDINGS;
use std::marker::Model;

/// The greatest index of a binding.
const LAST_INDEX: u16 = MAX_BINDINGS as u16;

/// Bindings in the order in which they were made: to contracts, their list. They take no memory but their own.
#[derive(Debug, Drop)]
pub struct Bindings {
    bindings: ArrayVec<Binding, MAX_BINDINGS>,
}

/// The first of the bindings with this index.
fn binding_with(bindings: &[Binding], index: u32) -> Option<Binding>
    ensures { result ≡ binding_with bindings.now index }
{
    let (first, others) = bindings.split_first()?;
    if u32::from(first.index) == index {
        Some(*first)
    } else {
        binding_with(others, index)
    }
}

impl Model for Bindings {
    ghost use Rattle.std.specs.Prelude.{List};
    ghost use Rattle.sb_state.specs.declared.state.Binding.{Binding};

    ghost Value = { List Binding };

    ghost view = { λ bindings. bindings.bindings.items };
}

impl Bindings {
    /// No bindings.
    pub fn new() -> Bindings
        ensures { result ≡ [] }
    {
        Bindings {
            bindings: ArrayVec::new(),
        }
    }

    /// Lends the bindings.
    pub fn items(&self) -> &[Binding]
        ensures { result.now ≡ self.now }
    {
        &self.bindings
    }

    /// The binding with this index, if there is one.
    pub fn find(&self, index: u32) -> Option<Binding>
        ensures { result ≡ binding_with self.now index }
    {
        binding_with(&self.bindings, index)
    }

    /// Whether a binding has this index.
    fn has_index(&self, index: u16) -> bool
        ensures { result ≡ has_index self.now index }
    {
        self.find(u32::from(index)).is_some()
    }

    /// The index of the next binding: with fewer than 15 bindings the lowest from 1 to 15 that no binding has.
    #[tactic(auto, using(crate::proofs::Indices::indices_are_free))]
    pub fn free_index(&self) -> u16
        ensures index { result ≡ free_index self.now }
        ensures range { result ≤ MAX_BINDINGS }
        ensures free { length self.now < MAX_BINDINGS → IsFreeIndex self.now result }
    {
        let mut index = 1;
        while index < LAST_INDEX && self.has_index(index) {
            index += 1;
        }
        index
    }

    /// Adds a binding behind the others.
    pub fn push(&mut self, binding: Binding)
        requires { length self.old < MAX_BINDINGS }
        ensures { self.new ≡ self.old ++ binding ∷ [] }
    {
        self.bindings.push(binding);
    }
}
