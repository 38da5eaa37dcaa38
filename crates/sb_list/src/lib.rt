//! A `Vec` that contracts see as the list of its elements.
//!
//! Inside: one generic type, `Listed<T>`, made from a `Vec` and given back as one without taking memory; and, for the
//! definitions of callers, whether a number is one of a list (`specs/Lists.antt`). Not inside: any operation on lists. Callers
//! lend the slice and use what slices have.
//!
//! The list types of this workspace (`Lines`, `Bytes`, `Words` and others) are aliases of it, so that a struct which
//! holds one is compared with a definition's value by one equation:
//!
//! ```text
//! pub type Words = Listed<u64>;
//! let words = Words::new(vec![in alloc; 5, 7]?);    // a contract sees 5 ∷ 7 ∷ []
//! ```
#![tactic(auto)]

ghost use Rattle.std.specs.Prelude.{◌≡◌, ◌<◌, IfOk, length, slice_set};

use std::alloc::{AllocError, Global};
use std::marker::Model;

/// A list of values: to contracts, the list itself.
#[derive(Debug, Drop)]
pub struct Listed<T> {
    values: Vec<T>,
}

impl<T> Model for Listed<T> {
    ghost use Rattle.std.specs.Prelude.{List};

    ghost Value = { List T };

    ghost view = { λ listed. listed.values.items };
}

impl<T> Listed<T> {
    /// Takes over the values of a `Vec`.
    pub fn new(values: Vec<T>) -> Listed<T>
        ensures { result ≡ values.items }
    {
        Listed { values }
    }

    /// Lends the values.
    pub fn items(&self) -> &[T]
        ensures { result.now ≡ self.now }
    {
        &self.values
    }

    /// Puts a value in the place of another.
    pub fn set(&mut self, index: usize, value: T)
    where
        T: Drop,
        requires { index < length self.old }
        ensures { self.new ≡ slice_set self.old index value }
    {
        self.values[index] = value;
    }

    /// The same values in memory of their own.
    pub fn copied(&self, alloc: Global) -> Result<Listed<T>, AllocError>
    where
        T: Copy,
        ensures { IfOk result (λ copy. copy ≡ self.now) }
    {
        Ok(Listed {
            values: Vec::from_slice(alloc, &self.values)?,
        })
    }

    /// Gives the `Vec` back.
    pub fn into_vec(self) -> Vec<T>
        ensures { result.items ≡ self }
    {
        self.values
    }
}
