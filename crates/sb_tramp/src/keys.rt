//! The words that calling keys are drawn from.

ghost use Rattle.std.specs.Prelude.{◌≡◌, ◌≤◌, ◌↔◌, None, [], drop, length, slice_get};

use std::marker::Model;

/// Words that are drawn from the front, each once: to contracts, the list of those that are left.
#[derive(Debug, Drop)]
pub struct KeyWords {
    words: Vec<u64>,
    /// How many of them were drawn.
    drawn: usize,
}

impl Model for KeyWords {
    ghost use Rattle.std.specs.Prelude.{ℕ, List, ◌≤◌, drop, length};

    ghost Value = { List ℕ };

    ghost view = { λ keys. drop keys.drawn keys.words.items };

    ghost invariant = { λ keys. (keys.drawn ≤ length keys.words.items) × (length keys.words.items ≤ 1024) };
}

impl KeyWords {
    /// The words in the order in which they are drawn, 1,024 at most.
    pub fn new(words: Vec<u64>) -> KeyWords
        requires { length words.items ≤ 1024 }
        ensures { result ≡ words.items }
    {
        KeyWords { words, drawn: 0 }
    }

    /// Draws the first word that is left. `None` comes exactly where all were drawn.
    pub fn draw(&mut self) -> Option<u64>
        ensures none { (result ≡ None) ↔ (self.old ≡ []) }
        ensures first { result ≡ slice_get self.old 0 }
        ensures left { self.new ≡ drop 1 self.old }
    {
        let word = *self.words.get(self.drawn)?;
        self.drawn += 1;
        Some(word)
    }

    /// How many words are left.
    pub fn left(&self) -> u32
        ensures { result ≡ length self.now }
    {
        (self.words.len() - self.drawn) as u32
    }
}
