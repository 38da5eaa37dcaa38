//! The words of the command line.

ghost use Rattle.std.specs.Prelude.{◌≡◌, ◌↔◌, IsTrue, IfSome, IfNone, ℕ, codes, string_bytes};
ghost use Rattle.std.specs.Fmt.{decimal};
ghost use Rattle.sb_words.specs.Words.{word_texts};
ghost use Rattle.skycores.specs.Words.{AreWordsOf, IsCommand, IsUpTo, run_words};

use sb_words::{is_text, number_of};

/// The most steps of a run.
pub const MAX_STEPS: u32 = 1_048_576;

/// The most steps of a block.
pub const MAX_BLOCK: u32 = 256;

/// The command `run`.
#[derive(Clone, Copy, Debug, PartialEq, Eq)]
pub struct Run {
    /// The most steps of the run.
    pub steps: u32,
    /// The most steps that a worker makes outside the lock at one go, and commits at one taking of it.
    pub block: u32,
    /// Whether the dump of the machine follows the report.
    pub dump: bool,
}

/// Whether the number is from 1 to the most.
fn is_up_to(most: u32, number: u64) -> bool
    ensures { IsTrue result ↔ IsUpTo most number }
{
    1 <= number && number <= u64::from(most)
}

/// The number from 1 to the most that the word is.
fn number_up_to(most: u32, word: &String) -> Option<u32>
    ensures some { IfSome result (λ number. (string_bytes word.now ≡ decimal number) × IsUpTo most number) }
    ensures none { IfNone result ((number : ℕ) → IsUpTo most number → ¬ (string_bytes word.now ≡ decimal number)) }
{
    let number = number_of(word)?;
    if !is_up_to(most, number) {
        return None;
    }
    Some(number as u32)
}

/// The command with these two words for its numbers.
#[tactic(auto, using(crate::proofs::Commands::no_steps, crate::proofs::Commands::no_block))]
fn run_of(steps: &String, block: &String, dump: bool) -> Option<Run>
    ensures some { IfSome result (λ run. AreWordsOf run (run_words (string_bytes steps.now) (string_bytes block.now) dump)) }
    ensures none { IfNone result (¬ IsCommand (run_words (string_bytes steps.now) (string_bytes block.now) dump)) }
{
    Some(Run {
        steps: number_up_to(MAX_STEPS, steps)?,
        block: number_up_to(MAX_BLOCK, block)?,
        dump,
    })
}

/// Whether three words are those in front of and between the numbers.
fn are_run_words(first: &String, second: &String, fourth: &String) -> bool
    ensures { IsTrue result ↔ ((string_bytes first.now ≡ codes "run") × (string_bytes second.now ≡ codes "--steps")
        × (string_bytes fourth.now ≡ codes "--block")) }
{
    is_text(first, "run") && is_text(second, "--steps") && is_text(fourth, "--block")
}

/// The command of the words, if they are one.
pub fn command_of(words: &Vec<String>) -> Option<Run>
    ensures some { IfSome result (λ run. AreWordsOf run (word_texts words.now.items)) }
    ensures none { IfNone result (¬ IsCommand (word_texts words.now.items)) }
{
    match words.as_slice() {
        [first, second, steps, fourth, block] if are_run_words(first, second, fourth) => {
            run_of(steps, block, false)
        }
        [first, second, steps, fourth, block, last]
            if are_run_words(first, second, fourth) && is_text(last, "--dump") => {
            run_of(steps, block, true)
        }
        _ => None,
    }
}
