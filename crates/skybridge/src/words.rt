//! The words of the command line.

ghost use Rattle.std.specs.Prelude.{◌≡◌, IfSome, IfNone, ◌∷◌, [], string_bytes};
ghost use Rattle.sb_words.specs.Words.{word_texts};
ghost use Rattle.skybridge.specs.Words.{AreWordsOf, IsCommand, bundle_words};
ghost use Rattle.skybridge.specs.declared.words.BundleCommand.{BundleCommand};

use sb_words::{is_text, number_of};

/// A command, which writes text or bytes.
#[derive(Clone, Copy, Debug, PartialEq, Eq)]
pub enum Command {
    /// A text of the bundle that is read.
    OfBundle(BundleCommand),
    /// The summary of the run of the bundle that is generated from this number.
    Generate(u64),
    /// That bundle itself.
    GenerateBundle(u64),
    /// What the commands are.
    Help,
}

/// A command that reads a bundle, and writes text.
#[derive(Clone, Copy, Debug, PartialEq, Eq)]
pub enum BundleCommand {
    /// The report of the run on the machine with page tables.
    Replay,
    /// That report, and the dump of the machine behind it.
    ReplayDump,
    /// The report of the plain machine's run.
    Plain,
    /// How many frames the bundle takes, and how many it has.
    Check,
    /// What its texts are rewritten to.
    Rewrite,
}

/// The command on a bundle that is this one word, if there is one.
fn bundle_command(word: &String) -> Option<BundleCommand>
    ensures some { IfSome result (λ command. string_bytes word.now ∷ [] ≡ bundle_words command) }
    ensures none { IfNone result ((command : BundleCommand) → ¬ (string_bytes word.now ∷ [] ≡ bundle_words command)) }
{
    if is_text(word, "replay") {
        return Some(BundleCommand::Replay);
    }
    if is_text(word, "plain") {
        return Some(BundleCommand::Plain);
    }
    if is_text(word, "check") {
        return Some(BundleCommand::Check);
    }
    if is_text(word, "rewrite") {
        return Some(BundleCommand::Rewrite);
    }
    None
}

/// The command of one word.
fn by_one(word: &String) -> Option<Command>
    ensures some { IfSome result (λ command. AreWordsOf command (string_bytes word.now ∷ [])) }
    ensures none { IfNone result (¬ IsCommand (string_bytes word.now ∷ [])) }
{
    if is_text(word, "--help") {
        return Some(Command::Help);
    }
    bundle_command(word).map(Command::OfBundle)
}

/// The command of the words, if they are one.
pub fn command_of(words: &Vec<String>) -> Option<Command>
    ensures some { IfSome result (λ command. AreWordsOf command (word_texts words.now.items)) }
    ensures none { IfNone result (¬ IsCommand (word_texts words.now.items)) }
{
    match words.as_slice() {
        [word] => by_one(word),
        [first, last] if is_text(first, "replay") && is_text(last, "--dump") => {
            Some(Command::OfBundle(BundleCommand::ReplayDump))
        }
        [first, number] if is_text(first, "gen") => number_of(number).map(Command::Generate),
        [first, number, last] if is_text(first, "gen") && is_text(last, "--bundle") => {
            number_of(number).map(Command::GenerateBundle)
        }
        _ => None,
    }
}
