//! What a word is.

ghost use Rattle.std.specs.Prelude.{◌≡◌, ◌↔◌, IsTrue, IfSome, IfNone, ◌<◌, ◌^◌, ℕ, string_bytes};
ghost use Rattle.std.specs.Fmt.{decimal};
ghost use Rattle.sb_words.specs.Words.{is_plain};

/// Whether a word is this text.
pub fn is_text(word: &String, text: &str) -> bool
    ensures { IsTrue result ↔ (string_bytes word.now ≡ text.now) }
{
    word.as_str() == text
}

/// Whether neither a plus sign nor a leading zero stands in front.
fn is_plain(digits: &[u8]) -> bool
    ensures { result ≡ is_plain digits.now }
{
    match digits {
        [b'+', ..] | [b'0', _, ..] => false,
        _ => true,
    }
}

/// The number that the word is in decimal digits, without sign or leading zero.
pub fn number_of(word: &String) -> Option<u64>
    ensures some { IfSome result (λ number. string_bytes word.now ≡ decimal number) }
    ensures none { IfNone result ((number : ℕ) → number < 2 ^ 64 → ¬ (string_bytes word.now ≡ decimal number)) }
{
    match word.as_str().parse::<u64>() {
        Ok(number) if is_plain(word.as_bytes()) => Some(number),
        _ => None,
    }
}
