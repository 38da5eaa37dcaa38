//! Decimal digits.

ghost use Rattle.std.specs.Prelude.{◌≡◌, ◌++◌, OnOk, string_bytes, decimal};

use itoa::Buffer;
use std::alloc::AllocError;

/// Puts the decimal digits of a number behind a text.
#[inline]
#[tactic(auto, using(std::proofs::lemmas::Fmt::decimal_digit))]
pub fn push_decimal(out: &mut String, value: u64) -> Result<(), AllocError>
    ensures { OnOk result (string_bytes out.new ≡ string_bytes out.old ++ decimal value) }
{
    if value < 10 {
        return out.push(char::from(b'0' + value as u8));
    }
    let mut buffer = Buffer::new();
    out.push_str(buffer.format(value))
}
