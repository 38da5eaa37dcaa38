//! Hexadecimal digits.

ghost use Rattle.std.specs.Prelude.{◌≡◌, ◌<◌, ◌≤◌, ◌++◌, false, OnOk, drop, string_bytes};
ghost use Rattle.std.specs.Fmt.{digits, digit_glyph};

use std::alloc::AllocError;
use std::str::from_utf8_unchecked;

/// The digit of a number below 16, in ASCII.
#[inline(always)]
pub fn digit_glyph(digit: u8) -> u8
    requires { digit < 16 }
    ensures { result ≡ digit_glyph false digit }
{
    if digit < 10 {
        b'0' + digit
    } else {
        b'a' - 10 + digit
    }
}

/// Puts a number below 16 behind a text, as one digit.
#[inline(always)]
#[tactic(auto, using(std::proofs::lemmas::Fmt::hex_one_digit))]
pub fn push_hex_digit(out: &mut String, digit: u8) -> Result<(), AllocError>
    requires { digit < 16 }
    ensures { OnOk result (string_bytes out.new ≡ string_bytes out.old ++ digits 16 false digit) }
{
    out.push(char::from(digit_glyph(digit)))
}

/// Writes the digits of a number at the end of a buffer, and returns where they start.
#[inline]
#[tactic(auto, using(crate::proofs::Digits::front_written, crate::proofs::Digits::digit_written, crate::proofs::Digits::set_in_front))]
pub fn write_digits(value: u64, buffer: &mut [u8; 64]) -> usize
    ensures within { result ≤ 64 }
    ensures written { drop result buffer.new ≡ digits 16 false value }
{
    let mut start = 64;
    let mut rest = value;
    while start > 0 {
        start -= 1;
        buffer[start] = digit_glyph((rest % 16) as u8);
        rest /= 16;
        if rest == 0 {
            break;
        }
    }
    start
}

/// Puts the hexadecimal digits of a number behind a text.
pub fn push_hex(out: &mut String, value: u64) -> Result<(), AllocError>
    ensures { OnOk result (string_bytes out.new ≡ string_bytes out.old ++ digits 16 false value) }
{
    let mut buffer = [0; 64];
    let start = write_digits(value, &mut buffer);
    // The digits are ASCII.
    out.push_str(unsafe { from_utf8_unchecked(&buffer[start..]) })
}
