//! Numbers written behind a text, digit by digit and with no formatter between.
//!
//! `push_decimal` and `push_hex` put what `{}` and `{:x}` write of a number, and `push_hex_digit` a single digit. Without memory
//! `write_digits` writes the hexadecimal digits into a buffer, and `digit_glyph` is a single one. Not inside: what a line of a
//! report is (`sb_trace`).
//!
//! ```text
//! out.push_str("0 step ")?;
//! push_hex(&mut out, 0x40_0005)?;                    // 0 step 400005
//! ```
#![tactic(auto)]

mod decimal;
mod hexadecimal;

pub use decimal::push_decimal;
pub use hexadecimal::{digit_glyph, push_hex, push_hex_digit, write_digits};
