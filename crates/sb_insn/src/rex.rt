//! REX prefixes with other bits (SDM volume 2, section 2.2.1).

ghost use Rattle.std.specs.Prelude.{◌≡◌, ◌≤◌};
ghost use Rattle.sb_insn.specs.Rex.{rex_byte, with_r_b, with_x_b_exchanged};

use crate::fields::{rex_b, rex_r, rex_w, rex_x};

/// A REX byte with the W of another.
fn rex_byte(rex: u8, r: u8, x: u8, b: u8) -> u8
    requires r { r ≤ 1 }
    requires x { x ≤ 1 }
    requires b { b ≤ 1 }
    ensures { result ≡ rex_byte rex r x b }
{
    0x40 + 8 * rex_w(Some(rex)) + 4 * r + 2 * x + b
}

/// A prefix where one stands, with its W and these R and B; X is clear.
pub fn with_r_b(rex: Option<u8>, r: u8, b: u8) -> Option<u8>
    requires r { r ≤ 1 }
    requires b { b ≤ 1 }
    ensures { result ≡ with_r_b rex r b }
{
    Some(rex_byte(rex?, r, 0, b))
}

/// The prefix with X and B exchanged.
pub fn with_x_b_exchanged(rex: Option<u8>) -> Option<u8>
    ensures { result ≡ with_x_b_exchanged rex }
{
    Some(rex_byte(rex?, rex_r(rex), rex_b(rex), rex_x(rex)))
}
