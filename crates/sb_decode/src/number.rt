//! Signed numbers, their lowest byte first.

ghost use Rattle.std.specs.Int.{w8, w32, w64};
ghost use Rattle.sb_decode.specs.Reading.{Gives};
ghost use Rattle.sb_decode.specs.FieldReaders.{number_at};

use crate::fault::DecodeFault;

/// A number of one byte, and the bytes behind it.
#[inline(always)]
#[tactic(auto, unfolding(crate::specs::FieldReaders::number_at))]
pub fn number_8(bytes: &[u8]) -> Result<(i8, &[u8]), DecodeFault>
    ensures { Gives result (number_at w8 bytes.now) }
{
    if bytes.len() < 1 {
        return Err(DecodeFault::Short);
    }
    let (lead, rest) = bytes.split_at(1);
    Ok((i8::from_le_bytes([lead[0]]), rest))
}

/// A number of four bytes, and the bytes behind it.
#[inline(always)]
#[tactic(auto, unfolding(crate::specs::FieldReaders::number_at))]
pub fn number_32(bytes: &[u8]) -> Result<(i32, &[u8]), DecodeFault>
    ensures { Gives result (number_at w32 bytes.now) }
{
    if bytes.len() < 4 {
        return Err(DecodeFault::Short);
    }
    let (lead, rest) = bytes.split_at(4);
    let number = i32::from_le_bytes([lead[0], lead[1], lead[2], lead[3]]);
    Ok((number, rest))
}

/// A number of eight bytes, and the bytes behind it.
#[inline(always)]
#[tactic(auto, unfolding(crate::specs::FieldReaders::number_at))]
pub fn number_64(bytes: &[u8]) -> Result<(i64, &[u8]), DecodeFault>
    ensures { Gives result (number_at w64 bytes.now) }
{
    if bytes.len() < 8 {
        return Err(DecodeFault::Short);
    }
    let (lead, rest) = bytes.split_at(8);
    let number = i64::from_le_bytes([
        lead[0], lead[1], lead[2], lead[3], lead[4], lead[5], lead[6], lead[7],
    ]);
    Ok((number, rest))
}
