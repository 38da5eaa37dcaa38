//! A line of a dump, in a buffer of its own.

ghost use Rattle.std.specs.Prelude.{◌≡◌, ◌+◌, ◌*◌, ◌≤◌, [], ◌++◌, codes, flat_map, length};
ghost use Rattle.std.specs.Fmt.{decimal};
ghost use Rattle.sb_trace.specs.EndText.{hex};
ghost use Rattle.sb_trace.specs.Report.{line_feed};
ghost use Rattle.sb_shows.specs.Dump.{words_text, byte_text};
ghost use Rattle.sb_machine.specs.Machine.{core_words};

use crate::processor::CoreState;
use arrayvec::ArrayVec;
use itoa::Buffer;
use sb_memory::Frame;
use sb_text::{digit_glyph, write_digits};
use std::marker::Model;

/// At most 256 bytes: to contracts, the list of them. The longest line of a dump has 129.
#[derive(Drop)]
pub struct DumpLine {
    bytes: ArrayVec<u8, 256>,
}

impl Model for DumpLine {
    ghost use Rattle.std.specs.Prelude.{ℕ, List};

    ghost Value = { List ℕ };

    ghost view = { λ line. line.bytes.items };
}

impl DumpLine {
    /// The bytes.
    pub fn bytes(&self) -> &[u8]
        ensures same { result.now ≡ self.now }
        ensures few { length result.now ≤ 256 }
    {
        self.bytes.as_slice()
    }

    /// No bytes.
    fn new() -> DumpLine
        ensures { result ≡ [] }
    {
        DumpLine {
            bytes: ArrayVec::new(),
        }
    }

    /// Puts a text behind the bytes.
    fn put(&mut self, text: &[u8])
        requires { length self.old + length text.now ≤ 256 }
        ensures text { self.new ≡ self.old ++ text.now }
        ensures size { length self.new ≡ length self.old + length text.now }
    {
        let result = self.bytes.try_extend_from_slice(text);
        prove!(result.is_ok());
    }

    /// Puts the decimal digits of a number behind the bytes.
    fn put_decimal(&mut self, value: u64)
        requires { length self.old + 40 ≤ 256 }
        ensures text { self.new ≡ self.old ++ decimal value }
        ensures size { length self.new ≤ length self.old + 40 }
    {
        let mut buffer = Buffer::new();
        self.put(buffer.format(value).as_bytes());
    }

    /// Puts the hexadecimal digits of a number behind the bytes.
    fn put_hex(&mut self, value: u64)
        requires { length self.old + 64 ≤ 256 }
        ensures text { self.new ≡ self.old ++ hex value }
        ensures size { length self.new ≤ length self.old + 64 }
    {
        let mut buffer = [0; 64];
        let start = write_digits(value, &mut buffer);
        self.put(&buffer[start..]);
    }

    /// Puts the two digits of a byte behind the bytes.
    fn put_byte(&mut self, byte: u8)
        requires { length self.old + 2 ≤ 256 }
        ensures text { self.new ≡ self.old ++ byte_text byte }
        ensures size { length self.new ≡ length self.old + 2 }
    {
        self.bytes.push(digit_glyph(byte / 16));
        self.bytes.push(digit_glyph(byte % 16));
    }
}

/// The first line: the number of frames.
pub fn count_line(frames: u32) -> DumpLine
    ensures { result ≡ codes "dump " ++ (decimal frames ++ line_feed) }
{
    let mut line = DumpLine::new();
    line.put(b"dump ");
    line.put_decimal(u64::from(frames));
    line.put(b"\n");
    line
}

/// The line of a core: its words.
pub fn core_line(number: u8, state: &CoreState) -> DumpLine
    ensures { result ≡ codes "core " ++ (decimal number ++ (words_text (core_words state.now) ++ line_feed)) }
{
    let mut line = DumpLine::new();
    line.put(b"core ");
    line.put_decimal(u64::from(number));
    line.put(b" eptp ");
    line.put_hex(state.eptp);
    line.put(b" list ");
    line.put_hex(u64::from(state.list.0));
    line.put(b" cr3 ");
    line.put_hex(state.cr3);
    line.put(b"\n");
    line
}

/// The first line of a frame: its number.
pub fn frame_line(frame: Frame) -> DumpLine
    ensures { result ≡ codes "frame " ++ (hex frame.0 ++ line_feed) }
{
    let mut line = DumpLine::new();
    line.put(b"frame ");
    line.put_hex(u64::from(frame.0));
    line.put(b"\n");
    line
}

/// A line of bytes, two digits each.
pub fn bytes_line(bytes: &[u8]) -> DumpLine
    requires { length bytes.now ≤ 64 }
    ensures { result ≡ flat_map byte_text bytes.now ++ line_feed }
{
    let mut line = DumpLine::new();
    for byte in bytes {
        line.put_byte(*byte);
    }
    line.put(b"\n");
    line
}
