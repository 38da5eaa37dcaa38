//! Registers of 64 bits: laws by which an instruction leaves them so.

ghost use Rattle.sb_exec.specs.Words.{RowsKeepWords, ExecutionsKeepWords};

use sb_bus::Bus;

/// The row of each instruction leaves words in the registers, whatever word it loads.
pub fn rows_keep_words()
    ensures { RowsKeepWords }
{}

/// An instruction that is executed leaves words in the registers, where what a load gives is a byte.
pub fn executions_keep_words<B: Bus>()
    ensures { ExecutionsKeepWords B.interface }
{}
