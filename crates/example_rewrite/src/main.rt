//! The rewriter by itself: what a text becomes that holds the bytes of VMFUNC, `0F 01 D4`.
#![tactic(auto)]

ghost use Rattle.std.specs.Prelude.{◌≤◌, length, IfOk};
ghost use Rattle.sb_forms.specs.Answers.{IsClean};

use sb_rewrite::{RewriteRefusal, Rewritten, rewrite};
use std::alloc::Global;
use std::io;

/// `mov edi, D4010F` and `syscall`.
const TEXT: [u8; 7] = [0xBF, 0x0F, 0x01, 0xD4, 0x00, 0x0F, 0x05];

/// What a short text becomes: the bytes of VMFUNC stand nowhere in it, nor in its rewrite area.
fn clean(alloc: Global, text: &[u8]) -> Result<Rewritten, RewriteRefusal>
    requires { length text.now ≤ 4096 }
    ensures text { IfOk result (λ made. IsClean made.text) }
    ensures area { IfOk result (λ made. IsClean made.area) }
{
    rewrite(alloc, text)
}

fn show(rt: &impl Print, name: &str, bytes: &[u8]) -> io::Result<()> {
    print!(rt; "{name}")?;
    for byte in bytes {
        print!(rt; " {byte:02x}")?;
    }
    println!(rt; "")
}

fn main(rt: HostRuntime) -> io::Result<()> {
    match clean(rt.alloc(), &TEXT) {
        Ok(made) => {
            show(&rt, "text", made.text())?;
            show(&rt, "area", made.area())
        }
        Err(refusal) => println!(rt; "{refusal}"),
    }
}
