//! What `check` and `rewrite` write.

ghost use Rattle.std.specs.Prelude.{◌≡◌, ◌++◌, IfOk, OnOk, take, drop, flat_map, codes, string_bytes};
ghost use Rattle.sb_state.specs.EndText.{hex};
ghost use Rattle.skybridge.specs.CommandText.{check_text, bytes_text, bytes_at, slot_text, edit_text, process_text, processes_text, rewrite_text};

use sb_abi::KEPT_FRAMES;
use sb_bundle::Image;
use sb_load::Loaded;
use sb_rewrite::{AREA_ADDRESS, Edit, Rewritten, TEXT_ADDRESS};
use sb_text::{push_hex, push_hex_digit};
use std::alloc::{AllocError, Global};

/// The line of `check`: `ok`, the frames that the bundle takes, and those that it has.
#[tactic(auto, unfolding(crate::specs::CommandText::check_text))]
pub fn check_text(alloc: Global, loaded: &Loaded) -> Result<String, AllocError>
    ensures { IfOk result (λ text. string_bytes text ≡ check_text loaded.now) }
{
    let need = loaded.need();
    let have = loaded.bundle().frames.saturating_sub(KEPT_FRAMES);
    format!(in alloc; "ok {need} {have}\n")
}

/// So many bytes from an address on, as far as they go.
fn bytes_at(bytes: &[u8], first: u64, at: u64, count: u8) -> &[u8]
    ensures { result.now ≡ bytes_at bytes.now first at count }
{
    prefix(behind(bytes, at.saturating_sub(first)), usize::from(count))
}

fn behind(bytes: &[u8], count: u64) -> &[u8]
    ensures { result.now ≡ drop count bytes.now }
{
    &bytes[(count as usize).min(bytes.len())..]
}

fn prefix(bytes: &[u8], count: usize) -> &[u8]
    ensures { result.now ≡ take count bytes.now }
{
    &bytes[..count.min(bytes.len())]
}

/// Each byte as two hexadecimal digits.
fn push_bytes(out: &mut String, bytes: &[u8]) -> Result<(), AllocError>
    ensures { OnOk result (string_bytes out.new ≡ string_bytes out.old ++ bytes_text bytes.now) }
{
    for byte in bytes {
        push_hex_digit(out, *byte / 16)?;
        push_hex_digit(out, *byte % 16)?;
    }
    Ok(())
}

/// Puts words, an address behind them, and a blank.
fn push_address(out: &mut String, words: &str, at: u64) -> Result<(), AllocError>
    ensures { OnOk result (string_bytes out.new ≡ string_bytes out.old ++ (words.now ++ (hex at ++ codes " "))) }
{
    out.push_str(words)?;
    push_hex(out, at)?;
    out.push_str(" ")
}

fn push_slot(out: &mut String, area: &[u8], slot: Option<(u64, u8)>) -> Result<(), AllocError>
    ensures { OnOk result (string_bytes out.new ≡ string_bytes out.old ++ slot_text area.now slot) }
{
    let Some((at, size)) = slot else {
        return Ok(());
    };
    push_address(out, "slot ", at)?;
    push_bytes(out, bytes_at(area, AREA_ADDRESS, at, size))?;
    out.push_str("\n")
}

#[tactic(auto, unfolding(crate::specs::CommandText::edit_text))]
fn push_edit(out: &mut String, text: &[u8], made: &Rewritten, edit: &Edit) -> Result<(), AllocError>
    ensures { OnOk result (string_bytes out.new ≡ string_bytes out.old ++ edit_text text.now made.now edit.now) }
{
    let at = edit.at;
    push_address(out, "edit ", at)?;
    push_bytes(out, bytes_at(text, TEXT_ADDRESS, at, edit.old_len))?;
    out.push_str(" ")?;
    push_bytes(out, bytes_at(made.text(), TEXT_ADDRESS, at, edit.old_len))?;
    out.push_str("\n")?;
    push_slot(out, made.area(), edit.slot)
}

fn push_edits(
    out: &mut String,
    text: &[u8],
    made: &Rewritten,
    edits: &[Edit],
) -> Result<(), AllocError>
    ensures { OnOk result (string_bytes out.new ≡ string_bytes out.old ++ flat_map (edit_text text.now made.now) edits.now) }
{
    for edit in edits {
        push_edit(out, text, made, edit)?;
    }
    Ok(())
}

#[tactic(auto, unfolding(crate::specs::CommandText::process_text))]
fn push_process(
    out: &mut String,
    number: usize,
    image: &Image,
    made: &Rewritten,
) -> Result<(), AllocError>
    ensures { OnOk result (string_bytes out.new ≡ string_bytes out.old ++ process_text number image.now made.now) }
{
    write!(out, "process {number}\n")?;
    push_edits(out, image.text.items(), made, made.edits().items())
}

fn push_processes(out: &mut String, loaded: &Loaded) -> Result<(), AllocError>
    ensures { OnOk result (string_bytes out.new
        ≡ string_bytes out.old ++ processes_text loaded.now.rewritten 0 loaded.now.bundle.images) }
{
    for (number, image) in loaded.bundle().images.items().iter().enumerate() {
        push_process(out, number, image, loaded.rewritten(number as u32))?;
    }
    Ok(())
}

/// The text of `rewrite`: for each process its number, and for each instruction that was rewritten its address, its old and
/// its new bytes, and its slot where it was moved; last `end`.
#[tactic(auto, unfolding(crate::specs::CommandText::rewrite_text))]
pub fn rewrite_text(alloc: Global, loaded: &Loaded) -> Result<String, AllocError>
    ensures { IfOk result (λ text. string_bytes text ≡ rewrite_text loaded.now) }
{
    let mut out = String::new(alloc);
    push_processes(&mut out, loaded)?;
    out.push_str("end\n")?;
    Ok(out)
}
