//! How many frames a bundle takes.

ghost use Rattle.std.specs.Prelude.{◌≡◌, ◌+◌, ◌*◌, ◌≤◌, length, sum_by};
ghost use Rattle.std.specs.List.{AllByRecursion};
ghost use Rattle.sb_abi.specs.declared.frames.TheConstants.{PROCESS_FRAMES};
ghost use Rattle.sb_abi.specs.declared.space.TheConstants.{MAX_PROCESSES, WINDOW_BYTES, WINDOW_PAGES};
ghost use Rattle.sb_bundle.specs.Limits.{IsBundle, IsImage};
ghost use Rattle.sb_load.specs.Need.{page_count, process_need, area_need, need_of};
ghost use Rattle.sb_load.specs.Checks.{HasSmallArea, AllSmallAreas};

use sb_abi::{PROCESS_FRAMES, THREAD_FRAMES};
use sb_bundle::{Bundle, Image};
use sb_memory::page_count;
use sb_rewrite::Rewritten;

/// The pages that the bytes of a text, of initial data or of a rewrite area take.
fn pages_of(bytes: &[u8]) -> u32
    requires { length bytes.now ≤ WINDOW_BYTES }
    ensures value { result ≡ page_count (length bytes.now) }
    ensures bound { result ≤ WINDOW_PAGES }
{
    page_count(bytes.len()) as u32
}

fn process_need(image: &Image) -> u32
    requires { IsImage image.now }
    ensures value { result ≡ process_need image.now }
    ensures bound { result ≤ PROCESS_FRAMES + 3 * WINDOW_PAGES }
{
    PROCESS_FRAMES
        + pages_of(image.text.items())
        + pages_of(image.initial.items())
        + image.heap_pages
}

fn processes_need(images: &[Image]) -> u32
    requires images { AllByRecursion IsImage images.now }
    requires count { length images.now ≤ MAX_PROCESSES }
    ensures value { result ≡ sum_by process_need images.now }
    ensures bound { result ≤ (PROCESS_FRAMES + 3 * WINDOW_PAGES) * length images.now }
{
    let mut need = 0;
    for image in images {
        need += process_need(image);
    }
    need
}

fn area_need(made: &Rewritten) -> u32
    requires { HasSmallArea made.now }
    ensures value { result ≡ area_need made.now }
    ensures bound { result ≤ WINDOW_PAGES }
{
    pages_of(made.area())
}

fn areas_need(rewritten: &[Rewritten]) -> u32
    requires areas { AllSmallAreas rewritten.now }
    requires count { length rewritten.now ≤ MAX_PROCESSES }
    ensures value { result ≡ sum_by area_need rewritten.now }
    ensures bound { result ≤ WINDOW_PAGES * length rewritten.now }
{
    let mut need = 0;
    for made in rewritten {
        need += area_need(made);
    }
    need
}

/// How many frames the bundle takes when it is loaded, where its texts become this.
pub fn need_of(bundle: &Bundle, rewritten: &[Rewritten]) -> u32
    requires bundle { IsBundle bundle.now }
    requires count { length rewritten.now ≤ MAX_PROCESSES }
    requires areas { AllSmallAreas rewritten.now }
    ensures { result ≡ need_of bundle.now rewritten.now }
{
    processes_need(bundle.images.items())
        + areas_need(rewritten)
        + THREAD_FRAMES * bundle.cores.items().len() as u32
}
