//! A bundle that may be loaded.

ghost use Rattle.std.specs.Prelude.{◌≡◌, ◌<◌, ◌≤◌, ◌-◌, ◌*◌, ◌^◌, length};
ghost use Rattle.std.specs.List.Sorted.{IsStrictlyIncreasing};
ghost use Rattle.sb_abi.specs.declared.space.TheConstants.{AREA_PAGES};
ghost use Rattle.sb_memory.specs.declared.page.TheConstants.{PAGE_SIZE};
ghost use Rattle.sb_bundle.specs.Limits.{IsBundle};
ghost use Rattle.sb_load.specs.Loading.{IsLoadable, AreAsLong, text_of, rewritten_of};
ghost use Rattle.sb_load.specs.Need.{need_of, have_of};

use sb_abi::KEPT_FRAMES;
use sb_bundle::Bundle;
use sb_list::Listed;
use sb_rewrite::Rewritten;
use std::marker::Model;

/// Rewritten texts, by the numbers of their processes.
pub type RewrittenTexts = Listed<Rewritten>;

/// A bundle that may be loaded, and for each process its rewritten text.
#[derive(Debug, Drop)]
pub struct Loaded {
    bundle: Bundle,
    rewritten: RewrittenTexts,
    need: u32,
}

impl Model for Loaded {
    ghost use Rattle.std.specs.Prelude.{◌≡◌};
    ghost use Rattle.sb_load.specs.Loading.{Load, IsLoadable};
    ghost use Rattle.sb_load.specs.Need.{need_of};

    ghost Value = { Load };

    ghost view = { λ loaded. record { bundle = loaded.bundle; rewritten = loaded.rewritten } };

    ghost invariant = { λ loaded. ∥ IsLoadable (record { bundle = loaded.bundle; rewritten = loaded.rewritten }) ∥₁
        × (loaded.need ≡ need_of loaded.bundle loaded.rewritten) };
}

impl Loaded {
    /// Puts together what was found.
    pub(crate) fn new(bundle: Bundle, rewritten: RewrittenTexts, need: u32) -> Loaded
        requires loadable { IsLoadable (record { bundle = bundle; rewritten = rewritten }) }
        requires need { need ≡ need_of bundle rewritten }
        ensures { result ≡ record { bundle = bundle; rewritten = rewritten } }
    {
        Loaded {
            bundle,
            rewritten,
            need,
        }
    }

    /// The bundle.
    pub fn bundle(&self) -> &Bundle
        ensures same { result.now ≡ self.now.bundle }
        ensures loadable { ∥ IsLoadable self.now ∥₁ }
        ensures grammar { IsBundle result.now }
        // So the frames that were counted for its texts are those that the rewritten ones take.
        ensures as_long { AreAsLong self.now }
    {
        &self.bundle
    }

    /// The rewritten text of a process of the bundle.
    pub fn rewritten(&self, process: u32) -> &Rewritten
        requires { process < length self.now.bundle.images }
        ensures same { result.now ≡ rewritten_of self.now.rewritten process }
        ensures as_long { length result.now.text ≡ length (text_of self.now.bundle.images process) }
        // Its pages can be counted in 32 bits.
        ensures text { length result.now.text < 2 ^ 32 }
        ensures area { length result.now.area ≤ AREA_PAGES * PAGE_SIZE }
        ensures starts { IsStrictlyIncreasing result.now.starts }
    {
        &self.rewritten.items()[process as usize]
    }

    /// How many frames it takes, of those that it has.
    pub fn need(&self) -> u32
        ensures value { result ≡ need_of self.now.bundle self.now.rewritten }
        ensures enough { result ≤ have_of self.now.bundle }
    {
        self.need
    }

    /// How many frames are free when it has taken those that it needs.
    pub fn free(&self) -> u32
        ensures { result ≡ have_of self.now.bundle - need_of self.now.bundle self.now.rewritten }
    {
        self.bundle().frames - KEPT_FRAMES - self.need()
    }
}
