//! What the errors of bundles and rewriting say.

use crate::same::{assert_same, text_of};
use sb_bundle::BundleRefusal;
use sb_rewrite::{ListRefusal, RewriteRefusal};
use std::test::Fail;

#[rattlefmt::skip]
const BUNDLES: [(BundleRefusal, &str); 7] = [
    (BundleRefusal::Short { at: 60 }, "the input ends within the field at 60"),
    (BundleRefusal::Magic { at: 0 }, "no magic bytes at 0"),
    (BundleRefusal::Version { at: 4 }, "an unknown version at 4"),
    (BundleRefusal::Count { at: 6 }, "the count at 6 is outside its limits"),
    (BundleRefusal::Range { at: 49 }, "the number at 49 is outside its limits"),
    (BundleRefusal::Trailing { at: 65 }, "bytes stand behind the schedule from 65 on"),
    (BundleRefusal::Memory, "out of memory"),
];

#[test]
fn refusals_of_bundles_have_texts(rt: HostRuntime) -> Result<(), Fail> {
    for (refusal, text) in &BUNDLES {
        assert_same(
            &rt,
            "bundles",
            &text_of(rt.alloc(), refusal)?.as_str(),
            text,
        );
    }
    Ok(())
}

#[rattlefmt::skip]
const LISTINGS: [(ListRefusal, &str); 2] = [
    (ListRefusal::Undecoded { at: 0x40_0002 }, "no whole instruction stands at 400002"),
    (ListRefusal::Memory, "out of memory"),
];

#[test]
fn refusals_of_listings_have_texts(rt: HostRuntime) -> Result<(), Fail> {
    for (refusal, text) in &LISTINGS {
        assert_same(
            &rt,
            "listings",
            &text_of(rt.alloc(), refusal)?.as_str(),
            text,
        );
    }
    Ok(())
}

#[rattlefmt::skip]
const REWRITINGS: [(RewriteRefusal, &str); 5] = [
    (RewriteRefusal::Undecoded { at: 0x40_0002 }, "no whole instruction stands at 400002"),
    (RewriteRefusal::BadTarget { at: 0x40_0010 }, "the jump at 400010 leads to no instruction"),
    (RewriteRefusal::Unmovable { at: 0x40_0000 }, "the instruction at 400000 cannot be moved"),
    (RewriteRefusal::AreaFull { at: 0x40_0F00 }, "no room is left for the slot of the instruction at 400f00"),
    (RewriteRefusal::Memory, "out of memory"),
];

#[test]
fn refusals_of_rewritings_have_texts(rt: HostRuntime) -> Result<(), Fail> {
    for (refusal, text) in &REWRITINGS {
        assert_same(
            &rt,
            "rewritings",
            &text_of(rt.alloc(), refusal)?.as_str(),
            text,
        );
    }
    Ok(())
}
