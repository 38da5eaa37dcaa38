//! What the errors of instructions, memory, walks and views say.

use crate::same::{assert_same, text_of};
use sb_bus::{BusStop, FaultKind};
use sb_decode::DecodeFault;
use sb_memory::{EptStop, Frame, Linear, Missing};
use sb_root::NoFrames;
use sb_walks::{NestedStop, TableStop, WalkStop};
use std::test::Fail;

#[rattlefmt::skip]
const EPT: [(EptStop, &str); 7] = [
    (EptStop::TooWide, "the guest-physical address has more than 48 bits"),
    (EptStop::Missing(Frame(7)), "no frame 7"),
    (EptStop::NotPresent { level: 4 }, "EPT violation: nothing is permitted at level 4"),
    (EptStop::Misconfigured { level: 3 }, "EPT misconfiguration at level 3"),
    (EptStop::Large { level: 2 }, "a large page at level 2"),
    (EptStop::Outside { level: 1 }, "the entry at level 1 leads past the end of memory"),
    (EptStop::Denied { level: 1 }, "EPT violation: the access is not permitted at level 1"),
];

#[test]
fn refusals_of_the_ept_have_texts(rt: HostRuntime) -> Result<(), Fail> {
    for &(stop, text) in &EPT {
        assert_same(&rt, "EPT", &text_of(rt.alloc(), &stop)?.as_str(), &text);
        // A walk through tables that the EPT refuses says what the EPT says.
        let table = WalkStop::Table(TableStop::Ept(stop));
        assert_same(&rt, "table", &text_of(rt.alloc(), &table)?.as_str(), &text);
        let page = NestedStop::Page(stop);
        assert_same(&rt, "page", &text_of(rt.alloc(), &page)?.as_str(), &text);
    }
    Ok(())
}

#[rattlefmt::skip]
const WALKS: [(WalkStop, &str); 5] = [
    (WalkStop::NonCanonical, "the address is not canonical"),
    (WalkStop::Table(TableStop::Missing(Frame(513))), "no frame 513"),
    (WalkStop::NotPresent { level: 4 }, "not present at level 4"),
    (WalkStop::Large { level: 2 }, "a large page at level 2"),
    (WalkStop::Denied { level: 1 }, "the access is not permitted at level 1"),
];

#[test]
fn refusals_of_walks_have_texts(rt: HostRuntime) -> Result<(), Fail> {
    for &(stop, text) in &WALKS {
        assert_same(&rt, "walk", &text_of(rt.alloc(), &stop)?.as_str(), &text);
        let nested = NestedStop::Walk(stop);
        assert_same(
            &rt,
            "nested",
            &text_of(rt.alloc(), &nested)?.as_str(),
            &text,
        );
    }
    Ok(())
}

#[rattlefmt::skip]
const ACCESSES: [(BusStop, &str); 5] = [
    (BusStop::Fault(FaultKind::Canon, Linear(0x8000_0000_0000)), "fault canon at 800000000000"),
    (BusStop::Fault(FaultKind::Memory, Linear(0xFFF)), "fault memory at fff"),
    (BusStop::Fault(FaultKind::Undefined, Linear(0x40_0000)), "fault undefined at 400000"),
    (BusStop::Fault(FaultKind::Switch, Linear(0)), "fault switch at 0"),
    (BusStop::Missing(Frame(4096)), "no frame 4096"),
];

#[test]
fn refused_accesses_have_texts(rt: HostRuntime) -> Result<(), Fail> {
    for (stop, text) in &ACCESSES {
        assert_same(&rt, "access", &text_of(rt.alloc(), stop)?.as_str(), text);
    }
    Ok(())
}

#[test]
fn what_is_missing_is_named(rt: HostRuntime) -> Result<(), Fail> {
    let alloc = rt.alloc();
    let missing = text_of(alloc, &Missing { frame: Frame(575) })?;
    assert_same(&rt, "frame", &missing.as_str(), &"no frame 575");
    let few = text_of(alloc, &NoFrames { need: 10, have: 9 })?;
    assert_same(
        &rt,
        "frames",
        &few.as_str(),
        &"10 frames are needed, and 9 are free",
    );
    Ok(())
}

#[test]
fn bytes_that_are_no_instruction_have_texts(rt: HostRuntime) -> Result<(), Fail> {
    let alloc = rt.alloc();
    let short = text_of(alloc, &DecodeFault::Short)?;
    assert_same(
        &rt,
        "short",
        &short.as_str(),
        &"the bytes end inside an instruction",
    );
    let unknown = text_of(alloc, &DecodeFault::Undecoded)?;
    let expected = "no instruction of the subset begins with these bytes";
    assert_same(&rt, "undecoded", &unknown.as_str(), &expected);
    Ok(())
}
