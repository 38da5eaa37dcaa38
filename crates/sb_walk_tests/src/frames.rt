//! Frames that are taken and given back.

use crate::same::assert_same;
use sb_frames::{FrameBook, Kind};
use sb_memory::Frame;

#[test]
fn the_only_frame_is_taken_once(rt: HostRuntime) {
    let mut book = FrameBook::new(rt.alloc(), 513).expect(&rt, "memory");
    assert_same(&rt, "free", &book.free(), &1);
    assert_same(&rt, "take", &book.take(Kind::Code, 3), &Some(Frame(512)));
    assert_same(&rt, "take", &book.take(Kind::Code, 3), &None);
    assert_same(&rt, "free", &book.free(), &0);
}

#[test]
fn a_frame_given_back_is_taken_again(rt: HostRuntime) {
    let mut book = FrameBook::new(rt.alloc(), 515).expect(&rt, "memory");
    assert_same(
        &rt,
        "take",
        &book.take(Kind::GuestTable, 1),
        &Some(Frame(512)),
    );
    assert_same(
        &rt,
        "take",
        &book.take(Kind::EptpList, 2),
        &Some(Frame(513)),
    );
    assert_same(
        &rt,
        "kind_of",
        &book.kind_of(Frame(512)),
        &Some((Kind::GuestTable, 1)),
    );
    assert_same(&rt, "kind_of", &book.kind_of(Frame(514)), &None);
    book.give_back(Frame(512));
    assert_same(&rt, "kind_of", &book.kind_of(Frame(512)), &None);
    assert_same(
        &rt,
        "kind_of",
        &book.kind_of(Frame(513)),
        &Some((Kind::EptpList, 2)),
    );
    assert_same(&rt, "free", &book.free(), &2);
    assert_same(
        &rt,
        "take",
        &book.take(Kind::Writable, 0),
        &Some(Frame(512)),
    );
    assert_same(
        &rt,
        "take",
        &book.take(Kind::ScratchPage, 0),
        &Some(Frame(514)),
    );
}

#[test]
fn a_small_memory_has_no_free_frame(rt: HostRuntime) {
    let mut book = FrameBook::new(rt.alloc(), 100).expect(&rt, "memory");
    assert_same(&rt, "free", &book.free(), &0);
    assert_same(&rt, "take", &book.take(Kind::Code, 0), &None);
}
