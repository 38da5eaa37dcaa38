//! The root kernel.

ghost use Rattle.std.specs.Prelude.{ℕ, ◌≡◌, ◌≢◌, ◌↔◌, ◌+◌, ◌<◌, ◌≤◌, None, Some, false, IsTrue, IsErr, IfOk, IfErr, length};
ghost use Rattle.sb_abi.specs.declared.frames.TheConstants.{KEPT_FRAMES, MIN_FRAMES, MAX_FRAMES, VIEW_FRAMES};
ghost use Rattle.sb_abi.specs.declared.space.TheConstants.{WINDOW_THREADS, MAX_VIEWS};
ghost use Rattle.sb_memory.specs.Physical.{HasAllFrames, HasSize, frame_count};
ghost use Rattle.sb_memory.specs.Changes.{SameOutside};
ghost use Rattle.sb_memory.specs.Reading.{with_bytes};
ghost use Rattle.sb_memory.specs.Words.{put_word, word_at};
ghost use Rattle.sb_memory.specs.declared.address.Frame.{Frame};
ghost use Rattle.sb_frames.specs.Book.{Book, free_count};
ghost use Rattle.sb_root.specs.declared.view.View.{View};
ghost use Rattle.sb_root.specs.Entry.{is_rights, leaf_to};
ghost use Rattle.sb_root.specs.Tables.{base_frames, rights_in, shared_frames, shared_place};
ghost use Rattle.sb_root.specs.Root.{HasFreeIndex, IsLowestFree, IsSet, entry_of_view, is_listed, eptp_list_frame, no_threads, without_listing, view_of, with_view};
ghost use Rattle.sb_root.specs.Standing.{IsBooked, IsRootFrame, Stands};
ghost use Rattle.sb_root.specs.Answers.{Exposes, IsFirstBase, SameRights, SameViews};
ghost use Rattle.sb_root.specs.Calls.{IsAddedList, IsAddedView, SetsEntry, no_frames};

use crate::entry::leaf;
use crate::page::put_page;
use crate::tables::{BASE, REGIONS, region_table};
use crate::taking::take_view;
use crate::view::{View, base_entries};
use sb_abi::{MAX_VIEWS, VIEW_FRAMES, WINDOW_THREADS};
use sb_frames::{FrameBook, Kind};
use sb_memory::{Frame, Memory, Phys};
use sb_tramp::RecordWords;
use thiserror::Error;

/// How many threads there can be.
const THREADS: usize = WINDOW_THREADS as usize;
/// How many views a thread can have.
const VIEWS: usize = MAX_VIEWS as usize;

/// Fewer frames are free than a call needs.
#[derive(Clone, Copy, Debug, PartialEq, Eq, Error)]
#[error("{need} frames are needed, and {have} are free")]
pub struct NoFrames {
    /// How many frames the call takes.
    pub need: u32,
    /// How many are free.
    pub have: u32,
}

/// Which frames hold the lists and views of the threads. It takes no memory.
///
/// The tables themselves stand in physical memory: each call asks that they stand there as the calls before left them
/// (`Stands`), and leaves them so.
#[derive(Drop)]
pub struct RootKernel {
    /// For each thread the frame of its list.
    lists: [Option<Frame>; THREADS],
    /// For each thread the views at its indices.
    views: [[Option<View>; VIEWS]; THREADS],
}

impl RootKernel {
    /// Builds the base EPT in its fixed frames.
    pub fn new(memory: &mut Memory) -> RootKernel
        requires least { MIN_FRAMES ≤ frame_count memory.old }
        requires most { frame_count memory.old ≤ MAX_FRAMES }
        ensures empty { result ≡ no_threads }
        ensures stands { Stands result memory.new }
        ensures booked { (book : Book) → length book + KEPT_FRAMES ≡ frame_count memory.new → IsBooked result book memory.new }
        ensures base { IsFirstBase memory.new }
        ensures rights { (page : ℕ) → KEPT_FRAMES ≤ page → page < MAX_FRAMES → rights_in memory.new page ≡ 0 }
        ensures same { SameOutside base_frames memory.old memory.new }
    {
        BASE.put_upper(memory);
        put_page(memory, BASE.first, &base_entries());
        clear_shared(memory);
        has_all_frames(memory);
        RootKernel {
            lists: [None; THREADS],
            views: [[None; VIEWS]; THREADS],
        }
    }

    /// Lets a frame from 512 on be reached at its own address with these rights, in every view at once. Rights are 0 nothing,
    /// 1 read, 3 read and write, and 4 execute.
    pub fn expose(&mut self, memory: &mut Memory, frame: Frame, rights: u8)
        requires stands { Stands self.old memory.old }
        requires from { KEPT_FRAMES ≤ frame.0 }
        requires inside { frame.0 < frame_count memory.old }
        requires rights { IsTrue (is_rights rights) }
        ensures root { self.new ≡ self.old }
        ensures entry { memory.new
            ≡ with_bytes memory.old (put_word memory.old.bytes (shared_place frame.0) (leaf_to frame.0 rights)) }
        ensures stands { Stands self.new memory.new }
        ensures booked { (book : Book) → IsBooked self.old book memory.old → IsBooked self.new book memory.new }
        ensures exposes { Exposes self.old memory.old memory.new frame.0 rights }
        ensures rights { rights_in memory.new frame.0 ≡ rights }
        ensures other_rights { (page : ℕ) → page ≢ frame.0 → rights_in memory.new page ≡ rights_in memory.old page }
    {
        let table = region_table(frame.0 as usize / 512);
        memory.set_word(table.word(u64::from(frame.0 % 512)), leaf(frame, rights));
    }

    /// Gives a thread a list of 512 zeros.
    ///
    /// # Errors
    ///
    /// `NoFrames` comes exactly where no frame is free, and then all is as before.
    pub fn add_list(
        &mut self,
        memory: &mut Memory,
        book: &mut FrameBook,
        thread: u8,
    ) -> Result<(), NoFrames>
        requires stands { Stands self.old memory.old }
        requires booked { IsBooked self.old book.old memory.old }
        requires thread { thread < WINDOW_THREADS }
        requires none { eptp_list_frame self.old thread ≡ None }
        ensures refused { IsErr result ↔ (free_count book.old ≡ 0) }
        ensures cause { IfErr result (λ refusal. refusal ≡ no_frames 1 (free_count book.old)) }
        ensures unchanged { IfErr result (λ _. (self.new ≡ self.old) × (book.new ≡ book.old) × (memory.new ≡ memory.old)) }
        ensures added { IfOk result (λ _. (frame : Frame)
            × IsAddedList self.old self.new book.old book.new memory.old memory.new thread frame) }
        ensures stands { Stands self.new memory.new }
        ensures booked { IsBooked self.new book.new memory.new }
        ensures others { SameViews self.old memory.old memory.new }
    {
        let have = book.free();
        if have == 0 {
            return Err(NoFrames { need: 1, have });
        }
        let owner = u32::from(thread);
        let frame = book.take_free(Kind::EptpList, owner);
        memory.clear_frame(frame);
        self.lists[usize::from(thread)] = Some(frame);
        Ok(())
    }

    /// Adds a view to the list of a thread, at its lowest free index. In the view the page of the thread's CR3, `home_root`,
    /// leads to `target_root`; guest-physical 1000 is the home trampoline page, or the server's; 2000 is a record page with
    /// these words, and 3000 a scratch page of zeros.
    ///
    /// # Errors
    ///
    /// `NoFrames` comes exactly where fewer than 6 frames are free, and then all is as before.
    pub fn add_view(
        &mut self,
        memory: &mut Memory,
        book: &mut FrameBook,
        thread: u8,
        home_root: Frame,
        target_root: Frame,
        words: &RecordWords,
        server: bool,
    ) -> Result<u16, NoFrames>
        requires stands { Stands self.old memory.old }
        requires booked { IsBooked self.old book.old memory.old }
        requires thread { thread < WINDOW_THREADS }
        requires list { eptp_list_frame self.old thread ≢ None }
        requires room { HasFreeIndex self.old thread }
        requires home { IsRootFrame home_root.0 }
        requires target { IsRootFrame target_root.0 }
        ensures refused { IsErr result ↔ (free_count book.old < VIEW_FRAMES) }
        ensures cause { IfErr result (λ refusal. refusal ≡ no_frames VIEW_FRAMES (free_count book.old)) }
        ensures unchanged { IfErr result (λ _. (self.new ≡ self.old) × (book.new ≡ book.old) × (memory.new ≡ memory.old)) }
        ensures added { IfOk result (λ index. (view : View)
            × IsAddedView self.old self.new book.old book.new memory.old memory.new thread home_root target_root words.now
            server index view) }
        ensures stands { Stands self.new memory.new }
        ensures booked { IsBooked self.new book.new memory.new }
        ensures others { SameViews self.old memory.old memory.new }
    {
        let have = book.free();
        if have < VIEW_FRAMES {
            return Err(NoFrames {
                need: VIEW_FRAMES,
                have,
            });
        }
        let view = take_view(book, thread, home_root, target_root, server);
        view.put(memory, words);
        let index = self.free_index(thread);
        self.put_view(memory, thread, index, view);
        Ok(index)
    }

    /// Sets an entry of a thread's list to 0. The frames of the view stay taken, and are kept until the index is used again.
    pub fn clear_entry(&mut self, memory: &mut Memory, thread: u8, index: u16)
        requires stands { Stands self.old memory.old }
        requires thread { thread < WINDOW_THREADS }
        requires list { eptp_list_frame self.old thread ≢ None }
        requires set { IsSet self.old thread index }
        ensures root { (view : View) → view_of self.old thread index ≡ Some view
            → self.new ≡ with_view self.old thread index (without_listing view) }
        ensures entry { SetsEntry self.old memory.old memory.new thread index 0 }
        ensures stands { Stands self.new memory.new }
        ensures booked { (book : Book) → IsBooked self.old book memory.old → IsBooked self.new book memory.new }
        ensures views { SameViews self.old memory.old memory.new }
        ensures rights { SameRights memory.old memory.new }
    {
        if let Some(view) = self.views[usize::from(thread)][usize::from(index)] {
            self.put_view(
                memory,
                thread,
                index,
                View {
                    listed: false,
                    ..view
                },
            );
        }
    }

    /// Whether a thread has a list.
    pub fn has_list(&self, thread: u8) -> bool
        requires thread { thread < WINDOW_THREADS }
        ensures { (result ≡ false) ↔ (eptp_list_frame self.now thread ≡ None) }
    {
        self.lists[usize::from(thread)].is_some()
    }

    /// The frame of a thread's list.
    pub fn list_frame(&self, thread: u8) -> Frame
        requires thread { thread < WINDOW_THREADS }
        requires list { eptp_list_frame self.now thread ≢ None }
        ensures { eptp_list_frame self.now thread ≡ Some result }
    {
        self.lists[usize::from(thread)].unwrap()
    }

    /// The lowest index of a thread whose list entry is not set.
    fn free_index(&self, thread: u8) -> u16
        requires thread { thread < WINDOW_THREADS }
        requires room { HasFreeIndex self.now thread }
        ensures { IsLowestFree self.now thread result }
    {
        let mut index = 0;
        while self.is_set(thread, index) {
            index += 1;
        }
        index
    }

    /// Whether the entry of a thread's list is set.
    pub fn is_set(&self, thread: u8, index: u16) -> bool
        requires thread { thread < WINDOW_THREADS }
        requires index { index < MAX_VIEWS }
        ensures { result ≡ is_listed (view_of self.now thread index) }
    {
        match self.views[usize::from(thread)][usize::from(index)] {
            Some(view) => view.listed,
            None => false,
        }
    }

    /// Puts a view at an index of a thread, and its entry into the list.
    fn put_view(&mut self, memory: &mut Memory, thread: u8, index: u16, view: View)
        requires thread { thread < WINDOW_THREADS }
        requires list { eptp_list_frame self.old thread ≢ None }
        requires index { index < MAX_VIEWS }
        requires inside { (list : Frame) → eptp_list_frame self.old thread ≡ Some list → list.0 < frame_count memory.old }
        ensures root { self.new ≡ with_view self.old thread index view }
        ensures entry { SetsEntry self.old memory.old memory.new thread index (entry_of_view view) }
    {
        let list = self.list_frame(thread);
        memory.set_word(list.word(u64::from(index)), view.list_entry());
        self.views[usize::from(thread)][usize::from(index)] = Some(view);
    }
}

/// Puts zeros into the base's tables for all but the first 2 MiB.
fn clear_shared(memory: &mut Memory)
    requires least { MIN_FRAMES ≤ frame_count memory.old }
    requires size { HasSize memory.old }
    ensures zeros { (page : ℕ) → KEPT_FRAMES ≤ page → page < MAX_FRAMES → word_at memory.new.bytes (shared_place page) ≡ 0 }
    ensures size { HasSize memory.new }
    ensures same { SameOutside shared_frames memory.old memory.new }
{
    for region in 1..REGIONS {
        memory.clear_frame(region_table(region));
    }
}

/// What a `Memory` is, for contracts: it has all its frames.
fn has_all_frames(memory: &Memory)
    ensures { HasAllFrames memory.now }
{
    let _ = memory.frames();
}
