//! What the calls of a kernel keep.

ghost use Rattle.sb_shows.specs.CallLaws.{BindsKeep, FreeIndicesAgree, MovesKeep, PagesKeep, ProtectsKeep, RegistersKeep, RemovalsKeep, SoundBindsKeep, SoundProtectsKeep, SoundRegistersKeep, ViewRemovalsKeep};
ghost use Rattle.sb_shows.specs.Fills.{ClearsFill, ImagesFill, PagesFill, WordsFill};
ghost use Rattle.sb_shows.specs.SeenLaws.{HomesAndServersSeeBuffers, HomesSeeSavePages, HomesSeeStacks, ProcessesSeeTheirPages};
ghost use Rattle.sb_shows.specs.StartLaws.{FirstKeeps, ListsKeep, ProcessesKeep, ThreadsKeep, WholeProcessesKeep, WholeThreadsKeep};
ghost use Rattle.sb_shows.specs.WholeStart.{StartsKeep};

/// What the kernel's calls leave is kept as well: changes that tables do not show, a change of a heap page's mode, new pages,
/// pages and views that go, a registration, and a binding. Where pages are added, those that were there stay in their frames, and
/// each translation that gave an address gives the same; where pages or views go, so do those that are left. The six frames of a
/// view that goes stay taken.
///
/// `sound_protects`, `sound_registers` and `sound_binds` say it where the state is sound: the pages that they ask for are there,
/// and those that are added are not.
pub fn calls_keep()
    ensures moves { MovesKeep }
    ensures protects { ProtectsKeep }
    ensures pages { PagesKeep }
    ensures removals { RemovalsKeep }
    ensures view_removals { ViewRemovalsKeep }
    ensures registers { RegistersKeep }
    ensures binds { BindsKeep }
    ensures sound_protects { SoundProtectsKeep }
    ensures sound_registers { SoundRegistersKeep }
    ensures sound_binds { SoundBindsKeep }
{}

/// Who sees the pages that are added and taken away: a page of a process that process alone, the save page and the stack of a
/// thread its home, and the buffer of a binding the thread's home and the server.
pub fn pages_are_seen()
    ensures processes { ProcessesSeeTheirPages }
    ensures saves { HomesSeeSavePages }
    ensures stacks { HomesSeeStacks }
    ensures buffers { HomesAndServersSeeBuffers }
{}

/// The index that the root kernel gives a view is the lowest that the thread has free.
pub fn free_indices_agree()
    ensures { FreeIndicesAgree }
{}

/// What the steps of a start leave is kept: memory before there are processes and threads; the tables of a process, a list, and a
/// thread with its home view, none of which changes a translation; a process and a thread as a whole, with their pages; and, all
/// of them one after another, the state at the start of images and entries.
pub fn start_steps_keep()
    ensures first { FirstKeeps }
    ensures processes { ProcessesKeep }
    ensures whole_processes { WholeProcessesKeep }
    ensures lists { ListsKeep }
    ensures threads { ThreadsKeep }
    ensures whole_threads { WholeThreadsKeep }
    ensures start { StartsKeep }
{}

/// What fills a frame that a page is added in: the frame is cleared, a page is put into it, bytes of an image are put over a
/// filler, or a word is put.
pub fn frames_are_filled()
    ensures cleared { ClearsFill }
    ensures pages { PagesFill }
    ensures images { ImagesFill }
    ensures words { WordsFill }
{}
