//! The pages of the plain machine, by name.

use sb_list::Listed;

/// The name of a page. Each page belongs to a process, to a thread, or to a view of a thread; the two trampoline pages
/// are one for all. Two views that show one page give one name, so sharing needs no further rule.
#[derive(Clone, Copy, Debug, PartialEq, Eq, Hash)]
pub enum PageName {
    /// Text of a process, by page.
    Text(u32, u32),
    /// Rewrite area of a process, by page.
    Area(u32, u32),
    /// Initial data of a process, by page.
    Data(u32, u32),
    /// Heap of a process, by page.
    Heap(u32, u32),
    /// The pool page of a process.
    Pool(u32),
    /// A server stack page of a process: four pages a stack.
    ServerStack(u32, u32),
    /// The page in which a thread's trampoline saves registers.
    Save(u32),
    /// A stack page of a thread: four pages.
    Stack(u32, u32),
    /// A buffer page of a thread's binding: thread, index of the binding, page.
    Buffer(u32, u32, u32),
    /// The record page of a thread's view.
    Record(u32, u32),
    /// The scratch page of a thread's view.
    Scratch(u32, u32),
    /// The trampoline page of every home view.
    HomeTrampoline,
    /// The trampoline page of every server's view.
    ServerTrampoline,
}

/// How a page may be accessed.
#[derive(Clone, Copy, Debug, PartialEq, Eq)]
pub enum Mode {
    /// Code: it can only be fetched.
    Fetch,
    /// It can only be read.
    Read,
    /// It can be read and written, and never fetched.
    ReadWrite,
}

/// A page of the plain machine.
#[derive(Debug, Drop)]
pub struct Page {
    pub name: PageName,
    /// Whether a heap page is executable. No other page looks at it.
    pub executable: bool,
    /// 4,096 bytes.
    pub bytes: PageBytes,
}

/// The bytes of a page.
pub type PageBytes = Listed<u8>;

/// A page as a thread sees it in a view.
#[derive(Clone, Copy, Debug, PartialEq, Eq)]
pub struct SeenPage {
    pub name: PageName,
    pub mode: Mode,
}
