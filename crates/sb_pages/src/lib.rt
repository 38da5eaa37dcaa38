//! The pages of the plain machine by name, and numbers in them.
//!
//! A page has a name, which says whose it is and how it may be accessed; two pages of one name are one page. `Pages` keeps
//! pages in the order in which they came, and finds each by its name; with room that was kept for them, pages are added
//! without memory being taken.
//!
//! Inside: the names and the pages (`page`), how a page of a name may be accessed (`mode`), pages by name (`pages`), and words
//! of 8 bytes and other numbers in a page (`page_words`). Not inside: which page a thread sees at an address (`sb_state`).
//!
//! ```text
//! pages.add(PageName::Heap(0, 3), 8, &[7])?;        // a page of zeros but for its second word, which is 7
//! pages.word(PageName::Heap(0, 3), 8)               // 7
//! ```
#![tactic(auto)]

mod mode;
mod page;
mod page_words;
mod pages;

pub use mode::{mode_of, permits};
pub use page::{Mode, Page, PageBytes, PageName, SeenPage};
pub use page_words::{number_at, put_words};
pub use pages::{Known, PAGE_SIZE, Pages, zero_bytes};
