//! The names of pages, as `sb_pages` has them: definitions of the crates above name them as types of this crate.

pub use sb_pages::{Mode, Page, PageBytes, PageName, SeenPage};
