//! The pages of the plain machine, found by name.

ghost use Rattle.std.specs.Prelude.{◌≡◌, ◌+◌, ◌*◌, ◌≤◌, ◌<◌, ◌++◌, ◌∷◌, [], Contains, Some, IfSome, IfOk, OnOk, OnErr, length, slice_index, slice_set, vec_len, vec_capacity};
ghost use Rattle.std.specs.Option.{option_copied};
ghost use Rattle.std.specs.HashMap.{get, spare};
ghost use Rattle.sb_memory.specs.Words.{word_at, put_word};
ghost use Rattle.sb_memory.specs.declared.page.TheConstants.{PAGE_SIZE};
ghost use Rattle.sb_pages.specs.PageLists.{find_page, with_page_bytes, bytes_of, page_with, with_mode};
ghost use Rattle.sb_pages.specs.PageWords.{zeros, put_words, put_number};
ghost use Rattle.sb_pages.specs.Places.{place_of, equal_names, IsIndex, IsNoted, AreWhole, AreBlank, AreKnown, known_at, KeepsKnown, Remembers, page_only};
ghost use Rattle.sb_pages.specs.Store.{with_pages, with_room, with_added_page};

use crate::page::{Page, PageBytes, PageName};
use crate::page_words::{put_number, put_word, put_words};
use sb_memory::word;
use std::alloc::{AllocError, Global};
use std::collections::HashMap;
use std::marker::Model;

/// How many bytes a page has.
pub const PAGE_SIZE: usize = sb_memory::PAGE_SIZE as usize;

/// A name, and the place of its first page.
#[derive(Clone, Copy)]
pub struct Known {
    pub name: PageName,
    pub place: usize,
}

/// How many names can be known at once.
const KNOWN: usize = 4096;

/// Where a name is kept, if it is known. Names that are used together stand apart.
fn slot(name: PageName) -> usize
    ensures { result < 4096 }
{
    let number = match name {
        PageName::Text(process, page) => spread(process, page),
        PageName::Area(process, page) => spread(process, page) ^ 0x200,
        PageName::Data(process, page) => spread(process, page) ^ 0x300,
        PageName::Heap(process, page) => spread(process, page) ^ 0x400,
        PageName::Pool(process) => spread(process, 0x500),
        PageName::ServerStack(process, page) => spread(process, page) ^ 0x600,
        PageName::Save(thread) => spread(thread, 0x700),
        PageName::Stack(thread, page) => spread(thread, page) ^ 0x710,
        PageName::Buffer(thread, index, page) => spread(thread, page) ^ 0x800 ^ (index % 16 * 4),
        PageName::Record(thread, view) => spread(thread, view) ^ 0x900,
        PageName::Scratch(thread, view) => spread(thread, view) ^ 0xA00,
        PageName::HomeTrampoline => 0xB00,
        PageName::ServerTrampoline => 0xB01,
    };
    number as usize % KNOWN
}

fn spread(owner: u32, page: u32) -> u32 {
    owner.wrapping_mul(0x40) ^ page
}

/// The place of a name, if it is known.
fn known_place(known: &[Option<Known>], name: PageName) -> Option<usize>
    ensures { IfSome result (λ place. Contains known.now (Some (known_at name place))) }
{
    match known.get(slot(name)) {
        Some(Some(one)) if one.name == name => Some(one.place),
        _ => None,
    }
}

/// Pages of 4,096 bytes in the order in which they came, with an index of their names, and blank pages that can be added
/// without memory being taken.
///
/// To contracts they are the list of the pages, and the number of those that can be added.
#[derive(Drop)]
pub struct Pages {
    pages: Vec<Page>,
    /// The place of the first page of each name.
    places: HashMap<PageName, usize>,
    /// Names with their places, each where `slot` puts it: most names are found here, and need no hashing.
    known: Vec<Option<Known>>,
    /// Pages of zeros. For each of them the two fields above have room.
    blank: Vec<PageBytes>,
}

impl Model for Pages {
    ghost use Rattle.std.specs.Prelude.{length, vec_capacity};
    ghost use Rattle.std.specs.HashMap.{get, spare};
    ghost use Rattle.sb_pages.specs.Places.{equal_names, IsSound};
    ghost use Rattle.sb_pages.specs.Store.{Store};

    ghost Value = { Store };

    ghost view = { λ pages. record { pages = pages.pages.items; room = length pages.blank.items } };

    ghost invariant = { λ pages. IsSound (get equal_names pages.places) pages.pages.items pages.blank.items
        (vec_capacity pages.pages) (spare pages.places) pages.known.items };
}

/// Bytes of zero for a page.
#[tactic(auto, unfolding(crate::specs::PageWords::zeros))]
pub fn zero_bytes(alloc: Global) -> Result<PageBytes, AllocError>
    ensures bytes { IfOk result (λ bytes. bytes ≡ zeros) }
    ensures size { IfOk result (λ bytes. length bytes ≡ PAGE_SIZE) }
{
    Ok(PageBytes::new(vec![in alloc; 0; PAGE_SIZE]?))
}

/// Adds so many pages of zeros, or fewer where there is no memory.
fn push_blank(blank: &mut Vec<PageBytes>, alloc: Global, count: u32) -> Result<(), AllocError>
    requires { AreBlank blank.old.items }
    ensures blank { AreBlank blank.new.items }
    ensures ok { OnOk result (length blank.new.items ≡ length blank.old.items + count) }
    ensures most { length blank.new.items ≤ length blank.old.items + count }
{
    for _ in 0..count {
        blank.push(zero_bytes(alloc)?)?;
    }
    Ok(())
}

/// Notes the place of a name, if it has none yet.
fn note(places: &mut HashMap<PageName, usize>, name: PageName, place: usize)
    requires { 0 < spare places.old }
    ensures noted { IsNoted (get equal_names places.old) (get equal_names places.new) name place }
    ensures spare { spare places.old ≤ spare places.new + 1 }
{
    if !places.contains_key(&name) {
        // There is room, so it is no error.
        let _ = places.insert(name, place);
    }
}

/// Makes room for known names.
#[tactic(auto, using(crate::proofs::KnownPlaces::grown))]
fn grow(known: &mut Vec<Option<Known>>) -> Result<(), AllocError>
    ensures { KeepsKnown known.old.items known.new.items }
{
    if known.is_empty() {
        known.resize(KNOWN, None)?;
    }
    Ok(())
}

/// Keeps a name with its place, in place of another one.
fn remember(known: &mut Vec<Option<Known>>, name: PageName, place: Option<usize>)
    ensures { Remembers known.old.items known.new.items name place }
{
    if let Some(place) = place {
        let at = slot(name);
        if at < known.len() {
            known[at] = Some(Known { name, place });
        }
    }
}

/// Adds a page behind the others, for which there is room, with its place.
fn attach(
    pages: &mut Vec<Page>,
    places: &mut HashMap<PageName, usize>,
    known: &mut Vec<Option<Known>>,
    page: Page,
)
    requires index { IsIndex (get equal_names places.old) pages.old.items }
    requires known { AreKnown pages.old.items known.old.items }
    requires room { vec_len pages.old < vec_capacity pages.old }
    requires spare { 0 < spare places.old }
    ensures pages { pages.new.items ≡ pages.old.items ++ page ∷ [] }
    ensures index { IsIndex (get equal_names places.new) pages.new.items }
    ensures known { AreKnown pages.new.items known.new.items }
    ensures room { vec_capacity pages.new ≡ vec_capacity pages.old }
    ensures spare { spare places.old ≤ spare places.new + 1 }
{
    note(places, page.name, pages.len());
    remember(known, page.name, places.get(&page.name).copied());
    pages.push_reserved(page);
}

impl Pages {
    /// No pages, and no room.
    pub fn new(alloc: Global) -> Pages
        ensures { result ≡ record { pages = []; room = 0 } }
    {
        Pages {
            pages: Vec::new(alloc),
            places: HashMap::new(alloc),
            known: Vec::new(alloc),
            blank: Vec::new(alloc),
        }
    }

    /// Makes room for names that are found without hashing. Without it all names are hashed.
    pub fn know_names(&mut self) -> Result<(), AllocError>
        ensures { self.new ≡ self.old }
    {
        grow(&mut self.known)
    }

    /// Adds a page behind the others. Where a page has its name already, that one stays the one of this name.
    ///
    /// An error means that there is no memory, and leaves the pages as they were.
    pub fn push(&mut self, page: Page) -> Result<(), AllocError>
        requires { length page.bytes ≡ PAGE_SIZE }
        ensures ok { OnOk result (self.new ≡ with_pages self.old (self.old.pages ++ page ∷ [])) }
        ensures err { OnErr result (self.new ≡ self.old) }
    {
        let room = self.blank.len() + 1;
        self.pages.reserve(room)?;
        self.places.reserve(room)?;
        attach(&mut self.pages, &mut self.places, &mut self.known, page);
        Ok(())
    }

    /// Makes room for so many pages more.
    ///
    /// An error means that there is no memory. It leaves the pages as they were, with room for some pages more.
    pub fn reserve(&mut self, alloc: Global, count: u32) -> Result<(), AllocError>
        ensures ok { OnOk result (self.new ≡ with_room self.old (self.old.room + count)) }
        ensures err { OnErr result (self.new.pages ≡ self.old.pages) }
    {
        let room = self.blank.len() + count as usize;
        self.pages.reserve(room)?;
        self.places.reserve(room)?;
        push_blank(&mut self.blank, alloc, count)
    }

    /// Adds a page of zeros, but for these words from a place on. It takes no memory.
    pub fn add(&mut self, name: PageName, place: usize, words: &[u64])
        requires room { 0 < self.old.room }
        requires within { place + 8 * length words.now ≤ PAGE_SIZE }
        ensures { self.new ≡ with_added_page self.old (page_with name (put_words zeros place words.now)) }
    {
        let mut bytes = self.blank.take_last();
        put_words(&mut bytes, place, words);
        let page = Page {
            name,
            executable: false,
            bytes,
        };
        attach(&mut self.pages, &mut self.places, &mut self.known, page);
    }

    /// Where the page of this name stands.
    fn place(&self, name: PageName) -> Option<usize>
        ensures place { result ≡ place_of self.now.pages name }
        ensures within { IfSome result (λ place. place < length self.now.pages) }
    {
        match known_place(&self.known, name) {
            Some(place) => Some(place),
            None => self.places.get(&name).copied(),
        }
    }

    /// The page of this name with its place, if it is there.
    #[tactic(auto, using(crate::proofs::Places::found_none))]
    pub fn find_placed(&self, name: PageName) -> Option<(usize, &Page)>
        ensures place { IfSome result (λ found. place_of self.now.pages name ≡ Some found.0) }
        ensures page { page_only result ≡ find_page self.now.pages name }
        ensures size { IfSome result (λ found. length found.1.now.bytes ≡ 4096) }
    {
        match self.place(name) {
            Some(place) => Some((place, &self.pages[place])),
            None => None,
        }
    }

    /// The page of this name, if it is there.
    pub fn find(&self, name: PageName) -> Option<&Page>
        ensures page { option_copied result ≡ find_page self.now.pages name }
        ensures size { IfSome result (λ page. length page.now.bytes ≡ PAGE_SIZE) }
    {
        match self.find_placed(name) {
            Some((_, page)) => Some(page),
            None => None,
        }
    }

    /// The byte of a page, and 0 where there is none.
    pub fn byte(&self, name: PageName, offset: usize) -> u8
        ensures { result ≡ slice_index (bytes_of (find_page self.now.pages name)) offset }
    {
        match self.find(name) {
            Some(page) => page.bytes.items().get(offset).copied().unwrap_or(0),
            None => 0,
        }
    }

    /// Puts a byte into a page. Where the page or the byte is not there, nothing changes.
    pub fn put(&mut self, name: PageName, offset: usize, value: u8)
        ensures { self.new ≡ with_pages self.old
            (with_page_bytes self.old.pages name (slice_set (bytes_of (find_page self.old.pages name)) offset value)) }
    {
        if let Some(place) = self.place(name) {
            let bytes = &mut self.pages[place].bytes;
            if offset < bytes.items().len() {
                bytes.set(offset, value);
            }
        }
    }

    /// The word of 8 bytes at a place of a page, and 0 where there is no such page.
    #[tactic(auto, unfolding(sb_memory::specs::Words::word_at))]
    pub fn word(&self, name: PageName, place: usize) -> u64
        requires { place + 8 ≤ PAGE_SIZE }
        ensures { result ≡ word_at (bytes_of (find_page self.now.pages name)) place }
    {
        match self.find(name) {
            Some(page) => word(page.bytes.items(), place),
            None => 0,
        }
    }

    /// Puts a word of 8 bytes into a page. Where the page is not there, nothing changes.
    pub fn put_word(&mut self, name: PageName, place: usize, word: u64)
        requires { place + 8 ≤ PAGE_SIZE }
        ensures { self.new ≡ with_pages self.old
            (with_page_bytes self.old.pages name (put_word (bytes_of (find_page self.old.pages name)) place word)) }
    {
        if let Some(index) = self.place(name) {
            put_word(&mut self.pages[index].bytes, place, word);
        }
    }

    /// Puts so many of the lowest bytes of a number into a page whose place is known.
    #[tactic(auto, using(crate::proofs::Places::place_below))]
    pub fn put_number(&mut self, known: Known, offset: usize, size: u8, number: u64)
        requires known { place_of self.old.pages known.name ≡ Some known.place }
        requires few { size ≤ 8 }
        requires within { offset + size ≤ 4096 }
        ensures { self.new ≡ with_pages self.old (with_page_bytes self.old.pages known.name
            (put_number (bytes_of (find_page self.old.pages known.name)) offset size number)) }
    {
        put_number(&mut self.pages[known.place].bytes, offset, size, number);
    }

    /// Makes a heap page executable, or not. Where the page is not there, nothing changes.
    pub fn set_executable(&mut self, name: PageName, executable: bool)
        ensures { self.new ≡ with_pages self.old (with_mode self.old.pages name executable) }
    {
        if let Some(place) = self.place(name) {
            self.pages[place].executable = executable;
        }
    }
}
