// A domain that grants pages of its memory, and the other, which copies by cookies.

ghost use Rattle.std.specs.Prelude.{ℕ, ◌+◌, ◌≤◌, IfOk, IsTrue, length};
ghost use Rattle.cookie_copy.specs.Faults.{PagesWithin};

use crate::rows::texts::{bytes_of, digits, numbers, shown, shown_with};
use cookie_copy::{CopyFault, copy_in, copy_out};
use dom_memory::{Memory, PAGE};
use ldc_queue::{Channel, End};
use map_table::{Cookie, MapTable, Rights, TableFull};
use std::alloc::Global;
use vio_bytes::NoMemory;

/// The domain: each page that it grants lies in its memory. The cookies are the other's.
#[derive(Drop)]
pub struct Domain {
    pub channel: Channel,
    pub table: MapTable,
    pub memory: Memory,
    cookies: Vec<Cookie>,
    ghost within: { PagesWithin table (length memory) },
}

impl Domain {
    /// Ends that are down, so many entries with nothing granted, so many pages of zeros, and no cookie.
    pub fn new(alloc: Global, entries: u32, pages: u32) -> Result<Domain, NoMemory>
        requires some_entries { 1 ≤ entries }
        requires few_entries { entries ≤ 1028 }
        requires some_pages { 1 ≤ pages }
        requires few_pages { pages ≤ 1028 }
    {
        let memory = Memory::new(alloc, pages)?;
        Domain::over(alloc, memory, entries)
    }

    // Over a memory.
    fn over(alloc: Global, memory: Memory, entries: u32) -> Result<Domain, NoMemory>
        requires some_entries { 1 ≤ entries }
        requires few_entries { entries ≤ 1028 }
    {
        let table = new_table(alloc, entries)?;
        let channel = Channel::new(alloc, 8)?;
        Ok(Domain {
            channel,
            table,
            memory,
            cookies: Vec::new(alloc),
        })
    }

    fn begin(&mut self, alloc: Global, words: &str) -> Option<String> {
        let [entries, pages] = numbers::<2>(words)?;
        if entries == 0 || entries > 1028 || pages == 0 || pages > 1028 {
            return None;
        }
        match Domain::new(alloc, entries as u32, pages as u32) {
            Ok(domain) => *self = domain,
            Err(_) => return None,
        }
        Some(String::new(alloc))
    }

    /// What comes of a command, an empty text for a step.
    pub fn answer(&mut self, alloc: Global, command: &str, words: &str) -> Option<String> {
        match command {
            "new" => self.begin(alloc, words),
            "configure" => self.configure(alloc, words),
            "cookies" => self.take_cookies(alloc, words),
            "write" => self.write(alloc, words),
            "read" => self.read(alloc, words),
            "pages" => shown(alloc, self.memory.pages()),
            "in" => self.copied_in(alloc, words),
            "out" => self.copied_out(alloc, words),
            _ => self.entries_answer(alloc, command, words),
        }
    }

    fn configure(&mut self, alloc: Global, words: &str) -> Option<String> {
        self.channel.configure(end_of(words)?);
        Some(String::new(alloc))
    }

    fn take_cookies(&mut self, alloc: Global, words: &str) -> Option<String> {
        self.cookies = cookies_of(alloc, words)?;
        Some(String::new(alloc))
    }

    fn entries_answer(&mut self, alloc: Global, command: &str, words: &str) -> Option<String> {
        match command {
            "grant" => shown(alloc, self.grant(words)?),
            "look" => shown(alloc, self.table.look(words.parse::<u64>().ok()?)),
            "revoke" => shown(alloc, self.table.revoke(words.parse::<u32>().ok()?)),
            "entry" => self.entry(alloc, words),
            _ => None,
        }
    }

    fn entry(&self, alloc: Global, words: &str) -> Option<String> {
        match self.table.entry_bytes(words.parse::<u32>().ok()?) {
            Some(bytes) => digits(alloc, &bytes),
            None => shown(alloc, None::<()>),
        }
    }

    fn grant(&mut self, words: &str) -> Option<Result<u32, TableFull>> {
        let (page, rights) = words.split_once(' ')?;
        let page = page.parse::<u32>().ok()?;
        let rights = rights_of(rights)?;
        if page >= self.memory.pages() {
            return None;
        }
        Some(self.table.grant(page, rights))
    }

    // Whether so many bytes from a place on lie in the memory.
    fn has(&self, place: u64, count: u64) -> bool
        ensures { IsTrue result → place + count ≤ length self.now.memory }
    {
        let size = self.memory.pages() as u64 * PAGE as u64;
        count <= size && place <= size - count
    }

    fn write(&mut self, alloc: Global, words: &str) -> Option<String> {
        let (place, words) = words.split_once(' ')?;
        let place = place.parse::<u64>().ok()?;
        let bytes = bytes_of(alloc, words)?;
        if !self.has(place, bytes.len() as u64) {
            return None;
        }
        self.memory.write(place, &bytes);
        Some(String::new(alloc))
    }

    fn read(&self, alloc: Global, words: &str) -> Option<String> {
        let [place, count] = numbers::<2>(words)?;
        if !self.has(place, count) {
            return None;
        }
        let mut bytes = vec![in alloc; 0xee; count as usize].ok()?;
        self.memory.read(place, &mut bytes);
        digits(alloc, &bytes)
    }

    // The answer of a copy, and the buffer of bytes ee that the bytes were to come to.
    fn copied_in(&self, alloc: Global, words: &str) -> Option<String> {
        let [offset, count] = numbers::<2>(words)?;
        let mut bytes = vec![in alloc; 0xee; u16::try_from(count).ok()? as usize].ok()?;
        let answer = self.copy_into(offset, &mut bytes);
        shown_with(alloc, answer, &bytes)
    }

    fn copy_into(&self, offset: u64, bytes: &mut [u8]) -> Result<(), CopyFault> {
        let (table, memory) = (&self.table, &self.memory);
        copy_in(
            &self.channel,
            End::B,
            table,
            memory,
            &self.cookies,
            offset,
            bytes,
        )
    }

    fn copied_out(&mut self, alloc: Global, words: &str) -> Option<String> {
        let (offset, words) = words.split_once(' ')?;
        let offset = offset.parse::<u64>().ok()?;
        let bytes = bytes_of(alloc, words)?;
        shown(alloc, self.copy_from(offset, &bytes))
    }

    fn copy_from(&mut self, offset: u64, bytes: &[u8]) -> Result<(), CopyFault> {
        let (table, memory) = (&self.table, &mut self.memory);
        copy_out(
            &self.channel,
            End::B,
            table,
            memory,
            &self.cookies,
            offset,
            bytes,
        )
    }
}

// A table that grants nothing, so that each page that it grants lies in any memory.
#[tactic(auto, using(cookie_copy::proofs::Granting::within_new))]
fn new_table(alloc: Global, entries: u32) -> Result<MapTable, NoMemory>
    requires some { 1 ≤ entries }
    requires few { entries ≤ 1028 }
    ensures { IfOk result (λ table. (size : ℕ) → PagesWithin table size) }
{
    MapTable::new(alloc, entries)
}

fn end_of(word: &str) -> Option<End> {
    match word {
        "A" => Some(End::A),
        "B" => Some(End::B),
        _ => None,
    }
}

fn rights_of(word: &str) -> Option<Rights> {
    let (read, write) = match word {
        "read" => (true, false),
        "write" => (false, true),
        "both" => (true, true),
        _ => return None,
    };
    Some(Rights { read, write })
}

// Cookies, each its address and its size with a `+` between.
fn cookies_of(alloc: Global, words: &str) -> Option<Vec<Cookie>> {
    let mut cookies = Vec::new(alloc);
    for word in words.split(' ') {
        let (address, size) = word.split_once('+')?;
        let address = address.parse::<u64>().ok()?;
        let size = size.parse::<u64>().ok()?;
        cookies.push(Cookie { address, size }).ok()?;
    }
    Some(cookies)
}
