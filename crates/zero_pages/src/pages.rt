ghost use Rattle.std.specs.Prelude.{◌≡◌, ◌≢◌, ◌+◌, ◌-◌, ◌*◌, ◌/◌, ◌%◌, ◌^◌, ◌<◌, ◌≤◌, ◌↔◌, ◌++◌, length, get_or, replicate, vec_capacity, IfOk, IsOk, IsTrue};
ghost use Rattle.vio_bytes.specs.Place.{put_at};
ghost use Rattle.vio_bytes.specs.Range.{range_at};
ghost use Rattle.zero_pages.specs.Zeros.{AreKept, page_at, pages_at};

use std::alloc::Global;
use std::marker::Model;
use vio_bytes::NoMemory;

/// The bytes of a page.
pub const ZERO_PAGE: usize = 4096;

/// Pages that begin as zeros. Memory is taken for all of them, but only those that a call wrote lie in it, in the order
/// of their first writes: after their end nothing is touched. So no call wants memory later.
#[derive(Drop)]
pub struct ZeroPages {
    /// For each page 0, where it is zeros, or the number of its kept page, counted from 1.
    places: Vec<usize>,
    kept: Vec<u8>,
}

impl Model for ZeroPages {
    ghost use Rattle.std.specs.Prelude.{◌*◌, ◌≤◌, List, ℕ, length, vec_capacity};
    ghost use Rattle.zero_pages.specs.Zeros.{AreKept, pages_at};

    ghost Value = { List ℕ };

    ghost view = { λ p. pages_at p.kept.items p.places.items };

    ghost invariant = { λ p. AreKept p.kept.items p.places.items × 4096 * length p.places.items ≤ vec_capacity p.kept };
}

impl ZeroPages {
    /// So many pages of zeros. The one refusal is for want of memory, and none of them want none.
    pub fn new(alloc: Global, count: usize) -> Result<Self, NoMemory>
        ensures zeros { IfOk result (λ pages. pages ≡ replicate (4096 * count) 0) }
        ensures none { count ≡ 0 → IsOk result }
    {
        let Some(size) = count.checked_mul(ZERO_PAGE) else {
            return Err(NoMemory);
        };
        Ok(ZeroPages {
            places: no_places(alloc, count)?,
            kept: Vec::with_capacity(alloc, size)?,
        })
    }

    /// Reads the bytes from place `at` on, as many as `buf` has.
    pub fn read(&self, at: usize, buf: &mut [u8])
        requires { at + length buf.old ≤ length self.now }
        ensures { buf.new ≡ range_at at (length buf.old) self.now }
    {
        read_bytes(&self.places, &self.kept, at, buf);
    }

    /// Writes the bytes to the place `at` on. All other bytes stay.
    pub fn write(&mut self, at: usize, bytes: &[u8])
        requires { at + length bytes.now ≤ length self.old }
        ensures written { self.new ≡ put_at at bytes.now self.old }
        ensures same_length { length self.new ≡ length self.old }
    {
        write_bytes(&mut self.places, &mut self.kept, at, bytes);
    }
}

/// Whether so many bytes from a place on, some at least, lie in one page.
fn is_in_page(at: usize, count: usize) -> bool
    ensures { IsTrue result ↔ (0 < count) × (at % 4096 + count ≤ 4096) }
{
    count > 0 && count <= page_rest(at)
}

/// The bytes from a place to the end of its page.
fn page_rest(at: usize) -> usize
    ensures { result ≡ 4096 - at % 4096 }
{
    ZERO_PAGE - at % ZERO_PAGE
}

/// The places of so many pages of zeros.
fn no_places(alloc: Global, count: usize) -> Result<Vec<usize>, NoMemory>
    ensures places { IfOk result (λ places. places.items ≡ replicate count 0) }
    ensures none { count ≡ 0 → IsOk result }
{
    let mut places = Vec::with_capacity(alloc, count)?;
    places.resize(count, 0)?;
    Ok(places)
}

/// The place of a page.
fn place_of(places: &[usize], page: usize) -> usize
    requires { page < length places.now }
    ensures { result ≡ get_or places.now page 0 }
{
    places[page]
}

/// Reads from a place, the short way where that is within one page.
fn read_bytes(places: &[usize], kept: &[u8], at: usize, buf: &mut [u8])
    requires within { at + length buf.old ≤ 4096 * length places.now }
    requires end { at + length buf.old < 2 ^ 64 }
    requires kept { AreKept kept.now places.now }
    ensures { buf.new ≡ range_at at (length buf.old) (pages_at kept.now places.now) }
{
    if is_in_page(at, buf.len()) {
        read_place(places, kept, at, buf);
    } else {
        read_pages(places, kept, at, buf);
    }
}

/// Reads from a place, page by page.
#[inline(never)]
fn read_pages(places: &[usize], kept: &[u8], at: usize, buf: &mut [u8])
    requires within { at + length buf.old ≤ 4096 * length places.now }
    requires end { at + length buf.old < 2 ^ 64 }
    requires kept { AreKept kept.now places.now }
    ensures { buf.new ≡ range_at at (length buf.old) (pages_at kept.now places.now) }
{
    let mut done = 0;
    while done < buf.len() {
        let end = done + page_rest(at + done).min(buf.len() - done);
        read_place(places, kept, at + done, &mut buf[done..end]);
        done = end;
    }
}

/// Reads from a place, within one page.
fn read_place(places: &[usize], kept: &[u8], at: usize, buf: &mut [u8])
    requires page { at % 4096 + length buf.old ≤ 4096 }
    requires within { at < 4096 * length places.now }
    requires kept { AreKept kept.now places.now }
    ensures { buf.new ≡ range_at at (length buf.old) (pages_at kept.now places.now) }
{
    read_page(kept, place_of(places, at / ZERO_PAGE), at % ZERO_PAGE, buf);
}

/// Reads the page of a place, from one of its bytes on.
#[tactic(auto, using(crate::proofs::Zeros::read_zeros, crate::proofs::Zeros::read_kept))]
fn read_page(kept: &[u8], place: usize, from: usize, buf: &mut [u8])
    requires page { from + length buf.old ≤ 4096 }
    requires kept { 4096 * place ≤ length kept.now }
    ensures { buf.new ≡ range_at from (length buf.old) (page_at kept.now place) }
{
    if place == 0 {
        buf.fill(0);
        return;
    }
    read_range(kept, (place - 1) * ZERO_PAGE + from, buf);
}

/// Reads bytes from a place.
fn read_range(kept: &[u8], at: usize, buf: &mut [u8])
    requires { at + length buf.old ≤ length kept.now }
    ensures { buf.new ≡ range_at at (length buf.old) kept.now }
{
    buf.copy_from_slice(&kept[at..at + buf.len()]);
}

/// Writes at a place, the short way where that is within one page.
fn write_bytes(places: &mut [usize], kept: &mut Vec<u8>, at: usize, bytes: &[u8])
    requires within { at + length bytes.now ≤ 4096 * length places.old }
    requires end { at + length bytes.now < 2 ^ 64 }
    requires kept { AreKept kept.old.items places.old }
    requires room { 4096 * length places.old ≤ vec_capacity kept.old }
    ensures written { pages_at kept.new.items places.new ≡ put_at at bytes.now (pages_at kept.old.items places.old) }
    ensures kept { AreKept kept.new.items places.new }
    ensures same_length { length places.new ≡ length places.old }
    ensures capacity { vec_capacity kept.old ≤ vec_capacity kept.new }
{
    if is_in_page(at, bytes.len()) {
        write_page(places, kept, at, bytes);
    } else {
        write_pages(places, kept, at, bytes);
    }
}

/// Writes at a place, page by page.
#[inline(never)]
fn write_pages(places: &mut [usize], kept: &mut Vec<u8>, at: usize, bytes: &[u8])
    requires within { at + length bytes.now ≤ 4096 * length places.old }
    requires end { at + length bytes.now < 2 ^ 64 }
    requires kept { AreKept kept.old.items places.old }
    requires room { 4096 * length places.old ≤ vec_capacity kept.old }
    ensures written { pages_at kept.new.items places.new ≡ put_at at bytes.now (pages_at kept.old.items places.old) }
    ensures kept { AreKept kept.new.items places.new }
    ensures same_length { length places.new ≡ length places.old }
    ensures capacity { vec_capacity kept.old ≤ vec_capacity kept.new }
{
    let mut done = 0;
    while done < bytes.len() {
        let end = done + page_rest(at + done).min(bytes.len() - done);
        write_page(places, kept, at + done, &bytes[done..end]);
        done = end;
    }
}

/// Writes at a place, within one page, which is kept from then on.
fn write_page(places: &mut [usize], kept: &mut Vec<u8>, at: usize, bytes: &[u8])
    requires page { at % 4096 + length bytes.now ≤ 4096 }
    requires within { at < 4096 * length places.old }
    requires kept { AreKept kept.old.items places.old }
    requires room { 4096 * length places.old ≤ vec_capacity kept.old }
    ensures written { pages_at kept.new.items places.new ≡ put_at at bytes.now (pages_at kept.old.items places.old) }
    ensures kept { AreKept kept.new.items places.new }
    ensures same_length { length places.new ≡ length places.old }
    ensures capacity { vec_capacity kept.old ≤ vec_capacity kept.new }
{
    let place = keep(places, kept, at / ZERO_PAGE);
    write_kept(kept, (place - 1) * ZERO_PAGE + at % ZERO_PAGE, bytes);
}

/// Writes bytes at a place of the kept pages.
fn write_kept(kept: &mut Vec<u8>, start: usize, bytes: &[u8])
    requires { start + length bytes.now ≤ length kept.old.items }
    ensures written { kept.new.items ≡ put_at start bytes.now kept.old.items }
    ensures same_length { length kept.new.items ≡ length kept.old.items }
    ensures capacity { vec_capacity kept.old ≤ vec_capacity kept.new }
{
    write_range(kept, start, bytes);
}

/// Writes bytes at a place.
fn write_range(content: &mut [u8], at: usize, bytes: &[u8])
    requires { at + length bytes.now ≤ length content.old }
    ensures { content.new ≡ put_at at bytes.now content.old }
{
    content[at..at + bytes.len()].copy_from_slice(bytes);
}

/// Keeps a page, where it isn't kept yet, and answers its place.
fn keep(places: &mut [usize], kept: &mut Vec<u8>, page: usize) -> usize
    requires page { page < length places.old }
    requires kept { AreKept kept.old.items places.old }
    requires room { 4096 * length places.old ≤ vec_capacity kept.old }
    ensures same { pages_at kept.new.items places.new ≡ pages_at kept.old.items places.old }
    ensures place { result ≡ get_or places.new page 0 }
    ensures some { result ≢ 0 }
    ensures kept { AreKept kept.new.items places.new }
    ensures same_length { length places.new ≡ length places.old }
    ensures capacity { vec_capacity kept.old ≤ vec_capacity kept.new }
{
    let place = places[page];
    if place == 0 {
        keep_zeros(places, kept, page)
    } else {
        place
    }
}

/// Keeps a page that is zeros, after the others, and answers its place.
#[inline(never)]
fn keep_zeros(places: &mut [usize], kept: &mut Vec<u8>, page: usize) -> usize
    requires page { page < length places.old }
    requires zeros { get_or places.old page 0 ≡ 0 }
    requires kept { AreKept kept.old.items places.old }
    requires room { 4096 * length places.old ≤ vec_capacity kept.old }
    ensures same { pages_at kept.new.items places.new ≡ pages_at kept.old.items places.old }
    ensures place { result ≡ get_or places.new page 0 }
    ensures some { result ≢ 0 }
    ensures kept { AreKept kept.new.items places.new }
    ensures same_length { length places.new ≡ length places.old }
    ensures capacity { vec_capacity kept.old ≤ vec_capacity kept.new }
{
    let place = add_zeros(kept);
    places[page] = place;
    place
}

/// Adds a page of zeros, for which there has to be room, and answers its place.
#[tactic(auto, using(crate::proofs::Zeros::zeros_added))]
fn add_zeros(kept: &mut Vec<u8>) -> usize
    requires room { length kept.old.items + 4096 ≤ vec_capacity kept.old }
    ensures zeros { kept.new.items ≡ kept.old.items ++ replicate 4096 0 }
    ensures number { result ≡ length kept.new.items / 4096 }
    ensures capacity { vec_capacity kept.old ≤ vec_capacity kept.new }
{
    match kept.resize(kept.len() + ZERO_PAGE, 0) {
        Ok(()) => {}
        Err(_) => unreachable!(),
    }
    kept.len() / ZERO_PAGE
}
