// LDC copy.

ghost use Rattle.std.specs.Prelude.{◌≡◌, Some, None, MatchResult, length};
ghost use Rattle.cookie_copy.specs.Faults.{PagesWithin, both_up, first_copy_fault, is_up};
ghost use Rattle.cookie_copy.specs.Moved.{moved_in, moved_out};
ghost use Rattle.cookie_copy.specs.declared.fault.Access.TheVariants.{Read, Write};

use crate::checking::check;
use crate::fault::{Access, CopyFault};
use crate::one_page::moves_in_page;
use crate::reading::{read_cookies, read_page};
use crate::window::Window;
use crate::writing::{write_cookies, write_page};
use dom_memory::Memory;
use ldc_queue::{Channel, ChannelState, End};
use map_table::{Cookie, MapTable};

/// Copies in the bytes of the other domain's cookies from the offset on, as many as `buf` has: LDC copy
/// with direction IN 0. `end` is the caller's end, `table` and `memory` are the other's. A copy that is
/// refused leaves `buf` as it was.
pub fn copy_in(
    channel: &Channel,
    end: End,
    table: &MapTable,
    memory: &Memory,
    cookies: &[Cookie],
    offset: u64,
    buf: &mut [u8],
) -> Result<(), CopyFault>
    requires { PagesWithin table.now (length memory.now) }
    ensures fault { MatchResult result (λ _. first_copy_fault (both_up channel.now.wire) Read table.now cookies.now offset (length buf.old) ≡ None) (λ fault. first_copy_fault (both_up channel.now.wire) Read table.now cookies.now offset (length buf.old) ≡ Some fault) }
    ensures moved { MatchResult result (λ _. buf.new ≡ moved_in table.now memory.now cookies.now offset (length buf.old)) (λ _. buf.new ≡ buf.old) }
{
    copy_in_where(both_up(channel, end), table, memory, cookies, offset, buf)
}

/// Copies out: the bytes stand in the place of those of the other domain's cookies from the offset on,
/// LDC copy with direction OUT 1. A copy that is refused leaves the memory as it was.
pub fn copy_out(
    channel: &Channel,
    end: End,
    table: &MapTable,
    memory: &mut Memory,
    cookies: &[Cookie],
    offset: u64,
    bytes: &[u8],
) -> Result<(), CopyFault>
    requires { PagesWithin table.now (length memory.old) }
    ensures fault { MatchResult result (λ _. first_copy_fault (both_up channel.now.wire) Write table.now cookies.now offset (length bytes.now) ≡ None) (λ fault. first_copy_fault (both_up channel.now.wire) Write table.now cookies.now offset (length bytes.now) ≡ Some fault) }
    ensures moved { MatchResult result (λ _. memory.new ≡ moved_out table.now memory.old cookies.now offset bytes.now) (λ _. memory.new ≡ memory.old) }
    ensures same_length { length memory.new ≡ length memory.old }
{
    copy_out_where(both_up(channel, end), table, memory, cookies, offset, bytes)
}

fn both_up(channel: &Channel, end: End) -> bool
    ensures { result ≡ both_up channel.now.wire }
{
    is_up(channel.state(end)) && is_up(channel.state(end.peer()))
}

fn is_up(state: ChannelState) -> bool
    ensures { result ≡ is_up state }
{
    matches!(state, ChannelState::Up)
}

fn copy_in_where(
    up: bool,
    table: &MapTable,
    memory: &Memory,
    cookies: &[Cookie],
    offset: u64,
    buf: &mut [u8],
) -> Result<(), CopyFault>
    requires { PagesWithin table.now (length memory.now) }
    ensures fault { MatchResult result (λ _. first_copy_fault up Read table.now cookies.now offset (length buf.old) ≡ None) (λ fault. first_copy_fault up Read table.now cookies.now offset (length buf.old) ≡ Some fault) }
    ensures moved { MatchResult result (λ _. buf.new ≡ moved_in table.now memory.now cookies.now offset (length buf.old)) (λ _. buf.new ≡ buf.old) }
{
    let len = buf.len() as u64;
    match moves_in_page(
        up,
        Access::Read,
        table,
        cookies,
        Window { skip: offset, len },
    ) {
        Some(address) => {
            read_page(table, memory, address, buf);
            Ok(())
        }
        None => copy_in_parts(up, table, memory, cookies, offset, buf),
    }
}

#[inline(never)]
fn copy_in_parts(
    up: bool,
    table: &MapTable,
    memory: &Memory,
    cookies: &[Cookie],
    offset: u64,
    buf: &mut [u8],
) -> Result<(), CopyFault>
    requires { PagesWithin table.now (length memory.now) }
    ensures fault { MatchResult result
        (λ _. first_copy_fault up Read table.now cookies.now offset (length buf.old) ≡ None)
        (λ fault. first_copy_fault up Read table.now cookies.now offset (length buf.old) ≡ Some fault) }
    ensures moved { MatchResult result
        (λ _. buf.new ≡ moved_in table.now memory.now cookies.now offset (length buf.old))
        (λ _. buf.new ≡ buf.old) }
{
    let len = buf.len() as u64;
    first_fault(up, Access::Read, table, cookies, offset, len)?;
    read_cookies(table, memory, cookies, offset, buf);
    Ok(())
}

fn copy_out_where(
    up: bool,
    table: &MapTable,
    memory: &mut Memory,
    cookies: &[Cookie],
    offset: u64,
    bytes: &[u8],
) -> Result<(), CopyFault>
    requires { PagesWithin table.now (length memory.old) }
    ensures fault { MatchResult result (λ _. first_copy_fault up Write table.now cookies.now offset (length bytes.now) ≡ None) (λ fault. first_copy_fault up Write table.now cookies.now offset (length bytes.now) ≡ Some fault) }
    ensures moved { MatchResult result (λ _. memory.new ≡ moved_out table.now memory.old cookies.now offset bytes.now) (λ _. memory.new ≡ memory.old) }
    ensures same_length { length memory.new ≡ length memory.old }
{
    let len = bytes.len() as u64;
    match moves_in_page(
        up,
        Access::Write,
        table,
        cookies,
        Window { skip: offset, len },
    ) {
        Some(address) => {
            write_page(table, memory, address, bytes);
            Ok(())
        }
        None => copy_out_parts(up, table, memory, cookies, offset, bytes),
    }
}

#[inline(never)]
fn copy_out_parts(
    up: bool,
    table: &MapTable,
    memory: &mut Memory,
    cookies: &[Cookie],
    offset: u64,
    bytes: &[u8],
) -> Result<(), CopyFault>
    requires { PagesWithin table.now (length memory.old) }
    ensures fault { MatchResult result
        (λ _. first_copy_fault up Write table.now cookies.now offset (length bytes.now) ≡ None)
        (λ fault. first_copy_fault up Write table.now cookies.now offset (length bytes.now) ≡ Some fault) }
    ensures moved { MatchResult result
        (λ _. memory.new ≡ moved_out table.now memory.old cookies.now offset bytes.now)
        (λ _. memory.new ≡ memory.old) }
    ensures same_length { length memory.new ≡ length memory.old }
{
    let len = bytes.len() as u64;
    first_fault(up, Access::Write, table, cookies, offset, len)?;
    write_cookies(table, memory, cookies, offset, bytes);
    Ok(())
}

/// Each fault is looked for over the whole call before the next.
fn first_fault(
    up: bool,
    access: Access,
    table: &MapTable,
    cookies: &[Cookie],
    offset: u64,
    len: u64,
) -> Result<(), CopyFault>
    ensures { MatchResult result (λ _. first_copy_fault up access table.now cookies.now offset len ≡ None) (λ fault. first_copy_fault up access table.now cookies.now offset len ≡ Some fault) }
{
    if !up {
        return Err(CopyFault::Channel);
    }
    let window = Window { skip: offset, len };
    let checked = check(access, table, cookies, window);
    if !(offset % 8 == 0 && len % 8 == 0 && checked.aligned) {
        return Err(CopyFault::BadAlign);
    }
    if checked.left.skip > 0 || checked.left.len > 0 {
        return Err(CopyFault::Short);
    }
    if !checked.asked.paged {
        return Err(CopyFault::BadPage);
    }
    if !checked.asked.mapped {
        return Err(CopyFault::NoMap);
    }
    if !checked.asked.allowed {
        return Err(CopyFault::NoAccess);
    }
    Ok(())
}
