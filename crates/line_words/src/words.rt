// The words of an entry's line.
ghost use Rattle.std.specs.Prelude.{◌≡◌, ◌≤◌, length};
ghost use Rattle.cookie_copy.specs.Reach.{copy_number};
ghost use Rattle.vio_tag.specs.CauseText.{copy_word};
ghost use Rattle.vdisk_msg.specs.Requests.{IsOperation};
ghost use Rattle.line_words.specs.LineWords.{failed_word, fault_word, operation_word, opens_text, side_text, why_word};

use cookie_copy::CopyFault;
use domain_script::Side;
use ldom_entries::Why;
use vdisk_msg::{VD_OP_BREAD, VD_OP_BWRITE, VD_OP_FLUSH};

/// What stands after a lane's name for an end.
pub fn side_word(side: Side) -> &'static [u8]
    ensures bytes { result.now ≡ side_text side }
    ensures short { length result.now ≤ 2 }
{
    match side {
        Side::Client => b".c",
        Side::Server => b".s",
    }
}

/// Why a request was refused, or a poke, a frame or a group.
pub fn why_word(why: Why) -> &'static [u8]
    ensures bytes { result.now ≡ why_word why }
    ensures short { length result.now ≤ 6 }
{
    match why {
        Why::Count => b"count",
        Why::Range => b"range",
        Why::Length => b"length",
        Why::Groups => b"groups",
    }
}

/// What a request asks.
pub fn operation_word(operation: u8) -> &'static [u8]
    requires one { IsOperation operation }
    ensures bytes { result.now ≡ operation_word operation }
    ensures short { length result.now ≤ 5 }
{
    match operation {
        VD_OP_BREAD => b"read",
        VD_OP_BWRITE => b"write",
        VD_OP_FLUSH => b"flush",
        _ => unreachable!(),
    }
}

/// What stands after a packet by which a session opened, if it did.
pub fn opens_word(opens: bool) -> &'static [u8]
    ensures bytes { result.now ≡ opens_text opens }
    ensures short { length result.now ≤ 6 }
{
    if opens { b" opens" } else { b"" }
}

/// How a call of the store ended.
pub fn failed_word(failed: bool) -> &'static [u8]
    ensures bytes { result.now ≡ failed_word failed }
    ensures short { length result.now ≤ 6 }
{
    if failed { b"failed" } else { b"ok" }
}

/// How a copy ended.
pub fn fault_word(fault: Option<CopyFault>) -> &'static [u8]
    ensures bytes { result.now ≡ fault_word fault }
    ensures short { length result.now ≤ 8 }
{
    match fault {
        None => b"ok",
        Some(fault) => copy_word(copy_number(fault)),
    }
}

/// The place of a fault in the order in which it is looked for, counted from 1.
fn copy_number(fault: CopyFault) -> u8
    ensures number { result ≡ copy_number fault }
    ensures least { 1 ≤ result }
    ensures most { result ≤ 6 }
{
    match fault {
        CopyFault::Channel => 1,
        CopyFault::BadAlign => 2,
        CopyFault::Short => 3,
        CopyFault::BadPage => 4,
        CopyFault::NoMap => 5,
        CopyFault::NoAccess => 6,
    }
}

/// Why a copy was refused, by that place.
pub fn copy_word(number: u8) -> &'static [u8]
    requires least { 1 ≤ number }
    requires most { number ≤ 6 }
    ensures bytes { result.now ≡ copy_word number }
    ensures short { length result.now ≤ 8 }
{
    match number {
        1 => b"channel",
        2 => b"badalign",
        3 => b"short",
        4 => b"badpage",
        5 => b"nomap",
        6 => b"noaccess",
        _ => unreachable!(),
    }
}
