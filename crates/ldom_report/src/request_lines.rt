// The lines of requests, and of lanes as a whole, before the words of a read and the line feed.
ghost use Rattle.std.specs.Prelude.{◌≡◌, ◌+◌, ◌≤◌, ◌++◌, length, take, codes};
ghost use Rattle.domain_script.specs.LaneKinds.{disk_lane};
ghost use Rattle.vdisk_msg.specs.Requests.{IsOperation};
ghost use Rattle.ldom_report.specs.EntryText.{done_text, id_text, lane_name, range_text, request_text, who_name, why_word};
ghost use Rattle.ldom_report.specs.HasWords.{IsDeclared, IsLane};

use crate::{KeptRequest, Who, Why};
use domain_script::{Lane, LaneKind};
use gathered_text::{TEXT_ROOM, Text};
use line_words::{LineNames, operation_word, push_id, push_lane, push_who, why_word};
use vdisk_msg::{Fill, Request};

/// The bytes of a fill, without the zeros after them.
pub fn fill_bytes(fill: &Fill) -> &[u8]
    ensures bytes { result.now ≡ take fill.now.len fill.now.bytes }
    ensures short { length result.now ≤ 1024 }
{
    &fill.bytes[..usize::from(fill.len).min(1024)]
}

/// A range of blocks, after the word of an operation.
pub fn push_range(text: &mut Text, block: u64, count: u64)
    requires { length text.old + 41 ≤ TEXT_ROOM }
    ensures text { text.new ≡ text.old ++ range_text block count }
    ensures len { length text.new ≤ length text.old + 41 }
{
    text.push_number(block);
    text.push(b" ");
    text.push_number(count);
}

fn push_request(text: &mut Text, request: &Request)
    requires { length text.old + 2100 ≤ TEXT_ROOM }
    ensures text { text.new ≡ text.old ++ request_text request.now }
    ensures len { length text.new ≤ length text.old + 2100 }
{
    match request {
        Request::Read { block, count } => {
            text.push(b" read ");
            push_range(text, *block, *count);
        }
        Request::Write { block, count, fill } => {
            text.push(b" write ");
            push_range(text, *block, *count);
            text.push(b" ");
            text.push_hex(fill_bytes(fill));
        }
        Request::Flush => text.push(b" flush"),
    }
}

/// As `push_request`. The request is taken out here, so that the lines of other entries make no room for it.
fn push_kept(text: &mut Text, kept: &KeptRequest)
    requires { length text.old + 2100 ≤ TEXT_ROOM }
    ensures text { text.new ≡ text.old ++ request_text kept.now }
    ensures len { length text.new ≤ length text.old + 2100 }
{
    push_request(text, &kept.get());
}

/// The lane of a disk.
fn disk_lane(number: u32) -> Lane
    ensures { result ≡ disk_lane number }
{
    Lane {
        kind: LaneKind::Disk,
        number,
    }
}

/// A request that was taken up.
pub fn push_accepted(
    text: &mut Text,
    disk: u32,
    id: u64,
    request: &KeptRequest,
    names: &LineNames<'_>,
)
    requires declared { IsLane names.now (disk_lane disk) }
    requires room { length text.old + 2200 ≤ TEXT_ROOM }
    ensures text { text.new ≡ text.old ++ id_text (codes "accepted ") names.now (disk_lane disk) id
        ++ request_text request.now }
    ensures len { length text.new ≤ length text.old + 2200 }
{
    push_id(text, b"accepted ", disk_lane(disk), id, names);
    push_kept(text, request);
}

/// A disk, after the kind of its entry.
pub fn push_of_disk(text: &mut Text, kind: &[u8], disk: u32, names: &LineNames<'_>)
    requires declared { IsLane names.now (disk_lane disk) }
    requires room { length text.old + length kind.now + 16 ≤ TEXT_ROOM }
    ensures text { text.new ≡ text.old ++ kind.now ++ lane_name names.now (disk_lane disk) }
    ensures len { length text.new ≤ length text.old + length kind.now + 16 }
{
    text.push(kind);
    push_lane(text, disk_lane(disk), names);
}

/// Whom an entry is about, after its kind.
pub fn push_about(text: &mut Text, kind: &[u8], who: &Who, names: &LineNames<'_>)
    requires declared { IsDeclared names.now who.now }
    requires room { length text.old + length kind.now + 16 ≤ TEXT_ROOM }
    ensures text { text.new ≡ text.old ++ kind.now ++ who_name names.now who.now }
    ensures len { length text.new ≤ length text.old + length kind.now + 16 }
{
    text.push(kind);
    push_who(text, who, names);
}

pub fn push_refused(text: &mut Text, who: &Who, why: Why, names: &LineNames<'_>)
    requires declared { IsDeclared names.now who.now }
    requires room { length text.old + 100 ≤ TEXT_ROOM }
    ensures text { text.new ≡ text.old ++ codes "refused " ++ who_name names.now who.now ++ codes " "
        ++ why_word why }
    ensures len { length text.new ≤ length text.old + 100 }
{
    push_about(text, b"refused ", who, names);
    text.push(b" ");
    text.push(why_word(why));
}

pub fn push_done(
    text: &mut Text,
    disk: u32,
    id: u64,
    operation: u8,
    status: u64,
    names: &LineNames<'_>,
)
    requires declared { IsLane names.now (disk_lane disk) }
    requires one { IsOperation operation }
    requires room { length text.old + 100 ≤ TEXT_ROOM }
    ensures text { text.new ≡ text.old ++ done_text names.now disk id operation status }
    ensures len { length text.new ≤ length text.old + 100 }
{
    push_id(text, b"done ", disk_lane(disk), id, names);
    text.push(b" ");
    text.push(operation_word(operation));
    text.push(b" ");
    text.push_number(status);
}
