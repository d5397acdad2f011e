// The names in an entry's line.
ghost use Rattle.std.specs.Prelude.{◌≡◌, ◌+◌, ◌≤◌, ◌++◌, length};
ghost use Rattle.line_words.specs.IsDeclared.{IsDeclared, IsEnd, IsLane};
ghost use Rattle.line_words.specs.LineNames.{end_name, end_text, id_text, lane_name, number_text, who_name};

use crate::LineNames;
use domain_script::{EndName, Lane};
use gathered_text::{TEXT_ROOM, Text};
use ldom_entries::Who;

/// The name of a lane.
pub fn push_lane(text: &mut Text, lane: Lane, names: &LineNames<'_>)
    requires declared { IsLane names.now lane }
    requires room { length text.old + 16 ≤ TEXT_ROOM }
    ensures text { text.new ≡ text.old ++ lane_name names.now lane }
    ensures len { length text.new ≤ length text.old + 16 }
{
    text.push_short(names.of_lane(lane).lane());
}

fn push_end_name(text: &mut Text, end: EndName, names: &LineNames<'_>)
    requires declared { IsEnd names.now end }
    requires room { length text.old + 16 ≤ TEXT_ROOM }
    ensures text { text.new ≡ text.old ++ end_name names.now end }
    ensures len { length text.new ≤ length text.old + 16 }
{
    text.push_short(names.of_lane(end.lane).end(end.side));
}

/// The name of whom an entry is about.
pub fn push_who(text: &mut Text, who: &Who, names: &LineNames<'_>)
    requires declared { IsDeclared names.now who.now }
    requires room { length text.old + 16 ≤ TEXT_ROOM }
    ensures text { text.new ≡ text.old ++ who_name names.now who.now }
    ensures len { length text.new ≤ length text.old + 16 }
{
    match who {
        Who::Lane(lane) => push_lane(text, *lane, names),
        Who::End(end) => push_end_name(text, *end, names),
    }
}

/// The lane and the id of a request or a frame, after the kind of its entry.
pub fn push_id(text: &mut Text, kind: &[u8], lane: Lane, id: u64, names: &LineNames<'_>)
    requires declared { IsLane names.now lane }
    requires room { length text.old + length kind.now + 37 ≤ TEXT_ROOM }
    ensures text { text.new ≡ text.old ++ id_text kind.now names.now lane id }
    ensures len { length text.new ≤ length text.old + length kind.now + 37 }
{
    text.push(kind);
    push_lane(text, lane, names);
    text.push(b" ");
    text.push_number(id);
}

/// An end, after the kind of its entry.
pub fn push_end(text: &mut Text, kind: &[u8], end: EndName, names: &LineNames<'_>)
    requires declared { IsEnd names.now end }
    requires room { length text.old + length kind.now + 16 ≤ TEXT_ROOM }
    ensures text { text.new ≡ text.old ++ end_text kind.now names.now end }
    ensures len { length text.new ≤ length text.old + length kind.now + 16 }
{
    text.push(kind);
    push_end_name(text, end, names);
}

/// An end and a number, after the kind of their entry.
pub fn push_end_number(
    text: &mut Text,
    kind: &[u8],
    end: EndName,
    number: u64,
    names: &LineNames<'_>,
)
    requires declared { IsEnd names.now end }
    requires room { length text.old + length kind.now + 37 ≤ TEXT_ROOM }
    ensures text { text.new ≡ text.old ++ number_text kind.now names.now end number }
    ensures len { length text.new ≤ length text.old + length kind.now + 37 }
{
    push_end(text, kind, end, names);
    text.push(b" ");
    text.push_number(number);
}
