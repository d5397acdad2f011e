ghost use Rattle.std.specs.Prelude.{IfNone, OnSome};
ghost use Rattle.domain_script.specs.declared.event.Event.{Event as event_data};
ghost use Rattle.domain_script.specs.declared.rows.RowKind.TheVariants as row;
ghost use Rattle.domain_script.specs.Spells.{SpellsRow};
ghost use Rattle.script_words.specs.Words.{words};

use crate::declaring::new_name;
use crate::fields::{BLOCKS, DISK_RING, LaneKind, QUEUE};
use crate::lane_words::{declared_number, one_number};
use crate::{DiskDecl, Event, Names, Request};
use script_words::numbers::{number, number_within};
use script_words::spellings::{NO_FILL, put_fill};
use script_words::words::{four_words, three_words};

/// `disk NAME BLOCKS RING QUEUE`, where the disk may be declared.
pub fn disk_row(fields: &[u8], names: &Names, event: &mut Event) -> Option<()>
    ensures some { OnSome result (SpellsRow row.Disk (words fields.now) names.now event.new) }
    ensures none { IfNone result ((event : event_data) → SpellsRow row.Disk (words fields.now) names.now event → ⊥) }
{
    let (word, blocks, ring, queue) = four_words(fields)?;
    let disk = DiskDecl {
        name: new_name(word, names, LaneKind::Disk)?,
        blocks: number_within(blocks, BLOCKS)? as u32,
        ring: number_within(ring, DISK_RING)? as u32,
        queue: number_within(queue, QUEUE)? as u32,
    };
    *event = Event::Disk(disk);
    Some(())
}

/// `write NAME BLOCK COUNT HEX`
pub fn write_row(fields: &[u8], names: &Names, event: &mut Event) -> Option<()>
    ensures some { OnSome result (SpellsRow row.Write (words fields.now) names.now event.new) }
    ensures none { IfNone result ((event : event_data) → SpellsRow row.Write (words fields.now) names.now event → ⊥) }
{
    let (word, block, count, digits) = four_words(fields)?;
    let disk = declared_number(word, names, LaneKind::Disk)?;
    *event = Event::Issue {
        disk,
        request: Request::Write {
            block: number(block)?,
            count: number(count)?,
            fill: NO_FILL,
        },
    };
    match event {
        Event::Issue {
            request: Request::Write { fill, .. },
            ..
        } => put_fill(digits, fill),
        _ => unreachable!(),
    }
}

/// `read NAME BLOCK COUNT`
pub fn read_row(fields: &[u8], names: &Names, event: &mut Event) -> Option<()>
    ensures some { OnSome result (SpellsRow row.Read (words fields.now) names.now event.new) }
    ensures none { IfNone result ((event : event_data) → SpellsRow row.Read (words fields.now) names.now event → ⊥) }
{
    let (word, block, count) = three_words(fields)?;
    let disk = declared_number(word, names, LaneKind::Disk)?;
    let request = Request::Read {
        block: number(block)?,
        count: number(count)?,
    };
    *event = Event::Issue { disk, request };
    Some(())
}

/// `flush NAME`
pub fn flush_row(fields: &[u8], names: &Names, event: &mut Event) -> Option<()>
    ensures some { OnSome result (SpellsRow row.Flush (words fields.now) names.now event.new) }
    ensures none { IfNone result ((event : event_data) → SpellsRow row.Flush (words fields.now) names.now event → ⊥) }
{
    let disk = one_number(fields, names, LaneKind::Disk)?;
    *event = Event::Issue {
        disk,
        request: Request::Flush,
    };
    Some(())
}

/// `stop NAME`
pub fn stop_row(fields: &[u8], names: &Names, event: &mut Event) -> Option<()>
    ensures some { OnSome result (SpellsRow row.Stop (words fields.now) names.now event.new) }
    ensures none { IfNone result ((event : event_data) → SpellsRow row.Stop (words fields.now) names.now event → ⊥) }
{
    let disk = one_number(fields, names, LaneKind::Disk)?;
    *event = Event::Stop { disk };
    Some(())
}

/// `start NAME`
pub fn start_row(fields: &[u8], names: &Names, event: &mut Event) -> Option<()>
    ensures some { OnSome result (SpellsRow row.Start (words fields.now) names.now event.new) }
    ensures none { IfNone result ((event : event_data) → SpellsRow row.Start (words fields.now) names.now event → ⊥) }
{
    let disk = one_number(fields, names, LaneKind::Disk)?;
    *event = Event::Start { disk };
    Some(())
}
