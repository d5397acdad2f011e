ghost use Rattle.std.specs.Prelude.{IfNone, OnSome};
ghost use Rattle.domain_script.specs.declared.event.Event.{Event as event_data};
ghost use Rattle.domain_script.specs.declared.rows.RowKind.TheVariants as row;
ghost use Rattle.domain_script.specs.Spells.{SpellsRow};
ghost use Rattle.script_words.specs.Words.{words};

use crate::addresses::new_address;
use crate::declaring::new_name;
use crate::fields::{LaneKind, PORT_RING, QUEUE};
use crate::lane_words::declared_number;
use crate::{Event, Names, PortDecl};
use script_words::addresses::group;
use script_words::numbers::number_within;
use script_words::spellings::{NO_PIECE, put_piece};
use script_words::words::{four_words, two_words};

/// `net NAME ADDRESS RING QUEUE`, where the port may be declared.
pub fn net_row(fields: &[u8], names: &Names, event: &mut Event) -> Option<()>
    ensures some { OnSome result (SpellsRow row.Net (words fields.now) names.now event.new) }
    ensures none { IfNone result ((event : event_data) → SpellsRow row.Net (words fields.now) names.now event → ⊥) }
{
    let (word, address, ring, queue) = four_words(fields)?;
    let port = PortDecl {
        name: new_name(word, names, LaneKind::Port)?,
        address: new_address(address, names)?,
        ring: number_within(ring, PORT_RING)? as u32,
        queue: number_within(queue, QUEUE)? as u32,
    };
    *event = Event::Net(port);
    Some(())
}

/// `send NAME HEX`
pub fn send_row(fields: &[u8], names: &Names, event: &mut Event) -> Option<()>
    ensures some { OnSome result (SpellsRow row.Send (words fields.now) names.now event.new) }
    ensures none { IfNone result ((event : event_data) → SpellsRow row.Send (words fields.now) names.now event → ⊥) }
{
    let (word, digits) = two_words(fields)?;
    *event = Event::Send {
        port: declared_number(word, names, LaneKind::Port)?,
        frame: NO_PIECE,
    };
    match event {
        Event::Send { frame, .. } => put_piece(digits, frame),
        _ => unreachable!(),
    }
}

/// `join NAME ADDRESS`, the address being a group's.
pub fn join_row(fields: &[u8], names: &Names, event: &mut Event) -> Option<()>
    ensures some { OnSome result (SpellsRow row.Join (words fields.now) names.now event.new) }
    ensures none { IfNone result ((event : event_data) → SpellsRow row.Join (words fields.now) names.now event → ⊥) }
{
    let (word, digits) = two_words(fields)?;
    let port = declared_number(word, names, LaneKind::Port)?;
    let address = group(digits)?;
    *event = Event::Join { port, address };
    Some(())
}
