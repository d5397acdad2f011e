ghost use Rattle.std.specs.Prelude.{IfNone, OnSome};
ghost use Rattle.domain_script.specs.declared.event.Event.{Event as event_data};
ghost use Rattle.domain_script.specs.declared.rows.RowKind.TheVariants as row;
ghost use Rattle.domain_script.specs.Spells.{SpellsRow};
ghost use Rattle.script_words.specs.Words.{words};

use crate::fields::EndKind;
use crate::lane_words::declared_end;
use crate::{EndName, Event, Names};
use script_words::numbers::number;
use script_words::spellings::{NO_FILL, NO_PACKET, put_fill, put_packet};
use script_words::words::{three_words, two_words};

/// `inject END HEX`
pub fn inject_row(fields: &[u8], names: &Names, event: &mut Event) -> Option<()>
    ensures some { OnSome result (SpellsRow row.Inject (words fields.now) names.now event.new) }
    ensures none { IfNone result ((event : event_data) → SpellsRow row.Inject (words fields.now) names.now event → ⊥) }
{
    let (word, digits) = two_words(fields)?;
    let EndName { lane, side } = declared_end(word, names, EndKind::Any)?;
    *event = Event::Inject {
        end: EndName { lane, side },
        packet: NO_PACKET,
    };
    match event {
        Event::Inject { packet, .. } => put_packet(digits, packet),
        _ => unreachable!(),
    }
}

/// `poke END AT HEX`, the end being one with memory of its own.
pub fn poke_row(fields: &[u8], names: &Names, event: &mut Event) -> Option<()>
    ensures some { OnSome result (SpellsRow row.Poke (words fields.now) names.now event.new) }
    ensures none { IfNone result ((event : event_data) → SpellsRow row.Poke (words fields.now) names.now event → ⊥) }
{
    let (word, place, digits) = three_words(fields)?;
    *event = Event::Poke {
        end: declared_end(word, names, EndKind::WithMemory)?,
        at: number(place)?,
        bytes: NO_FILL,
    };
    match event {
        Event::Poke { bytes, .. } => put_fill(digits, bytes),
        _ => unreachable!(),
    }
}
