ghost use Rattle.std.specs.Prelude.{IfNone, OnSome};
ghost use Rattle.domain_script.specs.declared.event.Event.{Event as event_data};
ghost use Rattle.domain_script.specs.declared.rows.RowKind.TheVariants as row;
ghost use Rattle.domain_script.specs.Spells.{SpellsRow};
ghost use Rattle.script_words.specs.Words.{words};

use crate::fields::{EndKind, TURNS};
use crate::lane_words::{declared_end, one_end, one_lane};
use crate::{EndName, Event, Names};
use script_words::numbers::number_within;
use script_words::words::{one_word, two_words};

/// `step END K`
pub fn step_row(fields: &[u8], names: &Names, event: &mut Event) -> Option<()>
    ensures some { OnSome result (SpellsRow row.Step (words fields.now) names.now event.new) }
    ensures none { IfNone result ((event : event_data) → SpellsRow row.Step (words fields.now) names.now event → ⊥) }
{
    let (word, count) = two_words(fields)?;
    let end = declared_end(word, names, EndKind::Any)?;
    let count = number_within(count, TURNS)? as u32;
    *event = Event::Step { end, count };
    Some(())
}

/// `round K`
pub fn round_row(fields: &[u8], names: &Names, event: &mut Event) -> Option<()>
    ensures some { OnSome result (SpellsRow row.Round (words fields.now) names.now event.new) }
    ensures none { IfNone result ((event : event_data) → SpellsRow row.Round (words fields.now) names.now event → ⊥) }
{
    let count = number_within(one_word(fields)?, TURNS)? as u32;
    *event = Event::Round { count };
    Some(())
}

/// `reset END`
pub fn reset_row(fields: &[u8], names: &Names, event: &mut Event) -> Option<()>
    ensures some { OnSome result (SpellsRow row.Reset (words fields.now) names.now event.new) }
    ensures none { IfNone result ((event : event_data) → SpellsRow row.Reset (words fields.now) names.now event → ⊥) }
{
    let EndName { lane, side } = one_end(fields, names, EndKind::Any)?;
    let end = EndName { lane, side };
    *event = Event::Reset { end };
    Some(())
}

/// `restart END`, the end being a disk's server.
pub fn restart_row(fields: &[u8], names: &Names, event: &mut Event) -> Option<()>
    ensures some { OnSome result (SpellsRow row.Restart (words fields.now) names.now event.new) }
    ensures none { IfNone result ((event : event_data) → SpellsRow row.Restart (words fields.now) names.now event → ⊥) }
{
    let EndName { lane, side } = one_end(fields, names, EndKind::DiskServer)?;
    let end = EndName { lane, side };
    *event = Event::Restart { end };
    Some(())
}

/// `drop END`
pub fn lose_row(fields: &[u8], names: &Names, event: &mut Event) -> Option<()>
    ensures some { OnSome result (SpellsRow row.Lose (words fields.now) names.now event.new) }
    ensures none { IfNone result ((event : event_data) → SpellsRow row.Lose (words fields.now) names.now event → ⊥) }
{
    let EndName { lane, side } = one_end(fields, names, EndKind::Any)?;
    let end = EndName { lane, side };
    *event = Event::Lose { end };
    Some(())
}

/// `tick NAME`
pub fn tick_row(fields: &[u8], names: &Names, event: &mut Event) -> Option<()>
    ensures some { OnSome result (SpellsRow row.Tick (words fields.now) names.now event.new) }
    ensures none { IfNone result ((event : event_data) → SpellsRow row.Tick (words fields.now) names.now event → ⊥) }
{
    let lane = one_lane(fields, names)?;
    *event = Event::Tick { lane };
    Some(())
}
