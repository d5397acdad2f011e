ghost use Rattle.std.specs.Prelude.{◌≡◌, ◌≤◌, [], ◌∷◌, length, IfNone, OnSome};
ghost use Rattle.domain_script.specs.declared.event.Event.{Event as event_data};
ghost use Rattle.domain_script.specs.Rows.{row_named, row_of};
ghost use Rattle.domain_script.specs.Spells.{SpellsWords};
ghost use Rattle.script_words.specs.Words.{words};

use crate::disk_rows::{disk_row, flush_row, read_row, start_row, stop_row, write_row};
use crate::end_rows::{lose_row, reset_row, restart_row, round_row, step_row, tick_row};
use crate::fields::{BLOCKS, DISK_RING, EndKind, Field, LaneKind, PORT_RING, QUEUE, TURNS};
use crate::forging_rows::{inject_row, poke_row};
use crate::port_rows::{join_row, net_row, send_row};
use crate::{Event, Names};
use script_words::numbers::Bounds;

/// The rows of a script.
#[derive(Clone, Copy, PartialEq, Eq)]
pub enum RowKind {
    /// `disk NAME BLOCKS RING QUEUE`
    Disk,

    /// `net NAME ADDRESS RING QUEUE`
    Net,

    /// `write NAME BLOCK COUNT HEX`
    Write,

    /// `read NAME BLOCK COUNT`
    Read,

    /// `flush NAME`
    Flush,

    /// `send NAME HEX`
    Send,

    /// `join NAME ADDRESS`
    Join,

    /// `step END K`
    Step,

    /// `round K`
    Round,

    /// `settle`
    Settle,

    /// `reset END`
    Reset,

    /// `restart END`
    Restart,

    /// `stop NAME`
    Stop,

    /// `start NAME`
    Start,

    /// `drop END`
    Lose,

    /// `tick NAME`
    Tick,

    /// `inject END HEX`
    Inject,

    /// `poke END AT HEX`
    Poke,
}

/// All of them, in the order in which a word is looked for: those of which scripts have many come first.
const ROWS: [RowKind; 18] = [
    RowKind::Write,
    RowKind::Read,
    RowKind::Settle,
    RowKind::Send,
    RowKind::Flush,
    RowKind::Step,
    RowKind::Round,
    RowKind::Tick,
    RowKind::Poke,
    RowKind::Inject,
    RowKind::Reset,
    RowKind::Lose,
    RowKind::Restart,
    RowKind::Stop,
    RowKind::Start,
    RowKind::Join,
    RowKind::Disk,
    RowKind::Net,
];

/// The name of a declared disk.
const DISK: Field = Field::Named(LaneKind::Disk);

/// The name of a declared port.
const PORT: Field = Field::Named(LaneKind::Port);

/// A number that the script doesn't bound.
const ANY: Field = Field::Number(Bounds::Any);

impl RowKind {
    /// The word that a row begins with.
    pub fn word(self) -> &'static [u8]
        ensures word { result.now ≡ (row_of self).word }
        ensures short { length result.now ≤ 7 }
    {
        match self {
            RowKind::Disk => b"disk",
            RowKind::Net => b"net",
            RowKind::Write => b"write",
            RowKind::Read => b"read",
            RowKind::Flush => b"flush",
            RowKind::Send => b"send",
            RowKind::Join => b"join",
            RowKind::Step => b"step",
            RowKind::Round => b"round",
            RowKind::Settle => b"settle",
            RowKind::Reset => b"reset",
            RowKind::Restart => b"restart",
            RowKind::Stop => b"stop",
            RowKind::Start => b"start",
            RowKind::Lose => b"drop",
            RowKind::Tick => b"tick",
            RowKind::Inject => b"inject",
            RowKind::Poke => b"poke",
        }
    }

    /// What the words after it have to be.
    pub fn fields(self) -> &'static [Field]
        ensures { result.now ≡ (row_of self).fields }
    {
        match self {
            RowKind::Disk => &[
                Field::NewName(LaneKind::Disk),
                Field::Number(BLOCKS),
                Field::Number(DISK_RING),
                Field::Number(QUEUE),
            ],
            RowKind::Net => &[
                Field::NewName(LaneKind::Port),
                Field::NewAddress,
                Field::Number(PORT_RING),
                Field::Number(QUEUE),
            ],
            RowKind::Write => &[DISK, ANY, ANY, Field::Bytes],
            RowKind::Read => &[DISK, ANY, ANY],
            RowKind::Flush | RowKind::Stop | RowKind::Start => &[DISK],
            RowKind::Send => &[PORT, Field::Frame],
            RowKind::Join => &[PORT, Field::Group],
            RowKind::Step => &[Field::End(EndKind::Any), Field::Number(TURNS)],
            RowKind::Round => &[Field::Number(TURNS)],
            RowKind::Settle => &[],
            RowKind::Reset | RowKind::Lose => &[Field::End(EndKind::Any)],
            RowKind::Restart => &[Field::End(EndKind::DiskServer)],
            RowKind::Tick => &[Field::LaneName],
            RowKind::Inject => &[Field::End(EndKind::Any), Field::Packet],
            RowKind::Poke => &[Field::End(EndKind::WithMemory), ANY, Field::Bytes],
        }
    }
}

/// The row that a word begins.
pub fn row_named(word: &[u8]) -> Option<RowKind>
    ensures { result ≡ row_named word.now }
{
    for row in ROWS {
        if word == row.word() {
            return Some(row);
        }
    }
    None
}

/// Writes the event of a row that has words after its first. None where they spell none; what the event then is, is
/// not specified.
pub fn row_with_fields(word: &[u8], fields: &[u8], names: &Names, event: &mut Event) -> Option<()>
    ensures some { OnSome result (SpellsWords (word.now ∷ words fields.now) names.now event.new) }
    ensures none { IfNone result ((event : event_data) → SpellsWords (word.now ∷ words fields.now) names.now event → ⊥) }
{
    match row_named(word)? {
        RowKind::Disk => disk_row(fields, names, event),
        RowKind::Net => net_row(fields, names, event),
        RowKind::Write => write_row(fields, names, event),
        RowKind::Read => read_row(fields, names, event),
        RowKind::Flush => flush_row(fields, names, event),
        RowKind::Send => send_row(fields, names, event),
        RowKind::Join => join_row(fields, names, event),
        RowKind::Step => step_row(fields, names, event),
        RowKind::Round => round_row(fields, names, event),
        RowKind::Settle => None,
        RowKind::Reset => reset_row(fields, names, event),
        RowKind::Restart => restart_row(fields, names, event),
        RowKind::Stop => stop_row(fields, names, event),
        RowKind::Start => start_row(fields, names, event),
        RowKind::Lose => lose_row(fields, names, event),
        RowKind::Tick => tick_row(fields, names, event),
        RowKind::Inject => inject_row(fields, names, event),
        RowKind::Poke => poke_row(fields, names, event),
    }
}

/// The same of a row that is one word.
pub fn row_alone(word: &[u8], names: &Names, event: &mut Event) -> Option<()>
    ensures some { OnSome result (SpellsWords (word.now ∷ []) names.now event.new) }
    ensures none { IfNone result ((event : event_data) → SpellsWords (word.now ∷ []) names.now event → ⊥) }
{
    match row_named(word)? {
        RowKind::Settle => {
            *event = Event::Settle;
            Some(())
        }
        _ => None,
    }
}
