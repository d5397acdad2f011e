ghost use Rattle.std.specs.Prelude.{◌≡◌, ◌≢◌, ◌<◌, [], true, IfOk};
ghost use Rattle.vio_io.specs.Causes.{Fails};
ghost use Rattle.vio_io.specs.Ends.{SaysEnd};
ghost use Rattle.domain_script.specs.Limits.{most_lines};

use crate::piece::Piece;
use crate::reading::{MOST_BYTES, read_line};
use std::alloc::Global;
use std::marker::Model;
use thiserror::Error;
use vio_bytes::NoMemory;
use vio_io::{Failed, Source};

/// The most lines.
const MOST_LINES: u32 = 20_000;

/// Why no further line was given.
#[derive(Clone, Copy, Debug, PartialEq, Eq, Error)]
pub enum LinesFault {
    /// The source failed.
    #[error("the source failed")]
    Source,

    /// The line has more than 3,100 bytes.
    #[error("a line is too long")]
    Long,

    /// There is a line after the 20,000th.
    #[error("too many lines")]
    Many,
}

impl From<Failed> for LinesFault {
    ghost use Rattle.script_reader.specs.declared.lines.LinesFault.TheVariants.{Source as source_fault};

    ghost from_gives = { λ _ fault. fault ≡ source_fault };

    fn from(_: Failed) -> Self {
        LinesFault::Source
    }
}

/// Whether a further call can give a line.
#[derive(Clone, Copy, Debug, PartialEq, Eq)]
enum LinesStop {
    Going,
    Ended,
    TooLong,
    TooMany,
}

/// The lines of a script, one after another from a source that stays with the caller. Each read asks for at most
/// 4,096 bytes; those after a line are kept for the next. Once the source said that it is at its end, nothing more is
/// read: also where a last line without a line feed was given there. Nor is it after a line that is too long or one
/// too many.
#[derive(Drop)]
pub struct Lines {
    piece: Piece,

    /// The line that was given, or else the beginning of the next.
    line: Vec<u8>,
    given: bool,

    /// How many lines were given.
    number: u32,
    stop: LinesStop,
}

impl Model for Lines {
    ghost use Rattle.script_reader.specs.LinesState.{LinesState};

    ghost Value = { LinesState };

    ghost use Rattle.script_reader.specs.Reader.{reader_state, IsReader};

    ghost view = { reader_state };

    ghost invariant = { IsReader };
}

impl Lines {
    ghost use Rattle.std.specs.Prelude.{◌≡◌, ◌≢◌, ℕ, ◌<◌, ◌≤◌, [], true, length, IfOk};
    ghost use Rattle.vio_io.specs.Causes.{Rose};
    ghost use Rattle.script_reader.specs.LinesState.{Advances, EndsNow, GoesOn, HoldsFew, ReaderAnswers, to_come};

    /// Nothing was read. No other call takes memory: the room of a line of the most bytes is taken here.
    pub fn new(alloc: Global) -> Result<Self, NoMemory>
        ensures { IfOk result (λ lines. lines ≡ record { held = []; line = []; number = 0; stop = LinesStop.Going }) }
    {
        Ok(Lines {
            piece: Piece::new(alloc)?,
            line: Vec::with_capacity(alloc, MOST_BYTES + 1)?,
            given: false,
            number: 0,
            stop: LinesStop::Going,
        })
    }

    /// Reads the next line. False at the end, where no line is left.
    pub fn advance<S: Source>(&mut self, source: &mut S) -> Result<bool, LinesFault>
        ensures advances { Advances (to_come self.old (S.left source.old)) (to_come self.new (S.left source.new)) self.old result self.new }
        // Where the reader may be asked further, that is one reading: also behind a last line at the source's end.
        ensures reads { GoesOn self.old (S.left source.old)
            → ReaderAnswers (to_come self.old (S.left source.old)) (to_come self.new (S.left source.new)) self.old result self.new }
        ensures empty { result ≢ Ok true → self.new.line ≡ [] }

        // Once the source was at its end, and after each other stop, it isn't asked.
        ensures stays { self.old.stop ≢ LinesStop.Going → source.new ≡ source.old }
        ensures faults { Fails (result ≡ Err LinesFault.Source) (S.faults source.old) (S.faults source.new) }
        // A source says that it is at its end at most once, in the call in which the reader ends.
        ensures ends { SaysEnd (EndsNow self.old.stop self.new.stop) (S.ends source.old) (S.ends source.new) }
    {
        match self.stop {
            LinesStop::Going => self.go_on(source),
            LinesStop::Ended => {
                self.forget_line();
                Ok(false)
            }
            LinesStop::TooLong => Err(LinesFault::Long),
            LinesStop::TooMany => Err(LinesFault::Many),
        }
    }

    /// The line that the last call gave, without its line feed. Empty where that call gave none.
    pub fn line(&self) -> &[u8]
        ensures { result.now ≡ self.now.line }
    {
        if self.given { &self.line } else { &[] }
    }

    /// How many lines were given. By this call too, how much is held at any time is known.
    pub fn number(&self) -> u32
        ensures number { result ≡ self.now.number }
        ensures held { HoldsFew self.now }
    {
        self.number
    }

    /// Reads the next line of a script that goes on.
    fn go_on<S: Source>(&mut self, source: &mut S) -> Result<bool, LinesFault>
        requires { self.old.stop ≡ LinesStop.Going }
        ensures reads { ReaderAnswers (to_come self.old (S.left source.old)) (to_come self.new (S.left source.new)) self.old result self.new }
        ensures faults { Fails (result ≡ Err LinesFault.Source) (S.faults source.old) (S.faults source.new) }
        ensures ends { SaysEnd (self.new.stop ≡ LinesStop.Ended) (S.ends source.old) (S.ends source.new) }
    {
        self.forget_line();
        if self.number < MOST_LINES {
            self.read_next(source)
        } else {
            self.read_behind_last(source)
        }
    }

    /// The line that was given is no longer needed.
    fn forget_line(&mut self)
        ensures { self.new ≡ record self.old { line = [] } }
    {
        if self.given {
            self.line.clear();
            self.given = false;
        }
    }

    /// Reads a line of which there may still be one.
    fn read_next<S: Source>(&mut self, source: &mut S) -> Result<bool, LinesFault>
        requires going { self.old.stop ≡ LinesStop.Going }
        requires forgotten { self.old.line ≡ [] }
        requires few { self.old.number < most_lines }
        ensures reads { ReaderAnswers (to_come self.old (S.left source.old)) (to_come self.new (S.left source.new)) self.old result self.new }
        ensures faults { Fails (result ≡ Err LinesFault.Source) (S.faults source.old) (S.faults source.new) }
        ensures ends { SaysEnd (self.new.stop ≡ LinesStop.Ended) (S.ends source.old) (S.ends source.new) }
    {
        self.given = false;
        match read_line(&mut self.piece, &mut self.line, source) {
            Ok(true) => {
                self.given = true;
                self.number += 1;
                Ok(true)
            }
            Ok(false) => {
                self.stop = LinesStop::Ended;
                if self.line.is_empty() {
                    return Ok(false);
                }
                self.given = true;
                self.number += 1;
                Ok(true)
            }
            Err(LinesFault::Long) => {
                self.stop = LinesStop::TooLong;
                Err(LinesFault::Long)
            }
            Err(fault) => Err(fault),
        }
    }

    /// Looks whether there is a byte after the last line that there may be.
    fn read_behind_last<S: Source>(&mut self, source: &mut S) -> Result<bool, LinesFault>
        requires going { self.old.stop ≡ LinesStop.Going }
        requires forgotten { self.old.line ≡ [] }
        requires all { self.old.number ≡ most_lines }
        ensures reads { ReaderAnswers (to_come self.old (S.left source.old)) (to_come self.new (S.left source.new)) self.old result self.new }
        ensures faults { Fails (result ≡ Err LinesFault.Source) (S.faults source.old) (S.faults source.new) }
        ensures ends { SaysEnd (self.new.stop ≡ LinesStop.Ended) (S.ends source.old) (S.ends source.new) }
    {
        self.given = false;
        if self.piece.fill(source)? {
            self.stop = LinesStop::TooMany;
            Err(LinesFault::Many)
        } else {
            self.stop = LinesStop::Ended;
            Ok(false)
        }
    }
}
