// What a run has read of its script.
ghost use Rattle.std.specs.Prelude.{◌≡◌, ◌≢◌, ◌+◌, ◌<◌, ◌≤◌, [], length, IfErr, IfOk, OnOk};
ghost use Rattle.script_reader.specs.declared.lines.LinesStop.TheVariants.{Going};
ghost use Rattle.script_reader.specs.LinesState.{GoesOn, KeepsEnds, to_come};
ghost use Rattle.domain_script.specs.ScriptEvents.{no_names};
ghost use Rattle.domain_script.specs.Spells.{IsDeclared};
ghost use Rattle.ldom_report.specs.LinesEnd.{counted_lines, most_entries};
ghost use Rattle.ldom_report.specs.Stops.{ReaderStandsAt, stop_lines, stop_status};
ghost use Rattle.vio_io.specs.Causes.{Fails};
ghost use Rattle.script_laws.specs.Reading.{HoldsLess, ReadsEvent, StopsAt};
ghost use Rattle.domain_script.specs.Limits.{most_lines};

use crate::run::Run;
use domain_script::{Event, Names, parse_into};
use ldom_report::{Journal, MOST_ENTRIES, Status, Stop, next_line};
use ldom_world::Lanes;
use script_reader::Lines;
use std::alloc::Global;
use vio_bytes::NoMemory;
use vio_io::{Source, Store};

/// The lines of a script, the names that it declared so far, and the journal of what its lines did.
#[derive(Drop)]
pub struct Reader {
    pub lines: Lines,
    pub names: Names,
    pub journal: Journal,
}

impl Reader {
    /// Nothing was read.
    pub fn new(alloc: Global) -> Result<Self, NoMemory>
        ensures lines { IfOk result (λ reader. reader.lines ≡ record
            { held = []; line = []; number = 0; stop = Going }) }
        ensures names { IfOk result (λ reader. reader.names ≡ no_names) }
        ensures journal { IfOk result (λ reader. reader.journal ≡ record { entries = []; room = 0 }) }
    {
        Ok(Reader {
            lines: Lines::new(alloc)?,
            names: Names::new(),
            journal: Journal::new(alloc),
        })
    }

    /// Reads the event of the next line, which is noted in the names; else says why no line was taken up. A line that
    /// begins with too many entries is read, and nothing is made of it.
    #[tactic(auto, using(crate::proofs::ReaderStops::reader_stops))]
    pub fn read_event<S: Source>(&mut self, source: &mut S, event: &mut Event) -> Result<(), Stop>
        requires goes { GoesOn self.old.lines (S.left source.old) }
        requires few { self.old.lines.number ≤ most_lines }

        ensures event { OnOk result (ReadsEvent self.new.lines.stop (to_come self.old.lines (S.left source.old))
            (to_come self.new.lines (S.left source.new)) self.old.names event.new self.new.names) }
        ensures declared { OnOk result (IsDeclared self.new.names event.new) }
        ensures next { OnOk result ((self.new.lines.number ≡ self.old.lines.number + 1)
            × (self.new.lines.number ≤ most_lines) × GoesOn self.new.lines (S.left source.new)) }
        ensures held { OnOk result (HoldsLess self.new.lines.held) }
        ensures most { self.new.lines.number ≤ most_lines }
        ensures below { OnOk result (length self.old.journal.entries < most_entries) }
        ensures journal { self.new.journal ≡ self.old.journal }

        // Reading takes no memory.
        ensures memory { IfErr result (λ stop. stop ≢ Stop.Memory) }

        // Behind a last line without a line feed the source isn't asked.
        ensures going { result ≢ Err Stop.End → self.old.lines.stop ≡ Going }
        ensures stands { IfErr result (λ stop. ReaderStandsAt stop self.new.lines.stop) }
        ensures ends { KeepsEnds self.old.lines.stop self.new.lines.stop (S.ends source.old) (S.ends source.new) }
        ensures stop { IfErr result (λ stop. StopsAt (stop_status stop self.new.lines.number)
            (to_come self.old.lines (S.left source.old)) self.new.lines.held (S.left source.new) self.old.names
            self.old.lines.number (length self.old.journal.entries)) }
        ensures lines { IfErr result (λ stop. (stop_lines stop self.new.lines.number ≡ counted_lines
            (stop_status stop self.new.lines.number) self.old.lines.number) × (self.new.names ≡ self.old.names)) }
        ensures source { Fails (result ≡ Err Stop.Source) (S.faults source.old) (S.faults source.new) }
    {
        if let Err(stop) = next_line(&mut self.lines, source) {
            // How much is held is known by this call.
            let _number = self.lines.number();
            return Err(stop);
        }
        if self.journal.len() >= MOST_ENTRIES {
            return Err(Stop::Entries);
        }
        match parse_into(self.lines.line(), &self.names, event) {
            Ok(()) => {
                self.names.note(event);
                Ok(())
            }
            Err(fault) => Err(Stop::Faulty(fault)),
        }
    }

    /// How a run ends whose lines stop so.
    pub fn status(&self, stop: Stop) -> Status
        requires { self.now.lines.number ≤ most_lines }
        ensures { result ≡ stop_status stop self.now.lines.number }
    {
        stop.status(self.lines.number())
    }

    /// How many lines the report counts of a run whose lines stop so.
    pub fn counted(&self, stop: Stop) -> u32
        ensures { result ≡ stop_lines stop self.now.lines.number }
    {
        stop.counted(self.lines.number())
    }

    /// How many lines were read.
    pub fn number(&self) -> u32
        ensures { result ≡ self.now.lines.number }
    {
        self.lines.number()
    }

    /// The run of what was read, with this status, this image and these lanes, and so many lines for its report.
    pub fn into_run<D: Store>(
        self,
        status: Status,
        lines: u32,
        image: Option<D>,
        lanes: Option<Lanes>,
    ) -> Run<D>
        ensures status { result.status ≡ status }
        ensures lines { result.lines ≡ lines }
        ensures names { result.names ≡ self.names }
        ensures journal { result.journal ≡ self.journal }
        ensures image { result.image ≡ image }
        ensures lanes { result.lanes ≡ lanes }
    {
        Run {
            status,
            lines,
            names: self.names,
            journal: self.journal,
            image,
            lanes,
        }
    }
}
