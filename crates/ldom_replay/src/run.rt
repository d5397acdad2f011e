// A script's run: its declarations, the image, and its other lines.
ghost use Rattle.std.specs.Prelude.{◌≡◌, ◌≢◌, ℕ, ◌*◌, ◌≤◌, ◌↔◌, List, [], ◌∷◌, true, length, map, Option, None, IfErr};
ghost use Rattle.std.specs.Prelude.{IfOk, IfSome, IsNone, IsSome, IsTrue, OnOk};
ghost use Rattle.vio_io.specs.Given.{Gave};
ghost use Rattle.ldom_world.specs.world_parts.lane_models.PortState.{fresh_port};
ghost use Rattle.domain_script.specs.Declarations.{AreDeclared};
ghost use Rattle.domain_script.specs.NamesState.{declared_by};
ghost use Rattle.script_reader.specs.declared.lines.LinesStop.TheVariants.{Ended, Going};
ghost use Rattle.script_reader.specs.LinesState.{GoesOn, KeepsEnds, ends_after, to_come};
ghost use Rattle.domain_script.specs.Spells.{IsDeclared};
ghost use Rattle.ldom_replay.specs.NamesLanes.{HasLanes};
ghost use Rattle.ldom_report.specs.Stops.{EndsTold, ReaderStandsAt, stop_lines, stop_status};
ghost use Rattle.vio_io.specs.Causes.{Fails};
ghost use Rattle.script_laws.specs.Going.{RunsAll, RunsLines, run_at};
ghost use Rattle.script_laws.specs.Attached.{AreOpening};
ghost use Rattle.script_laws.specs.Opening.{OpensOrStops, Opens, OpensAndStops};
ghost use Rattle.script_laws.specs.Replayed.{Replayed, attach_status, ended_status, start_of};
ghost use Rattle.script_laws.specs.Sized.{SizeIs};
ghost use Rattle.ldom_world.specs.Steps.{Counted};
ghost use Rattle.ldom_world.specs.world_parts.lane_models.LaneState.{fresh};
ghost use Rattle.disk_law.specs.ListState.{as_image};
ghost use Rattle.ldom_world.specs.world_parts.Declared.{bytes_needed, nets_of, shapes_of};
ghost use Rattle.domain_script.specs.ScriptEvents.{no_names};
ghost use Rattle.domain_script.specs.Limits.{most_lines};

use crate::blocks::blocks_declared;
use crate::reading::Reader;
use domain_script::{Event, Names};
use ldom_report::{Journal, Status, Stop};
use ldom_world::{KeptBlocks, Lanes, World, room_for};
use std::alloc::Global;
use vdisk_msg::BLOCK;
use vio_bytes::NoMemory;
use vio_io::{AttachFault, Host, Source, Store};

/// Reads the lines up to the first that is neither blank nor a declaration, and gives its event; else says why there
/// is none.
fn read_opening<S: Source>(reader: &mut Reader, source: &mut S) -> Result<Event, Stop>
    requires goes { GoesOn reader.old.lines (S.left source.old) }
    requires first { reader.old.lines.number ≡ 0 }
    requires names { reader.old.names ≡ no_names }
    requires empty { reader.old.journal.entries ≡ [] }

    ensures opens { IfOk result (λ event. Opens (to_come reader.old.lines (S.left source.old)) reader.new.lines
        (S.left source.new) event reader.new.names) }
    ensures declared { IfOk result (IsDeclared reader.new.names) }
    ensures goes { OnOk result (GoesOn reader.new.lines (S.left source.new)) }
    ensures ended { OnOk result (reader.new.names.ended ≡ true) }
    ensures most { reader.new.lines.number ≤ most_lines }
    ensures limits { AreDeclared (declared_by reader.new.names) }
    ensures journal { reader.new.journal ≡ reader.old.journal }

    ensures stops { IfErr result (λ stop. OpensAndStops (to_come reader.old.lines (S.left source.old))
        (S.left source.new) (stop_status stop reader.new.lines.number) reader.new.names
        (stop_lines stop reader.new.lines.number)) }
    ensures source { Fails (result ≡ Err Stop.Source) (S.faults source.old) (S.faults source.new) }
    ensures stands { IfErr result (λ stop. ReaderStandsAt stop reader.new.lines.stop) }
    ensures ends { KeepsEnds reader.old.lines.stop reader.new.lines.stop (S.ends source.old) (S.ends source.new) }
{
    let mut event = Event::Blank;
    loop {
        reader.read_event(source, &mut event)?;
        if !is_opening(&event) {
            return Ok(event);
        }
    }
}

// Whether the event is a blank line or a declaration.
fn is_opening(event: &Event) -> bool
    ensures { IsTrue result ↔ AreOpening (event.now ∷ []) }
{
    match event {
        Event::Blank | Event::Disk(_) | Event::Net(_) => true,
        _ => false,
    }
}

// Runs the lines after the first that isn't a declaration, up to the one at which no further line is taken up. Answers
// why.
fn run_lines<S: Source, D: Store>(reader: &mut Reader, source: &mut S, world: &mut World<D>) -> Stop
    requires goes { GoesOn reader.old.lines (S.left source.old) }
    requires few { reader.old.lines.number ≤ most_lines }
    requires ended { reader.old.names.ended ≡ true }
    requires lanes { HasLanes reader.old.names world.old }
    requires agrees { Counted reader.old.journal.entries world.old }

    ensures runs { RunsLines (to_come reader.old.lines (S.left source.old)) (S.left source.new)
        (run_at reader.old.names reader.old.journal.entries world.old reader.old.lines.number)
        (stop_status result reader.new.lines.number)
        (run_at reader.new.names reader.new.journal.entries world.new (stop_lines result reader.new.lines.number)) }
    ensures going { result ≡ Stop.Source → reader.old.lines.stop ≡ Going }
    ensures most { reader.new.lines.number ≤ most_lines }
    ensures source { Fails (result ≡ Stop.Source) (S.faults source.old) (S.faults source.new) }
    ensures stands { ReaderStandsAt result reader.new.lines.stop }
    ensures ends { KeepsEnds reader.old.lines.stop reader.new.lines.stop (S.ends source.old) (S.ends source.new) }
{
    let mut event = Event::Blank;
    loop {
        match reader.read_event(source, &mut event) {
            Ok(()) => {}
            Err(stop) => return stop,
        }
        match world.apply(&event, &mut reader.journal) {
            Ok(()) => {}
            Err(NoMemory) => return Stop::Memory,
        }
    }
}

/// How a script's run ended, before its report is written.
#[derive(Drop)]
pub struct Run<D: Store> {
    pub status: Status,

    /// How many lines the report counts.
    pub lines: u32,
    pub names: Names,
    pub journal: Journal,
    pub image: Option<D>,

    /// The lanes of the disks and ports, where the script was run over them.
    pub lanes: Option<Lanes>,
}

impl<D: Store> Run<D> {
    /// The run of a script of which, for want of memory, no line was read.
    pub fn without_memory(alloc: Global) -> Self
        ensures status { result.status ≡ Status.NoMemory }
        ensures lines { result.lines ≡ 0 }
        ensures names { result.names ≡ no_names }
        ensures journal { result.journal.entries ≡ [] }
        ensures image { result.image ≡ None }
        ensures lanes { result.lanes ≡ None }
    {
        Run {
            status: Status::NoMemory,
            lines: 0,
            names: Names::new(),
            journal: Journal::new(alloc),
            image: None,
            lanes: None,
        }
    }
}

/// Runs the script over the image of this name. The run has an image exactly where the host gave one.
pub fn run_script<H: Host, S: Source>(
    alloc: Global,
    name: &str,
    host: &mut H,
    source: &mut S,
) -> Run<H::Disk>
    ensures replayed { Replayed (as_image H.Disk.Store)
        (S.left source.old) (S.left source.new) (H.gives host.old name.now) result.status result.lines result.names
        result.journal.entries result.image result.lanes }
    ensures sized { SizeIs H.Disk.size result.status (bytes_needed result.names.disks)
        (H.gives host.old name.now (bytes_needed result.names.disks)) result.image }
    ensures source { Fails (result.status ≡ Status.SourceFault) (S.faults source.old) (S.faults source.new) }
    ensures ends { EndsTold result.status (S.ends source.old) (S.ends source.new) }
    ensures host { Fails (result.status ≡ Status.HostFault) (H.faults host.old) (H.faults host.new) }
    ensures image { Gave (H.given host.old) (H.given host.new) result.image }
{
    let mut reader = match Reader::new(alloc) {
        Ok(reader) => reader,
        Err(NoMemory) => return Run::without_memory(alloc),
    };
    match read_opening(&mut reader, source) {
        Ok(event) => attach(alloc, name, host, source, reader, Some(event)),
        Err(stop) => match stop {
            Stop::End => attach(alloc, name, host, source, reader, None),
            other => {
                let status = reader.status(other);
                let lines = reader.counted(other);
                reader.into_run(status, lines, None, None)
            }
        },
    }
}

// Makes the lanes and the room of the cache, attaches the image and runs the script over them, from the first event that
// isn't a declaration on. Nothing wants memory between attaching and that event: so where there is an image there are
// lanes, but for one that is too short.
fn attach<H: Host, S: Source>(
    alloc: Global,
    name: &str,
    host: &mut H,
    source: &mut S,
    reader: Reader,
    first: Option<Event>,
) -> Run<H::Disk>
    requires goes { IsSome first → GoesOn reader.lines (S.left source.old) × (reader.names.ended ≡ true) }
    requires ended { IsNone first → reader.lines.stop ≡ Ended }
    requires few { reader.lines.number ≤ most_lines }
    requires limits { AreDeclared (declared_by reader.names) }
    requires declared { IfSome first (IsDeclared reader.names) }
    requires journal { reader.journal.entries ≡ [] }
    ensures replayed { (start : Option (List ℕ))
        → OpensOrStops start reader.lines (S.left source.old) first reader.names
        → Replayed (as_image H.Disk.Store) start (S.left source.new)
        (H.gives host.old name.now) result.status result.lines result.names result.journal.entries result.image
        result.lanes }
    ensures sized { (start : Option (List ℕ))
        → OpensOrStops start reader.lines (S.left source.old) first reader.names
        → SizeIs H.Disk.size result.status (bytes_needed result.names.disks)
        (H.gives host.old name.now (bytes_needed result.names.disks)) result.image }
    ensures source { Fails (result.status ≡ Status.SourceFault) (S.faults source.old) (S.faults source.new) }
    ensures ends { (base : ℕ) → S.ends source.old ≡ ends_after reader.lines.stop base
        → EndsTold result.status base (S.ends source.new) }
    ensures host { Fails (result.status ≡ Status.HostFault) (H.faults host.old) (H.faults host.new) }
    ensures image { Gave (H.given host.old) (H.given host.new) result.image }
{
    let (lanes, blocks) = match room_for(alloc, &reader.names) {
        Ok(room) => room,
        Err(NoMemory) => {
            let lines = reader.number();
            return reader.into_run(Status::NoMemory, lines, None, None);
        }
    };
    match host.attach(alloc, name, BLOCK * blocks_declared(&reader.names)) {
        Ok(image) => run_over(alloc, image, lanes, blocks, source, reader, first),
        Err(fault) => {
            let lines = reader.number();
            reader.into_run(status_of(fault), lines, None, None)
        }
    }
}

// Runs the script over fresh lanes and an image that was attached, where it is long enough.
fn run_over<D: Store, S: Source>(
    alloc: Global,
    image: D,
    lanes: Lanes,
    blocks: KeptBlocks,
    source: &mut S,
    reader: Reader,
    first: Option<Event>,
) -> Run<D>
    requires goes { IsSome first → GoesOn reader.lines (S.left source.old) × (reader.names.ended ≡ true) }
    requires ended { IsNone first → reader.lines.stop ≡ Ended }
    requires few { reader.lines.number ≤ most_lines }
    requires limits { AreDeclared (declared_by reader.names) }
    requires declared { IfSome first (IsDeclared reader.names) }
    requires journal { reader.journal.entries ≡ [] }
    requires lanes { lanes ≡ record {
      first = map fresh (shapes_of 0 reader.names.disks);
      second = map fresh_port (nets_of reader.names.ports);
    } }
    requires few_lanes { length lanes.first ≤ 8 }
    requires none_kept { blocks.kept ≡ [] }
    ensures replayed { (start : Option (List ℕ)) (gives : ℕ → Option (List ℕ))
        → OpensOrStops start reader.lines (S.left source.old) first reader.names
        → as_image D.Store image ≡ (start_of reader.names gives).first.image
        → Replayed (as_image D.Store) start (S.left source.new) gives result.status
        result.lines result.names result.journal.entries result.image result.lanes }
    ensures sized { (start : Option (List ℕ)) (gives : ℕ → Option (List ℕ))
        → OpensOrStops start reader.lines (S.left source.old) first reader.names
        → as_image D.Store image ≡ (start_of reader.names gives).first.image
        → SizeIs D.size result.status (bytes_needed result.names.disks)
        (gives (bytes_needed result.names.disks)) result.image }
    ensures source { Fails (result.status ≡ Status.SourceFault) (S.faults source.old) (S.faults source.new) }
    ensures ends { (base : ℕ) → S.ends source.old ≡ ends_after reader.lines.stop base
        → EndsTold result.status base (S.ends source.new) }
    ensures host_fault { result.status ≢ Status.HostFault }
    ensures image { IsSome result.image }
{
    let lines = reader.number();
    let need = BLOCK * blocks_declared(&reader.names);
    let have = image.len();
    if have < need {
        return reader.into_run(Status::ImageSize { need, have }, lines, Some(image), None);
    }
    run_world(
        source,
        reader,
        World::over(alloc, lanes, blocks, image),
        first,
    )
}

// Runs the script in its world, and lets the world end.
fn run_world<S: Source, D: Store>(
    source: &mut S,
    mut reader: Reader,
    mut world: World<D>,
    first: Option<Event>,
) -> Run<D>
    requires goes { IsSome first → GoesOn reader.lines (S.left source.old) × (reader.names.ended ≡ true) }
    requires ended { IsNone first → reader.lines.stop ≡ Ended }
    requires few { reader.lines.number ≤ most_lines }
    requires lanes { HasLanes reader.names world }
    requires declared { IfSome first (IsDeclared reader.names) }
    requires journal { reader.journal.entries ≡ [] }
    requires agrees { Counted [] world }
    ensures replayed { (start : Option (List ℕ)) (gives : ℕ → Option (List ℕ))
        → OpensOrStops start reader.lines (S.left source.old) first reader.names
        → world ≡ start_of reader.names gives
        → Replayed (as_image D.Store) start (S.left source.new) gives result.status
        result.lines result.names result.journal.entries result.image result.lanes }
    ensures sized { (start : Option (List ℕ)) (gives : ℕ → Option (List ℕ))
        → OpensOrStops start reader.lines (S.left source.old) first reader.names
        → world ≡ start_of reader.names gives
        → IfSome (gives (bytes_needed reader.names.disks))
        (λ bytes. bytes_needed reader.names.disks ≤ length bytes)
        → SizeIs D.size result.status (bytes_needed result.names.disks)
        (gives (bytes_needed result.names.disks)) result.image }
    ensures source { Fails (result.status ≡ Status.SourceFault) (S.faults source.old) (S.faults source.new) }
    ensures ends { (base : ℕ) → S.ends source.old ≡ ends_after reader.lines.stop base
        → EndsTold result.status base (S.ends source.new) }
    ensures host_fault { result.status ≢ Status.HostFault }
    ensures image { IsSome result.image }
{
    let stop = run_first(first, &mut reader, source, &mut world);
    let status = ended(reader.status(stop), world.faulty());
    let lines = reader.counted(stop);
    let (image, lanes) = world.finish();
    reader.into_run(status, lines, Some(image), Some(lanes))
}

// The status of a run that came so far: at the input's end a faulty image has its own.
fn ended(why: Status, faulty: bool) -> Status
    ensures { result ≡ ended_status why faulty }
{
    match why {
        Status::Done if faulty => Status::StoreFault,
        other => other,
    }
}

// Runs the first event that isn't a declaration, and the lines after it; nothing where there is none.
fn run_first<S: Source, D: Store>(
    first: Option<Event>,
    reader: &mut Reader,
    source: &mut S,
    world: &mut World<D>,
) -> Stop
    requires goes { IsSome first → GoesOn reader.old.lines (S.left source.old) × (reader.old.names.ended ≡ true) }
    requires ended { IsNone first → reader.old.lines.stop ≡ Ended }
    requires few { reader.old.lines.number ≤ most_lines }
    requires lanes { HasLanes reader.old.names world.old }
    requires declared { IfSome first (IsDeclared reader.old.names) }
    requires journal { reader.old.journal.entries ≡ [] }
    requires agrees { Counted [] world.old }
    ensures runs { (start : Option (List ℕ))
        → OpensOrStops start reader.old.lines (S.left source.old) first reader.old.names
        → RunsAll start (S.left source.new) reader.old.names world.old (stop_status result reader.new.lines.number)
        (run_at reader.new.names reader.new.journal.entries world.new (stop_lines result reader.new.lines.number)) }
    ensures most { reader.new.lines.number ≤ most_lines }
    ensures source { Fails (result ≡ Stop.Source) (S.faults source.old) (S.faults source.new) }
    ensures stands { ReaderStandsAt result reader.new.lines.stop }
    ensures ends { KeepsEnds reader.old.lines.stop reader.new.lines.stop (S.ends source.old) (S.ends source.new) }
{
    let event = match first {
        Some(event) => event,
        None => return Stop::End,
    };
    match world.apply(&event, &mut reader.journal) {
        Ok(()) => run_lines(reader, source, world),
        Err(NoMemory) => Stop::Memory,
    }
}

fn status_of(fault: AttachFault) -> Status
    ensures { result ≡ attach_status fault }
{
    match fault {
        AttachFault::Failed => Status::HostFault,
        AttachFault::Memory => Status::NoMemory,
    }
}
