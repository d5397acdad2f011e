// How what a settle over disks and ports made so far follows from what it had made a pass before, and what it comes to.

ghost use Rattle.std.specs.Prelude.{◌≡◌, ℕ, true, false, Bool, ◌&&◌, ◌||◌, [], ◌∷◌, ◌++◌, ◌≤◌, ◌<◌, ◌+◌, List, length};
ghost use Rattle.std.specs.Prelude.{Some, slice_get, slice_set};
ghost use Rattle.lane_models.specs.DiskEvent.{DiskEvent};
ghost use Rattle.lane_models.specs.LaneState.{LaneState};
ghost use Rattle.lane_kinds.specs.LanesMade.{first_marks, Marks};
ghost use Rattle.ldc_queue.specs.declared.end.End.TheVariants.{A, B};
ghost use Rattle.lane_models.specs.PortState.{PortState};
ghost use Rattle.switch_laws.specs.Events.{SwitchEvent};
ghost use Rattle.world_laws.specs.Settle.{OfLane, OfPort, SettleEntry, Settled};
ghost use Rattle.world_laws.specs.Ticks.{gets_tick};
ghost use Rattle.domain_laws.specs.Domain.{DomainState, DomainStep, lanes, lanes_in};
ghost use Rattle.domain_laws.specs.Going.{fresh_marks, GoneOn, most_rounds, no_marks};
ghost use Rattle.domain_laws.specs.Lines.{AnswersCall, AnswersPortCall, LineBegins, LineMoves, Settles, Ticks};
ghost use Rattle.domain_laws.specs.NamesMade.{AllNamed, disk_name, DisksNamed, NamesBegun, port_name, PortsNamed};
ghost use Rattle.domain_laws.specs.RoundMade.{all_quiet, DiskMade, DisksBegun, DisksUpTo, PortMade, PortsBegun};
ghost use Rattle.domain_laws.specs.RoundMade.{PortsUpTo, RoundBegun, RoundMade};
ghost use Rattle.domain_laws.specs.TicksMade.{DiskTicked, DiskTicksBegun, DiskTicksUpTo, port_gets_tick, PortTicked};
ghost use Rattle.domain_laws.specs.TicksMade.{PortTicksBegun, PortTicksUpTo, TicksBegun, TicksMade};

/// A round begins with no disk and goes on by the next disk: a step of its client and one of its server. Behind all
/// disks it goes on with no port, and by the next port: a step of its guest and one of its end at the switch. After the
/// last port it is a round over both. The marks of both kinds then say whether all lanes were quiet in it.
pub fn a_round_is_made_lane_by_lane()
    ensures disks_begin { (w : DomainState) (quiet : List Bool) → DisksUpTo 0 w [] quiet w }
    ensures disk_goes_on { (k : ℕ) (start w m v : DomainState) (entries one two : List SettleEntry)
        (quiet marks : List Bool) (calm still : Bool) → DisksUpTo k start entries quiet w → DiskMade k A w one calm m
        → DiskMade k B m two still v → k < length quiet → marks ≡ slice_set quiet k (calm && still)
        → DisksUpTo (k + 1) start (entries ++ (one ++ two)) marks v }
    ensures ports_begin { (w : DomainState) (quiet : List Bool) → PortsUpTo 0 w [] quiet w }
    ensures port_goes_on { (k : ℕ) (start w m v : DomainState) (entries one two : List SettleEntry)
        (quiet marks : List Bool) (calm still : Bool) → PortsUpTo k start entries quiet w → PortMade k A w one calm m
        → PortMade k B m two still v → k < length quiet → marks ≡ slice_set quiet k (calm && still)
        → PortsUpTo (k + 1) start (entries ++ (one ++ two)) marks v }
    ensures whole { (start m v : DomainState) (entries later : List SettleEntry) (quiet : Marks)
        → DisksUpTo (length start.first.lanes) start entries quiet.first m
        → PortsUpTo (length m.second) m later quiet.second v → RoundMade start (entries ++ later) quiet v }
    ensures made { (start now : DomainState) (entries : List SettleEntry) (quiet : Marks)
        (up : RoundMade start entries quiet now) → lanes.Makes (lanes_in start) up.part_of.steps (lanes_in now) }
    ensures quiet { (start now : DomainState) (entries : List SettleEntry) (quiet : Marks)
        (up : RoundMade start entries quiet now) (all : Bool) → all_quiet start quiet ≡ all
        → lanes.quiet up.part_of.steps ≡ all }
{}

/// The ticks begin with no disk, go on by the next disk, which gets its tick or gets none, and are told by their marks.
/// Behind those of all disks come those of the ports. An event that a call for a tick gives a lane that gets one is the
/// tick.
pub fn ticks_are_made_lane_by_lane()
    ensures disks_begin { (w : DomainState) (had : List Bool) → DiskTicksUpTo 0 w had [] false had w }
    ensures disk_gets { (k : ℕ) (had : Bool) (w : DomainState) (event : DiskEvent) (v : DomainState) (lane : LaneState)
        → slice_get w.first.lanes k ≡ Some lane → gets_tick lane had ≡ true → AnswersCall Ticks event
        → DomainStep w (OfLane k event) v → DiskTicked k had true w (OfLane k event ∷ []) v }
    ensures disk_gets_none { (k : ℕ) (had : Bool) (w : DomainState) (lane : LaneState)
        → slice_get w.first.lanes k ≡ Some lane → gets_tick lane had ≡ false → DiskTicked k had false w [] w }
    ensures disk_goes_on { (k : ℕ) (start w v : DomainState) (entries one : List SettleEntry) (had have : List Bool)
        (some mark get : Bool) → DiskTicksUpTo k start had entries some have w → slice_get have k ≡ Some mark
        → DiskTicked k mark get w one v → k < length have
        → DiskTicksUpTo (k + 1) start had (entries ++ one) (some || get) (slice_set have k (mark || get)) v }
    ensures ports_begin { (w : DomainState) (had : List Bool) → PortTicksUpTo 0 w had [] false had w }
    ensures port_gets { (k : ℕ) (had : Bool) (w : DomainState) (event : SwitchEvent) (v : DomainState)
        (lane : PortState) → slice_get w.second k ≡ Some lane → port_gets_tick lane had ≡ true
        → AnswersPortCall Ticks event → DomainStep w (OfPort k event) v
        → PortTicked k had true w (OfPort k event ∷ []) v }
    ensures port_gets_none { (k : ℕ) (had : Bool) (w : DomainState) (lane : PortState)
        → slice_get w.second k ≡ Some lane → port_gets_tick lane had ≡ false → PortTicked k had false w [] w }
    ensures port_goes_on { (k : ℕ) (start w v : DomainState) (entries one : List SettleEntry) (had have : List Bool)
        (some mark get : Bool) → PortTicksUpTo k start had entries some have w → slice_get have k ≡ Some mark
        → PortTicked k mark get w one v → k < length have
        → PortTicksUpTo (k + 1) start had (entries ++ one) (some || get) (slice_set have k (mark || get)) v }
    ensures whole { (start m v : DomainState) (entries later : List SettleEntry) (had have : Marks) (some any : Bool)
        → DiskTicksUpTo (length start.first.lanes) start had.first entries some have.first m
        → PortTicksUpTo (length m.second) m had.second later any have.second v
        → TicksMade start had (entries ++ later) (some || any) have v }
{}

/// Where the rounds ran out the names begin with no disk and go on by the next disk's, which is named or isn't. Behind
/// those of all disks come those of the ports.
pub fn names_are_given_lane_by_lane()
    ensures disks_begin { (w : DomainState) (quiet : List Bool) → DisksNamed 0 w quiet [] }
    ensures disk_goes_on { (k : ℕ) (w : DomainState) (quiet : List Bool) (entries one : List SettleEntry) (calm : Bool)
        (lane : LaneState) → DisksNamed k w quiet entries → slice_get w.first.lanes k ≡ Some lane
        → slice_get quiet k ≡ Some calm → one ≡ disk_name k calm lane
        → DisksNamed (k + 1) w quiet (entries ++ one) }
    ensures ports_begin { (w : DomainState) (quiet : List Bool) → PortsNamed 0 w quiet [] }
    ensures port_goes_on { (k : ℕ) (w : DomainState) (quiet : List Bool) (entries one : List SettleEntry) (calm : Bool)
        (lane : PortState) → PortsNamed k w quiet entries → slice_get w.second k ≡ Some lane
        → slice_get quiet k ≡ Some calm → one ≡ port_name k calm lane → PortsNamed (k + 1) w quiet (entries ++ one) }
    ensures whole { (w : DomainState) (quiet : Marks) (entries later : List SettleEntry)
        → DisksNamed (length w.first.lanes) w quiet.first entries → PortsNamed (length w.second) w quiet.second later
        → AllNamed w quiet (entries ++ later) }
{}

/// A settle begins with no round. It goes on by one in which not all disks and ports were quiet, or by one in which they
/// were and after which some got a tick. It ends settled by one after which none got a tick, where fewer than the most
/// were made; and where the most were made it ends with the names.
pub fn a_settle_is_made_round_by_round()
    ensures begins { (start : DomainState) (had quiet : Marks) → first_marks (lanes_in start) had ≡ no_marks start
        → GoneOn start 0 [] had quiet start }
    ensures fresh { (most : ℕ) (w : DomainState) → length w.first.lanes ≤ most → length w.second ≤ most
        → first_marks (lanes_in w) (fresh_marks most) ≡ no_marks w }
    ensures loud { (start w v : DomainState) (count : ℕ) (entries part : List SettleEntry) (had quiet marks : Marks)
        → GoneOn start count entries had quiet w → RoundMade w part marks v → all_quiet w marks ≡ false
        → GoneOn start (count + 1) (entries ++ part) had marks v }
    ensures ticked { (start w m v : DomainState) (count : ℕ) (entries part later : List SettleEntry)
        (had have quiet marks : Marks) (some : Bool) → GoneOn start count entries had quiet w
        → RoundMade w part marks m → all_quiet w marks ≡ true → TicksMade m had later some have v → some ≡ true
        → GoneOn start (count + 1) (entries ++ (part ++ later)) have marks v }
    ensures settled { (start w m v : DomainState) (count : ℕ) (entries part later : List SettleEntry)
        (had have quiet marks : Marks) (some : Bool) → GoneOn start count entries had quiet w
        → count < most_rounds start → RoundMade w part marks m → all_quiet w marks ≡ true
        → TicksMade m had later some have v → some ≡ false
        → LineMoves start Settles (entries ++ (part ++ (later ++ Settled ∷ []))) v }
    ensures out { (start w : DomainState) (count : ℕ) (entries part : List SettleEntry) (had quiet : Marks)
        → GoneOn start count entries had quiet w → count ≡ most_rounds start → AllNamed w quiet part
        → LineMoves start Settles (entries ++ part) w }
{}

/// Where memory is wanted, what was made is a front of the settle's part. It may be wanted before a step of a disk or a
/// port, among the ticks of the one or the other, for the answer or among the names. Between the disks and the ports it
/// is wanted before the first port's step, tick or name.
pub fn want_of_memory_leaves_a_front_of_a_settle()
    ensures client { (k : ℕ) (start now : DomainState) (entries : List SettleEntry) (quiet : List Bool)
        → DisksUpTo k start entries quiet now → DisksBegun start entries now }
    ensures server { (k : ℕ) (start w v : DomainState) (entries one : List SettleEntry) (quiet : List Bool)
        (calm : Bool) → DisksUpTo k start entries quiet w → DiskMade k A w one calm v
        → DisksBegun start (entries ++ one) v }
    ensures guest { (k : ℕ) (start now : DomainState) (entries : List SettleEntry) (quiet : List Bool)
        → PortsUpTo k start entries quiet now → PortsBegun start entries now }
    ensures at_switch { (k : ℕ) (start w v : DomainState) (entries one : List SettleEntry) (quiet : List Bool)
        (calm : Bool) → PortsUpTo k start entries quiet w → PortMade k A w one calm v
        → PortsBegun start (entries ++ one) v }
    ensures of_disks { (start now : DomainState) (entries : List SettleEntry) → DisksBegun start entries now
        → RoundBegun start entries now }
    ensures of_ports { (start m v : DomainState) (entries later : List SettleEntry) (quiet : List Bool)
        → DisksUpTo (length start.first.lanes) start entries quiet m → PortsBegun m later v
        → RoundBegun start (entries ++ later) v }
    ensures disk_ticks { (k : ℕ) (start now : DomainState) (had have : List Bool) (entries : List SettleEntry)
        (some : Bool) → DiskTicksUpTo k start had entries some have now → k ≤ length start.first.lanes
        → DiskTicksBegun start had entries now }
    ensures port_ticks { (k : ℕ) (start now : DomainState) (had have : List Bool) (entries : List SettleEntry)
        (some : Bool) → PortTicksUpTo k start had entries some have now → k ≤ length start.second
        → PortTicksBegun start had entries now }
    ensures ticks_of_disks { (start now : DomainState) (entries : List SettleEntry) (had : Marks)
        → DiskTicksBegun start had.first entries now → TicksBegun start had entries now }
    ensures ticks_of_ports { (start m v : DomainState) (entries later : List SettleEntry) (had : Marks)
        (have : List Bool) (some : Bool)
        → DiskTicksUpTo (length start.first.lanes) start had.first entries some have m
        → PortTicksBegun m had.second later v → TicksBegun start had (entries ++ later) v }
    ensures answer { (start now : DomainState) (entries : List SettleEntry) (had have : Marks) (some : Bool)
        → TicksMade start had entries some have now → TicksBegun start had entries now }
    ensures names_of_disks { (k : ℕ) (w : DomainState) (quiet : Marks) (entries : List SettleEntry)
        → DisksNamed k w quiet.first entries → k ≤ length w.first.lanes → NamesBegun w quiet entries }
    ensures names_of_ports { (k : ℕ) (w : DomainState) (quiet : Marks) (entries later : List SettleEntry)
        → DisksNamed (length w.first.lanes) w quiet.first entries → PortsNamed k w quiet.second later
        → k ≤ length w.second → NamesBegun w quiet (entries ++ later) }
    ensures in_round { (start w v : DomainState) (count : ℕ) (entries later : List SettleEntry) (had quiet : Marks)
        → GoneOn start count entries had quiet w → count < most_rounds start → RoundBegun w later v
        → LineBegins start Settles (entries ++ later) v }
    ensures in_ticks { (start w m v : DomainState) (count : ℕ) (entries part later : List SettleEntry)
        (had quiet marks : Marks) → GoneOn start count entries had quiet w → count < most_rounds start
        → RoundMade w part marks m → all_quiet w marks ≡ true → TicksBegun m had later v
        → LineBegins start Settles (entries ++ (part ++ later)) v }
    ensures in_names { (start w : DomainState) (count : ℕ) (entries part : List SettleEntry) (had quiet : Marks)
        → GoneOn start count entries had quiet w → count ≡ most_rounds start → NamesBegun w quiet part
        → LineBegins start Settles (entries ++ part) w }
{}
