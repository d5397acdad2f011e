// The names of lanes and ends as lines put them.
ghost use Rattle.std.specs.Prelude.{◌≡◌, ◌<◌, ◌≤◌, length, take};
ghost use Rattle.domain_script.specs.Declarations.{number_of_kind};
ghost use Rattle.domain_script.specs.LaneKinds.{lane_at};
ghost use Rattle.domain_script.specs.NamesState.{declared_by};
ghost use Rattle.domain_script.specs.declared.fields.LaneKind.TheVariants as the_kind;
ghost use Rattle.line_words.specs.IsDeclared.{IsLane};
ghost use Rattle.line_words.specs.LaneNames.{lane_names};
ghost use Rattle.line_words.specs.LineNames.{lane_name};

use crate::LaneNames;
use domain_script::{Lane, LaneKind, Name, Names};
use std::marker::Model;

fn name_bytes(name: &Name) -> &[u8]
    ensures bytes { result.now ≡ take name.now.len name.now.bytes }
    ensures short { length result.now ≤ 8 }
{
    &name.bytes[..usize::from(name.len).min(8)]
}

/// The names of a lane and its ends; no bytes for that of a lane which isn't declared.
fn names_at(names: &Names, kind: LaneKind, number: u32) -> LaneNames
    ensures names { result ≡ lane_name (declared_by names.now) (lane_at kind number) }
    ensures few { number_of_kind kind (declared_by names.now) ≤ 8 }
{
    match names.name(Lane { kind, number }) {
        Some(name) => LaneNames::new(name_bytes(&name)),
        None => LaneNames::new(b""),
    }
}

/// The names of the lanes of this kind that a script declares.
pub fn names_of_lanes(names: &Names, kind: LaneKind) -> [LaneNames; 8]
    ensures lanes { result ≡ lane_names kind (declared_by names.now) }
    ensures few { number_of_kind kind (declared_by names.now) ≤ 8 }
{
    [
        names_at(names, kind, 0),
        names_at(names, kind, 1),
        names_at(names, kind, 2),
        names_at(names, kind, 3),
        names_at(names, kind, 4),
        names_at(names, kind, 5),
        names_at(names, kind, 6),
        names_at(names, kind, 7),
    ]
}

/// The names of lanes and ends as lines put them: they are made once for many lines. A clause sees what is declared.
#[derive(Drop)]
pub struct LineNames<'a> {
    names: &'a Names,
    disks: &'a [LaneNames],
    ports: &'a [LaneNames],
}

impl<'a> Model for LineNames<'a> {
    ghost use Rattle.std.specs.Prelude.{◌≡◌, ◌≤◌, length};
    ghost use Rattle.domain_script.specs.Declarations.{Declared};
    ghost use Rattle.domain_script.specs.NamesState.{declared_by};
    ghost use Rattle.domain_script.specs.declared.fields.LaneKind.TheVariants as the_kind;
    ghost use Rattle.line_words.specs.LaneNames.{lane_names};

    ghost Value = { Declared };

    ghost view = { λ n. declared_by n.names.now };

    ghost invariant = { λ n. record {
      few_disks : length n.names.now.disks ≤ 8;
      few_ports : length n.names.now.ports ≤ 8;
      disks : n.disks.now ≡ lane_names the_kind.Disk (declared_by n.names.now);
      ports : n.ports.now ≡ lane_names the_kind.Port (declared_by n.names.now);
    } };
}

impl<'a> LineNames<'a> {
    /// The names of a script's lanes, those of disks and those of ports.
    pub fn new(names: &'a Names, disks: &'a [LaneNames], ports: &'a [LaneNames]) -> Self
        requires few_disks { length names.now.disks ≤ 8 }
        requires few_ports { length names.now.ports ≤ 8 }
        requires disks { disks.now ≡ lane_names the_kind.Disk (declared_by names.now) }
        requires ports { ports.now ≡ lane_names the_kind.Port (declared_by names.now) }
        ensures { result ≡ declared_by names.now }
    {
        LineNames {
            names,
            disks,
            ports,
        }
    }

    /// The names of the lanes of a kind.
    #[tactic(auto, using(domain_script::proofs::LaneKinds::none_among))]
    fn of_kind(&self, kind: LaneKind) -> &'a [LaneNames]
        requires some { 0 < number_of_kind kind self.now }
        ensures lanes { result.now ≡ lane_names kind self.now }
        ensures few { number_of_kind kind self.now ≤ 8 }
    {
        match kind {
            LaneKind::Port => self.ports,
            _ => self.disks,
        }
    }

    /// The names of a declared lane.
    #[tactic(auto, using(crate::proofs::NamedLanes::name_at))]
    pub fn of_lane(&self, lane: Lane) -> &'a LaneNames
        requires { IsLane self.now lane }
        ensures { result.now ≡ lane_name self.now lane }
    {
        &self.of_kind(lane.kind)[lane.number as usize]
    }
}
