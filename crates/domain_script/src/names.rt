ghost use Rattle.std.specs.Prelude.{◌≡◌, ℕ, ◌<◌, ◌≤◌, [], false, length, take, slice_get, IsTrue, MatchOption, ◌↔◌};

use crate::fields::LaneKind;
use crate::{DiskDecl, Event, Lane, Name, PortDecl};
use std::marker::Model;

/// So many lanes of a kind a script may declare.
const MOST_OF_A_KIND: u32 = 8;

/// So many disks a script may declare.
pub const MOST_DISKS: usize = MOST_OF_A_KIND as usize;

/// So many ports a script may declare.
pub const MOST_PORTS: usize = MOST_OF_A_KIND as usize;

/// What stands in the place of the name of a lane that isn't declared.
const NO_NAME: Name = Name {
    len: 0,
    bytes: [0; 8],
};

/// What stands in the place of a disk that isn't declared.
const NO_DISK: DiskDecl = DiskDecl {
    name: NO_NAME,
    blocks: 0,
    ring: 0,
    queue: 0,
};

/// What stands in the place of a port that isn't declared.
const NO_PORT: PortDecl = PortDecl {
    name: NO_NAME,
    address: [0; 6],
    ring: 0,
    queue: 0,
};

/// The names that a script has declared so far: up to eight disks and eight ports, each with a name of its own. Each
/// port has an address of its own too.
#[derive(Drop)]
pub struct Names {
    disks: [DiskDecl; MOST_DISKS],
    disk_count: u32,
    ports: [PortDecl; MOST_PORTS],
    port_count: u32,
    ended: bool,
}

impl Model for Names {
    ghost use Rattle.std.specs.Prelude.{◌≡◌, ◌≤◌, length, take};
    ghost use Rattle.domain_script.specs.Declarations.{AddressesDiffer};
    ghost use Rattle.domain_script.specs.NamesState.{NamesDiffer, NamesState};

    ghost Value = { NamesState };

    ghost view = { λ n. record { disks = take n.disk_count n.disks; ports = take n.port_count n.ports; ended = n.ended } };

    ghost invariant = { λ n. (n.disk_count ≤ 8) × (length n.disks ≡ 8) × (n.port_count ≤ 8) × (length n.ports ≡ 8)
        × NamesDiffer (record { disks = take n.disk_count n.disks; ports = take n.port_count n.ports; ended = n.ended })
        × AddressesDiffer (take n.port_count n.ports) };
}

impl Names {
    ghost use Rattle.domain_script.specs.Declarations.{AddressesDiffer, addresses};
    ghost use Rattle.domain_script.specs.Firsts.{IsFirst, IsNoneOf};
    ghost use Rattle.script_words.specs.Limits.{most_of_a_kind};
    ghost use Rattle.domain_script.specs.NamesState.{CanNote, IsNameFree, IsFreeAddress, IsNamed, NamesDiffer, count_of, lane_name, names_of, noted};

    /// Nothing is declared.
    pub fn new() -> Self
        ensures { result ≡ record { disks = []; ports = []; ended = false } }
    {
        Names {
            disks: [NO_DISK; MOST_DISKS],
            disk_count: 0,
            ports: [NO_PORT; MOST_PORTS],
            port_count: 0,
            ended: false,
        }
    }

    /// The k-th disk, counted from 0. None exactly where k or fewer were declared.
    pub fn disk(&self, k: u32) -> Option<DiskDecl>
        ensures value { result ≡ slice_get self.now.disks k }
        ensures few { length self.now.disks ≤ 8 }
    {
        if k < self.disk_count {
            Some(self.disks[k as usize])
        } else {
            None
        }
    }

    /// The k-th port, counted from 0. None exactly where k or fewer were declared.
    pub fn port(&self, k: u32) -> Option<PortDecl>
        ensures value { result ≡ slice_get self.now.ports k }
        ensures few { length self.now.ports ≤ 8 }
        ensures differ { AddressesDiffer self.now.ports }
    {
        if k < self.port_count {
            Some(self.ports[k as usize])
        } else {
            None
        }
    }

    /// The name of a lane. None exactly where the lane isn't declared.
    #[tactic(auto, using(crate::proofs::LaneKinds::none_among))]
    pub fn name(&self, lane: Lane) -> Option<Name>
        ensures name { result ≡ lane_name self.now lane }
        ensures few { count_of lane.kind self.now ≤ most_of_a_kind }
    {
        match lane.kind {
            LaneKind::Disk => Some(self.disk(lane.number)?.name),
            LaneKind::Port => Some(self.port(lane.number)?.name),
        }
    }

    /// The address of the k-th port. None exactly where k or fewer were declared.
    fn address(&self, k: u32) -> Option<[u8; 6]>
        ensures { result ≡ slice_get (addresses self.now.ports) k }
    {
        Some(self.port(k)?.address)
    }

    /// No two lanes have one name: a fact for who holds the names, and nothing that is done.
    pub(crate) fn differ(&self)
        ensures { NamesDiffer self.now }
    {
        let _count = self.disk_count;
    }

    /// Whether the declarations haven't ended.
    pub(crate) fn is_open(&self) -> bool
        ensures { IsTrue result ↔ (self.now.ended ≡ false) }
    {
        !self.ended
    }

    /// How many lanes of this kind are declared.
    #[tactic(auto, using(crate::proofs::LaneKinds::none_among))]
    fn count(&self, kind: LaneKind) -> u32
        ensures count { result ≡ count_of kind self.now }
        ensures few { result ≤ most_of_a_kind }
    {
        match kind {
            LaneKind::Disk => self.disk_count,
            LaneKind::Port => self.port_count,
        }
    }

    /// Whether fewer than eight lanes of this kind are declared.
    pub(crate) fn has_room(&self, kind: LaneKind) -> bool
        ensures { IsTrue result ↔ (count_of kind self.now < most_of_a_kind) }
    {
        self.count(kind) < MOST_OF_A_KIND
    }

    /// The first lane with this name; disks come before ports. None exactly where no lane has it.
    pub(crate) fn find(&self, name: &Name) -> Option<Lane>
        ensures { MatchOption result (IsNameFree self.now name.now) (IsNamed self.now name.now) }
    {
        match self.find_among(LaneKind::Disk, name) {
            Some(number) => Some(Lane {
                kind: LaneKind::Disk,
                number,
            }),
            None => {
                let number = self.find_among(LaneKind::Port, name)?;
                Some(Lane {
                    kind: LaneKind::Port,
                    number,
                })
            }
        }
    }

    /// The number of the first lane of this kind with this name. None exactly where none of them has it.
    fn find_among(&self, kind: LaneKind, name: &Name) -> Option<u32>
        ensures { MatchOption result (IsNoneOf name.now (names_of kind self.now)) (IsFirst name.now (names_of kind self.now)) }
    {
        for number in 0..self.count(kind) {
            if self.has_name(Lane { kind, number }, name) {
                return Some(number);
            }
        }
        None
    }

    /// Whether a lane is declared under this name.
    fn has_name(&self, lane: Lane, name: &Name) -> bool
        ensures { IsTrue result ↔ (lane_name self.now lane ≡ Some name.now) }
    {
        match self.name(lane) {
            Some(own) => own == *name,
            None => false,
        }
    }

    /// Whether no lane has this name.
    pub(crate) fn is_free(&self, name: &Name) -> bool
        ensures { IsTrue result ↔ IsNameFree self.now name.now }
    {
        self.find(name).is_none()
    }

    /// Whether no port has this address.
    pub(crate) fn is_free_address(&self, address: &[u8; 6]) -> bool
        ensures { IsTrue result ↔ IsFreeAddress self.now address.now }
    {
        for k in 0..self.count(LaneKind::Port) {
            if self.has_address(k, address) {
                return false;
            }
        }
        true
    }

    /// Whether the k-th port has this address.
    fn has_address(&self, k: u32, address: &[u8; 6]) -> bool
        ensures { IsTrue result ↔ (slice_get (addresses self.now.ports) k ≡ Some address.now) }
    {
        match self.address(k) {
            Some(own) => own == *address,
            None => false,
        }
    }

    /// Notes an event of the script. A declaration is added, where the declarations haven't ended, fewer than eight of
    /// its kind stand, and neither its name nor a port's address is taken. Any other event but a blank ends the
    /// declarations.
    pub fn note(&mut self, event: &Event)
        requires { CanNote self.old event.now }
        ensures { self.new ≡ noted self.old event.now }
    {
        match event {
            Event::Blank => {}
            Event::Disk(disk) => {
                self.disks[self.disk_count as usize] = *disk;
                self.disk_count += 1;
            }
            Event::Net(port) => {
                self.ports[self.port_count as usize] = *port;
                self.port_count += 1;
            }
            _ => self.ended = true,
        }
    }
}
