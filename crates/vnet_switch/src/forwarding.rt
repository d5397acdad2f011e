// To which ports a frame goes, and its key into their queues.

ghost use Rattle.std.specs.Prelude.{◌≡◌, ◌≢◌, ℕ, ◌<◌, ◌≤◌, ◌↔◌, length, IfNone, IfSome, IsTrue};
ghost use Rattle.vnet_switch.specs.Forward.{GetsFrame, HasAddress, IsCast, IsFor};
ghost use Rattle.vnet_switch.specs.Offering.{OffersBelow, OffersTo};
ghost use Rattle.vnet_switch.specs.PortSet.{IsSetOf};

use crate::cast::Cast;
use crate::port::Port;
use crate::port_set::{has_port, with_port, with_port_if};

/// What became of a frame: two sets of ports, bit k for port k.
#[derive(Clone, Copy, Debug, PartialEq, Eq)]
pub struct Switched {
    /// The ports whose queues hold it now.
    pub out: u32,
    /// The ports that would have got it, but whose queues were full.
    pub full: u32,
}

/// The same, and the number of ports that got it.
#[derive(Clone, Copy)]
pub(crate) struct Offered {
    pub(crate) switched: Switched,
    pub(crate) names: u32,
}

/// The port that has this address.
pub(crate) fn port_of(ports: &[Port], address: &[u8; 6]) -> Option<u32>
    requires { length ports.now ≤ 32 }
    ensures found { IfSome result (HasAddress ports.now address.now) }
    ensures none { IfNone result ((k : ℕ) → ¬ (HasAddress ports.now address.now k)) }
{
    for (place, port) in ports.iter().enumerate() {
        if port.has_address(address) {
            return Some(place as u32);
        }
    }
    None
}

/// The ports that a frame for the destination goes to, which came from a port.
pub(crate) fn ports_for(ports: &[Port], destination: &[u8; 6], from: u32) -> u32
    requires { length ports.now ≤ 32 }
    ensures { IsSetOf result (GetsFrame ports.now destination.now from) }
{
    let cast = Cast::of(destination);
    let mut set = 0;
    for (place, port) in ports.iter().enumerate() {
        let k = place as u32;
        let gets = gets_frame(port, k, cast, destination, from);
        set = with_port_if(set, k, gets);
    }
    set
}

// Whether the port k gets it.
fn gets_frame(port: &Port, k: u32, cast: Cast, destination: &[u8; 6], from: u32) -> bool
    requires { IsCast cast destination.now }
    ensures { IsTrue result ↔ ((k ≢ from) × IsFor destination.now port.now) }
{
    k != from && port.takes(cast, destination)
}

/// Puts a frame's key last into the queue of each port of the set that has room.
pub(crate) fn offer(ports: &mut [Port], set: u32, key: usize) -> Offered
    requires { length ports.old ≤ 32 }
    ensures { OffersBelow (length ports.old) ports.old set key result ports.new }
{
    let mut offered = Offered {
        switched: Switched { out: 0, full: 0 },
        names: 0,
    };
    for k in 0..ports.len() {
        let belongs = has_port(set, k as u32);
        offer_to(&mut ports[k], k as u32, belongs, key, &mut offered);
    }
    offered
}

// Puts the key last into the queue of the port k, where that belongs to the set and has room.
fn offer_to(port: &mut Port, k: u32, belongs: bool, key: usize, offered: &mut Offered)
    requires port { k < 32 }
    requires few { offered.old.names < 32 }
    ensures { OffersTo belongs k key port.old offered.old port.new offered.new }
{
    if !belongs {
        return;
    }
    if port.offer(key) {
        offered.switched.out = with_port(offered.switched.out, k);
        offered.names += 1;
    } else {
        offered.switched.full = with_port(offered.switched.full, k);
    }
}
