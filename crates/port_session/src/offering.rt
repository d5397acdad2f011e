// What the two ends of a port offer in their handshake.

ghost use Rattle.std.specs.Prelude.{◌≡◌, ◌≤◌, [], ◌∷◌};
ghost use Rattle.lane_models.specs.OwnMemory.{filled};
ghost use Rattle.lane_models.specs.Offers.{class_of, device_of, port_offer, ring_cookie};

use byteorder::{BigEndian, ByteOrder};
use ldc_link::Role;
use map_table::Cookie;
use vio_handshake::Offer;
use vio_tag::{NetAttr, put_net_attr};
use vnet_msg::SLOT;

/// The highest version is 1.1.
const MINOR: u16 = 1;

/// What kind of end a guest's is (`VDEV_NETWORK` of Linux's vio.h).
const VDEV_NETWORK: u8 = 1;

/// What kind of end the switch's is (`VDEV_NETWORK_SWITCH` of Linux's vio.h).
const VDEV_NETWORK_SWITCH: u8 = 2;

/// Either end of the port with this address registers a ring of so many slots, and expects one of as many.
pub fn port_offer(role: Role, address: &[u8; 6], slots: u32) -> Offer
    requires { slots ≤ 64 }
    ensures { result ≡ port_offer role address.now slots }
{
    Offer {
        minor: MINOR,
        class: class_of(role),
        attr: put_net_attr(&device_of(address)),
        slots,
        slot_size: SLOT as u32,
        count: 1,
        cookies: ring_cookies(slots),
        both_rings: true,
        peer_slots: slots,
    }
}

fn class_of(role: Role) -> u8
    ensures { result ≡ class_of role }
{
    match role {
        Role::Initiator => VDEV_NETWORK,
        Role::Responder => VDEV_NETWORK_SWITCH,
    }
}

/// The port, by its address as a number, and nothing else.
fn device_of(address: &[u8; 6]) -> NetAttr
    ensures { result ≡ device_of address.now }
{
    NetAttr {
        mode: 0,
        address_kind: 0,
        ack_freq: 0,
        link: 0,
        options: 0,
        address: BigEndian::read_u48(address),
        mtu: 0,
        cflags: 0,
        lso: 0,
    }
}

/// A ring is below a page: it has one cookie, of its size.
fn ring_cookies(slots: u32) -> [Cookie; 14]
    requires { slots ≤ 64 }
    ensures { result ≡ filled 14 (ring_cookie slots ∷ []) }
{
    let mut cookies = [Cookie::NONE; 14];
    cookies[0] = Cookie {
        address: 0,
        size: SLOT as u64 * slots as u64,
    };
    cookies
}
