// What the ends of a disk of 64 blocks and of a port offer.

use disk_requests::client_offer;
use map_table::Cookie;
use vio_handshake::Offer;
use vio_tag::{NetAttr, net_attr, put_net_attr};

/// The client of a disk, whose ring has 8 descriptors.
pub fn client(minor: u16) -> Offer {
    Offer {
        minor,
        ..client_offer(64, 8)
    }
}

/// Its server, which has no ring.
pub fn server(minor: u16) -> Offer {
    Offer {
        class: 4,
        slots: 0,
        count: 0,
        cookies: [Cookie::NONE; 14],
        peer_slots: 8,
        ..client(minor)
    }
}

/// A guest whose ring has 8 descriptors, at a switch whose ring has 16.
pub fn guest(minor: u16) -> Offer {
    Offer {
        minor,
        class: 1,
        attr: put_net_attr(&NetAttr {
            address: 0x0200_0000_0001,
            ..net_attr(&[0; 48])
        }),
        slots: 8,
        slot_size: 64,
        count: 1,
        cookies: one_cookie(8192, 512),
        both_rings: true,
        peer_slots: 16,
    }
}

/// Its switch.
pub fn switch(minor: u16) -> Offer {
    Offer {
        class: 2,
        slots: 16,
        cookies: one_cookie(16384, 1024),
        peer_slots: 8,
        ..guest(minor)
    }
}

fn one_cookie(address: u64, size: u64) -> [Cookie; 14] {
    let mut cookies = [Cookie::NONE; 14];
    cookies[0] = Cookie { address, size };
    cookies
}
