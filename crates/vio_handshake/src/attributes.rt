// Attributes: what each end says of the device in a session of version 1.0, 1.1 or 1.2, and what it accepts.

ghost use Rattle.std.specs.Prelude.{◌≡◌, min};
ghost use Rattle.ldc_link.specs.declared.phase.Role.TheVariants.{Initiator, Responder};
ghost use Rattle.vio_handshake.specs.Attributes.{accepts_answered, accepts_client, accepts_port, accepts_said, accepts_server, answered_attributes, client_attributes, from_1_1, from_1_2, operations_in, port_attributes, port_mode, said_attributes, server_attributes};
ghost use Rattle.vio_handshake.specs.Messages.{info};
ghost use Rattle.vio_handshake.specs.Rules.{attributes_answered, attributes_asked, owes, row, taken};
ghost use Rattle.vio_handshake.specs.State.{IsFault};
ghost use Rattle.vio_handshake.specs.declared.handshake.Phase.TheVariants.{Attributes};
ghost use Rattle.vio_tag.specs.declared.message.MsgBody.TheVariants.{Attr};

use crate::handshake::{Handshake, Phase};
use crate::messages::{ack, info, nack};
use crate::rows::{ORDER, REFUSED};
use crate::session::{HsOut, Offer};
use ldc_packet::Subtype;
use vio_tag::{
    DISK_OPERATIONS, DiskAttr, Message, MsgBody, NetAttr, disk_attr, net_attr, put_disk_attr,
    put_net_attr,
};

/// Data moves by rings of descriptors.
const VIO_DRING_MODE: u8 = 3;
/// So it does at a port, from version 1.2 on.
const VIO_NEW_DRING_MODE: u8 = 4;
/// A block device, and not a part of one.
const VD_DISK_TYPE_DISK: u8 = 2;
/// Its medium isn't removable.
const VD_MEDIA_TYPE_FIXED: u8 = 1;

const BLOCK_SIZE: u32 = 512;
/// From version 1.2 on the disk also tells and sets whether it caches writes.
const OPERATIONS_FROM_1_2: u64 = 0x3e;
/// The most blocks of one request.
const MAX_TRANSFER: u64 = 64;
/// The device has an Ethernet address.
const VNET_ADDR_ETHERMAC: u8 = 1;
/// The most bytes of a frame.
const MTU: u64 = 1514;

impl Handshake {
    pub(crate) fn say_attributes(&mut self, sid: u32)
        ensures { self.new ≡ owes Attributes (info sid (Attr (said_attributes self.old.offer self.old.draft.minor))) self.old }
    {
        let bytes = said_attributes(&self.offer, self.draft.minor);
        self.owe(Phase::Attributes, info(sid, MsgBody::Attr { bytes }));
    }

    /// The responder waits for ATTR INFO.
    pub(crate) fn take_attributes(&mut self, message: &Message) -> HsOut
        ensures exact { taken result self.new ≡ row Responder Attributes self.old message.now.subtype message.now.sid message.now.body }
        ensures unchanged { IsFault result → self.new ≡ self.old }
    {
        match (message.subtype, &message.body) {
            (Subtype::Info, MsgBody::Attr { bytes }) => {
                self.answer_attributes(message.sid, bytes);
                HsOut::Nothing
            }
            _ => ORDER,
        }
    }

    fn answer_attributes(&mut self, sid: u32, bytes: &[u8; 48])
        ensures { self.new ≡ attributes_asked self.old sid bytes.now }
    {
        if accepts_said(&self.offer, self.draft.minor, bytes) {
            let bytes = answered_attributes(&self.offer, self.draft.minor, bytes);
            self.owe(Phase::PeerRing, ack(sid, MsgBody::Attr { bytes }));
        } else {
            let bytes = *bytes;
            self.owe(Phase::Attributes, nack(sid, MsgBody::Attr { bytes }));
        }
    }

    /// The initiator waits for the answer to its ATTR INFO.
    pub(crate) fn take_attributes_ack(&mut self, message: &Message) -> HsOut
        ensures exact { taken result self.new ≡ row Initiator Attributes self.old message.now.subtype message.now.sid message.now.body }
        ensures unchanged { IsFault result → self.new ≡ self.old }
    {
        match (message.subtype, &message.body) {
            (Subtype::Ack, MsgBody::Attr { bytes }) => self.judge_attributes(message.sid, bytes),
            (Subtype::Nack, MsgBody::Attr { .. }) => REFUSED,
            _ => ORDER,
        }
    }

    fn judge_attributes(&mut self, sid: u32, bytes: &[u8; 48]) -> HsOut
        ensures exact { taken result self.new ≡ attributes_answered self.old sid bytes.now }
        ensures unchanged { IsFault result → self.new ≡ self.old }
    {
        if !accepts_answered(&self.offer, self.draft.minor, bytes) {
            return REFUSED;
        }
        self.say_own_ring(sid);
        HsOut::Nothing
    }
}

/// The bytes of ATTR INFO, which the initiator says.
#[tactic(auto, unfolding(crate::specs::Attributes::said_attributes))]
fn said_attributes(offer: &Offer, minor: u16) -> [u8; 48]
    ensures { result ≡ said_attributes offer.now minor }
{
    if offer.both_rings {
        put_net_attr(&port_attributes(offer, minor))
    } else {
        put_disk_attr(&CLIENT_ATTRIBUTES)
    }
}

/// Whether the responder accepts them.
#[tactic(auto, unfolding(crate::specs::Attributes::accepts_said))]
fn accepts_said(offer: &Offer, minor: u16, bytes: &[u8; 48]) -> bool
    ensures { result ≡ accepts_said offer.now minor bytes.now }
{
    if offer.both_rings {
        accepts_port(offer, minor, &net_attr(bytes))
    } else {
        accepts_client(&disk_attr(bytes))
    }
}

/// The bytes of its ATTR ACK.
#[tactic(auto, unfolding(crate::specs::Attributes::answered_attributes))]
fn answered_attributes(offer: &Offer, minor: u16, bytes: &[u8; 48]) -> [u8; 48]
    ensures { result ≡ answered_attributes offer.now minor bytes.now }
{
    if offer.both_rings {
        put_net_attr(&port_attributes(offer, minor))
    } else {
        put_disk_attr(&server_attributes(offer, minor, &disk_attr(bytes)))
    }
}

/// Whether the initiator accepts those.
#[tactic(auto, unfolding(crate::specs::Attributes::accepts_answered))]
fn accepts_answered(offer: &Offer, minor: u16, bytes: &[u8; 48]) -> bool
    ensures { result ≡ accepts_answered offer.now minor bytes.now }
{
    if offer.both_rings {
        accepts_port(offer, minor, &net_attr(bytes))
    } else {
        accepts_server(offer, minor, &disk_attr(bytes))
    }
}

/// What a disk's client asks for.
const CLIENT_ATTRIBUTES: DiskAttr = DiskAttr {
    mode: VIO_DRING_MODE,
    kind: 0,
    media: 0,
    block_size: BLOCK_SIZE,
    operations: 0,
    blocks: 0,
    max_transfer: MAX_TRANSFER,
    physical: 0,
};

fn accepts_client(attr: &DiskAttr) -> bool
    ensures { result ≡ accepts_client attr.now }
{
    attr.mode == VIO_DRING_MODE && attr.block_size == BLOCK_SIZE && attr.max_transfer != 0
}

/// What a disk's server answers in a session of version 1 and this minor.
fn server_attributes(offer: &Offer, minor: u16, asked: &DiskAttr) -> DiskAttr
    ensures { result ≡ server_attributes offer.now minor asked.now }
{
    DiskAttr {
        mode: VIO_DRING_MODE,
        kind: VD_DISK_TYPE_DISK,
        media: if minor >= 1 { VD_MEDIA_TYPE_FIXED } else { 0 },
        block_size: BLOCK_SIZE,
        operations: if minor >= 2 {
            OPERATIONS_FROM_1_2
        } else {
            DISK_OPERATIONS
        },
        blocks: if minor >= 1 {
            disk_attr(&offer.attr).blocks
        } else {
            0
        },
        max_transfer: asked.max_transfer.min(MAX_TRANSFER),
        physical: if minor >= 2 { BLOCK_SIZE } else { 0 },
    }
}

fn accepts_server(offer: &Offer, minor: u16, attr: &DiskAttr) -> bool
    ensures { result ≡ accepts_server offer.now minor attr.now }
{
    attr.kind == VD_DISK_TYPE_DISK
        && attr.block_size == BLOCK_SIZE
        && attr.operations & DISK_OPERATIONS == DISK_OPERATIONS
        && attr.max_transfer == MAX_TRANSFER
        && (minor < 1 || attr.blocks == disk_attr(&offer.attr).blocks)
        && (minor < 2 || attr.physical == BLOCK_SIZE)
}

/// What either end of a port says in a session of version 1 and this minor.
fn port_attributes(offer: &Offer, minor: u16) -> NetAttr
    ensures { result ≡ port_attributes offer.now minor }
{
    NetAttr {
        mode: if minor >= 2 {
            VIO_NEW_DRING_MODE
        } else {
            VIO_DRING_MODE
        },
        address_kind: VNET_ADDR_ETHERMAC,
        ack_freq: 0,
        link: 0,
        options: 0,
        address: net_attr(&offer.attr).address,
        mtu: MTU,
        cflags: 0,
        lso: 0,
    }
}

fn accepts_port(offer: &Offer, minor: u16, attr: &NetAttr) -> bool
    ensures { result ≡ accepts_port offer.now minor attr.now }
{
    *attr == port_attributes(offer, minor)
}
