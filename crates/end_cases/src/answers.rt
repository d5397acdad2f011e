// What comes of steps, as text.

use crate::digits::{shown, word_of};
use ldc_link::{SendOut, TakeOut};
use net_lane::NetOut;
use std::alloc::Global;
use vdisk_client::ClientOut;
use vdisk_server::ServerOut;
use vio_tag::Cause;

/// What a link put.
pub fn sent_text(alloc: Global, out: &SendOut) -> Option<String> {
    match out {
        SendOut::Sent(packet) => word_of(alloc, packet),
        other => shown(alloc, other),
    }
}

/// What a link took.
pub fn took_text(alloc: Global, out: &TakeOut) -> Option<String> {
    match out {
        TakeOut::Took(packet) => passed(alloc, "took", packet, false),
        TakeOut::Fault { packet, cause } => fault(alloc, *cause, Some(packet)),
        other => shown(alloc, other),
    }
}

/// What a disk's client did.
pub fn client_text(alloc: Global, out: &ClientOut) -> Option<String> {
    match out {
        ClientOut::Took { packet, opens } => passed(alloc, "took", packet, *opens),
        ClientOut::Sent { packet, opens } => passed(alloc, "sent", packet, *opens),
        ClientOut::Reset { cause, packet } => fault(alloc, *cause, packet.as_ref()),
        other => shown(alloc, other),
    }
}

/// What a disk's server did.
pub fn server_text(alloc: Global, out: &ServerOut) -> Option<String> {
    match out {
        ServerOut::Took { packet, opens } => passed(alloc, "took", packet, *opens),
        ServerOut::Sent { packet, opens } => passed(alloc, "sent", packet, *opens),
        ServerOut::Reset { cause, packet } => fault(alloc, *cause, packet.as_ref()),
        ServerOut::Desc { slot, bytes } => {
            let word = word_of(alloc, bytes)?;
            format!(in alloc; "fetched {slot} {word}").ok()
        }
        other => shown(alloc, other),
    }
}

/// What an end of a port did.
pub fn net_text(alloc: Global, out: &NetOut) -> Option<String> {
    match out {
        NetOut::Took { packet, opens } => passed(alloc, "took", packet, *opens),
        NetOut::Sent { packet, opens } => passed(alloc, "sent", packet, *opens),
        NetOut::Reset {
            cause,
            packet,
            lost,
        } => {
            let text = fault(alloc, *cause, packet.as_ref())?;
            format!(in alloc; "{text} lost {lost}").ok()
        }
        other => shown(alloc, other),
    }
}

fn passed(alloc: Global, verb: &str, packet: &[u8; 64], opens: bool) -> Option<String> {
    let word = word_of(alloc, packet)?;
    let and = if opens { " and opens" } else { "" };
    format!(in alloc; "{verb} {word}{and}").ok()
}

fn fault(alloc: Global, cause: Cause, packet: Option<&[u8; 64]>) -> Option<String> {
    match packet {
        Some(packet) => {
            let word = word_of(alloc, packet)?;
            format!(in alloc; "fault {cause} in {word}").ok()
        }
        None => format!(in alloc; "fault {cause}").ok(),
    }
}
