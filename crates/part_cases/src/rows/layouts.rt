// Rows of bytes: what they decode to, and what that encodes to.

use crate::rows::texts::{array, bytes_of, digits, filled, shown, shown_with};
use ldc_packet::{encode_part, part_head, part_within};
use map_table::{Cookie, get_cookies, put_cookies};
use std::alloc::Global;
use vio_tag::{disk_attr, net_attr, put_disk_attr, put_net_attr};

/// The answer to a command whose words are bytes.
pub fn answer(alloc: Global, command: &str, words: &str) -> Option<String> {
    match command {
        "packet" => packet(alloc, words),
        "packet_says" => packet_says(alloc, words),
        "part" => part(alloc, words),
        "message" => message(alloc, words),
        "message_says" => message_says(alloc, words),
        "disk_attr" => disk(alloc, words),
        "net_attr" => net(alloc, words),
        "descriptor" => descriptor(alloc, words),
        "net_descriptor" => net_descriptor(alloc, words),
        "holds_frame" => holds_frame(alloc, words),
        "cookie" => cookie(alloc, words),
        _ => None,
    }
}

// A packet as it is written over bytes ff.
fn packet(alloc: Global, words: &str) -> Option<String> {
    match ldc_packet::decode(&array(alloc, words)?) {
        Ok(packet) => {
            let mut out = filled(0xff);
            ldc_packet::encode(&packet, &mut out);
            digits(alloc, &out)
        }
        Err(fault) => shown(alloc, Err::<(), _>(fault)),
    }
}

fn packet_says(alloc: Global, words: &str) -> Option<String> {
    shown(alloc, ldc_packet::decode(&array(alloc, words)?))
}

// The length of the part that a packet carries, and the packet as it is written over bytes ff.
fn part(alloc: Global, words: &str) -> Option<String> {
    let bytes: [u8; 64] = array(alloc, words)?;
    let Some(head) = part_head(&bytes) else {
        return shown(alloc, None::<()>);
    };
    let part = part_within(&bytes, head.len);
    let mut out = filled(0xff);
    encode_part(head, part, &mut out);
    shown_with(alloc, part.len(), &out)
}

// The length of a message, and the buffer of bytes a5 that it was written to.
fn message(alloc: Global, words: &str) -> Option<String> {
    match vio_tag::decode(&bytes_of(alloc, words)?) {
        Ok(message) => {
            let mut out = filled(0xa5);
            let length = vio_tag::encode(&message, &mut out);
            shown_with(alloc, length, &out)
        }
        Err(fault) => shown(alloc, Err::<(), _>(fault)),
    }
}

fn message_says(alloc: Global, words: &str) -> Option<String> {
    shown(alloc, vio_tag::decode(&bytes_of(alloc, words)?))
}

fn disk(alloc: Global, words: &str) -> Option<String> {
    let attr = disk_attr(&array(alloc, words)?);
    shown_with(alloc, attr, &put_disk_attr(&attr))
}

fn net(alloc: Global, words: &str) -> Option<String> {
    let attr = net_attr(&array(alloc, words)?);
    shown_with(alloc, attr, &put_net_attr(&attr))
}

// A descriptor, and the buffer of bytes a5 that it was written to.
fn descriptor(alloc: Global, words: &str) -> Option<String> {
    let desc = vdisk_msg::decode(&array(alloc, words)?);
    let mut out = filled(0xa5);
    vdisk_msg::encode(&desc, &mut out);
    shown_with(alloc, desc, &out)
}

// A net descriptor, and the buffer of bytes a5 that it was written to.
fn net_descriptor(alloc: Global, words: &str) -> Option<String> {
    let desc = vnet_msg::decode(&array(alloc, words)?);
    let mut out = filled(0xa5);
    vnet_msg::encode(&desc, &mut out);
    shown_with(alloc, desc, &out)
}

fn holds_frame(alloc: Global, words: &str) -> Option<String> {
    let desc = vnet_msg::decode(&array(alloc, words)?);
    shown(alloc, vnet_msg::holds_frame(&desc))
}

fn cookie(alloc: Global, words: &str) -> Option<String> {
    let bytes: [u8; 16] = array(alloc, words)?;
    let mut cookies = [Cookie::NONE];
    get_cookies(&bytes, 0, &mut cookies);
    let mut out = filled::<16>(0);
    put_cookies(&mut out, 0, &cookies);
    shown_with(alloc, cookies, &out)
}
