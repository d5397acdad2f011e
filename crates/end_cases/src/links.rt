// A channel with a link at each end.

use crate::answers::{sent_text, took_text};
use crate::cases::Stage;
use crate::digits::{message, packet, shown, word_of};
use ldc_link::{Link, Role, SendOut, TakeOut};
use ldc_queue::{Channel, ChannelState, End};
use std::alloc::Global;

/// The link at A begins the handshake.
#[derive(Drop)]
pub struct Links {
    channel: Channel,
    a: Link,
    b: Link,
}

impl Stage for Links {
    // `channel`, with no end configured.
    fn begin(alloc: Global, words: &[&str]) -> Option<Links> {
        match words {
            ["channel"] => Some(Links {
                channel: Channel::new(alloc, 8).ok()?,
                a: Link::new(Role::Initiator),
                b: Link::new(Role::Responder),
            }),
            _ => None,
        }
    }

    fn step(&mut self, alloc: Global, words: &[&str], _wanted: &str) -> Option<String> {
        let Links { channel, a, b } = self;
        match words {
            ["A", "passes"] => passes(alloc, channel, a, End::A, b),
            ["B", "passes"] => passes(alloc, channel, b, End::B, a),
            ["A", call] => asked(alloc, channel, a, End::A, call),
            ["B", call] => asked(alloc, channel, b, End::B, call),
            ["A", call, bytes] => given(alloc, channel, a, End::A, call, bytes),
            ["B", call, bytes] => given(alloc, channel, b, End::B, call, bytes),
            _ => None,
        }
    }
}

// A packet goes from an end to the other, whose link takes it.
fn passes(
    alloc: Global,
    channel: &mut Channel,
    from: &mut Link,
    end: End,
    to: &mut Link,
) -> Option<String> {
    match (put(from, channel, end), taken(to, channel, end.peer())) {
        (SendOut::Sent(sent), TakeOut::Took(took)) if sent == took => word_of(alloc, &sent),
        both => shown(alloc, &both),
    }
}

// A step of one word at an end with this link.
fn asked(
    alloc: Global,
    channel: &mut Channel,
    link: &mut Link,
    end: End,
    call: &str,
) -> Option<String> {
    match call {
        "joins" => {
            link.join(channel, end);
            shown(alloc, &channel.state(end))
        }
        "sends" => sent_text(alloc, &put(link, channel, end)),
        "up" => shown(alloc, &link.is_up()),
        "owes" => shown(alloc, &link.owes()),
        "message" => hex::encode(alloc, link.message()?).ok(),
        _ => channel_asked(alloc, channel, end, call),
    }
}

// A step with bytes. What is heard, `it`, the other end never put.
fn given(
    alloc: Global,
    channel: &mut Channel,
    link: &mut Link,
    end: End,
    call: &str,
    bytes: &str,
) -> Option<String> {
    match call {
        "puts" => shown(alloc, &channel.put(end, &packet(bytes)?)),
        "offers" => shown(alloc, &offers(link, &message(alloc, bytes)?)),
        "hears" => {
            channel.forge(end, &packet(bytes)?).ok()?;
            let text = took_text(alloc, &taken(link, channel, end))?;
            text.as_str().replace(alloc, bytes, "it").ok()
        }
        _ => None,
    }
}

// A step of the channel alone.
fn channel_asked(alloc: Global, channel: &mut Channel, end: End, call: &str) -> Option<String> {
    let mut packet = [0; 64];
    match call {
        "configures" => {
            channel.configure(end);
            shown(alloc, &channel.state(end))
        }
        "takes" => match channel.take(end) {
            Ok(Some(packet)) => word_of(alloc, &packet),
            other => shown(alloc, &other),
        },
        "takes-over" => match channel.take_into(end, &mut packet) {
            Ok(true) => word_of(alloc, &packet),
            other => shown(alloc, &other),
        },
        "tx" => shown(alloc, &channel.tx_state(end)),
        "room" => shown(alloc, &channel.room(end)),
        _ => None,
    }
}

// The packet that a link puts at an end, if it can.
fn put(link: &mut Link, channel: &mut Channel, end: End) -> SendOut {
    if channel.state(end) == ChannelState::Up {
        link.send(channel, end)
    } else {
        SendOut::Blocked
    }
}

// What a link takes at an end, if it may.
fn taken(link: &mut Link, channel: &mut Channel, end: End) -> TakeOut {
    if channel.state(end) != ChannelState::Up || link.owes_control() {
        return TakeOut::Nothing;
    }
    match link.message() {
        Some(_) => TakeOut::Nothing,
        None => link.take(channel, end),
    }
}

fn offers(link: &mut Link, message: &[u8]) -> bool {
    link.is_up() && !message.is_empty() && message.len() <= 256 && link.offer(message).is_ok()
}
