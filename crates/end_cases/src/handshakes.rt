// The handshakes of two ends, which are given each other's messages.

ghost use Rattle.std.specs.Prelude.{◌≢◌};
ghost use Rattle.vio_handshake.specs.declared.handshake.Phase.TheVariants.{Down};

use crate::cases::Stage;
use crate::digits::{message, shown, word_of};
use crate::offers::{client, guest, server, switch};
use ldc_link::Role;
use map_table::put_cookies;
use std::alloc::Global;
use vio_handshake::{Handshake, HsOut, Offer, Session};
use vio_tag::{Message, decode, encode};

/// A handshake whose link is up.
#[derive(Drop)]
struct Side {
    handshake: Handshake,
    ghost up: { handshake.phase ≢ Down },
}

/// The end at A begins.
#[derive(Drop)]
pub struct Handshakes {
    a: Side,
    b: Side,
}

impl Stage for Handshakes {
    // `disk MINOR MINOR` with the client's and the server's, or `port MINOR MINOR` with the guest's and the switch's.
    fn begin(_alloc: Global, words: &[&str]) -> Option<Handshakes> {
        match words {
            ["disk", own, peer] => Some(between(&client(minor(own)?), &server(minor(peer)?))),
            ["port", own, peer] => Some(between(&guest(minor(own)?), &switch(minor(peer)?))),
            _ => None,
        }
    }

    fn step(&mut self, alloc: Global, words: &[&str], wanted: &str) -> Option<String> {
        match words {
            ["turn"] => message_text(alloc, &self.turn()?, wanted),
            ["turns", count] => shown(alloc, &self.turns(count.parse::<u32>().ok()?)),
            ["A", call] => self.a.asked(alloc, call, wanted),
            ["B", call] => self.b.asked(alloc, call, wanted),
            ["A", "hears", bytes] => self.a.hears(alloc, bytes),
            ["B", "hears", bytes] => self.b.hears(alloc, bytes),
            _ => None,
        }
    }
}

fn minor(word: &str) -> Option<u16> {
    word.parse::<u16>().ok()
}

fn between(initiator: &Offer, responder: &Offer) -> Handshakes {
    Handshakes {
        a: Side::new(Role::Initiator, initiator),
        b: Side::new(Role::Responder, responder),
    }
}

impl Handshakes {
    // Passes the message that one of the two owes, and tells it.
    fn turn(&mut self) -> Option<Message> {
        if self.a.handshake.owes() {
            pass(&mut self.a, &mut self.b)
        } else {
            pass(&mut self.b, &mut self.a)
        }
    }

    // How many of so many turns pass a message.
    fn turns(&mut self, count: u32) -> u32 {
        let mut passed = 0u32;
        for _ in 0..count {
            passed = passed.saturating_add(u32::from(self.turn().is_some()));
        }
        passed
    }
}

// Puts the message that an end owes, and gives it to the other.
fn pass(from: &mut Side, to: &mut Side) -> Option<Message> {
    let message = from.put()?;
    match to.take(&message)? {
        HsOut::Fault(_) => None,
        HsOut::Nothing | HsOut::Opens => Some(message),
    }
}

impl Side {
    fn new(role: Role, offer: &Offer) -> Side {
        let mut handshake = Handshake::new(role, offer);
        handshake.link_up();
        Side { handshake }
    }

    fn put(&mut self) -> Option<Message> {
        let message = self.handshake.next()?;
        let _opens = self.handshake.sent();
        Some(message)
    }

    #[tactic(auto, using(crate::proofs::Begun::taken_is_up))]
    fn take(&mut self, message: &Message) -> Option<HsOut> {
        match self.handshake.next() {
            Some(_) => None,
            None => Some(self.handshake.take(message)),
        }
    }

    fn asked(&mut self, alloc: Global, call: &str, wanted: &str) -> Option<String> {
        match call {
            "puts" => message_text(alloc, &self.put()?, wanted),
            "owes" => shown(alloc, &self.handshake.owes()),
            "session" => session_text(alloc, &self.handshake.session()?),
            _ => None,
        }
    }

    fn hears(&mut self, alloc: Global, bytes: &str) -> Option<String> {
        let bytes = message(alloc, bytes)?;
        match self.take(&decode(&bytes).ok()?)? {
            HsOut::Fault(cause) => format!(in alloc; "fault {cause}").ok(),
            other => shown(alloc, &other),
        }
    }
}

// What is wanted, where that is the message's canonical bytes.
fn message_text(alloc: Global, said: &Message, wanted: &str) -> Option<String> {
    if is_spelled(said, &message(alloc, wanted)?) {
        wanted.to_string(alloc).ok()
    } else {
        shown(alloc, said)
    }
}

fn is_spelled(message: &Message, bytes: &[u8]) -> bool {
    match decode(bytes) {
        Ok(decoded) => {
            let mut out = [0; 256];
            let length = encode(&decoded, &mut out);
            decoded == *message && &out[..length] == bytes
        }
        Err(_) => false,
    }
}

fn session_text(alloc: Global, session: &Session) -> Option<String> {
    let Session {
        sid,
        minor,
        ident_own,
        ident_peer,
        peer_slots,
        peer_count,
        peer_cookies,
    } = session;
    let mut bytes = [0; 224];
    put_cookies(&mut bytes, 0, peer_cookies);
    let cookies = word_of(alloc, &bytes)?;
    let mut text = format!(in alloc;
        "sid={sid} minor={minor} own={ident_own} peer={ident_peer}"
    ).ok()?;
    write!(
        text,
        " slots={peer_slots} count={peer_count} cookies={cookies}"
    )
    .ok()?;
    Some(text)
}
