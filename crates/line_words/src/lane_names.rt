// The names of a lane and of its ends.
ghost use Rattle.std.specs.Prelude.{◌≡◌, ◌+◌, ◌≤◌, ◌++◌, length};
ghost use Rattle.line_words.specs.LineWords.{side_text};

use crate::side_word;
use domain_script::Side;
use gathered_text::{SHORT_ROOM, ShortText};
use std::marker::Model;

/// The name of a lane and those of its ends. A clause sees the lane's.
#[derive(Drop)]
pub struct LaneNames {
    lane: ShortText,
    client: ShortText,
    server: ShortText,
}

impl Model for LaneNames {
    ghost use Rattle.std.specs.Prelude.{◌≡◌, ℕ, List, ◌++◌};
    ghost use Rattle.domain_script.specs.declared.event.Side.TheVariants.{Client, Server};
    ghost use Rattle.line_words.specs.LineWords.{side_text};

    ghost Value = { List ℕ };

    ghost view = { λ n. n.lane };

    ghost invariant = { λ n. (n.client ≡ n.lane ++ side_text Client) × (n.server ≡ n.lane ++ side_text Server) };
}

impl LaneNames {
    /// Those of the lane with this name.
    pub fn new(name: &[u8]) -> Self
        requires { length name.now ≤ 8 }
        ensures { result ≡ name.now }
    {
        LaneNames {
            lane: joined(name, b""),
            client: joined(name, side_word(Side::Client)),
            server: joined(name, side_word(Side::Server)),
        }
    }

    /// The lane's.
    pub fn lane(&self) -> &ShortText
        ensures { result.now ≡ self.now }
    {
        &self.lane
    }

    /// That of an end.
    pub fn end(&self, side: Side) -> &ShortText
        ensures { result.now ≡ self.now ++ side_text side }
    {
        match side {
            Side::Client => &self.client,
            Side::Server => &self.server,
        }
    }
}

/// Bytes, and others after them.
fn joined(front: &[u8], behind: &[u8]) -> ShortText
    requires { length front.now + length behind.now ≤ SHORT_ROOM }
    ensures { result ≡ front.now ++ behind.now }
{
    let mut text = ShortText::new();
    text.push(front);
    text.push(behind);
    text
}
