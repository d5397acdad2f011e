// How near the image is to the content of the requests that are done.

ghost use Rattle.std.specs.Prelude.{◌≡◌};
ghost use Rattle.lane_models.specs.LaneState.{near_done, near_finished};
ghost use Rattle.lane_models.specs.LaneStep.{stored_blocks};

use std::marker::Model;
use vdisk_msg::VD_OP_BWRITE;

/// Of the pending requests: how many, from the first on, the server finished in this session, how many were published
/// in an earlier session, and how many blocks it stored of the write after those that it finished. A count that rises
/// stands still at its last value.
#[derive(Drop)]
pub struct Near {
    finished: u32,
    replayed: u32,
    stored: u32,
}

impl Model for Near {
    ghost use Rattle.lane_models.specs.LaneState.{NearCounts};

    ghost Value = { NearCounts };

    ghost view = { λ n. record { k = n.finished; m = n.replayed; u = n.stored } };
}

impl Near {
    /// Nothing is pending.
    pub fn new() -> Near
        ensures { result ≡ record { k = 0; m = 0; u = 0 } }
    {
        Near {
            finished: 0,
            replayed: 0,
            stored: 0,
        }
    }

    /// A session ends, in which or before which so many of the pending requests were published.
    pub fn disturb(&mut self, published: u32)
        ensures { self.new ≡ record { k = 0; m = published; u = 0 } }
    {
        *self = Near {
            finished: 0,
            replayed: published,
            stored: 0,
        };
    }

    /// The first pending request is done.
    pub fn complete(&mut self)
        ensures { self.new ≡ near_done self.old }
    {
        self.finished = self.finished.saturating_sub(1);
        self.replayed = self.replayed.saturating_sub(1);
    }

    /// The server finished one more.
    pub fn finish(&mut self)
        ensures { self.new ≡ near_finished self.old }
    {
        self.finished = self.finished.saturating_add(1);
        self.stored = 0;
    }

    /// The server called its store for so many blocks.
    pub fn store(&mut self, operation: u8, count: u32, failed: bool)
        ensures { self.new ≡ record self.old { u = stored_blocks operation count failed self.old.u } }
    {
        if !failed && operation == VD_OP_BWRITE {
            self.stored = self.stored.saturating_add(count);
        }
    }
}
