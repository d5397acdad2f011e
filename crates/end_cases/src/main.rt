//! Cases of the channel, of links, of handshakes and of the two ends of a disk and of a port, against packets that are
//! written out. A case is text in `data/`: a line says what is made, and each line after it is a step, with what comes
//! of it after a colon. The program does every step, prints what differs, and ends with how many cases went as they are
//! written.
//!
//! The lines before a file's first case are done before each of its cases. A line that begins with a blank continues
//! the one before it, and `#` begins a comment. Bytes are hexadecimal digits, and `~` stands for zeros to the end of a
//! packet, or of a message of 56 bytes.
#![tactic(auto)]

mod answers;
mod cases;
mod digits;
mod disks;
mod handshakes;
mod lanes;
mod links;
mod offers;
mod ports;
mod requests;
mod resets;

use cases::{Tally, run_file};
use disks::Disk;
use handshakes::Handshakes;
use lanes::Lane;
use links::Links;
use ports::Port;
use std::io;

fn main(rt: HostRuntime) -> io::Result<()> {
    let mut all = Tally { cases: 0, steps: 0 };
    all.add(run_file::<Links, _>(&rt, "channels")?);
    all.add(run_file::<Links, _>(&rt, "links")?);
    all.add(run_file::<Handshakes, _>(&rt, "handshakes")?);
    all.add(run_file::<Disk, _>(&rt, "clients")?);
    all.add(run_file::<Lane, _>(&rt, "lanes")?);
    all.add(run_file::<Port, _>(&rt, "ports")?);
    all.add(run_file::<Disk, _>(&rt, "rounds")?);
    all.add(run_file::<Disk, _>(&rt, "servers")?);
    all.add(run_file::<Disk, _>(&rt, "stores")?);
    all.print(&rt, "all")
}
