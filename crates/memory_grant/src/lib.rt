//! The table by which a domain grants its own memory to the other end of a channel: each page at its own index, with
//! both rights. The lanes of disks and of ports begin with such tables.
#![tactic(auto)]

mod granting;

pub use granting::own_table;
