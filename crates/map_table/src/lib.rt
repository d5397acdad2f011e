//! Pages of memory that one domain grants to another, named by transport cookies.
//!
//! The codecs of messages and of descriptors stand on it, and copies between domains. Both codecs
//! carry lists of cookies, which are read and written here, each as its 16 bytes. The table is a list
//! of entries: a page is granted at the least free index, and an address is looked up by its index.
#![tactic(auto)]

mod codec;
mod cookie;
mod laws;
mod naming;
mod rights;
mod table;

pub use codec::{get_cookies, put_cookies};
pub use cookie::Cookie;
pub use laws::cookies_read_back;
pub use naming::cookie_of;
pub use rights::Rights;
pub use table::{Absent, Entry, LookFault, MapTable, Spot, TableFull};
