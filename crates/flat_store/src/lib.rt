//! Images as flat lists of bytes: the stores in memory and over a file, the host with one image, and the host of the
//! program. The top call and its tests stand on it. A store is a list of bytes, and an answer `Failed` comes only with
//! its count.
#![tactic(auto)]

mod call_counts;
mod file_store;
mod image_file;
mod list_host;
mod mem_store;
mod region;
mod std_file;
mod std_host;
mod zero_store;

pub use call_counts::CallCounts;
pub use file_store::FileStore;
pub use image_file::{FileFault, ImageFile};
pub use list_host::ListHost;
pub use mem_store::MemStore;
pub use region::Region;
pub use std_file::StdFile;
pub use std_host::{HostDisk, StdHost};
pub use zero_store::ZeroStore;
