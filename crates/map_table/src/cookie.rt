/// A transport cookie: `size` bytes of the other domain's memory from `address` on
/// (`struct ldc_trans_cookie` of Linux's ldc.h).
///
/// The address holds the page size code in bits 60 to 63, the index of an entry of the map table
/// from bit 13 on, and below it the offset in the page.
#[derive(Clone, Copy, Debug, PartialEq, Eq)]
pub struct Cookie {
    pub address: u64,
    pub size: u64,
}

impl Cookie {
    /// The cookie of no memory, which stands in the places of a list that aren't used.
    pub const NONE: Cookie = Cookie {
        address: 0,
        size: 0,
    };
}
