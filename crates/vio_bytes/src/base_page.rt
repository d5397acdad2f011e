/// The bytes of a page, 8 KiB: the base page of sun4v (`PAGE_SIZE` of Linux's page_64.h).
pub const PAGE: usize = 8192;
