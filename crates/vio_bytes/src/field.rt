// Fields of a layout by their place in its table.

/// The number in the `k`-th field of a layout: calls `get`, the function of that field's width, at
/// the place that the table has for it. The layout's law pins its places and widths, and the
/// caller's contract the width that is read: so neither can be another.
///
/// `get_field!(get_u32, PACKET_HEAD, bytes, SEQID)`
#[macro_export]
macro_rules! get_field {
    ($get:expr, $table:expr, $bytes:expr, $k:expr) => {
        $get($bytes, $table.fields[$k].0)
    };
}

/// Writes the number into the `k`-th field of a layout: calls `put`, the function of that field's
/// width, at the place that the table has for it.
///
/// `put_field!(put_u32, PACKET_HEAD, bytes, SEQID, seqid)`
#[macro_export]
macro_rules! put_field {
    ($put:expr, $table:expr, $bytes:expr, $k:expr, $value:expr) => {
        $put($bytes, $table.fields[$k].0, $value)
    };
}
