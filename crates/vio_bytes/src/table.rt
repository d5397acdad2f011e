// Layouts as tables of fields.

ghost use Rattle.std.specs.Prelude.{◌+◌, ◌≤◌, ◌↔◌, IsTrue};
ghost use Rattle.vio_bytes.specs.Layout.{IsFieldWidth, IsSoundTable};

/// The fields of a layout, in rising order.
///
/// Each field is its place, counted in bytes from the layout's first, and its width in bytes.
/// `length` is the whole layout's, also in bytes.
#[derive(Clone, Copy, Debug)]
pub struct Table<const N: usize> {
    pub fields: [(usize, usize); N],
    pub length: usize,
}

/// Whether each width is 1, 2, 4, 6 or 8, each field begins at or after the end of the field before
/// it, and the last ends at or before `length`.
pub fn table_is_sound<const N: usize>(table: &Table<N>) -> bool
    ensures { IsTrue result ↔ IsSoundTable table.now.fields table.now.length }
{
    let mut end = 0;
    for &(place, width) in table.fields.iter() {
        if !field_fits(place, width, end, table.length) {
            return false;
        }
        end = place + width;
    }
    true
}

// Whether a field has a width that a field may have, and lies between two places.
fn field_fits(place: usize, width: usize, from: usize, to: usize) -> bool
    ensures { IsTrue result ↔ (IsFieldWidth width × (from ≤ place) × (place + width ≤ to)) }
{
    let may_be_wide = matches!(width, 1 | 2 | 4 | 6 | 8);
    may_be_wide && from <= place && place <= to && width <= to - place
}
