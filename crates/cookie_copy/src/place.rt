// Where an address lies.

ghost use Rattle.std.specs.Prelude.{◌≡◌, ◌^◌, ◌<◌, true};
ghost use Rattle.cookie_copy.specs.Faults.{is_mapped};
ghost use Rattle.cookie_copy.specs.Moved.{place_of};

use map_table::MapTable;

/// The place in memory of a granted address.
pub(crate) fn place(table: &MapTable, address: u64) -> u64
    requires below { address < 2 ^ 60 }
    requires mapped { is_mapped table.now address ≡ true }
    ensures { result ≡ place_of table.now address }
{
    match table.look(address) {
        Ok(spot) => 8192 * spot.page as u64 + spot.offset as u64,
        Err(_) => unreachable!(),
    }
}
