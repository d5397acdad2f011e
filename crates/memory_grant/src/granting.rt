// Pages are granted one after another.

ghost use Rattle.std.specs.Prelude.{◌≡◌, ◌≤◌, IfOk, Some, set};
ghost use Rattle.cookie_copy.specs.Identity.{IsIdentity, own_entry};
ghost use Rattle.map_table.specs.Table.{first_free};
ghost use Rattle.lane_models.specs.OwnMemory.{own_table};

use map_table::{MapTable, Rights};
use std::alloc::Global;
use vio_bytes::NoMemory;

/// Grants a page with both rights, at its own index.
fn grant_own(table: &mut MapTable, page: u32)
    requires { first_free table.old ≡ Some page }
    ensures { table.new ≡ set table.old page (Some (own_entry page)) }
{
    let rights = Rights {
        read: true,
        write: true,
    };
    let _index = table.grant(page, rights);
}

/// The table that grants each of so many pages, 1 to 1,028, at its own index, with both rights. Its one refusal is for
/// want of memory.
pub fn own_table(alloc: Global, pages: u32) -> Result<MapTable, NoMemory>
    requires some { 1 ≤ pages }
    requires most { pages ≤ 1028 }
    ensures is { IfOk result (λ table. table ≡ own_table pages) }
    ensures own { IfOk result (λ table. IsIdentity table pages) }
{
    let mut table = MapTable::new(alloc, pages)?;
    for page in 0..pages {
        grant_own(&mut table, page);
    }
    Ok(table)
}
