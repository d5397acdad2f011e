// The groups of a port.

ghost use Rattle.std.specs.Prelude.{◌≡◌, ◌+◌, ◌≤◌, [], ◌∷◌, ◌++◌, length, IfNone, IfSome, None, Some};
ghost use Rattle.lane_models.specs.Groups.{at_most_seven, groups_after, seven, with_groups, without_groups};

use arrayvec::ArrayVec;

/// The most groups of a list.
const MOST: usize = 7;

/// Room for seven addresses, of which those of the list come first.
pub fn seven(groups: &[[u8; 6]]) -> [[u8; 6]; 7]
    requires { length groups.now ≤ 7 }
    ensures { result ≡ seven 7 groups.now }
{
    let mut addresses = [[0; 6]; 7];
    addresses[..groups.len()].copy_from_slice(groups);
    addresses
}

/// The list after a message that names the first so many of these addresses, to be joined or left; none where it is
/// refused.
pub fn groups_after(
    set: u8,
    count: u8,
    addresses: &[[u8; 6]; 7],
    groups: &[[u8; 6]],
) -> Option<ArrayVec<[u8; 6], 7>>
    requires { length groups.now ≤ 7 }
    ensures some { IfSome result (λ list. groups_after set count addresses.now groups.now ≡ Some list.items) }
    ensures none { IfNone result (groups_after set count addresses.now groups.now ≡ None) }
{
    if count as usize > MOST {
        return None;
    }
    let named = &addresses[..count as usize];
    match set {
        1 => with_groups(groups, named),
        0 => Some(without_groups(groups, named)),
        _ => None,
    }
}

/// The list with the addresses that it lacks, where it has at most seven then.
fn with_groups(groups: &[[u8; 6]], named: &[[u8; 6]]) -> Option<ArrayVec<[u8; 6], 7>>
    requires few { length groups.now ≤ 7 }
    requires named { length named.now ≤ 7 }
    ensures some { IfSome result (λ list. at_most_seven (with_groups groups.now named.now) ≡ Some list.items) }
    ensures none { IfNone result (at_most_seven (with_groups groups.now named.now) ≡ None) }
{
    let mut all = ArrayVec::<[u8; 6], 14>::new();
    let _fit = all.try_extend_from_slice(groups);
    for address in named {
        add(&mut all, address);
    }
    if all.len() > MOST {
        return None;
    }
    let mut list = ArrayVec::new();
    let _fit = list.try_extend_from_slice(all.as_slice());
    Some(list)
}

/// Puts an address last where the list lacks it.
fn add(all: &mut ArrayVec<[u8; 6], 14>, address: &[u8; 6])
    requires { length all.old.items ≤ 13 }
    ensures list { all.new.items ≡ with_groups all.old.items (address.now ∷ []) }
    ensures more { length all.new.items ≤ length all.old.items + 1 }
{
    if !all.contains(address) {
        let _fit = all.try_push(*address);
    }
}

/// The list without the addresses that are named.
fn without_groups(groups: &[[u8; 6]], named: &[[u8; 6]]) -> ArrayVec<[u8; 6], 7>
    requires { length groups.now ≤ 7 }
    ensures { result.items ≡ without_groups groups.now named.now }
{
    let mut list = ArrayVec::new();
    for address in groups {
        keep(&mut list, address, named);
    }
    list
}

/// Puts an address last where it isn't named.
fn keep(list: &mut ArrayVec<[u8; 6], 7>, address: &[u8; 6], named: &[[u8; 6]])
    requires { length list.old.items ≤ 6 }
    ensures list { list.new.items ≡ list.old.items ++ without_groups (address.now ∷ []) named.now }
    ensures more { length list.new.items ≤ length list.old.items + 1 }
{
    if !named.contains(address) {
        let _fit = list.try_push(*address);
    }
}
