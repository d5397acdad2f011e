// Arrays and bytes as a journal keeps them.

use ldom_report::Bytes;
use std::alloc::Global;
use std::test::Fail;
use trimmed_arrays::{NoMemory, TrimmedArray, TrimmedArrays};

/// How many bytes are kept of an array.
fn kept(alloc: Global, array: &[u8; 20]) -> Result<usize, NoMemory> {
    let mut arrays = TrimmedArrays::new(alloc, 20);
    arrays.reserve(1)?;
    arrays.push(array);
    match arrays.rest().next_array() {
        Some(array) => Ok(array.front().len()),
        None => Ok(0),
    }
}

#[test]
fn no_zero_at_an_array_s_end_is_kept(rt: HostRuntime) -> Result<(), NoMemory> {
    for front in 0..21 {
        let mut array = [0; 20];
        for byte in array.iter_mut().take(front) {
            *byte = 1;
        }
        assert!(rt; kept(rt.alloc(), &array)? == front);
    }
    Ok(())
}

/// What is read of an array: its front, and how long it is.
fn read(array: Option<TrimmedArray<'_>>) -> (&[u8], usize) {
    match array {
        Some(array) => (array.front(), array.len()),
        None => (&[], 0),
    }
}

/// Whether three fronts are read, each of an array of four bytes, and no more.
fn reads_three(arrays: &TrimmedArrays) -> bool {
    let mut rest = arrays.rest();
    for front in [&[1][..], &[], &[0, 2, 0, 3]] {
        if read(rest.next_array()) != (front, 4) {
            return false;
        }
    }
    rest.next_array().is_none()
}

#[test]
fn arrays_are_read_in_the_order_of_their_pushes(rt: HostRuntime) -> Result<(), NoMemory> {
    let mut arrays = TrimmedArrays::new(rt.alloc(), 4);
    arrays.reserve(3)?;
    arrays.push(&[1, 0, 0, 0]);
    arrays.push(&[0, 0, 0, 0]);
    arrays.push(&[0, 2, 0, 3]);
    assert!(rt; reads_three(&arrays));
    Ok(())
}

/// Whether these bytes are held, and so many.
fn holds(alloc: Global, bytes: &Bytes, all: &[u8]) -> Result<bool, NoMemory> {
    let held = bytes.to_vec(alloc)?;
    Ok(held.as_slice() == all && bytes.len() == all.len() && !bytes.is_empty())
}

/// 1,029 bytes, which aren't all the same.
fn many_bytes() -> [u8; 1029] {
    let mut all = [0xab; 1029];
    all[500..505].copy_from_slice(b"abcde");
    all
}

/// Whether bytes hold these, which they are filled with in three parts.
fn fills(alloc: Global, all: &[u8; 1029]) -> Result<bool, NoMemory> {
    let mut bytes = Bytes::with_room(alloc, 1029)?;
    bytes.fill(&all[..512]);
    bytes.fill(&all[512..514]);
    bytes.fill(&all[514..]);
    holds(alloc, &bytes, all)
}

/// Whether no bytes are empty.
fn none_are_empty(alloc: Global) -> bool {
    Bytes::empty(alloc).is_empty()
}

#[test]
fn bytes_fill_into_their_room(rt: HostRuntime) -> Result<(), Fail> {
    assert!(rt; fills(rt.alloc(), &many_bytes())?);
    assert!(rt; none_are_empty(rt.alloc()));
    Ok(())
}
