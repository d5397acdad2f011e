// Big-endian numbers at places of a slice.

ghost use Rattle.std.specs.Prelude.{◌≡◌, ◌+◌, ◌<◌, ◌≤◌, length};
ghost use Rattle.byteorder.specs.Endian.{big_bytes};
ghost use Rattle.vio_bytes.specs.Place.{number_at, put_at};

use byteorder::{BigEndian, ByteOrder};

/// The byte at place `at`.
pub fn get_u8(bytes: &[u8], at: usize) -> u8
    requires { at < length bytes.now }
    ensures { result ≡ number_at 1 at bytes.now }
{
    bytes[at]
}

/// The big-endian number in the 2 bytes from place `at`.
pub fn get_u16(bytes: &[u8], at: usize) -> u16
    requires { at + 2 ≤ length bytes.now }
    ensures { result ≡ number_at 2 at bytes.now }
{
    BigEndian::read_u16(&bytes[at..])
}

/// The big-endian number in the 4 bytes from place `at`.
pub fn get_u32(bytes: &[u8], at: usize) -> u32
    requires { at + 4 ≤ length bytes.now }
    ensures { result ≡ number_at 4 at bytes.now }
{
    BigEndian::read_u32(&bytes[at..])
}

/// The big-endian number in the 8 bytes from place `at`.
pub fn get_u64(bytes: &[u8], at: usize) -> u64
    requires { at + 8 ≤ length bytes.now }
    ensures { result ≡ number_at 8 at bytes.now }
{
    BigEndian::read_u64(&bytes[at..])
}

/// Writes the byte at place `at`; all other bytes stay.
pub fn put_u8(bytes: &mut [u8], at: usize, value: u8)
    requires { at < length bytes.old }
    ensures { bytes.new ≡ put_at at (big_bytes 1 value) bytes.old }
{
    bytes[at] = value;
}

/// Writes the number big-endian into the 2 bytes from place `at`; all other bytes stay.
pub fn put_u16(bytes: &mut [u8], at: usize, value: u16)
    requires { at + 2 ≤ length bytes.old }
    ensures { bytes.new ≡ put_at at (big_bytes 2 value) bytes.old }
{
    BigEndian::write_u16(&mut bytes[at..], value);
}

/// Writes the number big-endian into the 4 bytes from place `at`; all other bytes stay.
pub fn put_u32(bytes: &mut [u8], at: usize, value: u32)
    requires { at + 4 ≤ length bytes.old }
    ensures { bytes.new ≡ put_at at (big_bytes 4 value) bytes.old }
{
    BigEndian::write_u32(&mut bytes[at..], value);
}

/// Writes the number big-endian into the 8 bytes from place `at`; all other bytes stay.
pub fn put_u64(bytes: &mut [u8], at: usize, value: u64)
    requires { at + 8 ≤ length bytes.old }
    ensures { bytes.new ≡ put_at at (big_bytes 8 value) bytes.old }
{
    BigEndian::write_u64(&mut bytes[at..], value);
}
