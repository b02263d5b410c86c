//! What stands at an offset of bytes. Nothing here takes memory or fails: the caller proves that the
//! bytes reach far enough.

ghost use Rattle.std.specs.Prelude.{◌≡◌, ◌+◌, ◌≤◌, length};
ghost use Rattle.ddt_entry.specs.Bytes.{bytes_at, number_at};

use byteorder::{ByteOrder, LittleEndian};

/// The little-endian number in the 4 bytes at an offset.
pub fn u32_at(bytes: &[u8], offset: usize) -> u32
    requires { offset + 4 ≤ length bytes.now }
    ensures { result ≡ number_at 4 offset bytes.now }
{
    LittleEndian::read_u32(bytes.split_at(offset).1)
}

/// The little-endian number in the 8 bytes at an offset.
pub fn u64_at(bytes: &[u8], offset: usize) -> u64
    requires { offset + 8 ≤ length bytes.now }
    ensures { result ≡ number_at 8 offset bytes.now }
{
    LittleEndian::read_u64(bytes.split_at(offset).1)
}

/// The `N` bytes at an offset.
pub fn array_at<const N: usize>(bytes: &[u8], offset: usize) -> [u8; N]
    requires { offset + N ≤ length bytes.now }
    ensures { result ≡ bytes_at N offset bytes.now }
{
    let part = bytes.split_at(offset).1.split_at(N).0;
    let mut array = [0u8; N];
    array.copy_from_slice(part);
    array
}
