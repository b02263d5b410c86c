//! Building the bytes of a sector from its front, piece by piece, in a value of fixed size. Nothing
//! here takes memory or fails: the caller proves that each part fits.

ghost use Rattle.std.specs.Prelude.{◌≡◌, ◌+◌, ◌-◌, ◌≤◌, ◌++◌, length};
ghost use Rattle.arrayvec.specs.ArrayVec.{array_vec_len};
ghost use Rattle.ddt_entry.specs.Bytes.{number_bytes, zeros};

use arrayvec::ArrayVec;

/// Appends a part that fits.
pub fn put<const N: usize>(front: &mut ArrayVec<u8, N>, part: &[u8])
    requires { array_vec_len front.old + length part.now ≤ N }
    ensures items { front.new.items ≡ front.old.items ++ part.now }
    ensures len { array_vec_len front.new ≡ array_vec_len front.old + length part.now }
{
    let _ = front.try_extend_from_slice(part);
}

/// Appends a number as 4 bytes, the lowest first.
#[tactic(auto, unfolding(ddt_entry::specs::Bytes::number_bytes))]
pub fn put_u32<const N: usize>(front: &mut ArrayVec<u8, N>, number: u32)
    requires { array_vec_len front.old + 4 ≤ N }
    ensures items { front.new.items ≡ front.old.items ++ number_bytes 4 number }
    ensures len { array_vec_len front.new ≡ array_vec_len front.old + 4 }
{
    put(front, &number.to_le_bytes());
}

/// Appends a number as 8 bytes, the lowest first.
#[tactic(auto, unfolding(ddt_entry::specs::Bytes::number_bytes))]
pub fn put_u64<const N: usize>(front: &mut ArrayVec<u8, N>, number: u64)
    requires { array_vec_len front.old + 8 ≤ N }
    ensures items { front.new.items ≡ front.old.items ++ number_bytes 8 number }
    ensures len { array_vec_len front.new ≡ array_vec_len front.old + 8 }
{
    put(front, &number.to_le_bytes());
}

/// Appends zeros up to a length in bytes.
pub fn pad_to<const N: usize>(front: &mut ArrayVec<u8, N>, len: usize)
    requires above { array_vec_len front.old ≤ len }
    requires fits { len ≤ N }
    ensures items { front.new.items ≡ front.old.items ++ zeros (len - array_vec_len front.old) }
    ensures len { array_vec_len front.new ≡ len }
{
    'zeros: for _ in front.len()..len {
        front.push(0);
    }
}

/// The bytes of a front that is full.
pub fn full_array<const N: usize>(front: ArrayVec<u8, N>) -> [u8; N]
    requires { array_vec_len front ≡ N }
    ensures { result ≡ front.entry.items }
{
    front.into_inner().unwrap()
}
