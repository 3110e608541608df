// A few fields of a box, which go to a sink together.
ghost use Rattle.std.specs.Prelude.{◌≡◌, ◌+◌, ◌≤◌, ◌++◌, length};
ghost use Rattle.arrayvec.specs.ArrayVec.{array_vec_len};
ghost use Rattle.vod_bytes.specs.Fields.{be32, be64};

use arrayvec::ArrayVec;

// The bytes of some fields, at most 64 of them.
pub type Fields = ArrayVec<u8, 64>;

// Adds bytes as they are.
pub fn put_bytes(fields: &mut Fields, bytes: &[u8])
    requires { array_vec_len fields.old + length bytes.now ≤ 64 }
    ensures items { fields.new.items ≡ fields.old.items ++ bytes.now }
    ensures len { array_vec_len fields.new ≡ array_vec_len fields.old + length bytes.now }
{
    fields.try_extend_from_slice(bytes).unwrap()
}

// Adds a number of 32 bits, most significant byte first.
pub fn put_u32(fields: &mut Fields, n: u32)
    requires { array_vec_len fields.old + 4 ≤ 64 }
    ensures items { fields.new.items ≡ fields.old.items ++ be32 n }
    ensures len { array_vec_len fields.new ≡ array_vec_len fields.old + 4 }
{
    put_bytes(fields, &n.to_be_bytes())
}

// Adds a number of 64 bits, most significant byte first.
pub fn put_u64(fields: &mut Fields, n: u64)
    requires { array_vec_len fields.old + 8 ≤ 64 }
    ensures items { fields.new.items ≡ fields.old.items ++ be64 n }
    ensures len { array_vec_len fields.new ≡ array_vec_len fields.old + 8 }
{
    put_bytes(fields, &n.to_be_bytes())
}
