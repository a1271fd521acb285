// The front of one slice, copied into the front of another.
ghost use Rattle.std.specs.Prelude.{◌≡◌, ◌++◌, min, length, take, drop};

/// Copies as many bytes as there are and `into` has room for, and answers how many.
pub(crate) fn copy_front(bytes: &[u8], into: &mut [u8]) -> usize
    ensures count { result ≡ min (length into.old) (length bytes.now) }
    ensures copied { into.new ≡ take result bytes.now ++ drop result into.old }
{
    let count = into.len().min(bytes.len());
    into[..count].copy_from_slice(&bytes[..count]);
    count
}
