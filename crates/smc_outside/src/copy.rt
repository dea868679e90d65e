ghost use Rattle.std.specs.Prelude.{◌≡◌, ◌++◌, length, take, drop, min};

// Copies the front of `from` to the front of `to`, at most `most` bytes, and answers how many.
pub(crate) fn copy_front(from: &[u8], most: usize, to: &mut [u8]) -> usize
    ensures count { result ≡ min most (min (length from.now) (length to.old)) }
    ensures copied { to.new ≡ take result from.now ++ drop result to.old }
{
    let count = most.min(from.len().min(to.len()));
    let (front, _) = from.split_at(count);
    to[..count].copy_from_slice(front);
    count
}
