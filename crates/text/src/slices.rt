// Parts of slices.
ghost use Rattle.std.specs.Prelude.{◌≡◌, min, take, drop};
ghost use Rattle.std.specs.Str.{bytes_eq};

// The items from a start on, as many as are wanted or there are.
pub fn slice_of<T>(items: &[T], start: usize, len: usize) -> &[T]
    ensures { result.now ≡ take len (drop start items.now) }
{
    let start = clip(start, items.len());
    let len = clip(len, items.len() - start);
    &items[start..start + len]
}

// `==` of slices, for literals too, which are arrays.
pub fn same_bytes(left: &[u8], right: &[u8]) -> bool
    ensures { result ≡ bytes_eq left.now right.now }
{
    left == right
}

fn clip(n: usize, limit: usize) -> usize
    ensures { result ≡ min n limit }
{
    n.min(limit)
}
