// Parts of a list that lie within it, however much is asked.
ghost use Rattle.std.specs.Prelude.{◌≡◌, take, drop};

// The first `n` items, or all where there are fewer.
pub fn first<T>(items: &[T], n: usize) -> &[T]
    ensures { result.now ≡ take n items.now }
{
    items.get(..n).unwrap_or(items)
}

// What comes after the first `n` items.
pub fn rest<T>(items: &[T], n: usize) -> &[T]
    ensures { result.now ≡ drop n items.now }
{
    items.get(n..).unwrap_or(&[])
}

// The first `n` bytes.
pub fn first_bytes(bytes: &[u8], n: usize) -> &[u8]
    ensures { result.now ≡ take n bytes.now }
{
    first(bytes, n)
}

// The first `n` numbers.
pub fn first_numbers(numbers: &[u32], n: usize) -> &[u32]
    ensures { result.now ≡ take n numbers.now }
{
    first(numbers, n)
}

// What comes after the first `n` numbers.
pub fn rest_numbers(numbers: &[u32], n: usize) -> &[u32]
    ensures { result.now ≡ drop n numbers.now }
{
    rest(numbers, n)
}
