// Parts of a slice that are as long as they can be.
ghost use Rattle.std.specs.Prelude.{◌≡◌, ◌≤◌, length, take, drop};

// What is left behind so many items.
pub fn behind<T>(items: &[T], count: usize) -> &[T]
    ensures { result.now ≡ drop count items.now }
{
    items.get(count..).unwrap_or_default()
}

// So many items at the most.
pub fn up_to<T>(items: &[T], count: usize) -> &[T]
    ensures is { result.now ≡ take count items.now }
    ensures short { length result.now ≤ count }
{
    items.get(..count).unwrap_or(items)
}
