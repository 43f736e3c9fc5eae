// Slots past a count.
ghost use Rattle.std.specs.Prelude.{◌≡◌, ◌-◌, ◌++◌, length, take, replicate};

// Puts `zero` into each slot.
// Stays: the slice's own `fill` asks for a `clone` that cannot fail, which no contract promises of every `Copy` type.
fn fill<T: Copy>(slots: &mut [T], zero: T)
    ensures { slots.new ≡ replicate (length slots.old) zero }
{
    for slot in slots.iter_mut() {
        *slot = zero;
    }
}

// Puts `zero` into each slot from `from` on.
pub fn clear<T: Copy>(slots: &mut [T], from: usize, zero: T)
    ensures { slots.new ≡ take from slots.old ++ replicate (length slots.old - from) zero }
{
    if from < slots.len() {
        fill(&mut slots[from..], zero);
    }
}
