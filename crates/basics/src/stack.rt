// A stack in an array, for every element and size. It grows towards the array's start, so that what it holds, the top first, is a rest of the array.
ghost use Rattle.std.specs.Prelude.{◌≡◌, ◌↔◌, ◌<◌, ◌≤◌, [], ◌∷◌, length, IsOk, OnOk, OnErr};

// In contracts a stack is the list of its entries. By the ghost field they are at most N, in any stack, also in one that lies in another type.
// Stays: an array and where it begins, since the methods of an `ArrayVec` want elements that are `Drop`, which not every `Copy` is known to be.
#[derive(Drop)]
pub struct Stack<T, const N: usize> {
    held: [T; N],
    from: usize,
    ghost within: { (from ≤ N) × (length held ≡ N) },
}

// The stack holds as many as it can.
#[derive(Clone, Copy, Debug, PartialEq, Eq)]
pub struct Full;

impl<T: Copy, const N: usize> Stack<T, N> {
    ghost use Rattle.basics.specs.Stacks.{top, below, entries};

    // An empty stack; `fill` is what the array holds where the stack holds nothing.
    pub fn new(fill: T) -> Self
        ensures { entries result ≡ [] }
    {
        Stack {
            held: [fill; N],
            from: N,
        }
    }

    pub fn top(&self) -> Option<T>
        ensures { result ≡ top (entries self.now) }
    {
        self.held.get(self.from).copied()
    }

    // How many it holds.
    pub fn depth(&self) -> usize
        ensures value { result ≡ length (entries self.now) }
        ensures fits { result ≤ N }
    {
        N - self.from
    }

    // Puts one on top, unless the stack is full.
    pub fn push(&mut self, x: T) -> Result<(), Full>
        ensures fits { IsOk result ↔ (length (entries self.old) < N) }
        ensures held { OnOk result (entries self.new ≡ x ∷ entries self.old) }
        ensures kept { OnErr result (entries self.new ≡ entries self.old) }
    {
        if self.from == 0 {
            return Err(Full);
        }
        self.from -= 1;
        self.held[self.from] = x;
        Ok(())
    }

    // Takes the top one off, if there is one.
    pub fn pop(&mut self)
        ensures { entries self.new ≡ below (entries self.old) }
    {
        if self.from < N {
            self.from += 1;
        }
    }
}
