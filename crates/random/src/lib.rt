// Pseudo-random numbers, the same in every run.
#![tactic(auto)]

ghost use Rattle.std.specs.Prelude.{◌≡◌, ℕ, true, ◌*◌, ◌/◌, ◌%◌, ◌^◌, ◌<◌, ◌≤◌, max, length, Contains};
ghost use Rattle.std.specs.Int.Bits.{bit_or};
ghost use Rattle.random.specs.Shifts.{shifted, multiplied, plainly_shifted};

use std::marker::Model;

// A source of numbers, one after another. What is made of a number is given once for all sources.
pub trait Numbers {
    // The source after a turn, and the number that it then gives.
    ghost turned: { Self → Self };

    ghost number: { Self → ℕ };

    fn next(&mut self) -> u64
        ensures state { self.new ≡ turned self.old }
        ensures number { result ≡ number self.new };

    // A number below `n`, or 0 where there is none.
    final fn below(&mut self, n: usize) -> usize
        ensures low { 0 < n → result < n }
        ensures least { result < max n 1 }
    {
        if n == 0 {
            return 0;
        }
        let x = self.next() >> 11;
        (x % n as u64) as usize
    }

    // True once in `n` times.
    final fn once_in(&mut self, n: usize) -> bool
        ensures { n ≤ 1 → result ≡ true }
    {
        self.below(n) == 0
    }

    // One of the items.
    final fn pick<'a, T>(&mut self, items: &'a [T]) -> &'a T
        requires { 0 < length items.now }
        ensures { Contains items.now result.now }
    {
        &items[self.below(items.len())]
    }
}

// By xorshift64*.
#[derive(Drop)]
pub struct Random {
    state: u64,
}

impl Model for Random {
    ghost Value = { ℕ };

    ghost view = { λ r. r.state };
}

impl Random {
    pub fn new(seed: u64) -> Random
        ensures { result ≡ bit_or seed 1 }
    {
        // the state is never 0, or all numbers would be
        Random { state: seed | 1 }
    }
}

impl Numbers for Random {
    ghost turned = { shifted };

    ghost number = { multiplied };

    fn next(&mut self) -> u64 {
        let mut x = self.state;
        x ^= x >> 12;
        x ^= x << 25;
        x ^= x >> 27;
        self.state = x;
        x.wrapping_mul(0x2545_f491_4f6c_dd1d)
    }
}

// By xorshift64, whose numbers are its states.
#[derive(Drop)]
pub struct Plain {
    state: u64,
}

impl Model for Plain {
    ghost Value = { ℕ };

    ghost view = { λ p. p.state };
}

impl Plain {
    pub fn new(seed: u64) -> Plain
        ensures { result ≡ seed }
    {
        Plain { state: seed }
    }
}

impl Numbers for Plain {
    ghost turned = { plainly_shifted };

    ghost number = { λ p. p };

    fn next(&mut self) -> u64 {
        let mut x = self.state;
        x ^= x << 13;
        x ^= x >> 7;
        x ^= x << 17;
        self.state = x;
        x
    }
}
