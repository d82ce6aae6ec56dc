// Lists in fixed memory.
ghost use Rattle.std.specs.Prelude.{◌≡◌, ◌<◌, ◌≤◌, ⊤, [], ◌∷◌, ◌++◌, length};

use std::alloc::AllocError;
use std::fmt;

// A list of at most N items: those before `count`.
#[derive(Drop)]
pub struct Few<T, const N: usize> {
    items: [T; N],
    count: usize,
    ghost fits: { count ≤ N },
}

impl<T: Copy, const N: usize> Copy for Few<T, N> {}

// By hand: a struct with a ghost field derives no `Clone`.
impl<T: Copy, const N: usize> Clone for Few<T, N> {
    ghost is_clone = { λ few copy. copy ≡ few };

    ghost is_infallible = { λ _. ⊤ };

    fn clone(&self) -> Result<Self, AllocError> {
        Ok(*self)
    }
}

impl<T: Copy + Default, const N: usize> Few<T, N> {
    ghost use Rattle.second.specs.Listed.{listed};

    // The list of no item.
    pub fn new() -> Self
        ensures { listed result ≡ [] }
    {
        Few {
            items: std::array::from_fn(|_| T::default()),
            count: 0,
        }
    }

    // Puts an item behind the others. Where there is no room for it the list stays as it is.
    pub fn push(&mut self, item: T)
        ensures room { length (listed self.old) < N → listed self.new ≡ listed self.old ++ item ∷ [] }
        ensures full { N ≤ length (listed self.old) → self.new ≡ self.old }
    {
        if self.count < N {
            self.items[self.count] = item;
            self.count += 1;
        }
    }

    // The items.
    pub fn as_slice(&self) -> &[T]
        ensures { result.now ≡ listed self.now }
    {
        &self.items[..self.count]
    }

    // The items, to be put into another order.
    pub fn as_mut_slice(&mut self) -> &mut [T]
        ensures { result.now ≡ listed self.old }
    {
        let count = self.count;
        let items = &mut self.items;
        let all = &mut items[..];
        &mut all[..count]
    }
}

// The first of the items, as many as there is room for.
impl<T: Copy + Default, const N: usize> From<&[T]> for Few<T, N> {
    fn from(items: &[T]) -> Self {
        let mut few = Few::new();
        for item in items {
            few.push(*item);
        }
        few
    }
}

// The bytes of a text, as many as there is room for.
impl<const N: usize> fmt::Write for Few<u8, N> {
    fn write_str(&mut self, text: &str) -> fmt::Result {
        for byte in text.as_bytes() {
            self.push(*byte);
        }
        Ok(())
    }
}
