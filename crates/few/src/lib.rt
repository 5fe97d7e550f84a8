// A list of fixed capacity, in a fixed place.
#![tactic(auto)]

ghost use Rattle.std.specs.Prelude.{◌≡◌, ◌-◌, ◌≤◌, [], ◌∷◌, ◌++◌, length, take, ⊤};

use std::alloc::AllocError;

// No place is free.
#[derive(Clone, Copy, PartialEq, Eq, Debug)]
pub struct Full;

// At most N items, in the order in which they came.
// Kept: an array with its count, since nothing is on a heap here; the count is private, and its limit a ghost field.
pub struct Few<T, const N: usize> {
    items: [T; N],
    count: usize,
    ghost within: { count ≤ N },
}

// Kept: Clone can't be derived over a ghost field with a type parameter.
impl<T: Copy, const N: usize> Copy for Few<T, N> {}

impl<T: Copy, const N: usize> Clone for Few<T, N> {
    ghost is_clone = { λ x y. y ≡ x };

    ghost is_infallible = { λ _. ⊤ };

    fn clone(&self) -> Result<Few<T, N>, AllocError> {
        Ok(*self)
    }
}

impl<T: Copy, const N: usize> Few<T, N> {
    ghost use Rattle.few.specs.Contents.{contents, pushed, last};

    // No items; `filler` stands in the free places.
    pub fn new(filler: T) -> Few<T, N>
        ensures { contents result ≡ [] }
    {
        Few {
            items: [filler; N],
            count: 0,
        }
    }

    // The items, the oldest first.
    pub fn as_slice(&self) -> &[T]
        ensures { result.now ≡ contents self.now }
    {
        &self.items[..self.count]
    }

    // How many places are free.
    pub fn room(&self) -> usize
        ensures { result ≡ N - length (contents self.now) }
    {
        N - self.count
    }

    // Appends an item, if there is room.
    pub fn push(&mut self, item: T) -> Result<(), Full>
        ensures answer { result ≡ pushed N (contents self.old) }
        ensures after { contents self.new ≡ take N (contents self.old ++ (item ∷ [])) }
    {
        let end = self.count;
        if end == N {
            return Err(Full);
        }
        self.items[end] = item;
        self.count = end + 1;
        Ok(())
    }

    // Appends as much of `part` as there is room for.
    #[tactic(auto, using(crate::proofs::Fitting::overwritten))]
    pub fn push_all(&mut self, part: &[T])
        ensures { contents self.new ≡ take N (contents self.old ++ part.now) }
    {
        let fitting = self.room().min(part.len());
        let end = self.count + fitting;
        let items = &mut self.items[..];
        items[self.count..end].copy_from_slice(&part[..fitting]);
        self.count = end;
    }

    // Forgets the items.
    pub fn clear(&mut self)
        ensures { contents self.new ≡ [] }
    {
        self.count = 0;
    }

    // Keeps the last `left` items.
    #[tactic(auto, using(crate::proofs::Fitting::overwritten))]
    pub fn keep_last(&mut self, left: usize)
        ensures { contents self.new ≡ last left (contents self.old) }
    {
        if left >= self.count {
            return;
        }
        let start = self.count - left;
        self.items.copy_within(start..self.count, 0);
        self.count = left;
    }
}
