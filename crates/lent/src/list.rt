// One growing list, for any record.
ghost use Rattle.std.specs.Prelude.{◌≡◌, ◌+◌, ◌<◌, ◌≤◌, [], ◌∷◌, ◌++◌, length, is_ok, MatchOption, MatchResult, nat_le, nat_lt, slice_index_or};
ghost use Rattle.lent.specs.Items.{items, room};

// The first `len` of the lent slots are in use; the list is full when all of them are. No `Vec`: the memory is the caller's.
#[derive(Drop)]
pub struct GrowList<'a, T> {
    slots: &'a mut [T],
    len: usize,
}

// The list is full.
#[derive(Clone, Copy)]
pub struct Full;

impl<'a, T: Copy> GrowList<'a, T> {
    pub fn new(slots: &'a mut [T]) -> GrowList<'a, T>
        ensures empty { items result ≡ [] }
        ensures room { room result ≡ length slots.old }
    {
        GrowList { slots, len: 0 }
    }

    pub fn len(&self) -> usize
        ensures value { result ≡ length (items self.now) }
        ensures within { result ≤ room self.now }
    {
        self.len.min(self.slots.len())
    }

    pub fn is_full(&self) -> bool
        ensures { result ≡ nat_le (room self.now) (length (items self.now)) }
    {
        self.slots.len() <= self.len
    }

    // One element more at the end; refused exactly where the list is full, and then nothing changes.
    pub fn push(&mut self, x: T) -> Result<(), Full>
        ensures items { MatchResult result (λ _. items self.new ≡ items self.old ++ x ∷ []) (λ _. self.new ≡ self.old) }
        ensures len { MatchResult result (λ _. length (items self.new) ≡ length (items self.old) + 1) (λ _. length (items self.new) ≡ length (items self.old)) }
        ensures room { room self.new ≡ room self.old }
        ensures refused { is_ok result ≡ nat_lt (length (items self.old)) (room self.old) }
    {
        if self.len >= self.slots.len() {
            return Err(Full);
        }
        self.slots[self.len] = x;
        self.len += 1;
        Ok(())
    }

    // The element at `i`, counted from 0.
    pub fn get(&self, i: usize) -> Option<T>
        ensures { MatchOption result (length (items self.now) ≤ i) (λ x. (i < length (items self.now)) × ((d : T) → x ≡ slice_index_or (items self.now) i d)) }
    {
        self.as_slice().get(i).copied()
    }

    // All elements, oldest first.
    pub fn as_slice(&self) -> &[T]
        ensures { result.now ≡ items self.now }
    {
        let len = self.len();
        &self.slots[..len]
    }
}
