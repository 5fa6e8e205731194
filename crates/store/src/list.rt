// The list: the memory lent, how much of it is in use, and what a call does to the entries in use and the room.
ghost use Rattle.std.specs.Prelude.{◌≡◌, ◌<◌, ◌≤◌, [], ◌∷◌, ◌++◌, length, take, OnOk, OnErr, IfErr, slice_set};
ghost use Rattle.std.specs.List.{slice_get};

/// A list in lent memory. Its meaning is `entries` and `room` of specs/Entries.antt: the first `used` elements
/// of `items` are in use (all of them where `used` is larger), and `items` is the room.
// Lent memory with a count beside it, and no `Vec`: the library has no heap. That `used` is at most the memory's length
// could be an invariant, of a ghost field or of a `Model`; both prove. But then the calls would take fewer lists than they
// do, so the entries are defined for every count instead.
// No derive but `Drop`: a derived comparison or `Debug` would read the free memory too.
#[derive(Drop)]
pub struct Store<'a, T> {
    pub items: &'a mut [T],
    pub used: usize,
}

impl<'a, T> Store<'a, T> {
    ghost use Rattle.store.specs.Entries.{entries, room};

    /// A list over this memory, with nothing in use.
    pub fn new(items: &'a mut [T]) -> Self
        ensures entries { entries result ≡ [] }
        ensures room { room result ≡ length items.old }
    {
        Store { items, used: 0 }
    }

    /// How many entries are in use.
    pub fn len(&self) -> usize
        ensures { result ≡ length (entries self.now) }
    {
        self.used.min(self.items.len())
    }

    /// How many entries can be in use.
    pub fn room(&self) -> usize
        ensures { result ≡ room self.now }
    {
        self.items.len()
    }

    /// The entries in use.
    pub fn entries(&self) -> &[T]
        ensures { result.now ≡ entries self.now }
    {
        &self.items[..self.len()]
    }

    /// Keeps the first `n` entries, or all where there are no more than that.
    pub fn truncate(&mut self, n: usize)
        ensures entries { entries self.new ≡ take n (entries self.old) }
        ensures room { room self.new ≡ room self.old }
    {
        if n < self.used {
            self.used = n;
        }
    }
}

impl<'a, T: Copy> Store<'a, T> {
    ghost use Rattle.store.specs.Entries.{entries};

    /// The entry at a place, or `None` where none is in use there.
    pub fn get(&self, place: usize) -> Option<T>
        ensures { result ≡ slice_get (entries self.now) place }
    {
        self.entries().get(place).copied()
    }
}

impl<'a, T: Drop> Store<'a, T> {
    ghost use Rattle.store.specs.Entries.{entries, room};

    /// Puts an entry behind those in use; where the list is full, gives the value back and changes nothing.
    // The value itself, and no error type around it: a list can only be full, and callers give a refusal of their own.
    pub fn push(&mut self, x: T) -> Result<(), T>
        ensures added { OnOk result (entries self.new ≡ entries self.old ++ x ∷ []) }
        ensures fits { OnOk result (length (entries self.old) < room self.old) }

        ensures full { OnErr result (length (entries self.old) ≡ room self.old) }
        ensures given_back { IfErr result (λ y. y ≡ x) }
        ensures unchanged { OnErr result (entries self.new ≡ entries self.old) }

        ensures room { room self.new ≡ room self.old }
    {
        if self.used >= self.items.len() {
            return Err(x);
        }
        self.items[self.used] = x;
        self.used += 1;
        Ok(())
    }

    /// Puts a value in the place of an entry; where none is in use there, gives it back and changes nothing.
    pub fn replace(&mut self, place: usize, x: T) -> Result<(), T>
        ensures replaced { OnOk result (entries self.new ≡ slice_set (entries self.old) place x) }
        ensures in_use { OnOk result (place < length (entries self.old)) }

        ensures not_in_use { OnErr result (length (entries self.old) ≤ place) }
        ensures given_back { IfErr result (λ y. y ≡ x) }
        ensures unchanged { OnErr result (entries self.new ≡ entries self.old) }

        ensures room { room self.new ≡ room self.old }
    {
        if place >= self.len() {
            return Err(x);
        }
        self.items[place] = x;
        Ok(())
    }
}
