// Shelves: bounded lists of elements of one kind, in order, in memory that the caller lends.
#![tactic(auto)]

ghost use Rattle.std.specs.Prelude.{◌≡◌, ◌↔◌, ℕ, ◌+◌, ◌-◌, ◌<◌, ◌≤◌, min, [], ◌∷◌, ◌++◌, length, take, drop, nat_le, slice_get, slice_set, Some, IsOk, IfOk, OnOk, IfErr, OnErr};
ghost use Rattle.std.proofs.Math.Seq.{paste};
ghost use Rattle.refusal.specs.declared.Refusal.TheVariants.{ShelfFull, PastCount};
ghost use Rattle.shelf.specs.Held.{IsBounded, memory_of};
ghost use Rattle.shelf.specs.Runs.{without_run, slid_down};

use refusal::Refusal;
use std::marker::Model;

#[cfg(test)]
mod tests;

// The most elements that a shelf holds, however large its memory.
const MOST: usize = 1_073_741_824;

/// A list of elements in lent memory, and the most elements that it can hold: as many as the memory holds, and at most
/// 1,073,741,824. Each call tells that the shelf holds no more (`IsBounded`). A call that refuses leaves the memory behind the
/// elements as it was, too; one that is carried out may leave anything there.
#[derive(Drop)]
pub struct Shelf<'a, T> {
    // lent, with a count beside it: a Vec would own its memory
    memory: &'a mut [T],
    count: usize,
}

// The elements are the front of the memory, as far as the count goes; what stands past them is spare.
impl<'a, T> Model for Shelf<'a, T> {
    ghost use Rattle.std.specs.Prelude.{◌≤◌, length, take, drop, min};
    ghost use Rattle.shelf.specs.Held.{Held};

    ghost Value = { Held T };

    ghost view = { λ s. record {
      items = take s.count s.memory.now;
      most = min (length s.memory.now) 1073741824;
      spare = drop s.count s.memory.now;
    } };

    ghost invariant = { λ s. s.count ≤ min (length s.memory.now) 1073741824 };
}

impl<'a, T: Copy> Shelf<'a, T> {
    /// A shelf that holds none, in memory that is left as it is.
    pub fn new(memory: &'a mut [T]) -> Shelf<'a, T>
        ensures items { result.items ≡ [] }
        ensures most { result.most ≡ min (length memory.old) 1073741824 }
        ensures spare { result.spare ≡ memory.old }
        ensures bounded { IsBounded result }
    {
        Shelf { memory, count: 0 }
    }

    /// How many elements it can hold.
    pub fn capacity(&self) -> usize
        ensures value { result ≡ self.now.most }
        ensures bounded { IsBounded self.now }
    {
        self.memory.len().min(MOST)
    }

    /// How many elements it holds.
    pub fn count(&self) -> usize
        ensures value { result ≡ length self.now.items }
        ensures bounded { IsBounded self.now }
    {
        self.count // never past the capacity, by its type
    }

    /// How many more elements it can hold.
    pub fn space_left(&self) -> usize
        ensures value { result ≡ self.now.most - length self.now.items }
        ensures bounded { IsBounded self.now }
    {
        self.capacity() - self.count
    }

    /// Its elements, lent for reading.
    pub fn elements(&self) -> &[T]
        ensures value { result.now ≡ self.now.items }
        ensures bounded { IsBounded self.now }
    {
        &self.memory[..self.count]
    }

    /// Adds an element at the end, and answers the new count. Refuses with ShelfFull.
    pub fn put(&mut self, element: T) -> Result<usize, Refusal>
        ensures fits { IsOk result ↔ (length self.old.items < self.old.most) }
        ensures answer { IfOk result (λ n. n ≡ length self.new.items) }
        ensures refusal { IfErr result (λ e. e ≡ ShelfFull) }
        ensures items { OnOk result (self.new.items ≡ self.old.items ++ element ∷ []) }
        ensures most { self.new.most ≡ self.old.most }
        ensures memory { memory_of self.new ≡ memory_of self.old }
        ensures bounded { IsBounded self.new }
        ensures unchanged { OnErr result (self.new ≡ self.old) }
    {
        if self.space_left() == 0 {
            return Err(Refusal::ShelfFull);
        }
        store(self.memory, self.count, element);
        self.count += 1;
        Ok(self.count)
    }

    /// Adds all of the elements at the end, and answers the new count. Refuses with ShelfFull where they do not all fit, and
    /// then adds none.
    pub fn put_all(&mut self, elements: &[T]) -> Result<usize, Refusal>
        ensures fits { IsOk result ↔ (length self.old.items + length elements.now ≤ self.old.most) }
        ensures answer { IfOk result (λ n. n ≡ length self.new.items) }
        ensures refusal { IfErr result (λ e. e ≡ ShelfFull) }
        ensures items { OnOk result (self.new.items ≡ self.old.items ++ elements.now) }
        ensures most { self.new.most ≡ self.old.most }
        ensures memory { memory_of self.new ≡ memory_of self.old }
        ensures bounded { IsBounded self.new }
        ensures unchanged { OnErr result (self.new ≡ self.old) }
    {
        if elements.len() > self.space_left() {
            return Err(Refusal::ShelfFull);
        }
        lay(self.memory, self.count, elements);
        self.count += elements.len();
        Ok(self.count)
    }

    // The run of `count` elements at `position` ends within what the shelf holds. Their sum could wrap, so the difference is compared.
    fn has_run(&self, position: usize, count: usize) -> bool
        ensures value { result ≡ nat_le (position + count) (length self.now.items) }
        ensures bounded { IsBounded self.now }
    {
        position <= self.count && count <= self.count - position
    }

    /// The run of `count` elements at `position`, lent for reading. Refuses with PastCount.
    pub fn part(&self, position: usize, count: usize) -> Result<&[T], Refusal>
        ensures inside { IsOk result ↔ (position + count ≤ length self.now.items) }
        ensures run { IfOk result (λ r. r.now ≡ take count (drop position self.now.items)) }
        ensures refusal { IfErr result (λ e. e ≡ PastCount) }
        ensures bounded { IsBounded self.now }
    {
        if !self.has_run(position, count) {
            return Err(Refusal::PastCount);
        }
        Ok(&self.elements()[position..position + count])
    }

    /// The element at a position. Refuses with PastCount.
    pub fn read(&self, position: usize) -> Result<T, Refusal>
        ensures inside { IsOk result ↔ (position < length self.now.items) }
        ensures element { IfOk result (λ x. slice_get self.now.items position ≡ Some x) }
        ensures refusal { IfErr result (λ e. e ≡ PastCount) }
        ensures bounded { IsBounded self.now }
    {
        self.elements()
            .get(position)
            .copied()
            .ok_or(Refusal::PastCount)
    }

    /// Moves the run of `count` elements at `from` down to `to`, over what stood there; how many it holds stays. Refuses with
    /// PastCount, also where `to` is past `from`. Many gaps are closed in one pass by sliding down each run that stays, from
    /// the first on, and then truncating.
    pub fn slide(&mut self, from: usize, count: usize, to: usize) -> Result<(), Refusal>
        ensures inside { IsOk result ↔ ((to ≤ from) × (from + count ≤ length self.old.items)) }
        ensures refusal { IfErr result (λ e. e ≡ PastCount) }
        ensures items { OnOk result (self.new.items ≡ slid_down from count to self.old.items) }
        ensures most { self.new.most ≡ self.old.most }
        ensures memory { memory_of self.new ≡ memory_of self.old }
        ensures bounded { IsBounded self.new }
        ensures unchanged { OnErr result (self.new ≡ self.old) }
    {
        if !self.has_run(from, count) || to > from {
            return Err(Refusal::PastCount);
        }
        move_down(self.memory, from, count, to);
        Ok(())
    }

    /// Keeps the first `count` elements, and answers their count. Refuses with PastCount.
    pub fn truncate(&mut self, count: usize) -> Result<usize, Refusal>
        ensures inside { IsOk result ↔ (count ≤ length self.old.items) }
        ensures answer { IfOk result (λ n. n ≡ length self.new.items) }
        ensures refusal { IfErr result (λ e. e ≡ PastCount) }
        ensures items { OnOk result (self.new.items ≡ take count self.old.items) }
        ensures most { self.new.most ≡ self.old.most }
        ensures memory { memory_of self.new ≡ memory_of self.old }
        ensures bounded { IsBounded self.new }
        ensures unchanged { OnErr result (self.new ≡ self.old) }
    {
        if count > self.count {
            return Err(Refusal::PastCount);
        }
        self.count = count;
        Ok(count)
    }

    /// Removes the run of `count` elements at `position`, closes the gap, and answers the new count. Refuses with PastCount.
    pub fn take_off(&mut self, position: usize, count: usize) -> Result<usize, Refusal>
        ensures inside { IsOk result ↔ (position + count ≤ length self.old.items) }
        ensures answer { IfOk result (λ n. n ≡ length self.new.items) }
        ensures refusal { IfErr result (λ e. e ≡ PastCount) }
        ensures items { OnOk result (self.new.items ≡ without_run position count self.old.items) }
        ensures most { self.new.most ≡ self.old.most }
        ensures memory { memory_of self.new ≡ memory_of self.old }
        ensures bounded { IsBounded self.new }
        ensures unchanged { OnErr result (self.new ≡ self.old) }
    {
        if !self.has_run(position, count) {
            return Err(Refusal::PastCount);
        }
        let end = position + count;
        move_down(self.memory, end, self.count - end, position);
        self.count -= count;
        Ok(self.count)
    }
}

// Stores an element at a position.
fn store<T: Copy>(memory: &mut [T], position: usize, element: T)
    requires { position < length memory.old }
    ensures { memory.new ≡ slice_set memory.old position element }
{
    memory[position] = element;
}

// Lays elements from a position on.
fn lay<T: Copy>(memory: &mut [T], position: usize, elements: &[T])
    requires { position + length elements.now ≤ length memory.old }
    ensures { memory.new ≡ paste memory.old position elements.now (length elements.now) }
{
    let end = position + elements.len();
    memory[position..end].copy_from_slice(elements);
}

// Moves the run of `count` elements at `from` down to `to`, over what stood there.
fn move_down<T: Copy>(memory: &mut [T], from: usize, count: usize, to: usize)
    requires down { to ≤ from }
    requires inside { from + count ≤ length memory.old }
    ensures { memory.new ≡ slid_down from count to memory.old }
{
    memory.copy_within(from..from + count, to);
}
