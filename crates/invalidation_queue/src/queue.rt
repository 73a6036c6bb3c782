//! A queue of numbers that forgets where more come than it has room for.

ghost use Rattle.std.specs.Prelude.{◌≡◌, ◌==◌, ◌∷◌, ◌++◌, ◌≤◌, ℕ, List, [], IfOk, length, slice_get};
ghost use Rattle.invalidation_queue.specs.Queued.{pushed, queued};

use circular_buffer::HeapCircularBuffer;
use std::alloc::{AllocError, Global};
use std::marker::Model;

/// The numbers that were pushed since the last clear, in order, or just that they were more than the
/// queue has room for. Its room is taken when it is made, so that no push takes memory. Contracts see the
/// numbers, whether some were forgotten, and the capacity; where some were forgotten, no number is left.
#[derive(Drop)]
pub struct Queue {
    numbers: HeapCircularBuffer<u64>,
    forgotten: bool,
}

impl Model for Queue {
    ghost use Rattle.invalidation_queue.specs.Queued.{Queued, IsWithin};

    ghost Value = { Queued };

    ghost view = { λ a. record { numbers = a.numbers.items; forgotten = a.forgotten; capacity = a.numbers.capacity } };

    ghost invariant = { λ a. IsWithin (record { numbers = a.numbers.items; forgotten = a.forgotten; capacity = a.numbers.capacity }) };
}

impl Queue {
    /// An empty queue with room for so many numbers, which may be 0. The one error is want of memory.
    pub fn with_capacity(alloc: Global, capacity: usize) -> Result<Queue, AllocError>
        ensures { IfOk result (λ queue. queue ≡ queued capacity []) }
    {
        Ok(Queue {
            numbers: HeapCircularBuffer::with_capacity(alloc, capacity)?,
            forgotten: false,
        })
    }

    /// Pushes a number. A full queue forgets all that it has, and takes no further number until it is
    /// cleared.
    pub fn push(&mut self, number: u64)
        ensures pushed { self.new ≡ pushed self.old number }
        ensures since { (numbers : List ℕ) → self.old ≡ queued self.old.capacity numbers → self.new ≡ queued self.old.capacity (numbers ++ number ∷ []) }
    {
        if self.forgotten {
            return;
        }
        if self.numbers.is_full() {
            self.numbers.clear();
            self.forgotten = true;
        } else {
            self.numbers.push_back(number);
        }
    }

    /// How many numbers there are: none where some were forgotten.
    pub fn len(&self) -> usize
        ensures count { result ≡ length self.now.numbers }
        ensures fits { result ≤ self.now.capacity }
    {
        self.numbers.len()
    }

    /// Whether there is no number. Some may have been forgotten.
    pub fn is_empty(&self) -> bool
        ensures { result ≡ (length self.now.numbers == 0) }
    {
        self.numbers.is_empty()
    }

    /// The number at this place, counted from 0, the earliest first; None behind the last one.
    pub fn item(&self, place: usize) -> Option<u64>
        ensures { result ≡ slice_get self.now.numbers place }
    {
        self.numbers.get(place).copied()
    }

    /// Whether more numbers came since the last clear than the queue has room for.
    pub fn forgotten(&self) -> bool
        ensures { result ≡ self.now.forgotten }
    {
        self.forgotten
    }

    /// Drops all numbers, and that some were forgotten. The room stays.
    pub fn clear(&mut self)
        ensures { self.new ≡ queued self.old.capacity [] }
    {
        self.numbers.clear();
        self.forgotten = false;
    }
}
