//! Values in the order of their arrival, which mostly leave in turn.
//!
//! Those that have left stand before the others for a while, so that the first leaves in one step, and another one by a step for each that
//! stands before it, or behind it, whichever are fewer. Once as many have left so as there is room for, the others move to the front.
ghost use Rattle.std.specs.Prelude.{◌≡◌, ◌+◌, ◌<◌, ◌≤◌, [], ◌∷◌, ◌++◌, IfOk, drop, get_or, length, set, vec_capacity};
ghost use Rattle.std.specs.List.{remove};

use cell_base::NoMemory;
use std::alloc::Global;
use std::marker::Model;

/// Values in the order of their arrival. Contracts see them, and how many more there is room for.
#[derive(Drop)]
pub struct InTurn<T> {
    /// First what has left, and then the values.
    places: Vec<T>,
    /// How many places have been left.
    gone: usize,
    room: usize,
}

impl<T> Model for InTurn<T> {
    ghost use Rattle.std.specs.Prelude.{◌-◌, drop, length, vec_capacity};
    ghost use Rattle.lists.specs.Shelves.{Shelved, shelved_code};
    ghost use Rattle.wait_queue.specs.Turns.{HasRoom};

    ghost Value = { Shelved T };

    ghost coded = { shelved_code T.code };

    ghost view = { λ s. record { items = drop s.gone s.places.items; spare = s.room - (length s.places.items - s.gone) } };

    ghost invariant = { λ s. HasRoom (length s.places.items) s.gone s.room (vec_capacity s.places) };
}

impl<T: Copy> InTurn<T> {
    /// None is there, and there is room for so many.
    pub fn with_room(alloc: Global, room: u16) -> Result<InTurn<T>, NoMemory>
        ensures { IfOk result (λ values. values ≡ record { items = []; spare = room }) }
    {
        let room = room as usize;
        Ok(InTurn {
            places: Vec::with_capacity(alloc, 2 * room)?,
            gone: 0,
            room,
        })
    }

    /// A value comes last. It takes no memory.
    pub fn push(&mut self, value: T)
        requires { 0 < self.old.spare }
        ensures items { self.new.items ≡ self.old.items ++ value ∷ [] }
        ensures spare { self.new.spare + 1 ≡ self.old.spare }
    {
        self.places.push_reserved(value);
    }

    /// Takes the value of an index out.
    pub fn take(&mut self, at: usize) -> T
        requires { at < length self.old.items }
        ensures value { result ≡ get_or self.old.items at result }
        ensures items { self.new.items ≡ remove self.old.items at }
        ensures spare { self.new.spare ≡ self.old.spare + 1 }
    {
        if at < self.as_slice().len() / 2 {
            return self.take_early(at);
        }
        self.places.remove(self.gone + at)
    }

    // The same by moving those before it.
    fn take_early(&mut self, at: usize) -> T
        requires { at < length self.old.items }
        ensures value { result ≡ get_or self.old.items at result }
        ensures items { self.new.items ≡ remove self.old.items at }
        ensures spare { self.new.spare ≡ self.old.spare + 1 }
    {
        let place = self.gone + at;
        let value = self.places[place];
        self.places.copy_within(self.gone..place, self.gone + 1);
        self.gone += 1;
        if self.gone >= self.room {
            drop_first(&mut self.places, self.gone);
            self.gone = 0;
        }
        value
    }

    /// Another value stands at an index.
    pub fn set(&mut self, at: usize, value: T)
        requires { at < length self.old.items }
        ensures items { self.new.items ≡ set self.old.items at value }
        ensures spare { self.new.spare ≡ self.old.spare }
    {
        self.places[self.gone + at] = value;
    }

    /// The values.
    pub fn as_slice(&self) -> &[T]
        ensures { result.now ≡ self.now.items }
    {
        &self.places[self.gone..]
    }
}

// The values after the first few move to the front.
fn drop_first<T: Copy>(values: &mut Vec<T>, few: usize)
    requires { few ≤ length values.old.items }
    ensures items { values.new.items ≡ drop few values.old.items }
    ensures capacity { vec_capacity values.new ≡ vec_capacity values.old }
{
    let left = values.len() - few;
    values.copy_within(few.., 0);
    values.truncate(left);
}
