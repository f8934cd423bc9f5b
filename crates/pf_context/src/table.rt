//! The table, and the calls that look a key up.

ghost use Rattle.std.specs.Prelude.{◌≡◌, ◌+◌, ◌^◌, ◌<◌, ◌↔◌, [], IfErr, IfNone, IfOk, IfSome, IsErrAnd, IsErrOf, IsOk, IsSome, OnErr, OnSome, length, option_copied};
ghost use Rattle.std.specs.Option.{option_copied_mut};
ghost use Rattle.std.specs.Borrow.{Lends, sem};
ghost use Rattle.pf_context.specs.Table.{HasFree, IsFirstFree, slot_at};

use crate::key::Key;
use std::alloc::Global;
use std::marker::Model;
use thiserror::Error;

/// The most slots of a table, since an index is a `u32`.
const MAX_SLOTS: usize = 1 << 32;

/// How many values a slot may hold, one after another, since a generation is a `u32`.
const GENERATIONS: u64 = 1 << 32;

/// A place for one value at a time. Its generation counts the values that were removed from it, so
/// that each value has a key of its own. A slot that has come to generation 2^32 has retired: no
/// key is left for another value.
#[derive(Drop)]
struct Slot<T> {
    generation: u64,
    value: Option<T>,
}

/// Values, each in a slot, under a key that says which slot and which generation of it. When a
/// value is removed, its slot is free for another, which gets another key. The table is made for
/// few values: `insert` and `len` go through the slots.
#[derive(Drop)]
pub struct Table<T> {
    slots: Vec<Slot<T>>,
}

impl<T> Model for Table<T> {
    ghost use Rattle.std.specs.Prelude.{◌^◌, ◌≤◌, List, length};
    ghost use Rattle.pf_context.specs.declared.table.Slot.{Slot};

    ghost Value = { List (Slot T) };

    ghost view = { λ t. t.slots.items };

    ghost invariant = { λ t. length t.slots.items ≤ 2 ^ 32 };
}

/// Why a table did not take a value.
#[derive(Clone, Copy, Debug, PartialEq, Eq, Error)]
pub enum TableError {
    /// There was no memory for another slot.
    #[error("out of memory")]
    OutOfMemory,
    /// No slot is free, and there are 2^32 of them.
    #[error("the table is full")]
    Full,
}

/// A value that a table did not take comes back, with the reason.
#[derive(Debug, Drop)]
pub struct Rejection<T> {
    /// The value.
    pub value: T,
    /// The reason.
    pub error: TableError,
}

impl<T> Slot<T> {
    ghost use Rattle.pf_context.specs.contracts.table.Slot.{the_row};

    // The value in the slot.
    fn value_mut(&mut self) -> &mut T
        requires { IsSome self.old.value }
        ensures* loan { sem 𝓛 (Lends (the_row T.row) T.row self.entry result
            (λ value. record self.entry.now { value = Some value })) }
        ensures value { self.old.value ≡ Some result.now }
    {
        match &mut self.value {
            Some(value) => value,
            None => unreachable!(),
        }
    }
}

// The index of the first slot that is free.
fn first_free<T>(slots: &[Slot<T>]) -> Option<usize>
    ensures within { IfSome result (λ index. index < length slots.now) }
    ensures first { IfSome result (IsFirstFree slots.now) }
    ensures none { IfNone result (IsFirstFree slots.now (length slots.now)) }
    ensures found { HasFree slots.now → IsSome result }
{
    slots.iter().position(|slot| slot.value.is_none() && slot.generation < GENERATIONS)
}

impl<T: Drop> Table<T> {
    ghost use Rattle.pf_context.specs.Table.{HasFree, IsFirstFree, IsFree, IsFull, IsNextKey, IsOut, key_at, slot_at, value_at, value_count, with_new_value, with_slot, with_value, with_value_out, without_value};
    ghost use Rattle.pf_context.specs.Loan.{LendsValue, LendsValueIf};

    /// A table of no values. Takes no memory.
    pub fn new(alloc: Global) -> Table<T>
        ensures { result ≡ [] }
    {
        Table {
            slots: Vec::new(alloc),
        }
    }

    /// How many values stand in the table.
    pub fn len(&self) -> usize
        ensures { result ≡ value_count self.now }
    {
        self.slots
            .iter()
            .filter(|slot| slot.value.is_some())
            .count()
    }

    /// The value that the key names, if there is one.
    pub fn get(&self, key: Key) -> Option<&T>
        ensures { option_copied result ≡ value_at self.now key }
    {
        let slot = self.slots.get(key.index as usize)?;
        if slot.generation != u64::from(key.generation) {
            return None;
        }
        slot.value.as_ref()
    }

    /// The value that the key names, if there is one, to be changed where it stands. When the loan
    /// ends, the key names what was left there, and nothing else has changed.
    pub fn get_mut(&mut self, key: Key) -> Option<&mut T>
        ensures* loan { sem 𝓛 (LendsValueIf T.row self.entry key result) }
        ensures value { option_copied_mut result ≡ value_at self.old key }
    {
        if self.get(key).is_some() {
            Some(self.value_mut(key))
        } else {
            None
        }
    }

    // The value that the key names.
    fn value_mut(&mut self, key: Key) -> &mut T
        requires { IsSome (value_at self.old key) }
        ensures* loan { sem 𝓛 (LendsValue T.row self.entry key result) }
        ensures value { value_at self.old key ≡ Some result.now }
    {
        self.slots[key.index as usize].value_mut()
    }

    /// Puts the value into the first free slot, or into a new one behind the last where none is
    /// free, and returns its key, which was never given out before. Takes memory only for a new
    /// slot. Where there is none, or no index is left for a new slot, the value comes back, and the
    /// table is as it was.
    pub fn insert(&mut self, value: T) -> Result<Key, Rejection<T>>
        ensures key { IfOk result (λ key. IsNextKey self.old key) }
        ensures table { IfOk result (λ key. self.new ≡ with_new_value self.old key value) }

        // A free slot is enough. A full table says so, and the only other error is no memory.
        ensures free { HasFree self.old → IsOk result }
        ensures full { IsErrAnd result (λ r. r.error ≡ TableError.Full) ↔ IsFull self.old }
        ensures back { IfErr result (λ r. r.value ≡ value) }
        ensures err { OnErr result (self.new ≡ self.old) }
    {
        match self.free_slot() {
            Ok(index) => Ok(self.fill(index, value)),
            Err(error) => Err(Rejection { value, error }),
        }
    }

    // Puts the value into a free slot, and returns its key.
    fn fill(&mut self, index: usize, value: T) -> Key
        requires within { index < length self.old }
        requires free { IsFree (slot_at self.old index) }
        ensures key { result ≡ key_at self.old index }
        ensures table { self.new ≡ with_value self.old result value }
    {
        let slot = &mut self.slots[index];
        slot.value = Some(value);
        Key {
            index: index as u32,
            generation: slot.generation as u32,
        }
    }

    // The index of the first free slot, which is a new one where none is free.
    fn free_slot(&mut self) -> Result<usize, TableError>
        ensures free { IfOk result (λ index. IsFirstFree self.old index) }
        ensures table { IfOk result (λ index. self.new ≡ with_slot self.old index) }
        ensures within { IfOk result (λ index. index < length self.new) }
        ensures same { IfOk result (λ index. slot_at self.new index ≡ slot_at self.old index) }
        ensures found { HasFree self.old → IsOk result }
        ensures full { IsErrOf result TableError.Full ↔ IsFull self.old }
        ensures err { OnErr result (self.new ≡ self.old) }
    {
        if let Some(index) = first_free(&self.slots) {
            return Ok(index);
        }
        let index = self.slots.len();
        if index == MAX_SLOTS {
            return Err(TableError::Full);
        }
        if self.slots.reserve(1).is_err() {
            return Err(TableError::OutOfMemory);
        }
        self.slots.push_reserved(Slot {
            generation: 0,
            value: None,
        });
        Ok(index)
    }

    /// Takes the value that the key names out of the table, if there is one. From then on the key
    /// is past, and names nothing ever after. Takes no memory.
    pub fn remove(&mut self, key: Key) -> Option<T>
        ensures value { result ≡ value_at self.old key }
        ensures table { OnSome result (self.new ≡ without_value self.old key) }
        ensures none { IfNone result (self.new ≡ self.old) }
    {
        let slot = self.slots.get_mut(key.index as usize)?;
        if slot.generation != u64::from(key.generation) {
            return None;
        }
        let value = slot.value.take()?;
        slot.generation += 1;
        Some(value)
    }

    /// Takes the value that the key names out for a while, if there is one, so that it can be
    /// changed beside the others; [`Table::put_back`] puts it back under its key. Until then the
    /// key names nothing, and its slot counts as free: a value that is inserted meanwhile may get
    /// this very key. Takes no memory.
    pub fn take_out(&mut self, key: Key) -> Option<T>
        ensures value { result ≡ value_at self.old key }
        ensures table { OnSome result (self.new ≡ with_value_out self.old key) }
        ensures out { OnSome result (IsOut self.new key) }
        ensures none { IfNone result (self.new ≡ self.old) }
    {
        let held = self.slots.get_mut(key.index as usize)?;
        if held.generation != u64::from(key.generation) {
            return None;
        }
        held.value.take()
    }

    /// Puts a value under the key of one that is out. Takes no memory.
    pub fn put_back(&mut self, key: Key, value: T)
        requires { IsOut self.old key }
        ensures { self.new ≡ with_value self.old key value }
    {
        self.slots[key.index as usize].value = Some(value);
    }
}
