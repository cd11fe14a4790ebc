//! A table of values by name.
ghost use Rattle.std.specs.Prelude.{◌≡◌, ◌≤◌, ◌<◌, ◌^◌, ◌↔◌, [], IfOk, IsTrue, OnErr, OnOk, length};
ghost use Rattle.std.specs.Option.{option_copied};
ghost use Rattle.tables.specs.NameTable.{IsPut, IsRemoved, value_of};

use indexmap::IndexMap;
use std::alloc::{AllocError, Global};
use std::marker::Model;

/// A value for each of some names. A contract sees the list of them, and goes by what a name has there;
/// and for how many more names there is room.
#[derive(Drop)]
pub struct NameTable<T> {
    values: IndexMap<Vec<u8>, T>,
}

impl<T> Model for NameTable<T> {
    ghost use Rattle.std.specs.Prelude.{map};
    ghost use Rattle.indexmap.specs.IndexMap.{spare};
    ghost use Rattle.tables.specs.NameTable.{Table};

    ghost Value = { Table T };

    ghost view = { λ t. record {
      values = map (λ e. (e.0.items, e.1)) t.values.entries;
      room = spare t.values;
    } };
}

impl<T: Drop> NameTable<T> {
    /// A table without a name.
    pub fn new(alloc: Global) -> NameTable<T>
        ensures { result.values ≡ [] }
    {
        NameTable {
            values: IndexMap::new(alloc),
        }
    }

    /// A table without a name, with room for that many.
    pub fn with_room(alloc: Global, names: usize) -> Result<NameTable<T>, AllocError>
        ensures empty { IfOk result (λ table. table.values ≡ []) }
        ensures room { IfOk result (λ table. names ≤ table.room) }
    {
        let values = IndexMap::with_capacity(alloc, names)?;
        Ok(NameTable { values })
    }

    /// How many names have a value.
    pub fn len(&self) -> usize
        ensures len { result ≡ length self.now.values }
        ensures small { result < 2 ^ 63 }
    {
        self.values.len()
    }

    /// Whether no name has a value.
    pub fn is_empty(&self) -> bool
        ensures { IsTrue result ↔ (self.now.values ≡ []) }
    {
        self.values.is_empty()
    }

    /// The value of the name, if it has one.
    pub fn get(&self, name: &[u8]) -> Option<&T>
        ensures { option_copied result ≡ value_of self.now.values name.now }
    {
        self.values.get(name)
    }

    /// Puts a value under the name, in the place of the one that it has.
    pub fn put(&mut self, alloc: Global, name: &[u8], value: T) -> Result<(), AllocError>
        ensures put { OnOk result (IsPut self.old.values self.new.values name.now value) }
        ensures kept { OnErr result (self.new.values ≡ self.old.values) }
    {
        let name = Vec::from_slice(alloc, name)?;
        self.values.insert(name, value)?;
        Ok(())
    }

    /// Makes room for one name more.
    pub fn reserve(&mut self) -> Result<(), AllocError>
        ensures room { OnOk result (1 ≤ self.new.room) }
        ensures kept { self.new.values ≡ self.old.values }
    {
        self.values.reserve(1)
    }

    /// Puts a value under the name, in the place of the one that it has. There is room; so this takes no
    /// memory.
    pub fn put_within(&mut self, name: Vec<u8>, value: T)
        requires { 1 ≤ self.old.room }
        ensures { IsPut self.old.values self.new.values name.items value }
    {
        self.values.insert(name, value).unwrap();
    }

    /// Takes the name away with its value, where it has one.
    pub fn remove(&mut self, name: &[u8])
        ensures removed { IsRemoved self.old.values self.new.values name.now }
        ensures room { self.old.room ≤ self.new.room }
    {
        drop(self.values.swap_remove(name));
    }

    /// Takes the name away, and hands out the value that it had.
    pub fn take(&mut self, name: &[u8]) -> Option<T>
        ensures value { result ≡ value_of self.old.values name.now }
        ensures removed { IsRemoved self.old.values self.new.values name.now }
        ensures room { self.old.room ≤ self.new.room }
    {
        self.values.swap_remove(name)
    }

    /// Moves every value to `room`, which is empty and holds one name more than this table; so this takes no
    /// memory.
    pub fn move_to(self, room: NameTable<T>) -> NameTable<T>
        requires empty { room.values ≡ [] }
        requires wide { length self.values < room.room }
        ensures values { result.values ≡ self.values }
        ensures room { 1 ≤ result.room }
    {
        let NameTable { mut values } = room;
        for (name, value) in self.values {
            drop(values.insert(name, value).unwrap());
        }
        NameTable { values }
    }
}
