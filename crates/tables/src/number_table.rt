//! A table of values under numbers.
ghost use Rattle.std.specs.Prelude.{◌≡◌, ◌<◌, IfOk, None, length, replicate, is_none, option_copied};
ghost use Rattle.std.specs.Borrow.{sem};
ghost use Rattle.std.specs.List.{position};
ghost use Rattle.std.specs.Option.{option_copied_mut};
ghost use Rattle.tables.specs.NumberTable.{place, with_value, without};

use slab::Slab;
use std::alloc::{AllocError, Global};
use std::marker::Model;

/// A fixed count of numbers from 0 on, each with a value or empty.
#[derive(Debug, Drop)]
pub struct NumberTable<T> {
    // The key of each number's value.
    keys: Vec<Option<usize>>,
    values: Slab<T>,
}

impl<T> Model for NumberTable<T> {
    ghost use Rattle.std.specs.Prelude.{List, Option};
    ghost use Rattle.std.specs.Coded.{coded_list, coded_option};
    ghost use Rattle.tables.specs.Layout.{table_of, IsLaidOut};

    ghost Value = { List (Option T) };

    ghost coded = { coded_list (coded_option T.code) };

    ghost view = { λ t. table_of t.keys.items t.values };

    ghost invariant = { λ t. IsLaidOut t.keys.items t.values };
}

fn key_at(keys: &[Option<usize>], number: usize) -> Option<usize>
    ensures { result ≡ place keys.now number }
{
    *keys.get(number)?
}

fn first_empty(keys: &[Option<usize>]) -> Option<usize>
    ensures { result ≡ position is_none keys.now }
{
    keys.iter().position(|key| key.is_none())
}

impl<T> NumberTable<T> {
    ghost use Rattle.tables.specs.Lends.{lends_get};

    /// A table of `places` numbers, all empty. No later call takes memory.
    pub fn new(alloc: Global, places: usize) -> Result<NumberTable<T>, AllocError>
        ensures { IfOk result (λ table. table ≡ replicate places None) }
    {
        Ok(NumberTable {
            keys: vec![in alloc; None; places]?,
            values: Slab::with_capacity(alloc, places)?,
        })
    }

    /// How many numbers there are.
    pub fn places(&self) -> usize
        ensures { result ≡ length self.now }
    {
        self.keys.len()
    }

    /// The value at `number`, if there is one.
    pub fn get(&self, number: usize) -> Option<&T>
        ensures { option_copied result ≡ place self.now number }
    {
        let key = key_at(&self.keys, number)?;
        self.values.get(key)
    }

    /// The value at `number` for writing, if there is one.
    pub fn get_mut(&mut self, number: usize) -> Option<&mut T>
        ensures* writes_back { sem 𝓛 (lends_get T.row self.entry number result) }
        ensures value { option_copied_mut result ≡ place self.old number }
    {
        let key = key_at(&self.keys, number)?;
        self.values.get_mut(key)
    }

    /// The least number that is empty, if there is one.
    pub fn least_free(&self) -> Option<usize>
        ensures { result ≡ position is_none self.now }
    {
        first_empty(&self.keys)
    }

    /// Puts a value at an empty number, which takes no memory.
    pub fn put(&mut self, number: usize, value: T)
        requires within { number < length self.old }
        requires empty { place self.old number ≡ None }
        ensures { self.new ≡ with_value self.old number value }
    {
        let key = self.values.insert_reserved(value);
        self.keys[number] = Some(key);
    }

    /// Takes out the value at `number`, if there is one, and leaves the number empty.
    pub fn remove(&mut self, number: usize) -> Option<T>
        ensures value { result ≡ place self.old number }
        ensures emptied { self.new ≡ without self.old number }
    {
        let key = key_at(&self.keys, number)?;
        self.keys[number] = None;
        Some(self.values.remove(key))
    }
}
