//! A table by name of values that a second name may see in a variant of its own.
ghost use Rattle.std.specs.Prelude.{◌≡◌, ℕ, ◌≤◌, ◌<◌, List, [], Some, None, OnErr, OnOk, IfOk, unwrap_or, if◌then◌else◌};
ghost use Rattle.std.specs.Option.{option_copied};
ghost use Rattle.std.specs.Str.{bytes_eq};
ghost use Rattle.tables.specs.NameTable.{IsPut, IsRemoved};
ghost use Rattle.tables.specs.Variants.{AreOwnPut, common_at, count_at, variant_at};

use crate::name_table::NameTable;
use crate::variants::Variants;
use std::alloc::{AllocError, Global};
use std::marker::Model;

/// For each of some first names a value that all second names see, but for those that have a value of their own there.
#[derive(Drop)]
pub struct VariantTable<T> {
    values: NameTable<Variants<T>>,
}

impl<T> Model for VariantTable<T> {
    ghost use Rattle.tables.specs.Variants.{VariantTableState};

    ghost Value = { VariantTableState T };

    ghost view = { λ t. record {
      values = t.values.values;
      room = t.values.room;
    } };
}

impl<T: Drop> VariantTable<T> {
    /// A table without a name.
    pub fn new(alloc: Global) -> VariantTable<T>
        ensures { result.values ≡ [] }
    {
        VariantTable {
            values: NameTable::new(alloc),
        }
    }

    /// What the second name sees under the first, if the first has a value.
    pub fn get(&self, first: &[u8], second: &[u8]) -> Option<&T>
        ensures { option_copied result ≡ variant_at self.now.values first.now second.now }
    {
        match self.values.get(first) {
            Some(variants) => Some(variants.get(second)),
            None => None,
        }
    }

    /// Makes room for one first name more.
    pub fn reserve(&mut self) -> Result<(), AllocError>
        ensures room { OnOk result (1 ≤ self.new.room) }
        ensures kept { self.new.values ≡ self.old.values }
    {
        self.values.reserve()
    }

    /// Puts variants under the first name, in the place of all that it has.
    pub fn put(
        &mut self,
        alloc: Global,
        first: &[u8],
        variants: Variants<T>,
    ) -> Result<(), AllocError>
        ensures put { OnOk result (IsPut self.old.values self.new.values first.now variants) }
        ensures kept { OnErr result (self.new.values ≡ self.old.values) }
    {
        self.values.put(alloc, first, variants)
    }

    /// Puts variants under the first name, in the place of all that it has. There is room; so this takes no
    /// memory.
    pub fn put_within(&mut self, first: Vec<u8>, variants: Variants<T>)
        requires { 1 ≤ self.old.room }
        ensures { IsPut self.old.values self.new.values first.items variants }
    {
        self.values.put_within(first, variants);
    }

    /// Takes the first name away with all that it has, where it has a value.
    pub fn remove(&mut self, first: &[u8])
        ensures { IsRemoved self.old.values self.new.values first.now }
    {
        self.values.remove(first);
    }

    /// An empty table with room for one name more than have a value of their own under the first name.
    pub fn room_for_own(&self, alloc: Global, first: &[u8]) -> Result<NameTable<T>, AllocError>
        ensures { IfOk result (λ table. (table.values ≡ []) × (count_at self.now.values first.now < table.room)) }
    {
        let names = match self.values.get(first) {
            Some(variants) => variants.own.len(),
            None => 0,
        };
        NameTable::with_room(alloc, names + 1)
    }

    /// Gives the second name a value of its own under the first. Where the first has nothing yet, `otherwise` is what
    /// the others see there. The own values move to `room`; so this takes no memory.
    pub fn put_own_within(
        &mut self,
        first: Vec<u8>,
        second: Vec<u8>,
        value: T,
        otherwise: T,
        room: NameTable<T>,
    )
        requires room { 1 ≤ self.old.room }
        requires empty { room.values ≡ [] }
        requires wide { count_at self.old.values first.items < room.room }
        ensures own { AreOwnPut self.old.values self.new.values first.items second.items (Some value) }
        ensures common { (f : List ℕ) → common_at self.new.values f ≡ (if bytes_eq f first.items then Some (unwrap_or (common_at self.old.values f) otherwise) else common_at self.old.values f) }
    {
        let (common, mut own) = match self.values.take(first.as_slice()) {
            Some(Variants { common, own }) => (common, own.move_to(room)),
            None => (otherwise, room),
        };
        own.put_within(second, value);
        self.values.put_within(first, Variants { common, own });
    }

    /// Takes away the own value of the second name under the first, where it has one.
    pub fn remove_own(&mut self, first: Vec<u8>, second: &[u8])
        requires { 1 ≤ self.old.room }
        ensures own { AreOwnPut self.old.values self.new.values first.items second.now None }
        ensures common { (f : List ℕ) → common_at self.new.values f ≡ common_at self.old.values f }
    {
        if let Some(mut variants) = self.values.take(first.as_slice()) {
            variants.own.remove(second);
            self.values.put_within(first, variants);
        }
    }
}
