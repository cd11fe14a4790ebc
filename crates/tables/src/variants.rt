//! A value that all names see, but for those that have a value of their own.
ghost use Rattle.std.specs.Prelude.{◌≡◌, ◌↔◌, [], IsTrue, OnErr, OnOk};
ghost use Rattle.std.specs.Option.{option_copied};
ghost use Rattle.tables.specs.NameTable.{IsPut, value_of};
ghost use Rattle.tables.specs.Variants.{variant_of};

use crate::name_table::NameTable;
use std::alloc::{AllocError, Global};
use std::marker::Model;

/// A value that all names have in common, and for some names a value of their own in its place.
#[derive(Drop)]
pub struct Variants<T> {
    pub(crate) common: T,
    pub(crate) own: NameTable<T>,
}

impl<T> Model for Variants<T> {
    ghost use Rattle.tables.specs.Variants.{VariantsState};

    ghost Value = { VariantsState T };

    ghost view = { λ v. record {
      common = v.common;
      own = v.own.values;
    } };
}

impl<T: Drop> Variants<T> {
    /// A value that every name sees.
    pub fn new(alloc: Global, common: T) -> Variants<T>
        ensures { result ≡ record { common = common; own = [] } }
    {
        Variants {
            common,
            own: NameTable::new(alloc),
        }
    }

    /// What the name sees: its own value, and else the common one.
    pub fn get(&self, name: &[u8]) -> &T
        ensures { result.now ≡ variant_of self.now name.now }
    {
        match self.own.get(name) {
            Some(value) => value,
            None => &self.common,
        }
    }

    /// The value of the names that have none of their own.
    pub fn common(&self) -> &T
        ensures { result.now ≡ self.now.common }
    {
        &self.common
    }

    /// The own value of the name, if it has one.
    pub fn own(&self, name: &[u8]) -> Option<&T>
        ensures { option_copied result ≡ value_of self.now.own name.now }
    {
        self.own.get(name)
    }

    /// Whether no name has a value of its own, so that all see the common one.
    pub fn is_uniform(&self) -> bool
        ensures { IsTrue result ↔ (self.now.own ≡ []) }
    {
        self.own.is_empty()
    }

    /// Gives the name a value of its own, in the place of the one that it has.
    pub fn put(&mut self, alloc: Global, name: &[u8], value: T) -> Result<(), AllocError>
        ensures put { OnOk result (IsPut self.old.own self.new.own name.now value) }
        ensures common { self.new.common ≡ self.old.common }
        ensures kept { OnErr result (self.new.own ≡ self.old.own) }
    {
        self.own.put(alloc, name, value)
    }
}
