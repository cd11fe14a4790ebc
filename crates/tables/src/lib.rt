//! Tables that take no more memory than they are given room for. `NumberTable` has values under numbers from 0 on: it
//! gives the least number that is free, and allocates when it is made and never again. `NameTable` has values under names:
//! a name has at most one, which is found without a walk over the others. `Variants` has one value that all names see but
//! those with a value of their own, and `VariantTable` such variants for each of some names.
#![tactic(auto)]

pub mod name_table;
pub mod number_table;
pub mod variant_table;
pub mod variants;

pub use name_table::NameTable;
pub use number_table::NumberTable;
pub use variant_table::VariantTable;
pub use variants::Variants;
