//! Tests of transfers, through the public calls: random calls beside a plain list of transfers. Memory that is refused is
//! tested in `tests_growths`.

mod plain;
mod random;
