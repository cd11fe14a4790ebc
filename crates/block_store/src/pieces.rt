//! The units of a disk in memory, in pieces that are taken as they are first written.
ghost use Rattle.std.specs.Prelude.{◌≡◌, ◌+◌, ◌%◌, ◌/◌, ◌<◌, ◌≤◌, length, replicate, IfOk, OnOk, OnErr};
ghost use Rattle.block_store.specs.Pieces.{blank_piece, blank_pieces, joined, piece_units, table_pieces};
ghost use Rattle.block_store.specs.Range.{bytes_of, units_at, overwritten};
ghost use Rattle.block_store.specs.Unit.{zero_unit};

use crate::disk::UNIT_LEN;
use std::alloc::{AllocError, Global};
use std::marker::Model;
use std::mem::size_of;

/// The units of a piece: 64 KiB. A first write of 4 KiB takes no more than that, and a write of 128 KiB
/// is still copied in three parts at most.
pub(crate) const PIECE_UNITS: usize = 128;

/// The pieces of a table. A table takes 32 KiB at most, and stands for 64 MiB; so the 16,384 tables of
/// a disk of 1 TiB, while nothing is written, take 512 KiB at most.
const TABLE_PIECES: usize = 1024;

/// The units of a table.
pub(crate) const TABLE_UNITS: usize = PIECE_UNITS * TABLE_PIECES;

/// Units next to each other, which take memory together. None of them is there until one is written:
/// all of them are zeros then.
#[derive(Drop)]
struct Piece {
    // All of them, or none.
    units: Vec<[u8; UNIT_LEN]>,
}

impl Model for Piece {
    ghost use Rattle.std.specs.Prelude.{List, ℕ};
    ghost use Rattle.block_store.specs.Pieces.{AreUnits, piece_units};

    ghost Value = { List (List ℕ) };

    ghost view = { λ piece. piece_units piece.units.items };

    ghost invariant = { λ piece. AreUnits 128 (piece_units piece.units.items) };
}

// Takes the memory of a piece that is not there.
fn fill_piece(units: &mut Vec<[u8; UNIT_LEN]>) -> Result<(), AllocError>
    ensures there { OnOk result (units.new.items ≡ piece_units units.old.items) }
    ensures refused { OnErr result (units.new.items ≡ units.old.items) }
{
    if units.is_empty() {
        *units = vec![in *units.allocator(); [0; UNIT_LEN]; PIECE_UNITS]?;
    }
    Ok(())
}

// Copies these units over those from `at` on.
fn put(held: &mut [[u8; UNIT_LEN]], at: usize, units: &[[u8; UNIT_LEN]])
    requires { at + length units.now ≤ length held.old }
    ensures { held.new ≡ overwritten held.old at units.now }
{
    held[at..at + units.len()].copy_from_slice(units);
}

// Puts zeros over `count` units from `at` on.
fn put_zeros(held: &mut [[u8; UNIT_LEN]], at: usize, count: usize)
    requires { at + count ≤ length held.old }
    ensures { held.new ≡ overwritten held.old at (replicate count zero_unit) }
{
    held[at..at + count].fill([0; UNIT_LEN]);
}

impl Piece {
    // A piece that is not there.
    fn new(alloc: Global) -> Piece
        ensures { result ≡ blank_piece }
    {
        Piece {
            units: Vec::new(alloc),
        }
    }

    // Reads the units from `at` on into `out`.
    fn read(&self, at: usize, out: &mut [u8])
        requires whole { length out.old % 512 ≡ 0 }
        requires within { at + length out.old / 512 ≤ 128 }
        ensures { out.new ≡ bytes_of (units_at self.now at (length out.old / 512)) }
    {
        if self.units.is_empty() {
            out.fill(0);
        } else {
            let count = out.len() / UNIT_LEN;
            out.copy_from_slice(self.units[at..at + count].as_flattened());
        }
    }

    // Takes the memory, where it is not there.
    fn make_room(&mut self) -> Result<(), AllocError>
        ensures { self.new ≡ self.old }
    {
        fill_piece(&mut self.units)
    }

    // Writes these units from `at` on.
    fn write(&mut self, at: usize, units: &[[u8; UNIT_LEN]]) -> Result<(), AllocError>
        requires { at + length units.now ≤ 128 }
        ensures written { OnOk result (self.new ≡ overwritten self.old at units.now) }
        ensures refused { OnErr result (self.new ≡ self.old) }
    {
        fill_piece(&mut self.units)?;
        put(&mut self.units, at, units);
        Ok(())
    }

    // Writes zeros to `count` units from `at` on. Where these are all, the memory goes back.
    fn zero(&mut self, at: usize, count: usize)
        requires { at + count ≤ 128 }
        ensures { self.new ≡ overwritten self.old at (replicate count zero_unit) }
    {
        if self.units.is_empty() {
            return;
        }
        let is_covered = count == PIECE_UNITS;
        if is_covered {
            self.units = Vec::new(*self.units.allocator());
        } else {
            put_zeros(&mut self.units, at, count);
        }
    }
}

// What is said of the sizes of tables and of disks.
const _: () = prove!(size_of::<Piece>() <= 32 && size_of::<Table>() <= 32);

/// Pieces next to each other. None of them has a place until one of them is written.
#[derive(Drop)]
pub(crate) struct Table {
    // All of them, or none.
    pieces: Vec<Piece>,
}

impl Model for Table {
    ghost use Rattle.std.specs.Prelude.{List, ℕ};
    ghost use Rattle.block_store.specs.Pieces.{AreParts, joined, table_pieces};

    ghost Value = { List (List ℕ) };

    ghost view = { λ table. joined (table_pieces table.pieces.items) };

    ghost invariant = { λ table. AreParts 1024 128 (table_pieces table.pieces.items) };
}

// Makes the places of a table's pieces, where they are not there.
fn fill_table(pieces: &mut Vec<Piece>) -> Result<(), AllocError>
    ensures there { OnOk result (pieces.new.items ≡ table_pieces pieces.old.items) }
    ensures refused { OnErr result (pieces.new.items ≡ pieces.old.items) }
{
    if pieces.is_empty() {
        *pieces = blank_table(*pieces.allocator())?;
    }
    Ok(())
}

// The pieces of a table, of which none is there.
fn blank_table(alloc: Global) -> Result<Vec<Piece>, AllocError>
    ensures { IfOk result (λ pieces. pieces.items ≡ blank_pieces) }
{
    let mut pieces = Vec::with_capacity(alloc, TABLE_PIECES)?;
    for _ in 0..TABLE_PIECES {
        pieces.push(Piece::new(alloc))?;
    }
    Ok(pieces)
}

impl Table {
    /// A table of which no piece is there.
    pub(crate) fn new(alloc: Global) -> Table
        ensures { result ≡ joined blank_pieces }
    {
        Table {
            pieces: Vec::new(alloc),
        }
    }

    /// Reads the units from `at` on, all of one piece, into `out`.
    pub(crate) fn read(&self, at: usize, out: &mut [u8])
        requires whole { length out.old % 512 ≡ 0 }
        requires place { at < 131072 }
        requires within { at % 128 + length out.old / 512 ≤ 128 }
        ensures { out.new ≡ bytes_of (units_at self.now at (length out.old / 512)) }
    {
        match self.pieces.get(at / PIECE_UNITS) {
            None => out.fill(0),
            Some(piece) => piece.read(at % PIECE_UNITS, out),
        }
    }

    /// Takes the memory of the piece of this unit, where it is not there.
    pub(crate) fn make_room(&mut self, at: usize) -> Result<(), AllocError>
        requires { at < 131072 }
        ensures { self.new ≡ self.old }
    {
        fill_table(&mut self.pieces)?;
        self.pieces[at / PIECE_UNITS].make_room()
    }

    /// Writes these units, all of one piece, from `at` on.
    pub(crate) fn write(&mut self, at: usize, units: &[[u8; UNIT_LEN]]) -> Result<(), AllocError>
        requires place { at < 131072 }
        requires within { at % 128 + length units.now ≤ 128 }
        ensures written { OnOk result (self.new ≡ overwritten self.old at units.now) }
        ensures refused { OnErr result (self.new ≡ self.old) }
    {
        fill_table(&mut self.pieces)?;
        self.pieces[at / PIECE_UNITS].write(at % PIECE_UNITS, units)
    }

    /// Writes zeros to `count` units, all of one piece, from `at` on. Where these are the whole piece,
    /// its memory goes back.
    pub(crate) fn zero(&mut self, at: usize, count: usize)
        requires place { at < 131072 }
        requires within { at % 128 + count ≤ 128 }
        ensures { self.new ≡ overwritten self.old at (replicate count zero_unit) }
    {
        if !self.pieces.is_empty() {
            self.pieces[at / PIECE_UNITS].zero(at % PIECE_UNITS, count);
        }
    }
}
