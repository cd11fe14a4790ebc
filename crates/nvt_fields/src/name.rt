//! NVMe qualified names (Base 2.0, section 4.5).
ghost use Rattle.std.specs.Prelude.{◌≡◌, ◌==◌, ◌<◌, ◌≤◌, nat_eq, length, position};
ghost use Rattle.std.specs.Prelude.{IfOk, IsOkAnd, IsOkUnless, IfSome, MatchOption, codes};
ghost use Rattle.std.specs.Char.{is_ascii_graphic};
ghost use Rattle.std.specs.List.{list_all, starts_with};
ghost use Rattle.std.specs.Str.{bytes_eq};
ghost use Rattle.std.specs.Cmp.{partial_equiv_from_equiv};
ghost use Rattle.std.specs.Cmp.Lexicographic.{nat_list_eq_equiv};
ghost use Rattle.nvt_fields.specs.Field.{padded};
ghost use Rattle.nvt_fields.specs.Name.{IsName, fault_of, is_name, up_to_zero};

use crate::field::write_zeroed;
use std::alloc::{AllocError, Global};
use std::marker::Model;
use thiserror::Error;

/// The longest name, in bytes.
pub const NQN_MAX: usize = 223;

/// The shortest name, in bytes: one byte after the prefix.
pub const NQN_MIN: usize = 5;

/// The name of the discovery subsystem.
pub const DISCOVERY_NQN: &[u8; 36] = b"nqn.2014-08.org.nvmexpress.discovery";

const PREFIX: &[u8; 4] = b"nqn.";

/// Why a text is no name.
#[derive(Clone, Copy, Debug, PartialEq, Eq, Error)]
pub enum NqnFault {
    #[error("the name has more than 223 bytes")]
    TooLong,
    #[error("the name is not `nqn.` and printable bytes after it")]
    BadNqn,
    #[error("memory")]
    Memory,
}

/// A name of 5 to 223 bytes that begins with `nqn.`, each byte from 21h to 7Eh.
#[derive(Debug, Drop)]
pub struct Nqn {
    bytes: Vec<u8>,
}

impl Model for Nqn {
    ghost use Rattle.std.specs.Prelude.{◌≡◌, List, ℕ, None};
    ghost use Rattle.nvt_fields.specs.Name.{IsName};

    ghost Value = { List ℕ };

    ghost view = { λ n. n.bytes.items };

    ghost invariant = { λ n. IsName n.bytes.items };
}

impl Nqn {
    /// The name that the text is.
    pub fn read(alloc: Global, text: &[u8]) -> Result<Nqn, NqnFault>
        ensures refused { MatchOption (fault_of text.now)
            (IsOkUnless result NqnFault.Memory)
            (λ fault. result ≡ Err fault) }
        ensures same { IfOk result (λ name. name ≡ text.now) }
    {
        check(text)?;
        match Vec::from_slice(alloc, text) {
            Ok(bytes) => Ok(Nqn { bytes }),
            Err(AllocError) => Err(NqnFault::Memory),
        }
    }

    pub fn as_bytes(&self) -> &[u8]
        ensures { result.now ≡ self.now }
    {
        &self.bytes
    }

    /// What each name promises. It does nothing: its contract is for who calls it.
    pub fn promise(&self)
        ensures { IsName self.now }
    {
        let _ = &self.bytes;
    }

    /// Whether it is this name. Names are most often told apart by their lengths or last bytes, so these are
    /// compared first.
    pub fn is(&self, name: &[u8]) -> bool
        ensures { result ≡ bytes_eq self.now name.now }
    {
        let bytes = self.bytes.as_slice();
        let last = bytes.len() - 1;
        name.len() == bytes.len() && name[last] == bytes[last] && name == bytes
    }

    /// The name's length in bytes.
    pub fn len(&self) -> usize
        ensures value { result ≡ length self.now }
        ensures bound { result ≤ 223 }
    {
        self.bytes.len()
    }

    /// Writes the name into its field of 256 bytes, and zeros after it.
    pub fn write_to(&self, field: &mut [u8])
        requires { length field.old ≡ 256 }
        ensures { field.new ≡ padded 256 0 self.now }
    {
        write_zeroed(field, self.bytes.as_slice());
    }

    /// An equal name.
    pub fn try_clone(&self) -> Result<Nqn, AllocError>
        ensures { IfOk result (λ copy. copy ≡ self.now) }
    {
        Ok(Nqn {
            bytes: self.bytes.clone()?,
        })
    }
}

/// Names are equal where their bytes are.
impl PartialEq for Nqn {
    ghost eq = { bytes_eq };

    ghost laws = { partial_equiv_from_equiv nat_list_eq_equiv };

    fn eq(&self, other: &Nqn) -> bool {
        self.is(other.as_bytes())
    }
}

impl Eq for Nqn {
    ghost laws = { nat_list_eq_equiv };
}

/// The name in a field of 256 bytes: those before its first zero byte. What follows the zero is not
/// looked at.
pub fn nqn_field(field: &[u8; 256]) -> Result<&[u8], NqnFault>
    ensures { let text = up_to_zero field.now in MatchOption (fault_of text)
        (IsOkAnd result (λ name. name.now ≡ text))
        (λ fault. result ≡ Err fault) }
{
    let name = up_to_zero(field);
    match check(name) {
        Ok(()) => Ok(name),
        Err(fault) => Err(fault),
    }
}

fn check(text: &[u8]) -> Result<(), NqnFault>
    ensures { MatchOption (fault_of text.now) (result ≡ Ok tt) (λ fault. result ≡ Err fault) }
{
    if text.len() > NQN_MAX {
        return Err(NqnFault::TooLong);
    }
    if is_name(text) {
        return Ok(());
    }
    Err(NqnFault::BadNqn)
}

/// The bytes of a field before its first zero byte, or all of them.
pub fn up_to_zero(field: &[u8]) -> &[u8]
    ensures { result.now ≡ up_to_zero field.now }
{
    let len = first_zero(field).unwrap_or(field.len());
    &field[..len]
}

fn first_zero(field: &[u8]) -> Option<usize>
    ensures value { result ≡ position (λ b. b == 0) field.now }
    ensures bound { IfSome result (λ at. at < length field.now) }
{
    field.iter().position(|b| *b == 0)
}

fn is_name(text: &[u8]) -> bool
    ensures { result ≡ is_name text.now }
{
    text.len() >= NQN_MIN && has_prefix(text) && are_name_bytes(text)
}

fn has_prefix(text: &[u8]) -> bool
    ensures { result ≡ starts_with nat_eq text.now (codes "nqn.") }
{
    text.starts_with(PREFIX)
}

fn are_name_bytes(text: &[u8]) -> bool
    ensures { result ≡ list_all is_ascii_graphic text.now }
{
    text.iter().all(|b| b.is_ascii_graphic())
}
