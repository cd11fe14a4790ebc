//! The words that say a value which is no number.
ghost use Rattle.std.specs.Prelude.{◌≡◌, ◌<◌, All, IfSome, codes, is_some, length, nat_eq};
ghost use Rattle.std.specs.Char.{is_ascii_graphic};
ghost use Rattle.std.specs.List.{list_all, starts_with};
ghost use Rattle.config_text.specs.Word.{access_word, family_word, is_access, is_family};
ghost use Rattle.config_text.specs.Word.{is_name_word, is_state, is_text_word, is_uuid_word};
ghost use Rattle.config_text.specs.Word.{is_visibility, state_word, uuid_word, visibility_word};

use config_lists::{Access, AnaState, Family, Visibility};
use nvt_fields::name::{NQN_MAX, NQN_MIN};
use uuid::Uuid;

pub(crate) fn family_word(family: Family) -> &'static [u8]
    ensures { result.now ≡ family_word family }
{
    match family {
        Family::Ipv4 => b"ipv4",
        Family::Ipv6 => b"ipv6",
    }
}

pub(crate) fn access_word(access: Access) -> &'static [u8]
    ensures { result.now ≡ access_word access }
{
    match access {
        Access::Open => b"open",
        Access::Closed => b"closed",
    }
}

pub(crate) fn visibility_word(visibility: Visibility) -> &'static [u8]
    ensures { result.now ≡ visibility_word visibility }
{
    match visibility {
        Visibility::All => b"all",
        Visibility::Named => b"named",
    }
}

pub(crate) fn state_word(state: AnaState) -> &'static [u8]
    ensures { result.now ≡ state_word state }
{
    match state {
        AnaState::Optimized => b"optimized",
        AnaState::NonOptimized => b"non-optimized",
        AnaState::Inaccessible => b"inaccessible",
        AnaState::PersistentLoss => b"persistent-loss",
        AnaState::Change => b"change",
    }
}

pub(crate) fn read_family(word: &[u8]) -> Option<Family>
    ensures variant { is_some result ≡ is_family word.now }
    ensures some { IfSome result (λ family. word.now ≡ family_word family) }
{
    if word == b"ipv4".as_slice() {
        return Some(Family::Ipv4);
    }
    if word == b"ipv6".as_slice() {
        return Some(Family::Ipv6);
    }
    None
}

pub(crate) fn read_access(word: &[u8]) -> Option<Access>
    ensures variant { is_some result ≡ is_access word.now }
    ensures some { IfSome result (λ access. word.now ≡ access_word access) }
{
    if word == b"open".as_slice() {
        return Some(Access::Open);
    }
    if word == b"closed".as_slice() {
        return Some(Access::Closed);
    }
    None
}

pub(crate) fn read_visibility(word: &[u8]) -> Option<Visibility>
    ensures variant { is_some result ≡ is_visibility word.now }
    ensures some { IfSome result (λ visibility. word.now ≡ visibility_word visibility) }
{
    if word == b"all".as_slice() {
        return Some(Visibility::All);
    }
    if word == b"named".as_slice() {
        return Some(Visibility::Named);
    }
    None
}

pub(crate) fn read_state(word: &[u8]) -> Option<AnaState>
    ensures variant { is_some result ≡ is_state word.now }
    ensures some { IfSome result (λ state. word.now ≡ state_word state) }
{
    if word == b"optimized".as_slice() {
        return Some(AnaState::Optimized);
    }
    if word == b"non-optimized".as_slice() {
        return Some(AnaState::NonOptimized);
    }
    if word == b"inaccessible".as_slice() {
        return Some(AnaState::Inaccessible);
    }
    if word == b"persistent-loss".as_slice() {
        return Some(AnaState::PersistentLoss);
    }
    if word == b"change".as_slice() {
        return Some(AnaState::Change);
    }
    None
}

/// The UUID whose lower-case hyphenated text the word is.
pub(crate) fn read_uuid(word: &[u8]) -> Option<Uuid>
    ensures variant { is_some result ≡ is_uuid_word word.now }
    ensures some { IfSome result (λ uuid. word.now ≡ uuid_word uuid) }
    ensures bytes { IfSome result (λ uuid. (length uuid ≡ 16) × All (λ b. b < 256) uuid) }
{
    let Ok(uuid) = Uuid::try_parse_ascii(word) else {
        return None;
    };
    sixteen_bytes(uuid.as_bytes());
    let mut buffer = [0u8; 36];
    let text = uuid.hyphenated().encode_lower(&mut buffer);
    if text.as_bytes() == word {
        return Some(uuid);
    }
    None
}

// Sixteen numbers below 256, which a clause knows of bytes that are read: this walk costs nothing.
#[inline]
fn sixteen_bytes(bytes: &[u8; 16])
    ensures { (length bytes.now ≡ 16) × All (λ b. b < 256) bytes.now }
{
    'bytes: for i in 0..16 {
        let _ = bytes[i];
    }
}

/// Whether the word is an NVMe qualified name.
pub(crate) fn is_name_word(word: &[u8]) -> bool
    ensures { result ≡ is_name_word word.now }
{
    word.len() <= NQN_MAX && word.len() >= NQN_MIN && has_prefix(word) && is_graphic(word)
}

fn has_prefix(word: &[u8]) -> bool
    ensures { result ≡ starts_with nat_eq word.now (codes "nqn.") }
{
    word.starts_with(b"nqn.")
}

/// Whether the word has a byte or more, each from 21h to 7Eh.
pub(crate) fn is_text_word(word: &[u8]) -> bool
    ensures { result ≡ is_text_word word.now }
{
    !word.is_empty() && is_graphic(word)
}

fn is_graphic(word: &[u8]) -> bool
    ensures { result ≡ list_all is_ascii_graphic word.now }
{
    word.iter().all(|b| b.is_ascii_graphic())
}
