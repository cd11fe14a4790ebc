//! The values that a line says after its first two words, each by one word.
ghost use Rattle.std.specs.Prelude.{◌≡◌, IfSome, Some, is_some, map, slice_get};
ghost use Rattle.config_text.specs.Operand.{Reads, allows, form_of, kind_of, value_of, values};
ghost use Rattle.config_text.specs.Operand.{number, name, text, uuid, family, access, visibility};
ghost use Rattle.config_text.specs.Operand.{state, word_of};
ghost use Rattle.config_text.specs.declared.operand.Form.TheVariants as form;

use crate::fault::LineFaultKind;
use crate::number::read_number;
use crate::word::{
    access_word, family_word, is_name_word, is_text_word, read_access, read_family, read_state,
    read_uuid, read_visibility, state_word, visibility_word,
};
use arrayvec::ArrayVec;
use config_lists::{Access, AnaState, Family, Visibility};
use itoa::Buffer;
use uuid::Uuid;

/// The most values that a line says.
pub const OPERANDS_MAX: usize = 7;

/// What a word has to be.
#[derive(Clone, Copy)]
pub enum Form {
    Number,
    Name,
    Text,
    Uuid,
    Family,
    Access,
    Visibility,
    State,
}

impl Form {
    /// What is wrong with a word that is none of these.
    pub(crate) fn kind(self) -> LineFaultKind
        ensures { result ≡ kind_of self }
    {
        match self {
            Form::Number => LineFaultKind::BadNumber,
            Form::Name => LineFaultKind::BadNqn,
            Form::Uuid => LineFaultKind::BadUuid,
            Form::Text | Form::Family | Form::Access | Form::Visibility | Form::State => {
                LineFaultKind::BadWord
            }
        }
    }

    /// The value that the word says.
    pub(crate) fn read<'a>(self, word: &'a [u8]) -> Option<Operand<'a>>
        ensures variant { is_some result ≡ allows self word.now }
        ensures some { IfSome result (Reads self word.now) }
    {
        match self {
            Form::Number => Some(Operand::Number(read_number(word)?)),
            Form::Name if is_name_word(word) => Some(Operand::Name(word)),
            Form::Text if is_text_word(word) => Some(Operand::Text(word)),
            Form::Name | Form::Text => None,
            Form::Uuid => Some(Operand::Uuid(read_uuid(word)?)),
            Form::Family => Some(Operand::Family(read_family(word)?)),
            Form::Access => Some(Operand::Access(read_access(word)?)),
            Form::Visibility => Some(Operand::Visibility(read_visibility(word)?)),
            Form::State => Some(Operand::State(read_state(word)?)),
        }
    }
}

/// A value that a line says. Names and texts are those of the line, or of the edit.
#[derive(Clone, Copy)]
pub enum Operand<'a> {
    Number(u64),
    Name(&'a [u8]),
    Text(&'a [u8]),
    Uuid(Uuid),
    Family(Family),
    Access(Access),
    Visibility(Visibility),
    State(AnaState),
}

/// The values that a line says, in order.
pub type Operands<'a> = ArrayVec<Operand<'a>, OPERANDS_MAX>;

/// What fills an unused place of an array.
impl<'a> Default for Operand<'a> {
    fn default() -> Operand<'a> {
        Operand::Number(0)
    }
}

/// Where the words of numbers and of UUIDs are written.
#[derive(Drop)]
pub struct Scratch {
    number: Buffer,
    uuid: [u8; 36],
}

impl Scratch {
    pub fn new() -> Scratch {
        Scratch {
            number: Buffer::new(),
            uuid: [0; 36],
        }
    }
}

impl<'a> Operand<'a> {
    /// The word that says it.
    pub fn word<'b>(&'b self, scratch: &'b mut Scratch) -> &'b [u8]
        ensures { result.now ≡ word_of (value_of self.now) }
    {
        match self {
            Operand::Number(n) => scratch.number.format(*n).as_bytes(),
            Operand::Name(bytes) | Operand::Text(bytes) => bytes,
            Operand::Uuid(uuid) => uuid.hyphenated().encode_lower(&mut scratch.uuid).as_bytes(),
            Operand::Family(family) => family_word(*family),
            Operand::Access(access) => access_word(*access),
            Operand::Visibility(visibility) => visibility_word(*visibility),
            Operand::State(state) => state_word(*state),
        }
    }
}

/// The number at a place.
pub fn number_at(operands: &[Operand<'_>], at: usize) -> u64
    requires { slice_get (map form_of (values operands.now)) at ≡ Some form.Number }
    ensures { slice_get (values operands.now) at ≡ Some (number result) }
{
    match operands[at] {
        Operand::Number(n) => n,
        _ => unreachable!(),
    }
}

/// The bytes of the name at a place.
pub fn name_at<'a>(operands: &[Operand<'a>], at: usize) -> &'a [u8]
    requires { slice_get (map form_of (values operands.now)) at ≡ Some form.Name }
    ensures { slice_get (values operands.now) at ≡ Some (name result.now) }
{
    match operands[at] {
        Operand::Name(bytes) => bytes,
        _ => unreachable!(),
    }
}

/// The bytes of the text at a place.
pub fn text_at<'a>(operands: &[Operand<'a>], at: usize) -> &'a [u8]
    requires { slice_get (map form_of (values operands.now)) at ≡ Some form.Text }
    ensures { slice_get (values operands.now) at ≡ Some (text result.now) }
{
    match operands[at] {
        Operand::Text(bytes) => bytes,
        _ => unreachable!(),
    }
}

pub fn uuid_at(operands: &[Operand<'_>], at: usize) -> Uuid
    requires { slice_get (map form_of (values operands.now)) at ≡ Some form.Uuid }
    ensures { slice_get (values operands.now) at ≡ Some (uuid result) }
{
    match operands[at] {
        Operand::Uuid(uuid) => uuid,
        _ => unreachable!(),
    }
}

pub fn family_at(operands: &[Operand<'_>], at: usize) -> Family
    requires { slice_get (map form_of (values operands.now)) at ≡ Some form.Family }
    ensures { slice_get (values operands.now) at ≡ Some (family result) }
{
    match operands[at] {
        Operand::Family(family) => family,
        _ => unreachable!(),
    }
}

pub fn access_at(operands: &[Operand<'_>], at: usize) -> Access
    requires { slice_get (map form_of (values operands.now)) at ≡ Some form.Access }
    ensures { slice_get (values operands.now) at ≡ Some (access result) }
{
    match operands[at] {
        Operand::Access(access) => access,
        _ => unreachable!(),
    }
}

/// Which hosts see a namespace, as the word at a place says.
pub fn visibility_at(operands: &[Operand<'_>], at: usize) -> Visibility
    requires { slice_get (map form_of (values operands.now)) at ≡ Some form.Visibility }
    ensures { slice_get (values operands.now) at ≡ Some (visibility result) }
{
    match operands[at] {
        Operand::Visibility(visibility) => visibility,
        _ => unreachable!(),
    }
}

pub fn state_at(operands: &[Operand<'_>], at: usize) -> AnaState
    requires { slice_get (map form_of (values operands.now)) at ≡ Some form.State }
    ensures { slice_get (values operands.now) at ≡ Some (state result) }
{
    match operands[at] {
        Operand::State(state) => state,
        _ => unreachable!(),
    }
}
