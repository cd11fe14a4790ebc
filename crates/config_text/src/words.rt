//! The words of a line, one after the other.
ghost use Rattle.std.specs.Prelude.{◌≡◌, ◌<◌, ◌≤◌, ◌+◌, [], ◌∷◌, ◌++◌, if◌then◌else◌};
ghost use Rattle.std.specs.Prelude.{IfErr, IfOk, List, None, OnOk, Some, length, map};
ghost use Rattle.std.specs.List.{AllByRecursion};
ghost use Rattle.std.specs.Result.{result_err};
ghost use Rattle.arrayvec.specs.ArrayVec.{array_vec_len};
ghost use Rattle.config_text.specs.Command.{grammar_of};
ghost use Rattle.config_text.specs.Operand.{IsSaid, form_of, values, word_of};
ghost use Rattle.config_text.specs.Words.{absence, fault, forms_fault, left_len, words};
ghost use Rattle.config_text.specs.Words.{words_fault, words_in};
ghost use Rattle.config_text.specs.declared.operand.Form.{Form};

use crate::command::{EditCommand, is_noun};
use crate::fault::{LineFault, LineFaultKind};
use crate::lines::find_byte;
use crate::operand::{Form, Operands};

/// The words of a line that are left to read.
#[derive(Drop)]
pub(crate) struct Words<'a> {
    // None after the last word.
    rest: Option<&'a [u8]>,
    // How many bytes stand before the rest.
    column: usize,
    // The line's length.
    end: usize,
    ghost within: { column + left_len rest ≤ 1025 },
}

impl<'a> Words<'a> {
    ghost use Rattle.config_text.specs.WordsLeft.{Takes, words_left};

    pub(crate) fn of(line: &'a [u8]) -> Words<'a>
        requires { length line.now ≤ 1024 }
        ensures words { words_left result ≡ words line.now }
        ensures column { result.column ≡ 0 }
        ensures end { result.end ≡ length line.now }
    {
        Words {
            rest: Some(line),
            column: 0,
            end: line.len(),
        }
    }

    /// The command that the first two words say.
    pub(crate) fn command(&mut self) -> Result<EditCommand, LineFault>
        requires { self.old.column ≡ 0 }
        ensures fault { IfErr result
            (λ fault. words_fault self.old.end (words_left self.old) ≡ Some fault) }
        ensures rest { IfOk result (λ c. words_fault self.old.end (words_left self.old)
            ≡ forms_fault self.new.end self.new.column (grammar_of c).forms (words_left self.new)) }
        ensures words { IfOk result (λ c. words_left self.old
            ≡ (grammar_of c).noun ∷ (grammar_of c).verb ∷ words_left self.new) }
    {
        let noun = self.next_word()?;
        check(is_noun(noun), 0, LineFaultKind::UnknownWord)?;
        let column = self.column;
        let verb = self.next_word()?;
        match EditCommand::from_words(noun, verb) {
            Some(command) => Ok(command),
            None => Err(LineFault {
                column,
                kind: LineFaultKind::UnknownWord,
            }),
        }
    }

    /// Adds the values that the words say, which have to be of these forms, and no more.
    pub(crate) fn operands(
        &mut self,
        forms: &[Form],
        operands: &mut Operands<'a>,
    ) -> Result<(), LineFault>
        requires { array_vec_len operands.old + length forms.now ≤ 7 }
        ensures fault { result_err result
            ≡ forms_fault self.old.end self.old.column forms.now (words_left self.old) }
        ensures words { OnOk result (map word_of (values operands.new.items)
            ≡ map word_of (values operands.old.items) ++ words_left self.old) }
        ensures forms { OnOk result (map form_of (values operands.new.items)
            ≡ map form_of (values operands.old.items) ++ forms.now) }
        ensures said { OnOk result (AllByRecursion IsSaid (values operands.old.items)
            → AllByRecursion IsSaid (values operands.new.items)) }
    {
        for form in forms {
            self.push_operand(*form, operands)?;
        }
        self.end()
    }

    // Adds the value that the next word says. The clauses on faults hold whatever forms follow.
    fn push_operand(&mut self, form: Form, operands: &mut Operands<'a>) -> Result<(), LineFault>
        requires { array_vec_len operands.old < 7 }
        ensures fault { IfErr result (λ fault. (forms : List Form)
            → forms_fault self.old.end self.old.column (form ∷ forms) (words_left self.old)
            ≡ Some fault) }
        ensures rest { OnOk result ((forms : List Form)
            → forms_fault self.old.end self.old.column (form ∷ forms) (words_left self.old)
            ≡ forms_fault self.new.end self.new.column forms (words_left self.new)) }
        ensures words { OnOk result (map word_of (values operands.new.items) ++ words_left self.new
            ≡ map word_of (values operands.old.items) ++ words_left self.old) }
        ensures forms { OnOk result (map form_of (values operands.new.items)
            ≡ map form_of (values operands.old.items) ++ form ∷ []) }
        ensures said { OnOk result (AllByRecursion IsSaid (values operands.old.items)
            → AllByRecursion IsSaid (values operands.new.items)) }
        ensures len { OnOk result (array_vec_len operands.new ≡ array_vec_len operands.old + 1) }
    {
        let column = self.column;
        let word = self.next_word()?;
        let Some(operand) = form.read(word) else {
            return Err(LineFault {
                column,
                kind: form.kind(),
            });
        };
        operands.push(operand);
        Ok(())
    }

    // Nothing where no word is left, and the fault of the next one otherwise.
    fn end(&mut self) -> Result<(), LineFault>
        ensures fault { result_err result
            ≡ forms_fault self.old.end self.old.column [] (words_left self.old) }
        ensures ended { OnOk result (words_left self.old ≡ []) }
    {
        if self.rest.is_none() {
            return Ok(());
        }
        let column = self.column;
        self.next_word()?;
        Err(LineFault {
            column,
            kind: LineFaultKind::Extra,
        })
    }

    // The next word, which has a byte.
    fn next_word(&mut self) -> Result<&'a [u8], LineFault>
        ensures fault { result_err result
            ≡ absence self.old.end self.old.column (words_left self.old) }
        ensures takes { IfOk result (λ word. Takes self.old word.now self.new) }
    {
        let Some(rest) = self.rest else {
            return Err(LineFault {
                column: self.end,
                kind: LineFaultKind::Missing,
            });
        };
        let (word, rest) = first_word(rest);
        check(!word.is_empty(), self.column, LineFaultKind::Empty)?;
        self.rest = rest;
        self.column += word.len() + 1;
        Ok(word)
    }
}

fn check(holds: bool, column: usize, kind: LineFaultKind) -> Result<(), LineFault>
    ensures { result_err result ≡ (if holds then None else fault column kind) }
{
    if holds {
        Ok(())
    } else {
        Err(LineFault { column, kind })
    }
}

// What stands before the first space, and what follows that.
fn first_word(text: &[u8]) -> (&[u8], Option<&[u8]>)
    ensures words { words text.now ≡ result.0.now ∷ words_in result.1 }
    ensures len { length result.0.now + left_len result.1 ≡ length text.now }
{
    let len = find_byte(text, b' ');
    if len < text.len() {
        (&text[..len], Some(&text[len + 1..]))
    } else {
        (text, None)
    }
}
