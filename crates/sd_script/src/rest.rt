//! The parts of a line, one after another.

ghost use Rattle.std.specs.Prelude.{◌≡◌, ◌<◌, ◌≤◌, ◌++◌, ◌∷◌, [], true, length, map, IfOk, IfErr, Some, None};
ghost use Rattle.std.specs.List.{list_all};
ghost use Rattle.sd_base.specs.Views.{line_view, words_left};
ghost use Rattle.sd_script.specs.Forms as forms;
ghost use Rattle.sd_script.specs.Steps.{IsNoWrite};
ghost use Rattle.sd_script.specs.Table as texts;
ghost use Rattle.sd_script.specs.Table.{value};
ghost use Rattle.sd_script.specs.declared.misread.Misread.TheVariants.{BadForm};

use crate::command::Action;
use crate::forms::{bits_of, file_of, literal_of, name_of, number_of, variable_of};
use crate::indices::Indices;
use crate::misread::Misread;
use crate::table::NameTable;
use sd_base::{Bits, Line, Words};
use std::alloc::Global;
use std::mem::replace;

// The most names of a write.
const MAX_NAMES: usize = 1024;

/// The names and files so far, and the words of a line that are left.
#[derive(Drop)]
pub(crate) struct Rest<'a> {
    pub(crate) names: NameTable<'a>,
    pub(crate) files: NameTable<'a>,
    pub(crate) words: Words<'a>,
}

impl<'a> Rest<'a> {
    ghost use Rattle.sd_script.specs.Steps.{seen_view, rest_view, Answers, Makes};

    /// Nothing.
    pub(crate) fn new(alloc: Global) -> Self
        ensures { seen_view result ≡ record { names = []; files = [] } }
    {
        Rest {
            names: NameTable::new(alloc),
            files: NameTable::new(alloc),
            words: no_words(),
        }
    }

    // The next word.
    fn word(&mut self) -> Result<&'a [u8], Misread>
        ensures seen { seen_view self.new ≡ seen_view self.old }
        ensures words { IfOk result (λ word. words_left self.old.words
            ≡ word.now ∷ words_left self.new.words) }
        ensures fault { IfErr result (λ e. (e ≡ BadForm) × (words_left self.old.words ≡ [])) }
    {
        match self.words.next() {
            Some(word) => Ok(word),
            None => Err(Misread::BadForm),
        }
    }

    /// A name, by its number.
    pub(crate) fn name(&mut self) -> Result<u32, Misread>
        ensures answers { Answers texts.name (rest_view self.old) (rest_view self.new) result }
        ensures within { IfOk result (λ n. n < length (seen_view self.new).names) }
        ensures grows { length (seen_view self.old).names ≤ length (seen_view self.new).names }
        ensures files { (seen_view self.new).files ≡ (seen_view self.old).files }
    {
        let Some(name) = name_of(self.word()?) else {
            return Err(Misread::BadForm);
        };
        Ok(self.names.number(name)?)
    }

    /// A file, by its number.
    pub(crate) fn file(&mut self) -> Result<u32, Misread>
        ensures answers { Answers texts.file (rest_view self.old) (rest_view self.new) result }
        ensures within { IfOk result (λ n. n < length (seen_view self.new).files) }
        ensures grows { length (seen_view self.old).files ≤ length (seen_view self.new).files }
        ensures names { (seen_view self.new).names ≡ (seen_view self.old).names }
    {
        let Some(file) = file_of(self.word()?) else {
            return Err(Misread::BadForm);
        };
        Ok(self.files.number(file)?)
    }

    /// A number.
    pub(crate) fn number(&mut self) -> Result<u32, Misread>
        ensures answers { Answers (value forms.number_of) (rest_view self.old)
            (rest_view self.new) result }
        ensures seen { seen_view self.new ≡ seen_view self.old }
    {
        number_of(self.word()?).ok_or(Misread::BadForm)
    }

    /// A literal.
    pub(crate) fn literal(&mut self) -> Result<i32, Misread>
        ensures answers { Answers (value forms.literal_of) (rest_view self.old)
            (rest_view self.new) result }
        ensures seen { seen_view self.new ≡ seen_view self.old }
    {
        literal_of(self.word()?).ok_or(Misread::BadForm)
    }

    /// A variable.
    pub(crate) fn variable(&mut self) -> Result<u32, Misread>
        ensures answers { Answers (value forms.variable_of) (rest_view self.old)
            (rest_view self.new) result }
        ensures seen { seen_view self.new ≡ seen_view self.old }
    {
        variable_of(self.word()?).ok_or(Misread::BadForm)
    }

    /// A truth value for each variable.
    pub(crate) fn bits(&mut self, alloc: Global, variables: u32) -> Result<Bits, Misread>
        ensures answers { Answers (value (forms.bits_of variables)) (rest_view self.old)
            (rest_view self.new) result }
        ensures seen { seen_view self.new ≡ seen_view self.old }
        ensures length { IfOk result (λ bits. length bits ≡ variables) }
    {
        match bits_of(alloc, variables, self.word()?)? {
            Some(bits) => Ok(bits),
            None => Err(Misread::BadForm),
        }
    }

    /// The names and the file of a write.
    pub(crate) fn write(&mut self, alloc: Global, variables: u32) -> Result<Action, Misread>
        ensures answers { Answers texts.write_row (rest_view self.old) (rest_view self.new) result }
        ensures makes { IfOk result (Makes variables (seen_view self.old) (seen_view self.new)) }
    {
        let (names, last) = split_last(alloc, replace(&mut self.words, no_words()))?;
        if names.is_empty() {
            return Err(Misread::BadForm);
        }
        let Some(file) = file_of(last) else {
            return Err(Misread::BadForm);
        };
        let numbers = self.names.number_all(alloc, &names)?;
        Ok(Action::Write(Indices::new(numbers), self.files.number(file)?))
    }

    /// The command of a line.
    pub(crate) fn command(
        &mut self,
        alloc: Global,
        variables: u32,
        line: &Line<'a>,
    ) -> Result<Action, Misread>
        ensures value { IfOk result (λ action. texts.line_command variables (seen_view self.old)
            (line_view line.now).words ≡ Some (action, seen_view self.new)) }
        ensures fault { IfErr result (λ e. e ≡ BadForm → texts.line_command variables
            (seen_view self.old) (line_view line.now).words ≡ None) }
        ensures makes { IfOk result (Makes variables (seen_view self.old) (seen_view self.new)) }
    {
        self.words = line.words();
        let command = self.word()?;
        let action = self.row(alloc, variables, command)?;
        if self.words.next().is_some() {
            return Err(Misread::BadForm);
        }
        Ok(action)
    }
}

// No words.
fn no_words<'a>() -> Words<'a>
    ensures { words_left result ≡ [] }
{
    let line = Line {
        number: 0,
        bytes: &[],
    };
    line.words()
}

// All words but the last, which are at most 1,024 names, and the last.
fn split_last<'a>(alloc: Global, words: Words<'a>) -> Result<(Vec<&'a str>, &'a [u8]), Misread>
    ensures words { IfOk result (λ (names, last). words_left words.entry
        ≡ map (λ word. word.now) names.items ++ last.now ∷ []) }
    ensures names { IfOk result (λ (names, last).
        list_all forms.is_name (map (λ word. word.now) names.items) ≡ true) }
    ensures few { IfOk result (λ (names, last). length names.items ≤ 1024) }
    ensures fault { IfErr result (λ e. e ≡ BadForm → IsNoWrite (words_left words.entry)) }
{
    let mut words = words;
    let Some(first) = words.next() else {
        return Err(Misread::BadForm);
    };
    let mut names = Vec::new(alloc);
    let mut last = first;
    for word in words {
        if names.len() == MAX_NAMES {
            return Err(Misread::BadForm);
        }
        let Some(name) = name_of(last) else {
            return Err(Misread::BadForm);
        };
        names.push(name)?;
        last = word;
    }
    Ok((names, last))
}
