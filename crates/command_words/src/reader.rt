//! Reading the words behind a command's, up to the first that is wrong.

ghost use Rattle.std.specs.Prelude.{◌≡◌, ◌+◌, ◌<◌, ◌≤◌, Some, option_copied, option_map, IfOk, OnOk};
ghost use Rattle.std.specs.List.{before_first};
ghost use Rattle.std.specs.Result.{result_err};
ghost use Rattle.command_words.specs.Grammar.{Given, begins_with_dash, is_option};
ghost use Rattle.command_words.specs.Kept.{named, reading_kept, so_far, takes_kept, values_kept};
ghost use Rattle.command_words.specs.Options.{option_named};
ghost use Rattle.command_words.specs.WordFaults.{command_read, end_fault, fault_read, kind_fault, missing, name_fault};
ghost use Rattle.command_words.specs.WordFaults.{none_of, option_fault};
ghost use Rattle.command_words.specs.WordFaults.{option_word_fault, value_fault, with_read, with_word, word_fault};
ghost use Rattle.command_words.specs.Words.{Options, Value, behind_equals, is_equals, option_read, word_read};

use crate::faults::WordsFault;
use crate::options::{Numbers, OptionName, Values, number_of};
use crate::takes::{NameKind, OptionSet, Takes};
use guest_names::Name;

/// How the next word is read.
#[derive(Clone, Copy, Drop)]
enum Reading {
    /// As a name or as an option.
    Options,
    /// As the value of this option.
    Value(OptionName),
    /// As a name behind `--`.
    Names,
}

/// How far the words behind a command's are read, none of them wrong.
#[derive(Drop)]
pub(crate) struct Reader {
    takes: Takes,
    next: usize,
    reading: Reading,
    names: usize,
    options: OptionSet,
}

/// Whether a text begins with `-`.
fn begins_with_dash(text: &str) -> bool
    ensures { result ≡ begins_with_dash text.now }
{
    text.starts_with('-')
}

/// Whether a word can't be a name before `--`: it begins with `-` and is longer than one character.
fn is_option(word: &str) -> bool
    ensures { result ≡ is_option word.now }
{
    word.len() > 1 && begins_with_dash(word)
}

/// What stands before the first `=` of a word, and what stands behind it, if the word has one.
fn parted(word: &str) -> (&str, Option<&str>)
    ensures name { result.0.now ≡ before_first is_equals word.now }
    ensures value { option_copied result.1 ≡ behind_equals word.now }
{
    match word.split_once('=') {
        Some((name, value)) => (name, Some(value)),
        None => (word, None),
    }
}

impl Values {
    /// The fault where the value in this word is none of these.
    fn fault(self, word: usize) -> WordsFault
        ensures { result ≡ none_of (values_kept self) word }
    {
        match self {
            Values::Numbers(Numbers { least, most }) => {
                WordsFault::OutOfRange { word, least, most }
            }
            Values::PolicyNames => WordsFault::UnknownPolicy(word),
            Values::KeyNames => WordsFault::NeitherTextNorEnd(word),
            Values::FileNames => WordsFault::NoValue(word),
            Values::MemorySpans => WordsFault::NoSpans(word),
            Values::EndNames => WordsFault::NoEnd(word),
            Values::YesOrNo => WordsFault::NeitherYesNorNo(word),
            Values::ReductionNames => WordsFault::UnknownReduction(word),
            Values::PromptOrAny => WordsFault::NeitherPromptNorAny(word),
        }
    }
}

impl NameKind {
    /// Whether a text is such a name, in this word.
    fn suits(self, text: &str, word: usize) -> Result<(), WordsFault>
        ensures { result_err result ≡ kind_fault self word text.now }
    {
        match self {
            NameKind::Guest if Name::of_word(text).is_none() => {
                Err(WordsFault::UnknownGuest(word))
            }
            NameKind::Size if number_of(text).is_none() => Err(WordsFault::NoNumber(word)),
            _ => Ok(()),
        }
    }

    /// The fault where such a name is missing.
    fn missing(self) -> WordsFault
        ensures { result ≡ missing self }
    {
        match self {
            NameKind::Program => WordsFault::NoProgram,
            NameKind::SecondProgram => WordsFault::NoSecondProgram,
            NameKind::Script => WordsFault::NoScript,
            NameKind::Guest => WordsFault::NoGuest,
            NameKind::Size => WordsFault::NoSize,
        }
    }
}

impl Reader {
    /// The command's word is read, and the command takes this.
    pub(crate) fn new(takes: Takes) -> Reader
        ensures start { so_far result ≡ command_read (takes_kept takes) }
        ensures next { result.next ≡ 2 }
    {
        Reader {
            takes,
            next: 2,
            reading: Reading::Options,
            names: 0,
            options: OptionSet::none(),
        }
    }

    /// Reads the next word.
    pub(crate) fn read(&mut self, word: &str) -> Result<(), WordsFault>
        requires behind { 2 ≤ self.old.next }
        requires room { self.old.next < usize.MAX }
        ensures fault { result_err result ≡ word_fault (so_far self.old) word.now }
        ensures read { OnOk result (with_word (so_far self.old) word.now ≡ Some (so_far self.new)) }
        ensures next { OnOk result (self.new.next ≡ self.old.next + 1) }
    {
        match self.reading {
            Reading::Options => self.read_any(word)?,
            Reading::Value(option) => self.read_next_value(option, word)?,
            Reading::Names => self.read_name(word)?,
        }
        self.next += 1;
        Ok(())
    }

    /// Reads the next word as a name or as an option.
    fn read_any(&mut self, word: &str) -> Result<(), WordsFault>
        requires { reading_kept self.old.reading ≡ Options }
        ensures fault { result_err result ≡ fault_read (so_far self.old) Options word.now }
        ensures read { OnOk result
            (option_map (with_read (so_far self.old)) (word_read Options word.now) ≡ Some (so_far self.new)) }
        ensures next { self.new.next ≡ self.old.next }
    {
        if word == "--" {
            self.reading = Reading::Names;
            Ok(())
        } else if is_option(word) {
            self.read_option(word)
        } else {
            self.read_name(word)
        }
    }

    /// Reads the next word as an option.
    fn read_option(&mut self, word: &str) -> Result<(), WordsFault>
        ensures fault { result_err result ≡ option_word_fault (so_far self.old) word.now }
        ensures read { OnOk result
            (option_map (with_read (so_far self.old))
            (option_read (option_named (before_first is_equals word.now))
            (behind_equals word.now)) ≡ Some (so_far self.new)) }
        ensures next { self.new.next ≡ self.old.next }
    {
        let (name, value) = parted(word);
        let option = self.option_of(name)?;
        match value {
            Some(text) => self.read_value(option, text),
            None => {
                self.reading = Reading::Value(option);
                Ok(())
            }
        }
    }

    /// The option of this name, one that the next word may give.
    fn option_of(&self, name: &str) -> Result<OptionName, WordsFault>
        ensures fault { result_err result ≡ option_fault (so_far self.now) (option_named name.now) }
        ensures named { IfOk result (λ option. option_named name.now ≡ Some (named option)) }
    {
        let option = OptionName::of_word(name).ok_or(WordsFault::UnknownOption(self.next))?;
        if !self.takes.options.has(option) {
            Err(WordsFault::NotTaken(self.next))
        } else if self.options.has(option) {
            Err(WordsFault::Twice(self.next))
        } else {
            Ok(option)
        }
    }

    /// Reads the next word as the value of the option in the word before it.
    fn read_next_value(&mut self, option: OptionName, word: &str) -> Result<(), WordsFault>
        requires { 2 ≤ self.old.next }
        ensures fault { result_err result ≡ fault_read (so_far self.old) (Value (named option)) word.now }
        ensures read { OnOk result
            (option_map (with_read (so_far self.old)) (word_read (Value (named option)) word.now)
            ≡ Some (so_far self.new)) }
        ensures next { self.new.next ≡ self.old.next }
    {
        if begins_with_dash(word) {
            Err(WordsFault::NoValue(self.next - 1))
        } else {
            self.read_value(option, word)
        }
    }

    /// Takes a text in the next word for the value of an option.
    fn read_value(&mut self, option: OptionName, text: &str) -> Result<(), WordsFault>
        ensures fault { result_err result ≡ value_fault (so_far self.old) (named option) text.now }
        ensures read { OnOk result
            (so_far self.new ≡ with_read (so_far self.old) (Some (Given (named option) text.now), Options)) }
        ensures next { self.new.next ≡ self.old.next }
    {
        let values = option.values();
        if !values.contain(text) {
            return Err(values.fault(self.next));
        }
        self.options = self.options.with(option);
        self.reading = Reading::Options;
        Ok(())
    }

    /// Takes the next word for a name.
    fn read_name(&mut self, word: &str) -> Result<(), WordsFault>
        ensures fault { result_err result ≡ name_fault (so_far self.old) word.now }
        ensures read { OnOk result
            (so_far self.new ≡ record (so_far self.old) { names = self.old.names + 1 }) }
        ensures next { self.new.next ≡ self.old.next }
    {
        let kind = self
            .takes
            .name_at(self.names)
            .ok_or(WordsFault::OneNameTooMany(self.next))?;
        kind.suits(word, self.next)?;
        self.names += 1;
        Ok(())
    }

    /// No word follows.
    pub(crate) fn end(&self) -> Result<(), WordsFault>
        requires { 2 ≤ self.now.next }
        ensures { result_err result ≡ end_fault (so_far self.now) }
    {
        if let Reading::Value(_) = self.reading {
            return Err(WordsFault::NoValue(self.next - 1));
        }
        match self.takes.name_at(self.names) {
            Some(kind) => Err(kind.missing()),
            None => Ok(()),
        }
    }
}
