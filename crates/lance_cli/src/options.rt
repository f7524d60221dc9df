// The options of a command line.
ghost use Rattle.std.specs.Prelude.{◌≡◌, IfOk, option_map};
ghost use Rattle.lance_cli.specs.Options.{number_in, names_in, with_version, with_columns, with_option, options_in, plain_options};

use lan_model::{Text, Words, number_of};
use std::alloc::{AllocError, Global};
use std::collections::BTreeSet;

/// What the options of a command line ask for. Each may be left out.
#[derive(Debug, Drop)]
pub struct Options {
    /// The number of a version.
    pub version: Option<u64>,
    /// Names of columns, one at least, none empty and none twice, in the order of the words.
    pub columns: Option<Words>,
}

impl Options {
    fn with_version(self, value: &Text) -> Option<Options>
        ensures { option_map plain_options result ≡ with_version value.now (plain_options self) }
    {
        if self.version.is_some() {
            return None;
        }
        let version = number_word(value)?;
        Some(Options {
            version: Some(version),
            columns: self.columns,
        })
    }

    fn with_columns(self, alloc: Global, value: &Text) -> Result<Option<Options>, AllocError>
        ensures { IfOk result (λ o. option_map plain_options o ≡ with_columns value.now (plain_options self)) }
    {
        if self.columns.is_some() {
            return Ok(None);
        }
        let Some(names) = names_of(alloc, value.as_str())? else {
            return Ok(None);
        };
        Ok(Some(Options {
            version: self.version,
            columns: Some(names),
        }))
    }

    fn with_option(
        self,
        alloc: Global,
        name: &Text,
        value: &Text,
    ) -> Result<Option<Options>, AllocError>
        ensures { IfOk result (λ o. option_map plain_options o ≡ with_option name.now value.now (plain_options self)) }
    {
        match name.as_str() {
            "--version" => Ok(self.with_version(value)),
            "--columns" => self.with_columns(alloc, value),
            _ => Ok(None),
        }
    }
}

/// The number below 2^64 that the word writes in plain decimal, without a sign or a leading zero.
pub fn number_word(word: &Text) -> Option<u64>
    ensures { result ≡ number_in word.now }
{
    number_of(word.as_str())
}

// The names round the commas of a text, where none is empty and none stands twice.
fn names_of(alloc: Global, text: &str) -> Result<Option<Words>, AllocError>
    ensures { IfOk result (λ names. names ≡ names_in text.now) }
{
    let mut seen = BTreeSet::new(alloc);
    let mut names = Words::new(alloc);
    for name in text.split(',') {
        if name.is_empty() {
            return Ok(None);
        }
        let added = seen.insert(name)?;
        if !added {
            return Ok(None);
        }
        names.push_word(name)?;
    }
    Ok(Some(names))
}

/// The options that the words ask for: `--version N` and `--columns A,B`, in any order and each at most
/// once, with a number in plain decimal below 2^64 and with distinct names. `None` where the words are
/// anything else. A column whose name is empty or has a comma can't be asked for. The error is want of
/// memory.
pub fn options_of(alloc: Global, words: &[Text]) -> Result<Option<Options>, AllocError>
    ensures { IfOk result (λ o. option_map plain_options o ≡ options_in words.now) }
{
    let mut options = Options {
        version: None,
        columns: None,
    };
    let mut rest = words;
    while let [name, value, others @ ..] = rest {
        match options.with_option(alloc, name, value)? {
            Some(more) => options = more,
            None => return Ok(None),
        }
        rest = others;
    }
    if rest.is_empty() {
        Ok(Some(options))
    } else {
        Ok(None)
    }
}
