// What the words ask for.
ghost use Rattle.std.specs.Prelude.{◌≡◌, option_map, option_and_then, IfOk};
ghost use Rattle.lance_cli.specs.Commands.{asked_of, asked_as, no_word, one_word, reads_input, restore, scan, schema_of};
ghost use Rattle.lance_cli.specs.Options.{number_in, options_in};

use crate::options::{Options, number_word, options_of};
use lan_model::{Text, Words};
use std::alloc::{AllocError, Global};

/// A command, as its words ask for it.
#[derive(Debug, Drop)]
pub enum Asked<'a> {
    /// A new dataset, of the schema that the text gives.
    Create(&'a str),
    /// The input's rows behind those of the newest version.
    Append,
    /// The table of this version again, as the next one.
    Restore(u64),
    /// The rows of a version, in some of its columns.
    Scan(Options),
    /// The fields of the version of this number, or of the newest.
    Schema(Option<u64>),
    /// The numbers of all versions.
    Versions,
}

impl Asked<'_> {
    /// Whether the command reads the input, as its lines.
    pub fn reads_input(&self) -> bool
        ensures { result ≡ reads_input (asked_as self.now) }
    {
        matches!(self, Asked::Append)
    }
}

/// The command that the words ask for, where they obey the rule of words. The error is want of memory.
#[tactic(auto, unfolding(crate::specs::Commands::asked_of))]
pub fn asked_of(alloc: Global, words: &Words) -> Result<Option<Asked<'_>>, AllocError>
    ensures { IfOk result (λ asked. option_map asked_as asked ≡ asked_of words.now) }
{
    let Some((command, own)) = words.as_slice().split_first() else {
        return Ok(None);
    };
    match command.as_str() {
        "create" => Ok(one_word(own).map(Asked::Create)),
        "append" => Ok(no_word(Asked::Append, own)),
        "restore" => Ok(restore_of(own)),
        "scan" => scan_of(alloc, own),
        "schema" => schema_of(alloc, own),
        "versions" => Ok(no_word(Asked::Versions, own)),
        _ => Ok(None),
    }
}

fn one_word(words: &[Text]) -> Option<&str>
    ensures { option_map (λ word. word.now) result ≡ one_word words.now }
{
    match words {
        [word] => Some(word.as_str()),
        _ => None,
    }
}

fn no_word<'a>(asked: Asked<'a>, words: &[Text]) -> Option<Asked<'a>>
    ensures { option_map asked_as result ≡ no_word (asked_as asked.entry) words.now }
{
    if words.is_empty() { Some(asked) } else { None }
}

fn restore_of<'a>(words: &[Text]) -> Option<Asked<'a>>
    ensures { option_map asked_as result ≡ option_map restore (option_and_then number_in (one_word words.now)) }
{
    match words {
        [word] => Some(Asked::Restore(number_word(word)?)),
        _ => None,
    }
}

fn scan_of<'a>(alloc: Global, words: &[Text]) -> Result<Option<Asked<'a>>, AllocError>
    ensures { IfOk result (λ asked. option_map asked_as asked ≡ option_map scan (options_in words.now)) }
{
    match options_of(alloc, words)? {
        Some(options) => Ok(Some(Asked::Scan(options))),
        None => Ok(None),
    }
}

// The schema of a version, where the options ask for no columns.
fn schema_of<'a>(alloc: Global, words: &[Text]) -> Result<Option<Asked<'a>>, AllocError>
    ensures { IfOk result (λ asked. option_map asked_as asked ≡ option_and_then schema_of (options_in words.now)) }
{
    match options_of(alloc, words)? {
        Some(
            Options {
                version,
                columns: None,
            },
        ) => Ok(Some(Asked::Schema(version))),
        _ => Ok(None),
    }
}
