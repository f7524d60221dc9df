//! A versioned columnar dataset in a folder.
#![tactic(auto)]

mod append;
mod change;
mod command;
mod create;
mod fault;
mod fault_text;
mod folder;
mod input;
mod laws;
mod opening;
mod options;
mod reason_codes;
mod reply;
mod restore;
mod run;
mod scan;
mod schema;
mod sending;
mod stdio;
#[cfg(test)]
mod tests;
mod versions;

use fault::{Fault, exit_of};
use fault_text::fault_text;
use folder::FolderStore;
use lan_model::{Text, Words};
use run::run;
use std::process::ExitCode;
use std::{env, io};
use stdio::{StdSink, StdSource};

const HELP: &str = "\
Lance dataset engine: versioned tables of nested columns in a folder.

usage: lance_cli FOLDER COMMAND [WORDS]

commands
  create JSON   make a dataset of the fields that the JSON names, as version 1
  append        add the rows of standard input, one JSON object a line, as the next version
  restore N     make version N's table again, as the next version
  scan          print the rows, one JSON object a line
  schema        print the fields in JSON
  versions      print the numbers of all versions, one a line

options of scan and schema, in any order
  --version N       of version N in place of the newest
  --columns A,B     only these columns, in this order; of scan alone

examples
  lance_cli people create '[{\"name\":\"x\",\"nullable\":false,\"type\":\"int64\"}]'
  echo '{\"x\":7}' | lance_cli people append
  lance_cli people scan --version 2 --columns x

The status is 0, or says why a command was refused; the words are on standard error.
";

const VERSION: &str = "lance_cli 0.1.0\n";

// The first word behind the program's name, and the others.
fn words_of(rt: &HostRuntime) -> Result<(Option<Text>, Words), Fault> {
    let mut args = match env::args(rt) {
        Ok(args) => args,
        Err(error) if error.kind() == io::ErrorKind::OutOfMemory => return Err(Fault::Memory),
        Err(_) => return Err(Fault::Usage),
    };
    args.next();
    let first = args.next().map(Text::from_string);
    let mut words = Words::new(rt.alloc());
    for word in args {
        words.push(Text::from_string(word))?;
    }
    Ok((first, words))
}

// The page that a sole word asks for.
fn page_of(word: &str) -> Option<&'static str> {
    match word {
        "--help" => Some(HELP),
        "--version" => Some(VERSION),
        _ => None,
    }
}

fn start(rt: &HostRuntime) -> Result<(), Fault> {
    let (first, words) = words_of(rt)?;
    let Some(folder) = first else {
        return Err(Fault::Usage);
    };
    if folder.as_str().is_empty() {
        return Err(Fault::Usage);
    }
    if words.is_empty()
        && let Some(page) = page_of(folder.as_str())
    {
        return print!(rt; "{page}").map_err(|_| Fault::WriteFault);
    }
    let mut store = FolderStore::new(rt.clone()?, folder);
    let mut input = StdSource::new(rt.reader());
    let mut out = StdSink::new(io::writer(rt));
    run(rt.alloc(), &words, &mut store, &mut input, &mut out)
}

fn main(rt: HostRuntime) -> ExitCode {
    match start(&rt) {
        Ok(()) => ExitCode::SUCCESS,
        Err(fault) => {
            if let Ok(text) = fault_text(rt.alloc(), &fault) {
                let text = text.as_str();
                let _ = eprintln!(rt; "{text}");
            }
            ExitCode::from(exit_of(&fault))
        }
    }
}
