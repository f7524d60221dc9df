// The top call: what the commands do in turn, and what that means.
ghost use Rattle.std.specs.Prelude.{[], cond, length, ◌≤◌, ◌^◌, IsTrue, IsErrOf};
ghost use Rattle.lan_rows.specs.Lines.{cut};
ghost use Rattle.lan_store.specs.Causes.{HasCause};
ghost use Rattle.lan_store.specs.Looked.{Fails};
ghost use Rattle.lance_cli.specs.Asks.{AsksFor, AsksBy};
ghost use Rattle.lance_cli.specs.Commands.{asked_as, asked_of, reads_input};
ghost use Rattle.lance_cli.specs.Failures.{failure_of, clashed};
ghost use Rattle.lance_cli.specs.Runs.{Kept, Ran, Done, Stops, Decided, Moments, Ordered, TakenBy, wants_input};
ghost use Rattle.lance_cli.specs.Served.{Served};
ghost use Rattle.lance_cli.specs.Words.{WordsFirst};

use crate::append::plan_append;
use crate::change::apply;
use crate::command::{Asked, asked_of};
use crate::create::plan_create;
use crate::fault::Fault;
use crate::input::take_text;
use crate::restore::plan_restore;
use crate::scan::serve_scan;
use crate::schema::serve_schema;
use crate::versions::serve_versions;
use lan_model::Words;
use lan_store::laws::{looks_add_up, puts_follow_looks};
use lan_store::{Sink, Source, Store};
use std::alloc::Global;

/// Does what the words ask of the dataset in the store, reads what they need from the input, and
/// writes what it prints to `out`.
///
/// The words are the command and its own words, without the program's name and the folder.
pub fn run<S: Store, I: Source, O: Sink>(
    alloc: Global,
    words: &Words,
    store: &mut S,
    input: &mut I,
    out: &mut O,
) -> Result<(), Fault>
    // Every version that stood stands for the same table.
    ensures kept { Kept (S.tells store.old).objects (S.tells store.new).objects }

    // On any folder: which commands had their turn, why the next is refused, and what it leaves and prints.
    ensures ran { Ran (record { words = words.now; objects = (S.tells store.old).objects; input = I.left input.old }) (S.tells store.new).objects (O.held out.old) (O.held out.new) result }

    // Where the versions that are read stand: an Ok does what is replied, another end a part of it, and
    // the answer is that of the replies, or a failure.
    ensures done { Done (record { words = words.now; objects = (S.tells store.old).objects; input = I.left input.old }) (S.tells store.new).objects (O.held out.old) (O.held out.new) result }
    ensures stops { Stops (record { words = words.now; objects = (S.tells store.old).objects; input = I.left input.old }) (S.tells store.new).objects (O.held out.old) (O.held out.new) result }
    ensures decided { Decided (record { words = words.now; objects = (S.tells store.old).objects; input = I.left input.old }) result }

    // At each moment the objects stand for the dataset after so many of the accepted changes.
    ensures moments { Moments (record { words = words.now; objects = (S.tells store.old).objects; input = I.left input.old }) (S.tells store.new).objects }

    // What the words and the input decide comes before any call of the store.
    ensures order { Ordered (record { words = words.now; objects = (S.tells store.old).objects; input = I.left input.old }) (S.tells store.old) (S.tells store.new) result }

    // How many ranges and bytes are asked of the store.
    ensures asks { AsksBy (asked_of words.now) (S.tells store.old) (S.tells store.new) }

    // A command that reads input takes it to its end, and no other takes a byte.
    ensures input { TakenBy (wants_input (asked_of words.now)) (I.left input.old) (I.left input.new) result }

    // A fault comes only where its count rose.
    ensures fails { Fails (failure_of result) (S.tells store.old) (S.tells store.new) }
    ensures raced_cause { HasCause (IsTrue (clashed result)) (S.tells store.old).clashes (S.tells store.new).clashes }
    ensures read_cause { HasCause (IsErrOf result Fault.ReadFault) (I.faults input.old) (I.faults input.new) }
    ensures write_cause { HasCause (IsErrOf result Fault.WriteFault) (O.faults out.old) (O.faults out.new) }
{
    looks_add_up();
    let Some(asked) = asked_of(alloc, words)? else {
        return Err(Fault::Usage);
    };
    let text = take_text(alloc, &asked, input)?;
    serve(alloc, &asked, 0, text, store, out)
}

// Does one command, whose words stand in this line, with the lines of a text.
fn serve<S: Store, O: Sink>(
    alloc: Global,
    asked: &Asked<'_>,
    line: u64,
    text: Vec<u8>,
    store: &mut S,
    out: &mut O,
) -> Result<(), Fault>
    requires short { length text.items ≤ 2 ^ 28 }
    ensures served { Served (record { before = (S.tells store.old).objects; now = (S.tells store.new).objects; held = O.held out.old; holds = O.held out.new }) (record { asked = asked_as asked.now; line = line; lines = cond (reads_input (asked_as asked.now)) (cut 1 [] text.items) [] }) result }
    ensures words { WordsFirst (asked_as asked.now) line (S.tells store.old) (S.tells store.new) result }
    ensures asks { AsksFor (asked_as asked.now) (S.tells store.old) (S.tells store.new) }
    ensures fails { Fails (failure_of result) (S.tells store.old) (S.tells store.new) }
    ensures raced_cause { HasCause (IsTrue (clashed result)) (S.tells store.old).clashes (S.tells store.new).clashes }
    ensures write_cause { HasCause (IsErrOf result Fault.WriteFault) (O.faults out.old) (O.faults out.new) }
{
    puts_follow_looks();
    match asked {
        Asked::Create(json) => {
            let planned = plan_create(alloc, json, line, store)?;
            apply(alloc, planned, store, out)
        }
        Asked::Append => {
            let planned = plan_append(alloc, text, store)?;
            apply(alloc, planned, store, out)
        }
        Asked::Restore(version) => {
            let planned = plan_restore(alloc, *version, store)?;
            apply(alloc, planned, store, out)
        }
        Asked::Scan(options) => serve_scan(alloc, options, store, out),
        Asked::Schema(version) => serve_schema(alloc, *version, store, out),
        Asked::Versions => serve_versions(alloc, store, out),
    }
}
