use crate::fault::exit_of;
use crate::fault_text::fault_text;
use crate::run::run;
use lan_model::{Blob, Nums, Text, Words};
use lan_store::{BlindStore, CalmStore, MemSink, MemSource, MemStore, Plan, Plans, Store};
use std::alloc::{AllocError, Global};
use std::test::Fail;

const SCHEMA: &str = "[{\"name\":\"x\",\"nullable\":false,\"type\":\"int64\"}]";

fn words_of(alloc: Global, command: &str) -> Result<Words, AllocError> {
    let mut words = Words::new(alloc);
    words.push_word(command)?;
    if command == "create" {
        words.push_word(SCHEMA)?;
    }
    Ok(words)
}

// The status of a command, and the words of its refusal.
fn ask<S: Store>(
    alloc: Global,
    command: &str,
    input: &mut MemSource,
    store: &mut S,
    out: &mut MemSink,
) -> Result<(u8, Text), AllocError> {
    let words = words_of(alloc, command)?;
    match run(alloc, &words, store, input, out) {
        Ok(()) => Ok((0, Text::new(alloc))),
        Err(fault) => Ok((exit_of(&fault), fault_text(alloc, &fault)?)),
    }
}

fn source(alloc: Global, input: &str, fails: Nums) -> Result<MemSource, AllocError> {
    let bytes = Blob::from_slice(alloc, input.as_bytes())?;
    Ok(MemSource::new(bytes, 5, fails))
}

// The status of a command, and what it prints, or the words of its refusal.
fn told<S: Store>(
    alloc: Global,
    command: &str,
    input: &str,
    store: &mut S,
) -> Result<(u8, Text), AllocError> {
    let mut input = source(alloc, input, Nums::new(alloc))?;
    let mut out = MemSink::new(alloc, 3, Nums::new(alloc));
    let (status, words) = ask(alloc, command, &mut input, store, &mut out)?;
    if status != 0 {
        return Ok((status, words));
    }
    let text = String::from_utf8_lossy(alloc, out.bytes())?;
    Ok((status, Text::of(alloc, &text)?))
}

fn calls(alloc: Global, call: u64) -> Result<Nums, AllocError> {
    let mut calls = Nums::new(alloc);
    calls.push(call)?;
    Ok(calls)
}

fn planned(alloc: Global, call: u64, after: bool) -> Result<MemStore, AllocError> {
    let mut plans = Plans::new(alloc);
    plans.push(Plan { call, after })?;
    Ok(MemStore::new(alloc, plans))
}

// Whether a store that fails at one call, of a `create` or of the `append` behind it, answers as it
// should: with its own status, and with the objects of the puts that were done.
fn fails_rightly(alloc: Global, call: u64, after: bool) -> Result<bool, AllocError> {
    let mut store = planned(alloc, call, after)?;
    let (create, _) = told(alloc, "create", "", &mut store)?;
    let (append, words) = told(alloc, "append", "{\"x\":7}", &mut store)?;
    let (_, rows) = told(alloc, "scan", "", &mut store)?;
    let printed = rows.as_str() == "{\"x\":7}\n";
    Ok(match (call, words.as_str()) {
        (1, "no dataset") => create == 17,
        (2, "no dataset") => create == 17 && !after,
        (2, "version 2\n") => create == 17 && after && printed,
        (3, "store failed: _versions/") => append == 17,
        (4 | 5, "store failed: _versions/1.manifest") => append == 17 && store.count() == 1,
        (6, "store failed: data/") => append == 17 && store.count() == 1,
        (7, "store failed: data/00000000000000000001.lance") => {
            store.count() == 1 + u64::from(after) && rows.as_str() == ""
        }
        (8, "store failed: _versions/2.manifest") => {
            store.count() == 2 + u64::from(after) && printed == after
        }
        _ => call > 8 && append == 0,
    })
}

#[test]
fn each_call_of_the_store_fails_in_turn(rt: HostRuntime) -> Result<(), Fail> {
    for call in 1..=9 {
        assert!(rt;
            fails_rightly(rt.alloc(), call, false)?,
            "before call {call}"
        );
        assert!(rt; fails_rightly(rt.alloc(), call, true)?, "after call {call}");
    }
    Ok(())
}

// What a scan tells of the store that is left where only so many puts of a `create` and of two appends
// were done.
fn cut_off_after(alloc: Global, puts: u64) -> Result<(u8, Text), AllocError> {
    let mut store = MemStore::new(alloc, Plans::new(alloc));
    told(alloc, "create", "", &mut store)?;
    told(alloc, "append", "{\"x\":7}", &mut store)?;
    told(alloc, "append", "{\"x\":8}", &mut store)?;
    told(alloc, "scan", "", &mut store.cut(puts))
}

#[test]
fn each_front_of_the_puts_is_before_or_after(rt: HostRuntime) -> Result<(), Fail> {
    let alloc = rt.alloc();
    let one = "{\"x\":7}\n";
    for (puts, text) in [
        (0, "no dataset"),
        (1, ""),
        (2, ""),
        (3, one),
        (4, one),
        (5, "{\"x\":7}\n{\"x\":8}\n"),
    ] {
        let (_, rows) = cut_off_after(alloc, puts)?;
        assert_eq!(rt; rows.as_str(), text, "after {puts} puts");
    }
    Ok(())
}

#[test]
fn others_may_be_in_the_way(rt: HostRuntime) -> Result<(), Fail> {
    let alloc = rt.alloc();
    let mut blind = BlindStore::new(planned(alloc, 0, false)?, calls(alloc, 1)?);
    let (status, words) = told(alloc, "create", "", &mut blind)?;
    assert_eq!(rt; status, 16);
    assert_eq!(rt; words.as_str(), "raced: _versions/1.manifest");
    Ok(())
}

// The status of a scan of two rows to a sink that fails at its second write, and what the sink has.
fn cut_off(alloc: Global, store: &mut CalmStore) -> Result<(u8, MemSink), AllocError> {
    told(alloc, "create", "", store)?;
    told(alloc, "append", "{\"x\":1}\n{\"x\":2}\n", store)?;
    let mut out = MemSink::new(alloc, 8, calls(alloc, 2)?);
    let mut none = source(alloc, "", Nums::new(alloc))?;
    let (status, _) = ask(alloc, "scan", &mut none, store, &mut out)?;
    Ok((status, out))
}

#[test]
fn streams_fail(rt: HostRuntime) -> Result<(), Fail> {
    let alloc = rt.alloc();
    let mut store = CalmStore::new(alloc);
    let (status, out) = cut_off(alloc, &mut store)?;
    assert_eq!(rt; status, 19);
    assert_eq!(rt; out.bytes(), b"{\"x\":1}\n".as_slice());
    let mut input = source(alloc, "{\"x\":3}\n", calls(alloc, 2)?)?;
    let mut out = MemSink::new(alloc, 3, Nums::new(alloc));
    let (status, words) = ask(alloc, "append", &mut input, &mut store, &mut out)?;
    assert_eq!(rt; status, 18);
    assert_eq!(rt; words.as_str(), "input failed");
    assert_eq!(rt; store.count(), 3);
    Ok(())
}
