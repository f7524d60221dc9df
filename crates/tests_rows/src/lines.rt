use lan_form::from_json;
use lan_model::{Blob, FieldList, Text};
use lan_rows::{print_row, read_row, why};
use std::alloc::{AllocError, Global};
use std::test::Fail;

const TAGS: &str =
    r#"[{"name":"id","nullable":false,"type":"int64"},{"name":"tags","nullable":true,"type":"list","item":{"name":"item","nullable":true,"type":"int32"}},{"name":"note","nullable":true,"type":"string"}]"#;

const STRUCT: &str =
    r#"[{"name":"s","nullable":true,"type":"struct","fields":[{"name":"a","nullable":false,"type":"int8"},{"name":"b","nullable":true,"type":"bool"}]}]"#;

const VECTOR: &str = r#"[{"name":"v","nullable":false,"type":"fixed_size_list:int16:2"}]"#;

const BYTES: &str =
    r#"[{"name":"f","nullable":false,"type":"float"},{"name":"b","nullable":false,"type":"binary"}]"#;

// A schema, a line that is no row of it, and why. What comes of a key that stands twice, of numbers that
// are held as floats or not at all, and of lone surrogates is the JSON reader's.
fn refused(case: u32) -> (&'static str, &'static str, &'static str) {
    match case {
        0 => (TAGS, r#"{"id":1"#, "not JSON"),
        1 => (TAGS, "[1]", "not an object"),
        2 => (TAGS, r#"{"tags":[]}"#, r#"no key "id""#),
        3 => (STRUCT, r#"{"s":{"b":true}}"#, r#"no key "a""#),
        4 => (TAGS, r#"{"id":1,"a\"":2,"z":3}"#, r#"stray key "a\"""#),
        5 => (TAGS, r#"{"id":1.0,"z":3}"#, r#"wrong kind in "id""#),
        6 => (STRUCT, r#"{"s":{"a":128}}"#, r#"out of range in "s""#),
        7 => (VECTOR, r#"{"v":[1,null]}"#, r#"null in "v""#),
        8 => (VECTOR, r#"{"v":[null]}"#, r#"wrong count in "v""#),
        9 => (BYTES, r#"{"f":"3F80000g","b":""}"#, r#"bad hex in "f""#),
        10 => (BYTES, r#"{"f":"3F800000","b":"0"}"#, r#"bad hex in "b""#),
        11 => (TAGS, r#"{"id":-0}"#, r#"wrong kind in "id""#),
        12 => (TAGS, r#"{"id":1e2}"#, r#"wrong kind in "id""#),
        13 => (
            TAGS,
            r#"{"id":9223372036854775808}"#,
            r#"out of range in "id""#,
        ),
        14 => (
            TAGS,
            r#"{"id":18446744073709551616}"#,
            r#"wrong kind in "id""#,
        ),
        15 => (TAGS, r#"{"id":null}"#, r#"null in "id""#),
        16 => (TAGS, r#"{"id":1,"z":1e309}"#, "not JSON"),
        _ => (TAGS, r#"{"id":1,"note":"\ud800"}"#, "not JSON"),
    }
}

// The line that is printed for the row of a line, or why it is none.
fn through(alloc: Global, fields: &FieldList, line: &str) -> Result<Blob, AllocError> {
    let mut out = Blob::new(alloc);
    match read_row(alloc, fields, line.as_bytes()) {
        Ok(row) => print_row(alloc, fields, &row, &mut out)?,
        Err(fault) => out.extend(why(alloc, &fault)?.as_slice())?,
    }
    Ok(out)
}

#[test]
fn lines_are_refused(rt: HostRuntime) -> Result<(), Fail> {
    for case in 0..18 {
        let (schema, line, wanted) = refused(case);
        let fields = from_json(rt.alloc(), schema)?;
        let got = through(rt.alloc(), &fields, line)?;
        assert_eq!(rt; got.as_slice(), wanted.as_bytes(), "of {line}");
    }
    Ok(())
}

// Two hundred parts, each with a number between its ends, out of the order of their numbers.
fn wide(alloc: Global, front: &str, ends: (&str, &str), end: &str) -> Result<Text, AllocError> {
    let mut text = Text::of(alloc, front)?;
    for place in 0..200_u64 {
        let comma = if place == 0 { "" } else { "," };
        let number = place * 7 % 200;
        let (before, after) = ends;
        text.push(format!(in alloc; "{comma}{before}{number}{after}")?.as_str())?;
    }
    text.push(end)?;
    Ok(text)
}

fn wide_fields(alloc: Global) -> Result<FieldList, Fail> {
    let ends = (r#"{"name":"n"#, r#"","nullable":false,"type":"uint8"}"#);
    let schema = wide(alloc, "[", ends, "]")?;
    Ok(from_json(alloc, schema.as_str())?)
}

fn wide_line(alloc: Global, end: &str) -> Result<Text, AllocError> {
    wide(alloc, "{", (r#""n"#, r#"":1"#), end)
}

#[test]
fn wide_rows_have_no_stray_key(rt: HostRuntime) -> Result<(), Fail> {
    let alloc = rt.alloc();
    let fields = wide_fields(alloc)?;
    let whole = through(alloc, &fields, wide_line(alloc, "}")?.as_str())?;
    assert_eq!(rt; whole.as_slice(), wide_line(alloc, "}\n")?.as_slice());
    let stray = through(
        alloc,
        &fields,
        wide_line(alloc, r#","z":0,"n2a":0}"#)?.as_str(),
    )?;
    assert_eq!(rt; stray.as_slice(), br#"stray key "n2a""#.as_slice());
    Ok(())
}

// Sixty-four letters.
const LETTERS: &str = "abcdefghabcdefghabcdefghabcdefghabcdefghabcdefghabcdefghabcdefgh";

// A line whose one text has 2^24 letters and some more.
fn long_line(alloc: Global, more: &str) -> Result<Text, AllocError> {
    let mut line = Text::of(alloc, r#"{"id":1,"note":""#)?;
    line.push(LETTERS.repeat(alloc, 1 << 18)?.as_str())?;
    line.push(more)?;
    line.push("\"}")?;
    Ok(line)
}

#[test]
fn texts_end_at_2_to_the_24(rt: HostRuntime) -> Result<(), Fail> {
    let alloc = rt.alloc();
    let fields = from_json(alloc, TAGS)?;
    let whole = through(alloc, &fields, long_line(alloc, "")?.as_str())?;
    assert_eq!(rt; whole.len(), 16777216 + 31);
    let longer = through(alloc, &fields, long_line(alloc, "a")?.as_str())?;
    assert_eq!(rt;
        longer.as_slice(),
        br#"value too long in "note""#.as_slice()
    );
    Ok(())
}
