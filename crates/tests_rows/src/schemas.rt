use lan_form::{field_from_json, from_json, to_json, why};
use lan_model::{Blob, Text, Val, blank, copy_field, fits};
use std::alloc::{AllocError, Global};
use std::test::Fail;

// The JSON that is printed for the fields of a schema, or why it is none.
fn through(alloc: Global, text: &str) -> Result<Text, AllocError> {
    match from_json(alloc, text) {
        Ok(fields) => to_json(alloc, &fields),
        Err(fault) => why(alloc, &fault),
    }
}

// A schema, and what is printed of it.
fn schema(case: u32) -> (&'static str, &'static str) {
    match case {
        0 => (
            r#" [{"type":"int64", "nullable":false, "name":"x"}] "#,
            r#"[{"name":"x","nullable":false,"type":"int64"}]"#,
        ),
        1 => (
            r#"[{"name":"a","name":"\u0022","nullable":true,"type":"fixed_size_list:date32:day:65536"}]"#,
            r#"[{"name":"\"","nullable":true,"type":"fixed_size_list:date32:day:65536"}]"#,
        ),
        2 => (
            r#"[{"name":"l","nullable":true,"type":"list","item":{"name":"item","nullable":true,"type":"struct","fields":[{"name":"a","nullable":false,"type":"bool"},{"name":"b","nullable":true,"type":"binary"}]}}]"#,
            r#"[{"item":{"fields":[{"name":"a","nullable":false,"type":"bool"},{"name":"b","nullable":true,"type":"binary"}],"name":"item","nullable":true,"type":"struct"},"name":"l","nullable":true,"type":"list"}]"#,
        ),
        _ => (
            r#"[{"name":"a","nullable":true,"type":"list.struct"}]"#,
            r#"unknown type "list.struct""#,
        ),
    }
}

#[test]
fn schemas_are_read_and_printed(rt: HostRuntime) -> Result<(), Fail> {
    for case in 0..4 {
        let (text, wanted) = schema(case);
        let printed = through(rt.alloc(), text)?;
        assert_eq!(rt; printed.as_str(), wanted);
    }
    Ok(())
}

#[test]
fn values_fit_their_fields(rt: HostRuntime) -> Result<(), Fail> {
    let alloc = rt.alloc();
    let byte = field_from_json(alloc, r#"{"name":"x","nullable":false,"type":"uint8"}"#)?;
    let byte = copy_field(alloc, &byte)?;
    assert!(rt; fits(&byte, &blank(alloc, &byte)?) && fits(&byte, &Val::Bits(255)));
    assert!(rt; !fits(&byte, &Val::Bits(256)) && !fits(&byte, &Val::Null));
    let text = field_from_json(alloc, r#"{"name":"x","nullable":true,"type":"string"}"#)?;
    let raw = Val::Raw(Blob::from_slice(alloc, b"\xff")?);
    assert!(rt; !fits(&text, &raw) && fits(&text, &Val::Null) && !fits(&text, &Val::Bits(1)));
    Ok(())
}
