//! The rows of files.
use crate::streams::{Sent, Told};
use exchange::{Source, SourceFault, kept_len};
use std::alloc::Global;
use std::io::Write;
use std::process::Abort;
use std::test::Fail;

/// The rows of a text, each with a bar behind it, and the code of the fault at the end.
fn rows_of(alloc: Global, text: &str, rows: &mut Vec<u8>) -> Result<&'static str, Fail> {
    let mut reader = Told(text.as_bytes());
    let mut source = Source::new(alloc);
    let mut row = Vec::new(alloc);
    let form = match source.form(&mut reader) {
        Ok(form) => form,
        Err(fault) => return Ok(fault.code()),
    };
    for _ in 0..100 {
        match source.read_row(form, &mut reader, &mut row) {
            Ok(true) => {
                rows.extend_from_slice(row.as_slice())?;
                rows.extend_from_slice(b"|")?;
            }
            Ok(false) => return Ok("whole"),
            Err(fault) => return Ok(fault.code()),
        }
    }
    Ok("endless")
}

/// Checks the rows of a text, and how it ends.
fn reads(rt: &impl Abort, alloc: Global, text: &str, rows: &str, end: &str) -> Result<(), Fail> {
    let mut found = Vec::new(alloc);
    let ended = rows_of(alloc, text, &mut found)?;
    assert_eq!(rt; found.as_slice(), rows.as_bytes(), "{text}");
    assert_eq!(rt; ended, end, "{text}");
    Ok(())
}

#[test]
fn collections_have_their_features(rt: HostRuntime) -> Result<(), Fail> {
    let cases = [
        (
            "{\"type\":\"FeatureCollection\",\"features\":[{\"a\":1},\n{\"b\":\"]}\"}]}",
            "{\"a\":1}|{\"b\":\"]}\"}|",
            "whole",
        ),
        (
            " { \"name\" : \"x\" , \"features\" : [ ] , \"crs\" : { \"a\" : [ 1 ] } } \n",
            "",
            "whole",
        ),
        (
            "{\"features\":[{\"features\":[{}]}]}",
            "{\"features\":[{}]}|",
            "whole",
        ),
        ("{\"features\":[{\"a\":1}", "{\"a\":1}|", "F2"),
        ("{\"features\":[{\"a\":", "", "F2"),
        ("{\"features\":[{\"a\":1}]", "{\"a\":1}|", "F2"),
        ("{\"features\":[1]}", "", "F1"),
    ];
    for (text, rows, end) in cases {
        reads(&rt, rt.alloc(), text, rows, end)?;
    }
    Ok(())
}

#[test]
fn sequences_have_their_features(rt: HostRuntime) -> Result<(), Fail> {
    let cases = [
        (
            "{\"a\":1}\n{\"b\":\"\\\"}\"}\n",
            "{\"a\":1}|{\"b\":\"\\\"}\"}|",
            "whole",
        ),
        ("\x1e{\"a\":1}\n\x1e{}\n", "{\"a\":1}|{}|", "whole"),
        ("\u{feff}{\"a\":[[1,2]]}", "{\"a\":[[1,2]]}|", "whole"),
        ("{\"a\":1}\n{\"b\"", "{\"a\":1}|", "F2"),
        ("{\"a\":1}\nx", "{\"a\":1}|", "F1"),
        ("", "", "F1"),
        (" \n", "", "F1"),
    ];
    for (text, rows, end) in cases {
        reads(&rt, rt.alloc(), text, rows, end)?;
    }
    Ok(())
}

#[test]
fn tables_have_their_records(rt: HostRuntime) -> Result<(), Fail> {
    let cases = [
        (
            "WKT,id\r\n\"POINT (1 2)\",7\r\n",
            "WKT,id\r|\"POINT (1 2)\",7\r|",
            "whole",
        ),
        (
            "WKT,name\n\n\"a\",\"b\n\"\"c\"\"\"\nd",
            "WKT,name|\"a\",\"b\n\"\"c\"\"\"|d|",
            "whole",
        ),
        ("WKT,name\na,b\n \n \r", "WKT,name|a,b|", "whole"),
        ("WKT\n\"POINT (1", "WKT|", "F2"),
    ];
    for (text, rows, end) in cases {
        reads(&rt, rt.alloc(), text, rows, end)?;
    }
    Ok(())
}

#[test]
fn a_row_has_a_limit(rt: HostRuntime) -> Result<(), Fail> {
    let mut text = Vec::new(rt.alloc());
    Sent(&mut text).write_all(b"{\"a\":\"")?;
    for _ in 0..4_200 {
        Sent(&mut text).write_all(&[b'x'; 1_000])?;
    }
    let mut reader = text.as_slice();
    let mut source = Source::new(rt.alloc());
    let mut row = Vec::new(rt.alloc());
    let form = match source.form(&mut reader) {
        Ok(form) => form,
        Err(fault) => return Err(fault.code().into()),
    };
    let end = source.read_row(form, &mut reader, &mut row);
    assert!(&rt; matches!(end, Err(SourceFault::TooLong)));
    Ok(())
}

#[test]
fn what_is_told_of_settled_rows_is_kept(rt: HostRuntime) -> Result<(), Fail> {
    let told = "row,id,code,rule,place\n3,,M2,,/x\n5,7,denied,r,\n9,,I1,,\n";
    for (done, len) in [(2, 23), (3, 33), (8, 47), (9, 55)] {
        match kept_len(rt.alloc(), done, &mut Told(told.as_bytes())) {
            Ok(kept) => assert_eq!(&rt; kept, len, "{done}"),
            Err(fault) => return Err(fault.code().into()),
        }
    }
    Ok(())
}
