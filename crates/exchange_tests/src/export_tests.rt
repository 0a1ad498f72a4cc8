//! Exports of a server whose replies are written down beforehand.
use crate::streams::{Sent, Told};
use exchange::{ExportFault, Form, Wanted, export, feature_of_row, whole_window};
use features::Name;
use grid::Grid;
use std::alloc::Global;
use std::process::Abort;
use std::test::Fail;

const TWO: &str =
    "hello north\nrows 2\n1 4 north mast POINT (1 2)\n7 5 north road LINESTRING (1 2, 3 4)\n";

/// What an export writes, and how it ends.
fn exports(
    alloc: Global,
    form: Form,
    class: Option<Name>,
    replies: &str,
    sent: &mut Vec<u8>,
    written: &mut Vec<u8>,
) -> Result<u64, ExportFault<Global>> {
    let wanted = Wanted {
        hello: b"north",
        window: b"POINT (1 2)",
        class,
        grid: Grid::whole_numbers(),
        form,
    };
    export(
        alloc,
        &wanted,
        &mut Told(replies.as_bytes()),
        &mut Sent(sent),
        &mut Sent(written),
    )
}

/// Checks what an export writes that ends well.
fn writes(
    rt: &impl Abort,
    alloc: Global,
    form: Form,
    class: Option<Name>,
    replies: &str,
    text: &str,
) -> Result<(), Fail> {
    let mut sent = Vec::new(alloc);
    let mut written = Vec::new(alloc);
    let end = exports(alloc, form, class, replies, &mut sent, &mut written);
    assert!(rt; end.is_ok(), "{replies}");
    assert_eq!(rt;
        sent.as_slice(),
        "HELLO north\nSEARCH POINT (1 2)\n".as_bytes()
    );
    assert_eq!(rt; written.as_slice(), text.as_bytes(), "{replies}");
    Ok(())
}

#[test]
fn documents_have_the_features(rt: HostRuntime) -> Result<(), Fail> {
    let collection =
        "{\"type\":\"FeatureCollection\",\"features\":[\n{\"type\":\"Feature\",\"id\":1,\"geometry\":{\"type\":\"Point\",\"coordinates\":[1,2]},\"properties\":{\"id\":1,\"office\":\"north\",\"class\":\"mast\",\"version\":4}},\n{\"type\":\"Feature\",\"id\":7,\"geometry\":{\"type\":\"LineString\",\"coordinates\":[[1,2],[3,4]]},\"properties\":{\"id\":7,\"office\":\"north\",\"class\":\"road\",\"version\":5}}\n]}\n";
    let table = "id,version,office,class,WKT\n7,5,north,road,\"LINESTRING (1 2, 3 4)\"\n";
    let none = "{\"type\":\"FeatureCollection\",\"features\":[\n\n]}\n";
    writes(&rt, rt.alloc(), Form::Collection, None, TWO, collection)?;
    let road = Name::new(b"road");
    writes(&rt, rt.alloc(), Form::Table, road, TWO, table)?;
    writes(
        &rt,
        rt.alloc(),
        Form::Collection,
        None,
        "hello north\nrows 0\n",
        none,
    )?;
    writes(
        &rt,
        rt.alloc(),
        Form::Sequence,
        None,
        "hello north\nrows 0\n",
        "",
    )
}

#[test]
fn what_is_not_whole_has_no_end(rt: HostRuntime) -> Result<(), Fail> {
    let head = "{\"type\":\"FeatureCollection\",\"features\":[\n";
    let cases = [
        ("error S1\n", "", "error S1"),
        (
            "hello north\ndenied rule harbour\n",
            "",
            "denied rule harbour",
        ),
        (
            "hello north\nrows 1\n1 4 north mast\n",
            head,
            "1 4 north mast",
        ),
        ("hello north\nrows 1\n", head, ""),
        ("", "", ""),
    ];
    for (replies, text, answer) in cases {
        let mut sent = Vec::new(rt.alloc());
        let mut written = Vec::new(rt.alloc());
        let end = exports(
            rt.alloc(),
            Form::Collection,
            None,
            replies,
            &mut sent,
            &mut written,
        );
        match end {
            Ok(_) => return Err("it has an end".into()),
            Err(ExportFault::Answered(line)) => assert_eq!(&rt;
                line.as_slice(),
                answer.as_bytes(),
                "{replies}"
            ),
            Err(_) => assert_eq!(&rt; "", answer, "{replies}"),
        }
        assert_eq!(&rt; written.as_slice(), text.as_bytes(), "{replies}");
    }
    Ok(())
}

#[test]
fn rows_are_read_as_they_are_written(rt: HostRuntime) -> Result<(), Fail> {
    for row in [
        "1 4 north mast POINT (1 2)",
        "18446744073709551615 1 a-b c POLYGON ((0 0, 5 0, 5 5, 0 0))",
    ] {
        let found = feature_of_row(rt.alloc(), row.as_bytes());
        assert!(&rt; matches!(found, Ok(Some(_))), "{row}");
    }
    for row in [
        "",
        "1 4 north mast",
        "01 4 north mast POINT (1 2)",
        "1 4 north mast POINT  (1 2)",
        "1 4 North mast POINT (1 2)",
        "1 4 north mast POINT (1 2) ",
    ] {
        let found = feature_of_row(rt.alloc(), row.as_bytes());
        assert!(&rt; matches!(found, Ok(None)), "{row}");
    }
    assert!(&rt; wkt::read_shape(whole_window().as_bytes()).is_ok());
    Ok(())
}
