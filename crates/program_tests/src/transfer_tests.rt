//! How a command line asks for an export or an import, and the grid of a configuration.
use crate::running::{Two, check, shows, words};
use command_line::Format;
use grid::{Axis, coordinate_text};
use program::{Next, TransferWords, WantedTransfer, run_program};
use std::alloc::AllocError;
use std::process::Abort;
use std::test::Fail;

/// A configuration with a grid, but for its last part.
const BEFORE_GRID: &str =
    r#"{"subjects":[{"name":"a","office":"o","role":"r"}],"policies":{"root":{"policy":"p","combine":"deny-overrides","rules":[]}},"grid":"#;

const GRID: &str = r#"{"origin":["7","46"],"decimals":7}"#;

/// The configuration with this grid.
fn with_grid(host: &HostRuntime, grid: &str) -> Result<String, AllocError> {
    let mut text = String::from_str(host.alloc(), BEFORE_GRID)?;
    text.push_str(grid)?;
    text.push_str("}")?;
    Ok(text)
}

/// A folder with this configuration as `a.json`.
fn folder<'a>(host: &'a HostRuntime, text: &'a str) -> Two<'a> {
    Two {
        host,
        config: text.as_bytes(),
        script: b"",
        fails_at: 0,
    }
}

#[test]
fn an_export_is_asked_for(rt: HostRuntime) -> Result<(), Fail> {
    let text = with_grid(&rt, GRID)?;
    let folder = folder(&rt, text.as_str());
    let words = words(
        rt.alloc(),
        &[
            "export", "--socket", "m.sock", "--as", "a", "--format", "csv", "--class", "mast",
            "--config", "a.json",
        ],
    )?;
    let mut output = Vec::new(rt.alloc());
    let mut errors = Vec::new(rt.alloc());
    let next = run_program(
        rt.alloc(),
        words.as_slice(),
        &folder,
        &mut output,
        &mut errors,
    );
    let Next::Transfer(
        WantedTransfer {
            words: TransferWords::Export(given),
            grid: Some(grid),
        },
    ) = &next
    else {
        return Err("no export with a grid is asked for".into());
    };
    assert_eq!(&rt; (given.socket, given.subject), ("m.sock", "a"));
    assert_eq!(&rt; (given.window, given.class), (None, Some("mast")));
    assert_eq!(&rt; given.format, Format::Csv);
    let x = coordinate_text(grid, Axis::X, 3);
    assert_eq!(&rt; x.as_str(), "7.0000003");
    assert_eq!(&rt; (output.len(), errors.len()), (0, 0));
    Ok(())
}

#[test]
fn an_import_is_asked_for(rt: HostRuntime) -> Result<(), Fail> {
    let folder = folder(&rt, "");
    let words = words(
        rt.alloc(),
        &[
            "import",
            "--script",
            "--as",
            "a",
            "--first-id",
            "4294967295",
            "--split",
            "f.csv",
        ],
    )?;
    let mut output = Vec::new(rt.alloc());
    let mut errors = Vec::new(rt.alloc());
    let next = run_program(
        rt.alloc(),
        words.as_slice(),
        &folder,
        &mut output,
        &mut errors,
    );
    let Next::Transfer(
        WantedTransfer {
            words: TransferWords::Import(given),
            grid: None,
        },
    ) = &next
    else {
        return Err("no import without a grid is asked for".into());
    };
    assert_eq!(&rt; (given.file, given.subject), ("f.csv", "a"));
    assert_eq!(&rt; (given.socket, given.class), (None, None));
    assert_eq!(&rt; given.first_id, Some(4_294_967_295));
    assert_eq!(&rt;
        (given.whole, given.split, given.script),
        (false, true, true)
    );
    Ok(())
}

#[test]
fn wrong_words(rt: HostRuntime) -> Result<(), Fail> {
    let cases: [(&[&str], &str); 5] = [
        (
            &["export", "--socket", "m.sock", "--as", "a"],
            "error: the following required arguments were not provided:\n  --format <FORMAT>\n",
        ),
        (
            &[
                "export", "--socket", "m.sock", "--as", "a", "--format", "kml",
            ],
            "error: invalid value 'kml' for '--format <FORMAT>'\n  [possible values: geojson, geojsonseq, csv]\n",
        ),
        (
            &["import", "--as", "a", "f.csv"],
            "error: the following required arguments were not provided:\n  --socket <PATH>, or --script\n",
        ),
        (
            &["import", "--script", "--as", "a"],
            "error: the following required arguments were not provided:\n  <FILE>\n",
        ),
        (
            &[
                "import",
                "--script",
                "--as",
                "a",
                "--first-id",
                "0",
                "f.csv",
            ],
            "error: invalid value '0' for '--first-id <N>'",
        ),
    ];
    for (texts, begins) in cases {
        shows(&rt, &rt, texts, 2, begins, &[])?;
    }
    Ok(())
}

#[test]
fn grids_are_told(rt: HostRuntime) -> Result<(), Fail> {
    let counts = "subjects 1\nstewards 0\nzones 0\nrules that permit 0\nrules that deny 0\n";
    let reach =
        "grid step 0.0000001\ngrid x from 6.0000000 to 8.0000000\ngrid y from 45.0000000 to 47.0000000\n";
    let text = with_grid(&rt, GRID)?;
    let mut told = String::from_str(rt.alloc(), counts)?;
    told.push_str(reach)?;
    let words = ["check", "--config", "a.json"];
    check(
        &rt,
        rt.alloc(),
        &words,
        &folder(&rt, text.as_str()),
        0,
        (told.as_str(), ""),
    )?;
    for grid in [
        "7",
        "{}",
        r#"{"origin":["7"],"decimals":7}"#,
        r#"{"origin":["7","46","1"],"decimals":7}"#,
        r#"{"origin":[7,46],"decimals":7}"#,
        r#"{"origin":["7","46"],"decimals":10}"#,
        r#"{"origin":["7","46"],"decimals":265}"#,
        r#"{"origin":["7.05","46"],"decimals":1}"#,
        r#"{"origin":["7","46"],"decimals":7,"between":"up"}"#,
        r#"{"origin":["7","46"],"decimals":7,"more":1}"#,
    ] {
        let text = with_grid(&rt, grid)?;
        let place = ("B2 at \"/grid\"\n", "landmap: B2\n");
        check(
            &rt,
            rt.alloc(),
            &words,
            &folder(&rt, text.as_str()),
            1,
            place,
        )?;
    }
    Ok(())
}
