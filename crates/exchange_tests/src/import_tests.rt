//! Imports of files into a sink that refuses what it is told to.
use crate::streams::{Sent, Told};
use exchange::{
    Books, BooksFault, ImportFault, Importing, Plan, RowFault, Script, Sink, SinkFault, Totals,
    put_refusal, put_reply,
};
use features::Name;
use grid::Grid;
use importing::{Addition, Counts, Refused};
use std::alloc::Global;
use std::io::Write;
use std::process::Abort;
use std::test::Fail;
use wkt::shape_text;

/// A sink that tells what it took, and refuses the id 13.
#[derive(Drop)]
struct Taker<'a> {
    told: Sent<'a>,
}

impl Sink for Taker<'_> {
    fn settle(
        &mut self,
        heap: Global,
        list: &[Addition],
        refused: &mut Vec<Refused<Global>>,
    ) -> Result<Counts, SinkFault> {
        for one in list {
            let shape = shape_text(&one.shape);
            let _ = write!(self.told, "{} {} {};", one.row, one.id, shape.as_str());
            if one.id == 13 {
                let reply = Vec::from_slice(heap, b"denied rule harbour change 1");
                if let Ok(reply) = reply {
                    let _ = refused.push(Refused {
                        row: one.row,
                        id: one.id,
                        reply,
                    });
                }
            }
        }
        let _ = write!(self.told, "\n");
        Ok(Counts {
            applied: list.len().saturating_sub(refused.len()),
            present: 0,
            refused: refused.len(),
        })
    }
}

/// Books that tell what they are told.
#[derive(Drop)]
struct KeptBooks<'a> {
    heap: Global,
    told: Sent<'a>,
}

impl Books for KeptBooks<'_> {
    fn refuse_row(&mut self, row: u64, fault: &RowFault) -> Result<(), BooksFault> {
        match put_refusal(self.heap, row, fault, &mut self.told) {
            Ok(()) => Ok(()),
            Err(_) => Err(BooksFault),
        }
    }

    fn refuse_reply(&mut self, refused: &Refused<Global>) -> Result<(), BooksFault> {
        match put_reply(refused, &mut self.told) {
            Ok(()) => Ok(()),
            Err(_) => Err(BooksFault),
        }
    }

    fn settle(&mut self, rows: u64, _totals: &Totals) -> Result<(), BooksFault> {
        let _ = write!(self.told, "settled {rows}\n");
        Ok(())
    }
}

fn plan() -> Plan {
    Plan {
        grid: Grid::whole_numbers(),
        class: Name::new(b"mast"),
        first_id: None,
        whole: false,
        split: false,
        done: 0,
    }
}

/// Checks what an import sends, what its books have, and whether it ends well.
fn imports(
    rt: &impl Abort,
    alloc: Global,
    plan: Plan,
    file: &str,
    sent: &str,
    books: &str,
    is_whole: bool,
) -> Result<(), Fail> {
    let mut taken = Vec::new(alloc);
    let mut told = Vec::new(alloc);
    let mut sink = Taker {
        told: Sent(&mut taken),
    };
    let mut kept = KeptBooks {
        heap: alloc,
        told: Sent(&mut told),
    };
    let end = {
        let mut import = Importing::new(alloc, plan, &mut sink, &mut kept);
        import.run(alloc, &mut Told(file.as_bytes()))
    };
    assert_eq!(rt; end.is_ok(), is_whole, "{file}");
    assert_eq!(rt; taken.as_slice(), sent.as_bytes(), "{file}");
    assert_eq!(rt; told.as_slice(), books.as_bytes(), "{file}");
    Ok(())
}

#[test]
fn rows_are_settled(rt: HostRuntime) -> Result<(), Fail> {
    let table =
        "WKT,id,class\n\"POINT (1 2)\",7,x\n\"POINT (3 4)\",13,x\n\"POINT (3\",14,x\nPOINT (5 6),,x\n";
    imports(
        &rt,
        rt.alloc(),
        plan(),
        table,
        "1 7 POINT (1 2);2 13 POINT (3 4);\n",
        "3,,K3,,byte 8\n4,,I1,,\n2,13,denied,harbour,\nsettled 4\n",
        true,
    )?;
    let later = Plan { done: 1, ..plan() };
    imports(
        &rt,
        rt.alloc(),
        later,
        table,
        "2 13 POINT (3 4);\n",
        "3,,K3,,byte 8\n4,,I1,,\n2,13,denied,harbour,\nsettled 4\n",
        true,
    )?;
    let whole = Plan {
        whole: true,
        ..plan()
    };
    imports(&rt, rt.alloc(), whole, table, "", "3,,K3,,byte 8\n", false)
}

/// An import that is to be whole ends behind a row that the server refuses.
#[test]
fn a_refused_row_ends_it(rt: HostRuntime) -> Result<(), Fail> {
    let whole = Plan {
        whole: true,
        ..plan()
    };
    let table = "WKT,id,class\n\"POINT (1 2)\",7,x\n\"POINT (3 4)\",13,x\n";
    imports(
        &rt,
        rt.alloc(),
        whole,
        table,
        "1 7 POINT (1 2);2 13 POINT (3 4);\n",
        "2,13,denied,harbour,\n",
        false,
    )
}

#[test]
fn features_are_numbered_and_cut(rt: HostRuntime) -> Result<(), Fail> {
    let file =
        "{\"type\":\"Feature\",\"id\":\"way/1\",\"properties\":{\"class\":5},\"geometry\":{\"type\":\"LineString\",\"coordinates\":[[0,0],[1,1],[2,0]]}}\n{\"type\":\"Point\",\"coordinates\":[3,3]}";
    let cut = Plan {
        first_id: Some(5),
        split: true,
        ..plan()
    };
    imports(
        &rt,
        rt.alloc(),
        cut,
        file,
        "1 5000 LINESTRING (0 0, 1 1);1 5001 LINESTRING (1 1, 2 0);2 6000 POINT (3 3);\n",
        "settled 2\n",
        true,
    )?;
    imports(
        &rt,
        rt.alloc(),
        plan(),
        file,
        "",
        "1,,J2,,/id\n2,,I1,,\nsettled 2\n",
        true,
    )
}

/// What has no path is refused with `split`, too, and the rows around it go on.
#[test]
fn empty_geometries_are_refused(rt: HostRuntime) -> Result<(), Fail> {
    let cut = Plan {
        first_id: Some(5),
        split: true,
        ..plan()
    };
    let file =
        "{\"type\":\"Point\",\"coordinates\":[3,3]}\n{\"type\":\"MultiLineString\",\"coordinates\":[]}\n{\"type\":\"Polygon\",\"coordinates\":[]}\n{\"type\":\"Polygon\",\"coordinates\":[[]]}\n{\"type\":\"MultiPolygon\",\"coordinates\":[]}\n{\"type\":\"MultiPolygon\",\"coordinates\":[[]]}\n{\"type\":\"LineString\",\"coordinates\":[]}\n{\"type\":\"MultiLineString\",\"coordinates\":[[],[[0,0],[1,1]]]}\n{\"type\":\"MultiPolygon\",\"coordinates\":[[],[[[0,0],[5,0],[5,5],[0,0]]]]}";
    imports(
        &rt,
        rt.alloc(),
        cut,
        file,
        "1 5000 POINT (3 3);9 13000 POLYGON ((0 0, 5 0, 5 5, 0 0));\n",
        "2,,P4,,\n3,,P4,,\n4,,P4,,\n5,,P4,,\n6,,P4,,\n7,,P4,,\n8,,P4,,\nsettled 9\n",
        true,
    )
}

/// A row has as many fields as the first one, or the last ones are left out and have no name, as
/// ogr2ogr does it. Empty lines are no rows.
#[test]
fn rows_have_the_columns_of_the_first(rt: HostRuntime) -> Result<(), Fail> {
    imports(
        &rt,
        rt.alloc(),
        plan(),
        "WKT,id,class\n\"POINT (1 2)\",7,x\nPOINT (3 4),8\nPOINT (5 6),9,x,y\nPOINT (7 8)\n\n\"POINT (1 1)\",10,\r\n\r\n",
        "1 7 POINT (1 2);5 10 POINT (1 1);\n",
        "2,,J2,,\n3,,J2,,\n4,,J2,,\nsettled 5\n",
        true,
    )?;
    let numbered = Plan {
        first_id: Some(5),
        ..plan()
    };
    imports(
        &rt,
        rt.alloc(),
        numbered,
        "WKT,\n\"POINT (1 2)\"\n\"POINT (3 4)\",\n\"POINT (5 6)\",,\n",
        "1 5 POINT (1 2);2 6 POINT (3 4);\n",
        "3,,J2,,\nsettled 3\n",
        true,
    )?;
    imports(
        &rt,
        rt.alloc(),
        numbered,
        "name,,WKT,,\na,,POINT (1 2)\nb,POINT (3 4)\nc,,POINT (5 6),,\n",
        "1 5 POINT (1 2);3 7 POINT (5 6);\n",
        "2,,J2,,\nsettled 3\n",
        true,
    )
}

/// A quote in a field that is not quoted makes one row of what stands before the next quote: it is
/// refused whole, and the row behind it is taken.
#[test]
fn a_row_of_two_records_is_refused(rt: HostRuntime) -> Result<(), Fail> {
    imports(
        &rt,
        rt.alloc(),
        plan(),
        "WKT,id,class\nPOINT (1 2),7,6\" pipe\nPOINT (3 4),8,5\" pipe\nPOINT (5 6),9,x\n",
        "2 9 POINT (5 6);\n",
        "1,,J2,,\nsettled 2\n",
        true,
    )
}

#[test]
fn lists_have_sixteen(rt: HostRuntime) -> Result<(), Fail> {
    let mut file = Vec::new(rt.alloc());
    let mut sent = Vec::new(rt.alloc());
    Sent(&mut file).write_all(b"id,WKT\n")?;
    for at in 20..=37 {
        write!(Sent(&mut file), "{at},POINT ({at} 0)\n")?;
        write!(Sent(&mut sent), "{} {at} POINT ({at} 0);", at - 19)?;
        if at == 35 || at == 37 {
            Sent(&mut sent).write_all(b"\n")?;
        }
    }
    let file = str::from_utf8(file.as_slice()).unwrap_or("");
    let sent = str::from_utf8(sent.as_slice()).unwrap_or("");
    imports(
        &rt,
        rt.alloc(),
        plan(),
        file,
        sent,
        "settled 16\nsettled 18\n",
        true,
    )
}

/// A sink that refuses each addition, the last one of a list first.
#[derive(Drop)]
struct Contrary;

impl Sink for Contrary {
    fn settle(
        &mut self,
        heap: Global,
        list: &[Addition],
        refused: &mut Vec<Refused<Global>>,
    ) -> Result<Counts, SinkFault> {
        for one in list.iter().rev() {
            let _ = refused.push(Refused {
                row: one.row,
                id: one.id,
                reply: Vec::new(heap),
            });
        }
        Ok(Counts {
            applied: 0,
            present: 0,
            refused: refused.len(),
        })
    }
}

/// What a list refuses is told by rising rows, so that what is told of settled rows stands first.
#[test]
fn refusals_rise(rt: HostRuntime) -> Result<(), Fail> {
    let mut file = Vec::new(rt.alloc());
    let mut books = Vec::new(rt.alloc());
    Sent(&mut file).write_all(b"WKT\nPOINT (1 2)\n\"LINESTRING (0 0")?;
    for at in 1..=17 {
        write!(Sent(&mut file), ", {at} {}", at % 2)?;
    }
    Sent(&mut file).write_all(b")\"\n")?;
    Sent(&mut books).write_all(b"1,5000,,,\n")?;
    for at in 6_000..=6_016 {
        write!(Sent(&mut books), "2,{at},,,\n")?;
        if at == 6_014 {
            Sent(&mut books).write_all(b"settled 1\n")?;
        }
    }
    Sent(&mut books).write_all(b"settled 2\n")?;
    let cut = Plan {
        first_id: Some(5),
        split: true,
        ..plan()
    };
    let mut told = Vec::new(rt.alloc());
    let mut sink = Contrary;
    let mut kept = KeptBooks {
        heap: rt.alloc(),
        told: Sent(&mut told),
    };
    let end = {
        let mut import = Importing::new(rt.alloc(), cut, &mut sink, &mut kept);
        import.run(rt.alloc(), &mut Told(file.as_slice()))
    };
    assert!(rt; end.is_ok());
    assert_eq!(rt; told.as_slice(), books.as_slice());
    Ok(())
}

#[test]
fn a_script_has_labels(rt: HostRuntime) -> Result<(), Fail> {
    let Some(label) = Name::new(b"north") else {
        return Err("no name".into());
    };
    let mut written = Vec::new(rt.alloc());
    let mut told = Vec::new(rt.alloc());
    let mut output = Sent(&mut written);
    let mut script = Script {
        label,
        output: &mut output,
    };
    let mut kept = KeptBooks {
        heap: rt.alloc(),
        told: Sent(&mut told),
    };
    if script.put_hello().is_err() {
        return Err("no hello".into());
    }
    let end = {
        let mut import = Importing::new(rt.alloc(), plan(), &mut script, &mut kept);
        import.run(rt.alloc(), &mut Told(b"WKT,id\nPOINT (1 2),7\n"))
    };
    match end {
        Ok(()) => {}
        Err(ImportFault::Source(fault)) => return Err(fault.code().into()),
        Err(_) => return Err("not imported".into()),
    }
    assert_eq!(&rt;
        written.as_slice(),
        "north: HELLO north\nnorth: ADD 7 mast POINT (1 2)\nnorth: COMMIT\n".as_bytes()
    );
    Ok(())
}
