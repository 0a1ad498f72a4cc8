//! Lines and regions with their parts, areas and faults, by values worked out by hand.
use convex_parts::{PART_LIMIT, PartsFault, convex_parts, part_id, segments};
use plane::{Point, Shape, corners};
use refusing::Refusing;
use std::alloc::{AllocError, Allocator, Global};
use std::process::Abort;
use std::test::Fail;

/// Lines, with the lesser and the greater end of each of their segments, or with the code of their
/// fault.
const LINES: &str = r#"0 0, 5 0, 5 5 => 0 0 5 0 5 0 5 5
0 0, 0 0, 5 0, 5 0, 0 0 => 0 0 5 0 0 0 5 0
3 4, 1 1 => 1 1 3 4
3 4, 3 4 => P4
3 4 => P4
0 0, 10000001 0 => P1
"#;

/// Regions: the outer ring, and its holes behind `;`. Behind `=>` the fewest parts that there can
/// be, the most that this crate may make, and twice the area; or the code of the fault. The last
/// shapes are a comb, a spiral, a square with two holes in a row, and one with a hole in a corner of
/// whose sight another one lies.
const REGIONS: &str = r#"0 0, 4 0, 4 4, 0 4, 0 0 => 1 1 32
0 0, 0 4, 4 4, 4 0, 0 0 => 1 1 32
0 0, 2 0, 4 0, 4 4, 0 4, 0 2, 0 0 => 1 1 32
0 0, 0 0, 4 0, 4 0, 4 4, 0 4, 0 0 => 1 1 32
-10000000 -10000000, 10000000 -10000000, 10000000 10000000, -10000000 10000000, -10000000 -10000000 => 1 1 800000000000000
0 0, 4 0, 4 2, 2 2, 2 4, 0 4, 0 0 => 2 4 24
0 0, 6 0, 3 2, 3 9, 0 0 => 2 2 33
0 0, 1 1, 2 4, 3 9, 4 16, 5 25, 6 36, 7 49, 8 64, 9 81, 10 100, 11 121, 12 144, 13 169, 14 196, 15 225, 16 256, 0 0 => 2 2 1360
0 0, 9 0, 9 9, 8 1, 7 9, 6 1, 5 9, 4 1, 3 9, 2 1, 0 9, 0 0 => 5 9 90
0 0, 9 0, 9 9, 2 9, 2 4, 5 4, 5 6, 3 6, 3 7, 7 7, 7 2, 0 2, 0 0 => 6 11 98
0 0, 9 0, 9 9, 0 9, 0 0; 3 3, 6 3, 6 6, 3 6, 3 3 => 4 8 144
0 0, 9 0, 9 9, 0 9, 0 0; 3 3, 3 6, 6 6, 6 3, 3 3 => 4 8 144
0 0, 12 0, 12 9, 0 9, 0 0; 2 3, 4 3, 4 6, 2 6, 2 3; 8 3, 10 3, 10 6, 8 6, 8 3 => 5 14 192
0 0, 30 0, 30 30, 0 30, 0 0; 5 5, 6 5, 6 25, 5 25, 5 5; 7 14, 9 14, 9 16, 7 16, 7 14 => 5 14 1752
0 0, 4 0, 4 4, 0 4 => P5
0 0, 4 0, 0 0 => P4
0 0, 4 0, 10000001 4, 0 0 => P1
0 0, 4 0, 8 0, 0 0 => P7
0 0, 4 4, 4 0, 0 4, 0 0 => P7
0 0, 4 4, 4 0, 0 5, 0 0 => L1
0 0, 4 0, 4 4, 2 0, 0 4, 0 0 => L1
0 0, 4 0, 2 2, 4 4, 0 4, 2 2, 0 0 => P6
0 0, 9 0, 9 9, 0 9, 0 0; 6 6, 12 6, 12 12, 6 12, 6 6 => L1
0 0, 9 0, 9 9, 0 9, 0 0; 0 3, 3 3, 3 6, 0 3 => L1
0 0, 9 0, 9 9, 0 9, 0 0; 0 0, 3 1, 3 3, 0 0 => P6
0 0, 9 0, 9 9, 0 9, 0 0; 20 3, 23 3, 23 6, 20 6, 20 3 => L2
3 3, 6 3, 6 6, 3 6, 3 3; 0 0, 9 0, 9 9, 0 9, 0 0 => L2
0 0, 9 0, 9 9, 0 9, 0 0; 2 2, 7 2, 7 7, 2 7, 2 2; 4 4, 5 4, 5 5, 4 5, 4 4 => L2
"#;

/// The numbers in a text.
fn numbers_in<A: Allocator + Copy>(alloc: A, text: &str) -> Result<Vec<i64, A>, AllocError> {
    let mut numbers = Vec::new(alloc);
    for word in text.split([' ', ',']) {
        if let Ok(number) = word.parse::<i64>() {
            numbers.push(number)?;
        }
    }
    Ok(numbers)
}

/// The points in a text.
fn points_in<A: Allocator + Copy>(alloc: A, text: &str) -> Result<Vec<Point, A>, AllocError> {
    let mut points = Vec::new(alloc);
    let numbers = numbers_in(alloc, text)?;
    for pair in numbers.chunks_exact(2) {
        points.push(Point {
            x: pair[0] as i32,
            y: pair[1] as i32,
        })?;
    }
    Ok(points)
}

/// The rings in a text.
fn rings_in<A: Allocator + Copy>(
    alloc: A,
    text: &str,
) -> Result<Vec<Vec<Point, A>, A>, AllocError> {
    let mut rings = Vec::new(alloc);
    for part in text.split(';') {
        let points = points_in(alloc, part)?;
        rings.push(points)?;
    }
    Ok(rings)
}

/// Twice the area of a part, by its corners.
fn doubled_area(part: &Shape) -> i64 {
    let points = corners(part);
    let mut sum = 0;
    for (index, p) in points.iter().enumerate() {
        let q = points[(index + 1) % points.len()];
        sum += i64::from(p.x) * i64::from(q.y) - i64::from(p.y) * i64::from(q.x);
    }
    sum
}

/// Whether the segments have these ends.
fn have_ends(parts: &[Shape], ends: &[Point]) -> bool {
    parts.len() * 2 == ends.len()
        && parts
            .iter()
            .zip(ends.chunks_exact(2))
            .all(|(part, pair)| corners(part) == pair)
}

#[test]
fn lines_and_their_segments(rt: HostRuntime) -> Result<(), Fail> {
    for line in LINES.lines() {
        let (given, told) = line.split_once(" => ").ok_or("no arrow")?;
        let points = points_in(rt.alloc(), given)?;
        match segments(rt.alloc(), points.as_slice()) {
            Ok(parts) => {
                let ends = points_in(rt.alloc(), told)?;
                assert!(rt; have_ends(parts.as_slice(), ends.as_slice()), "{line}");
            }
            Err(fault) => assert_eq!(rt; fault.code(), told, "{line}"),
        }
    }
    Ok(())
}

#[test]
fn regions_and_their_parts(rt: HostRuntime) -> Result<(), Fail> {
    for line in REGIONS.lines() {
        let (given, told) = line.split_once(" => ").ok_or("no arrow")?;
        let rings = rings_in(rt.alloc(), given)?;
        match convex_parts(rt.alloc(), rings.as_slice()) {
            Ok(parts) => {
                let expected = numbers_in(rt.alloc(), told)?;
                assert_eq!(rt; expected.len(), 3, "{line}");
                let count = parts.len() as i64;
                assert!(rt;
                    expected[0] <= count && count <= expected[1],
                    "{line}: {count}"
                );
                let mut sum = 0;
                for part in &parts {
                    let area = doubled_area(part);
                    assert!(rt; area > 0, "{line}");
                    sum += area;
                }
                assert_eq!(rt; sum, expected[2], "{line}");
            }
            Err(fault) => assert_eq!(rt; fault.code(), told, "{line}"),
        }
    }
    Ok(())
}

/// A comb of this many teeth, closed.
fn comb(alloc: Global, teeth: i32) -> Result<Vec<Point>, AllocError> {
    let mut ring = Vec::new(alloc);
    for tooth in 0..teeth {
        ring.push(Point { x: 2 * tooth, y: 0 })?;
        ring.push(Point {
            x: 2 * tooth + 1,
            y: 5,
        })?;
    }
    ring.push(Point {
        x: 2 * teeth,
        y: -3,
    })?;
    ring.push(Point { x: -2, y: -3 })?;
    ring.push(Point { x: 0, y: 0 })?;
    Ok(ring)
}

/// Of 1,000 parts and fewer there is a list; of more there is the fault.
#[test]
fn too_many_parts(rt: HostRuntime) -> Result<(), Fail> {
    let mut rings = Vec::new(rt.alloc());
    let few = comb(rt.alloc(), 300)?;
    rings.push(few)?;
    match convex_parts(rt.alloc(), rings.as_slice()) {
        Ok(parts) => assert!(rt; parts.len() <= PART_LIMIT),
        Err(fault) => assert!(rt; false, "{fault}"),
    }
    rings.clear();
    let many = comb(rt.alloc(), 2_000)?;
    rings.push(many)?;
    assert!(rt;
        matches!(
            convex_parts(rt.alloc(), rings.as_slice()),
            Err(PartsFault::TooManyParts)
        )
    );
    let mut line = Vec::new(rt.alloc());
    for x in 0..=1_000 {
        line.push(Point { x, y: x % 2 })?;
    }
    match segments(rt.alloc(), line.as_slice()) {
        Ok(parts) => assert_eq!(rt; parts.len(), PART_LIMIT),
        Err(fault) => assert!(rt; false, "{fault}"),
    }
    line.push(Point { x: 2_000, y: 0 })?;
    assert!(rt;
        matches!(
            segments(rt.alloc(), line.as_slice()),
            Err(PartsFault::TooManyParts)
        )
    );
    Ok(())
}

#[test]
fn ids_of_parts(rt: HostRuntime) {
    assert_eq!(rt; part_id(7, 0), Some(7_000));
    assert_eq!(rt; part_id(7, 999), Some(7_999));
    assert_eq!(rt; part_id(18_446_744_073_709_551, 615), Some(u64::MAX));
    assert_eq!(rt; part_id(18_446_744_073_709_551, 616), None);
    assert_eq!(rt; part_id(18_446_744_073_709_552, 0), None);
}

/// Each allocation is refused in turn: the fault is `Memory`, until none is refused.
#[test]
fn each_allocation_is_refused(rt: HostRuntime) -> Result<(), Fail> {
    let memory = Refusing::new(rt.alloc(), 0);
    let rings = rings_in(&memory, "0 0, 9 0, 9 9, 0 9, 0 0; 3 3, 6 3, 6 6, 3 6, 3 3")?;
    let mut refused = 0;
    for at in 1..=100 {
        memory.refuse(at);
        let cut = convex_parts(&memory, rings.as_slice());
        if memory.has_refused() {
            assert!(rt; matches!(cut, Err(PartsFault::Memory(_))), "at {at}");
            refused += 1;
        } else {
            assert!(rt; cut.is_ok(), "at {at}");
        }
    }
    memory.refuse(0);
    assert!(rt; 4 < refused && refused < 100, "{refused}");
    Ok(())
}
