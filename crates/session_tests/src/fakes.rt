//! Worked scripts with their replies, and readers and writers for tests.
pub use failing_streams::{FailingReader, FailingWriter, Failure, LongReader};

/// The worked script of a point that is added and found again.
pub const FIRST_POINT: &str =
    "n: HELLO north\nn: ADD 1 mast POINT (3 4)\nn: COMMIT\nn: SEARCH point(3 4)\nn: SEARCH POINT (3 5)\n";

/// Its replies.
pub const FIRST_REPLIES: &str =
    "n: hello north\nn: staged\nn: applied 1\nn: rows 1\nn: 1 1 north mast POINT (3 4)\nn: rows 0\n";

/// A session for each of the built-in subjects.
pub const HELLOS: &str = "n: HELLO north\ns: HELLO south\nc: HELLO chief\n";

/// The replies to `HELLOS`.
pub const HELLO_REPLIES: &str = "n: hello north\ns: hello south\nc: hello chief\n";

/// Sixteen committed features in a row, and one more that is staged.
pub const SIXTEEN: &str =
    "n: HELLO north\nn: ADD 1 road POINT (1 0)\nn: ADD 2 road POINT (2 0)\nn: ADD 3 road POINT (3 0)\nn: ADD 4 road POINT (4 0)\nn: ADD 5 road POINT (5 0)\nn: ADD 6 road POINT (6 0)\nn: ADD 7 road POINT (7 0)\nn: ADD 8 road POINT (8 0)\nn: ADD 9 road POINT (9 0)\nn: ADD 10 road POINT (10 0)\nn: ADD 11 road POINT (11 0)\nn: ADD 12 road POINT (12 0)\nn: ADD 13 road POINT (13 0)\nn: ADD 14 road POINT (14 0)\nn: ADD 15 road POINT (15 0)\nn: ADD 16 road POINT (16 0)\nn: COMMIT\nn: ADD 17 road POINT (17 0)\n";

/// The replies to `SIXTEEN`.
pub const SIXTEEN_TOLD: &str =
    "n: hello north\nn: staged\nn: staged\nn: staged\nn: staged\nn: staged\nn: staged\nn: staged\nn: staged\nn: staged\nn: staged\nn: staged\nn: staged\nn: staged\nn: staged\nn: staged\nn: staged\nn: applied 1\nn: staged\n";

/// The replies to a search for all features: when there are sixteen, and when there are seventeen.
pub const SIXTEEN_ROWS: &str =
    "n: rows 16\nn: 1 1 north road POINT (1 0)\nn: 2 1 north road POINT (2 0)\nn: 3 1 north road POINT (3 0)\nn: 4 1 north road POINT (4 0)\nn: 5 1 north road POINT (5 0)\nn: 6 1 north road POINT (6 0)\nn: 7 1 north road POINT (7 0)\nn: 8 1 north road POINT (8 0)\nn: 9 1 north road POINT (9 0)\nn: 10 1 north road POINT (10 0)\nn: 11 1 north road POINT (11 0)\nn: 12 1 north road POINT (12 0)\nn: 13 1 north road POINT (13 0)\nn: 14 1 north road POINT (14 0)\nn: 15 1 north road POINT (15 0)\nn: 16 1 north road POINT (16 0)\n";

pub const SEVENTEEN_ROWS: &str =
    "n: rows 17\nn: 1 1 north road POINT (1 0)\nn: 2 1 north road POINT (2 0)\nn: 3 1 north road POINT (3 0)\nn: 4 1 north road POINT (4 0)\nn: 5 1 north road POINT (5 0)\nn: 6 1 north road POINT (6 0)\nn: 7 1 north road POINT (7 0)\nn: 8 1 north road POINT (8 0)\nn: 9 1 north road POINT (9 0)\nn: 10 1 north road POINT (10 0)\nn: 11 1 north road POINT (11 0)\nn: 12 1 north road POINT (12 0)\nn: 13 1 north road POINT (13 0)\nn: 14 1 north road POINT (14 0)\nn: 15 1 north road POINT (15 0)\nn: 16 1 north road POINT (16 0)\nn: 17 2 north road POINT (17 0)\n";

/// Seventeen sessions; sixteen of them have a search open.
pub const SIXTEEN_OPEN: &str =
    "s0: HELLO north\ns1: HELLO north\ns2: HELLO north\ns3: HELLO north\ns4: HELLO north\ns5: HELLO north\ns6: HELLO north\ns7: HELLO north\ns8: HELLO north\ns9: HELLO north\ns10: HELLO north\ns11: HELLO north\ns12: HELLO north\ns13: HELLO north\ns14: HELLO north\ns15: HELLO north\ns16: HELLO north\ns0: OPEN POINT (0 0)\ns1: OPEN POINT (0 0)\ns2: OPEN POINT (0 0)\ns3: OPEN POINT (0 0)\ns4: OPEN POINT (0 0)\ns5: OPEN POINT (0 0)\ns6: OPEN POINT (0 0)\ns7: OPEN POINT (0 0)\ns8: OPEN POINT (0 0)\ns9: OPEN POINT (0 0)\ns10: OPEN POINT (0 0)\ns11: OPEN POINT (0 0)\ns12: OPEN POINT (0 0)\ns13: OPEN POINT (0 0)\ns14: OPEN POINT (0 0)\ns15: OPEN POINT (0 0)\n";

/// The replies to `SIXTEEN_OPEN`.
pub const SIXTEEN_OPENED: &str =
    "s0: hello north\ns1: hello north\ns2: hello north\ns3: hello north\ns4: hello north\ns5: hello north\ns6: hello north\ns7: hello north\ns8: hello north\ns9: hello north\ns10: hello north\ns11: hello north\ns12: hello north\ns13: hello north\ns14: hello north\ns15: hello north\ns16: hello north\ns0: opened\ns1: opened\ns2: opened\ns3: opened\ns4: opened\ns5: opened\ns6: opened\ns7: opened\ns8: opened\ns9: opened\ns10: opened\ns11: opened\ns12: opened\ns13: opened\ns14: opened\ns15: opened\n";
