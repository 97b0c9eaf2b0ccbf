//! What each cut and each change of one byte of four messages comes to, and of a grant in `grants`.
//!
//! The tables come from a second reader of the table of bytes, which goes byte by byte, in identifiers bit by bit, and stands apart from this crate.
//! A line has a place, the first of the bytes that come to the same when they stand there, and what they come to.
mod grants;

use crate::msg::fault_of;
use crate::same;
use fs_msg::MsgError;
use std::alloc::Global;
use std::process::Abort;
use std::test::Fail;

/// Whether each cut is too short.
fn is_short_where_cut(alloc: Global, bytes: &[u8]) -> bool {
    for place in 0..bytes.len() {
        if fault_of(alloc, &bytes[..place]) != Some(MsgError::Short) {
            return false;
        }
    }
    true
}

/// What each byte at each place comes to, a line for each span of bytes.
fn faults_of(alloc: Global, bytes: &[u8]) -> Result<String, Fail> {
    let mut text = String::new(alloc);
    for place in 0..bytes.len() {
        add_place(alloc, bytes, place, &mut text)?;
    }
    Ok(text)
}

fn add_place(alloc: Global, bytes: &[u8], place: usize, text: &mut String) -> Result<(), Fail> {
    let mut changed = Vec::from_slice(alloc, bytes)?;
    let mut last = None;
    for byte in 0..=255u8 {
        if let Some(there) = changed.get_mut(place) {
            *there = byte;
        }
        let fault = fault_of(alloc, &changed);
        if last != Some(fault) {
            let line = format!(in alloc; "{place} {byte} {fault:?}\n")?;
            text.push_str(&line)?;
            last = Some(fault);
        }
    }
    Ok(())
}

/// Each cut is too short, and each change of one byte comes to this.
pub(crate) fn has_faults(
    rt: &impl Abort,
    alloc: Global,
    bytes: &[u8],
    wanted: &str,
) -> Result<(), Fail> {
    same(rt, is_short_where_cut(alloc, bytes), true);
    let faults = faults_of(alloc, bytes)?;
    same(rt, faults.as_str(), wanted);
    Ok(())
}

const ASK: [u8; 13] = [1, 0, 0, 0, 0, 0, 0, 0, 1, 0, 128, 0, 0];

const ASK_FAULTS: &str = "0 0 Some(Tag { at: 0 })\n\
0 1 None\n\
0 2 Some(Range { at: 9 })\n\
0 4 Some(Short)\n\
0 5 Some(Range { at: 11 })\n\
0 6 Some(Tag { at: 0 })\n\
0 17 Some(Short)\n\
0 19 Some(Trailing { at: 10 })\n\
0 21 Some(Trailing { at: 3 })\n\
0 22 Some(Trailing { at: 10 })\n\
0 23 Some(Tag { at: 0 })\n\
0 33 Some(Range { at: 12 })\n\
0 34 Some(Trailing { at: 12 })\n\
0 35 Some(Short)\n\
0 36 Some(Trailing { at: 11 })\n\
0 37 Some(Range { at: 1 })\n\
0 39 Some(Short)\n\
0 40 Some(Range { at: 1 })\n\
0 41 Some(Trailing { at: 10 })\n\
0 43 Some(Tag { at: 0 })\n\
1 0 None\n\
1 1 Some(Short)\n\
2 0 None\n\
2 1 Some(Short)\n\
3 0 None\n\
3 1 Some(Short)\n\
4 0 None\n\
4 1 Some(Short)\n\
5 0 None\n\
5 1 Some(Short)\n\
6 0 None\n\
6 1 Some(Short)\n\
7 0 None\n\
7 1 Some(Short)\n\
8 0 Some(Trailing { at: 10 })\n\
8 1 None\n\
8 2 Some(Short)\n\
9 0 None\n\
9 1 Some(Range { at: 11 })\n\
9 2 None\n\
9 5 Some(Short)\n\
9 7 Some(Tag { at: 9 })\n\
10 0 Some(Range { at: 10 })\n\
10 4 Some(Short)\n\
10 5 Some(Range { at: 10 })\n\
10 8 Some(Short)\n\
10 39 None\n\
10 40 Some(Short)\n\
10 68 None\n\
10 73 Some(Range { at: 10 })\n\
10 76 None\n\
10 77 Some(Range { at: 10 })\n\
10 80 None\n\
10 81 Some(Range { at: 10 })\n\
10 96 Some(Short)\n\
10 106 None\n\
10 107 Some(Range { at: 10 })\n\
10 108 Some(Short)\n\
10 110 None\n\
10 111 Some(Range { at: 10 })\n\
10 112 Some(Short)\n\
10 116 None\n\
10 117 Some(Range { at: 10 })\n\
10 118 None\n\
10 119 Some(Range { at: 10 })\n\
10 120 None\n\
10 121 Some(Range { at: 10 })\n\
10 128 None\n\
10 129 Some(Range { at: 10 })\n\
11 0 None\n\
11 2 Some(Range { at: 11 })\n\
12 0 None\n\
12 1 Some(Short)\n\
12 2 Some(Range { at: 12 })\n\
        ";

#[test]
fn faults_of_an_ask(rt: HostRuntime) -> Result<(), Fail> {
    has_faults(&rt, rt.alloc(), &ASK, ASK_FAULTS)
}

const RENEWAL: [u8; 19] = [2, 0, 0, 0, 0, 0, 0, 0, 1, 80, 3, 0, 0, 0, 0, 0, 0, 0, 5];

const RENEWAL_FAULTS: &str = "0 0 Some(Tag { at: 0 })\n\
0 1 Some(Tag { at: 9 })\n\
0 2 None\n\
0 4 Some(Range { at: 18 })\n\
0 5 Some(Tag { at: 9 })\n\
0 6 Some(Tag { at: 0 })\n\
0 17 Some(Short)\n\
0 18 Some(Range { at: 18 })\n\
0 19 Some(Tag { at: 9 })\n\
0 21 Some(Trailing { at: 3 })\n\
0 22 Some(Trailing { at: 10 })\n\
0 23 Some(Tag { at: 0 })\n\
0 33 Some(Range { at: 12 })\n\
0 34 Some(Trailing { at: 12 })\n\
0 35 Some(Short)\n\
0 36 Some(Trailing { at: 11 })\n\
0 37 Some(Range { at: 1 })\n\
0 39 Some(Range { at: 10 })\n\
0 40 Some(Range { at: 1 })\n\
0 41 Some(Trailing { at: 10 })\n\
0 43 Some(Tag { at: 0 })\n\
1 0 None\n\
1 1 Some(Short)\n\
2 0 None\n\
2 1 Some(Short)\n\
3 0 None\n\
3 1 Some(Short)\n\
4 0 None\n\
4 1 Some(Short)\n\
5 0 None\n\
5 1 Some(Short)\n\
6 0 None\n\
6 1 Some(Short)\n\
7 0 None\n\
7 1 Some(Short)\n\
8 0 Some(Trailing { at: 9 })\n\
8 1 None\n\
8 2 Some(Short)\n\
9 0 Some(Range { at: 9 })\n\
9 4 Some(Range { at: 15 })\n\
9 5 Some(Range { at: 9 })\n\
9 8 Some(Range { at: 15 })\n\
9 37 Some(Short)\n\
9 39 None\n\
9 40 Some(Range { at: 15 })\n\
9 47 Some(Short)\n\
9 48 Some(Range { at: 15 })\n\
9 64 Some(Short)\n\
9 65 Some(Range { at: 10 })\n\
9 68 None\n\
9 73 Some(Range { at: 9 })\n\
9 76 None\n\
9 77 Some(Range { at: 9 })\n\
9 80 None\n\
9 81 Some(Range { at: 9 })\n\
9 96 Some(Range { at: 16 })\n\
9 97 Some(Short)\n\
9 105 Some(Range { at: 10 })\n\
9 106 None\n\
9 107 Some(Range { at: 9 })\n\
9 108 Some(Short)\n\
9 109 Some(Range { at: 10 })\n\
9 110 None\n\
9 111 Some(Range { at: 9 })\n\
9 112 Some(Short)\n\
9 113 Some(Range { at: 10 })\n\
9 116 None\n\
9 117 Some(Range { at: 9 })\n\
9 118 None\n\
9 119 Some(Range { at: 9 })\n\
9 120 None\n\
9 121 Some(Range { at: 9 })\n\
9 128 None\n\
9 129 Some(Range { at: 9 })\n\
10 0 None\n\
11 0 None\n\
12 0 None\n\
13 0 None\n\
14 0 None\n\
15 0 None\n\
16 0 None\n\
17 0 None\n\
18 0 None\n\
        ";

#[test]
fn faults_of_a_renewal(rt: HostRuntime) -> Result<(), Fail> {
    has_faults(&rt, rt.alloc(), &RENEWAL, RENEWAL_FAULTS)
}

const END: [u8; 19] = [20, 0, 0, 0, 0, 0, 0, 0, 1, 2, 1, 0, 0, 0, 0, 0, 0, 0, 2];

const END_FAULTS: &str = "0 0 Some(Tag { at: 0 })\n\
0 1 Some(Range { at: 10 })\n\
0 2 Some(Range { at: 9 })\n\
0 4 Some(Range { at: 18 })\n\
0 5 Some(Range { at: 10 })\n\
0 6 Some(Tag { at: 0 })\n\
0 17 Some(Short)\n\
0 18 Some(Range { at: 18 })\n\
0 19 None\n\
0 21 Some(Trailing { at: 3 })\n\
0 22 Some(Trailing { at: 10 })\n\
0 23 Some(Tag { at: 0 })\n\
0 33 Some(Range { at: 12 })\n\
0 34 Some(Trailing { at: 12 })\n\
0 35 Some(Short)\n\
0 36 Some(Trailing { at: 11 })\n\
0 37 Some(Range { at: 1 })\n\
0 39 Some(Range { at: 10 })\n\
0 40 Some(Range { at: 1 })\n\
0 41 Some(Trailing { at: 10 })\n\
0 43 Some(Tag { at: 0 })\n\
1 0 None\n\
2 0 None\n\
3 0 None\n\
4 0 None\n\
5 0 None\n\
6 0 None\n\
7 0 None\n\
8 0 None\n\
9 0 Some(Trailing { at: 10 })\n\
9 1 None\n\
9 3 Some(Range { at: 10 })\n\
9 5 Some(Short)\n\
9 6 Some(Tag { at: 9 })\n\
10 0 None\n\
11 0 None\n\
12 0 None\n\
13 0 None\n\
14 0 None\n\
15 0 None\n\
16 0 None\n\
17 0 None\n\
18 0 None\n\
        ";

#[test]
fn faults_of_an_end(rt: HostRuntime) -> Result<(), Fail> {
    has_faults(&rt, rt.alloc(), &END, END_FAULTS)
}

const SHIPPED_REAP: [u8; 30] = [
    4, 0, 0, 0, 0, 0, 0, 0, 1, 0, 0, 0, 0, 0, 0, 0, 2, 10, 128, 3, 232, 25, 0, 0, 0, 0, 0, 0, 0, 0,
];

const SHIPPED_REAP_FAULTS: &str = "0 0 Some(Tag { at: 0 })\n\
0 1 Some(Range { at: 10 })\n\
0 2 Some(Range { at: 9 })\n\
0 4 None\n\
0 5 Some(Range { at: 10 })\n\
0 6 Some(Tag { at: 0 })\n\
0 17 Some(Tag { at: 18 })\n\
0 18 Some(Range { at: 18 })\n\
0 19 Some(Trailing { at: 10 })\n\
0 21 Some(Trailing { at: 3 })\n\
0 22 Some(Trailing { at: 10 })\n\
0 23 Some(Tag { at: 0 })\n\
0 33 Some(Range { at: 12 })\n\
0 34 Some(Trailing { at: 12 })\n\
0 35 Some(Range { at: 20 })\n\
0 36 Some(Trailing { at: 11 })\n\
0 37 Some(Range { at: 1 })\n\
0 39 Some(Range { at: 10 })\n\
0 40 Some(Range { at: 1 })\n\
0 41 Some(Trailing { at: 10 })\n\
0 43 Some(Tag { at: 0 })\n\
1 0 None\n\
1 1 Some(Short)\n\
2 0 None\n\
2 1 Some(Short)\n\
3 0 None\n\
3 1 Some(Short)\n\
4 0 None\n\
4 1 Some(Short)\n\
5 0 None\n\
5 1 Some(Short)\n\
6 0 None\n\
6 1 Some(Short)\n\
7 0 None\n\
7 1 Some(Short)\n\
8 0 Some(Trailing { at: 9 })\n\
8 1 None\n\
8 2 Some(Short)\n\
9 0 None\n\
10 0 None\n\
11 0 None\n\
12 0 None\n\
13 0 None\n\
14 0 None\n\
15 0 None\n\
16 0 None\n\
17 0 Some(Range { at: 20 })\n\
17 1 Some(Range { at: 29 })\n\
17 4 Some(Range { at: 20 })\n\
17 5 Some(Range { at: 23 })\n\
17 6 Some(Short)\n\
17 8 Some(Range { at: 20 })\n\
17 10 None\n\
17 11 Some(Tag { at: 17 })\n\
18 0 Some(Range { at: 18 })\n\
18 4 Some(Range { at: 26 })\n\
18 5 Some(Range { at: 18 })\n\
18 8 Some(Range { at: 26 })\n\
18 32 Some(Range { at: 23 })\n\
18 33 Some(Range { at: 21 })\n\
18 34 Some(Range { at: 24 })\n\
18 36 Some(Range { at: 23 })\n\
18 37 Some(Range { at: 20 })\n\
18 38 Some(Range { at: 21 })\n\
18 39 None\n\
18 40 Some(Range { at: 25 })\n\
18 41 Some(Range { at: 24 })\n\
18 42 Some(Range { at: 26 })\n\
18 44 Some(Range { at: 25 })\n\
18 45 Some(Range { at: 21 })\n\
18 46 Some(Range { at: 24 })\n\
18 47 Some(Range { at: 21 })\n\
18 48 Some(Range { at: 25 })\n\
18 49 Some(Range { at: 26 })\n\
18 52 Some(Range { at: 25 })\n\
18 53 Some(Range { at: 24 })\n\
18 54 Some(Range { at: 26 })\n\
18 55 Some(Range { at: 24 })\n\
18 56 Some(Range { at: 25 })\n\
18 57 Some(Range { at: 26 })\n\
18 60 Some(Range { at: 25 })\n\
18 61 Some(Range { at: 26 })\n\
18 64 Some(Range { at: 21 })\n\
18 65 Some(Range { at: 19 })\n\
18 68 None\n\
18 73 Some(Range { at: 18 })\n\
18 76 None\n\
18 77 Some(Range { at: 18 })\n\
18 80 None\n\
18 81 Some(Range { at: 18 })\n\
18 96 Some(Range { at: 21 })\n\
18 97 Some(Range { at: 20 })\n\
18 100 Some(Range { at: 21 })\n\
18 105 Some(Range { at: 19 })\n\
18 106 None\n\
18 107 Some(Range { at: 18 })\n\
18 108 Some(Range { at: 21 })\n\
18 109 Some(Range { at: 19 })\n\
18 110 None\n\
18 111 Some(Range { at: 18 })\n\
18 112 Some(Range { at: 21 })\n\
18 113 Some(Range { at: 19 })\n\
18 116 None\n\
18 117 Some(Range { at: 18 })\n\
18 118 None\n\
18 119 Some(Range { at: 18 })\n\
18 120 None\n\
18 121 Some(Range { at: 18 })\n\
18 128 None\n\
18 129 Some(Range { at: 18 })\n\
19 0 None\n\
19 4 Some(Range { at: 19 })\n\
20 0 None\n\
20 233 Some(Range { at: 20 })\n\
21 0 None\n\
21 5 Some(Range { at: 22 })\n\
21 6 Some(Short)\n\
21 7 None\n\
21 9 Some(Short)\n\
21 10 None\n\
21 26 Some(Tag { at: 21 })\n\
22 0 None\n\
22 1 Some(Short)\n\
23 0 None\n\
23 1 Some(Short)\n\
24 0 None\n\
24 1 Some(Short)\n\
25 0 None\n\
25 1 Some(Short)\n\
26 0 None\n\
26 1 Some(Short)\n\
27 0 None\n\
27 1 Some(Short)\n\
28 0 None\n\
28 1 Some(Short)\n\
29 0 None\n\
29 1 Some(Short)\n\
        ";

#[test]
fn faults_of_a_shipped_reap(rt: HostRuntime) -> Result<(), Fail> {
    has_faults(&rt, rt.alloc(), &SHIPPED_REAP, SHIPPED_REAP_FAULTS)
}
