//! Schedules with their reports.

pub(super) const FIRST: &[u8] = b"farsite 1 direct
0 join c1
0 do c1 create / \"a\" dir
0 do c1 lookup / \"a\"
0 do c1 create / \"a\" file
";

pub(super) const FIRST_REPORT: &[u8] = b"e1 c1 joined
e2 c1 answered 1 made
e3 c1 answered 2 found /1
e4 c1 answered 3 exists
j1 c1 1 create / \"a\" dir /1 made
j2 c1 2 lookup / \"a\" found /1
j3 c1 3 create / \"a\" file - exists
n / dir 0 0
n /1 dir 0 0 in / \"a\"
done events 4 journal 3 nodes 2
";

pub(super) const FIRST_JOURNAL: &[u8] =
    b"{\"journal\":[{\"by\":\"c1\",\"n\":1,\"op\":\"create / \\\"a\\\" dir /1\",\"reply\":\"made\"},{\"by\":\"c1\",\"n\":2,\"op\":\"lookup / \\\"a\\\"\",\"reply\":\"found /1\"},{\"by\":\"c1\",\"n\":3,\"op\":\"create / \\\"a\\\" file -\",\"reply\":\"exists\"}],\"space\":[\"n / dir 0 0\",\"n /1 dir 0 0 in / \\\"a\\\"\"]}\n";

pub(super) const RENAMES: &[u8] = b"farsite 1 direct
0 join c1
0 do c1 create / \"a\" dir
0 do c1 create /1 \"b\" dir
0 do c1 rename / \"a\" /1/1 \"c\"
0 do c1 rename /1 \"b\" / \"a\"
0 do c1 rename /1 \"b\" / \"b\"
0 do c1 rename / \"a\" /1/1 \"c\"
";

pub(super) const RENAMES_REPORT: &[u8] = b"e1 c1 joined
e2 c1 answered 1 made
e3 c1 answered 2 made
e4 c1 answered 3 cycle
e5 c1 answered 4 exists
e6 c1 answered 5 renamed
e7 c1 answered 6 renamed
j1 c1 1 create / \"a\" dir /1 made
j2 c1 2 create /1 \"b\" dir /1/1 made
j3 c1 3 rename / \"a\" /1/1 \"c\" cycle
j4 c1 4 rename /1 \"b\" / \"a\" exists
j5 c1 5 rename /1 \"b\" / \"b\" renamed
j6 c1 6 rename / \"a\" /1/1 \"c\" renamed
n / dir 0 0
n /1 dir 0 0 in /1/1 \"c\"
n /1/1 dir 0 0 in / \"b\"
done events 7 journal 6 nodes 3
";

pub(super) const OPENS: &[u8] = b"farsite 1 direct
0 join c1
0 join c2
0 do c1 create / \"f\" file
0 do c1 open /1 1 R WD
0 do c2 open /1 1 R WD
0 do c2 open /1 1 R -
0 do c2 open /1 2 W -
0 do c1 rename / \"f\" / \"g\"
0 do c1 delete / \"f\"
";

pub(super) const OPENS_REPORT: &[u8] = b"e1 c1 joined
e2 c2 joined
e3 c1 answered 1 made
e4 c1 answered 2 opened
e5 c2 answered 1 opened
e6 c2 answered 2 handleused
e7 c2 answered 3 sharing
e8 c1 answered 3 sharing
e9 c1 answered 4 inuse
j1 c1 1 create / \"f\" file /1 made
j2 c1 2 open /1 1 R WD opened
j3 c2 1 open /1 1 R WD opened
j4 c2 2 open /1 1 R - handleused
j5 c2 3 open /1 2 W - sharing
j6 c1 3 rename / \"f\" / \"g\" sharing
j7 c1 4 delete / \"f\" inuse
n / dir 0 0
n /1 file 0 0 in / \"f\"
h /1 c1 1 R WD
h /1 c2 1 R WD
done events 9 journal 7 nodes 2
";

pub(super) const SAVE: &[u8] = b"farsite 1 direct
0 join c1
0 do c1 create / \"f\" file
0 do c1 open /1 1 W -
0 do c1 set /1 1 10 5
0 do c1 open /1 2 R -
0 do c1 set /1 2 0 0
0 do c1 info /1
0 do c1 close /1 1
0 do c1 close /1 1
0 do c1 close /1 2
0 do c1 delete / \"f\"
0 do c1 kind /1
0 do c1 create / \"f\" file
";

pub(super) const SAVE_REPORT: &[u8] = b"e1 c1 joined
e2 c1 answered 1 made
e3 c1 answered 2 opened
e4 c1 answered 3 set
e5 c1 answered 4 opened
e6 c1 answered 5 noaccess
e7 c1 answered 6 info 10 5
e8 c1 answered 7 closed
e9 c1 answered 8 nohandle
e10 c1 answered 9 closed
e11 c1 answered 10 deleted
e12 c1 answered 11 gone
e13 c1 answered 12 made
j1 c1 1 create / \"f\" file /1 made
j2 c1 2 open /1 1 W - opened
j3 c1 3 set /1 1 10 5 set
j4 c1 4 open /1 2 R - opened
j5 c1 5 set /1 2 0 0 noaccess
j6 c1 6 info /1 info 10 5
j7 c1 7 close /1 1 closed
j8 c1 8 close /1 1 nohandle
j9 c1 9 close /1 2 closed
j10 c1 10 delete / \"f\" deleted
j11 c1 11 kind /1 gone
j12 c1 12 create / \"f\" file /2 made
n / dir 0 0
n /2 file 0 0 in / \"f\"
done events 13 journal 12 nodes 2
";

/// The replies that the other schedules do not come to, in the order of the table of operations.
pub(super) const OTHERS: &[u8] = b"farsite 1 direct
0 do c1 list /
0 join c1
0 join c1
0 do c1 create / \"d\" dir
0 do c1 create / \"f\" file
0 do c1 lookup /9 \"x\"
0 do c1 lookup /2 \"x\"
0 do c1 lookup / \"x\"
0 do c1 list /9
0 do c1 list /2
0 do c1 list /
0 do c1 list /1
0 do c1 kind /1
0 do c1 kind /2
0 do c1 info /9
0 do c1 create /9 \"x\" dir
0 do c1 create /2 \"x\" dir
0 do c1 open /9 1 R -
0 do c1 close /9 1
0 do c1 set /2 1 1 1
0 do c1 delete /9 \"x\"
0 do c1 delete /2 \"x\"
0 do c1 delete / \"x\"
0 do c1 create /1 \"y\" file
0 do c1 delete / \"d\"
0 do c1 rename /9 \"x\" / \"x\"
0 do c1 rename /2 \"x\" / \"x\"
0 do c1 rename / \"f\" /9 \"x\"
0 do c1 rename / \"f\" /2 \"x\"
0 do c1 rename / \"x\" / \"z\"
0 do c1 rename / \"f\" / \"f\"
";

pub(super) const OTHERS_OUTCOMES: &[u8] = b"e1 - nothing
e2 c1 joined
e3 - nothing
e4 c1 answered 1 made
e5 c1 answered 2 made
e6 c1 answered 3 gone
e7 c1 answered 4 notdir
e8 c1 answered 5 noname
e9 c1 answered 6 gone
e10 c1 answered 7 notdir
e11 c1 answered 8 names \"d\" \"f\"
e12 c1 answered 9 names
e13 c1 answered 10 isdir
e14 c1 answered 11 isfile
e15 c1 answered 12 gone
e16 c1 answered 13 gone
e17 c1 answered 14 notdir
e18 c1 answered 15 gone
e19 c1 answered 16 nohandle
e20 c1 answered 17 nohandle
e21 c1 answered 18 gone
e22 c1 answered 19 notdir
e23 c1 answered 20 noname
e24 c1 answered 21 made
e25 c1 answered 22 notempty
e26 c1 answered 23 gone
e27 c1 answered 24 notdir
e28 c1 answered 25 goneto
e29 c1 answered 26 notdirto
e30 c1 answered 27 noname
e31 c1 answered 28 renamed
";

pub(super) const HEAD: &[u8] = b"farsite 1 direct\n0 join c1\n";
