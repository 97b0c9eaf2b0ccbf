//! Reports of deletes and renames that servers lead.

/// Lines of a schedule, and those of its report.
pub(super) type Piece = (&'static [u8], &'static [u8]);

/// A file is made.
pub(super) const DELETE_BEGINS: Piece = (
    b"farsite 1 servers 1 skew 10 term 100
1 join c1
1 do c1 create / \"f\" file
1 tell 0
1 tell 1
1 do c1 create / \"f\" file
1 turn c1
1 tell 3
1 tell 4
",
    b"e1 c1 joined
e2 c1 asked s0 life / shared, child / \"f\" exclusive, fresh / sends 0
e3 s0 grants 3 all sends 1
e4 c1 granted 3 all sends 2
e5 c1 replied 1 made
e6 c1 ships 1 s0 sends 3
e7 s0 admits 1 all sends 4
e8 c1 shipped 1 all sends 5
",
);

/// Its delete is led, and it is gone.
pub(super) const DELETE_ENDS: Piece = (
    b"1 do c1 delete / \"f\"
1 tell 6
1 tell 7
1 do c1 delete / \"f\"
1 tell 9
1 tell 10
1 do c1 kind /1
",
    b"e9 c1 asked s0 names /1 shared, own /1, other /1 aR shared, other /1 aW shared, other /1 aD shared sends 6
e10 s0 grants 5 all sends 7
e11 c1 granted 5 all sends 8
e12 c1 leading 2 s0 sends 9
e13 s0 commits s0#1 deleted sends 10
e14 c1 led 2 deleted sends 11
e15 c1 read 3 gone
j1 c1 1 create / \"f\" file /1 made
j2 c1 2 delete / \"f\" deleted
j3 c1 3 kind /1 gone
n / dir 0 0
done events 15 journal 3 nodes 1
",
);

/// A directory that is with another server is renamed, to where that one has voted.
pub(super) const RENAME_BEGINS: Piece = (
    b"farsite 1 servers 2 skew 10 term 100
1 join c1
1 do c1 create / \"a\" dir
1 tell 0
1 tell 1
1 do c1 create / \"a\" dir
1 turn c1
1 tell 3
1 tell 4
1 move s0 /1 s1
1 do c1 kind /1
1 do c1 lookup /1 \"x\"
1 tell 7
1 tell 8
1 do c1 lookup /1 \"x\"
1 tell 6
1 tell 11
1 tell 10
1 tell 12
1 do c1 lookup /1 \"x\"
1 do c1 rename / \"a\" / \"b\"
1 tell 14
1 tell 15
1 do c1 rename / \"a\" / \"b\"
1 tell 17
1 tell 18
1 do c1 rename / \"a\" / \"b\"
1 tell 20
1 tell 21
",
    b"e1 c1 joined
e2 c1 asked s0 life / shared, child / \"a\" exclusive, fresh / sends 0
e3 s0 grants 3 all sends 1
e4 c1 granted 3 all sends 2
e5 c1 replied 1 made
e6 c1 ships 1 s0 sends 3
e7 s0 admits 1 all sends 4
e8 c1 shipped 1 all sends 5
e9 s0 moves /1 s1 sends 6
e10 c1 read 2 isdir
e11 c1 asked s0 child /1 \"x\" shared sends 7
e12 s0 grants 0 moved /1 s1 sends 8
e13 c1 granted 0 moved /1 s1 sends 9
e14 c1 asked s1 child /1 \"x\" shared sends 10
e15 s1 installs /1 sends 11
e16 s0 none
e17 s1 grants 1 all sends 12
e18 c1 granted 1 all sends 13
e19 c1 read 3 noname
e20 c1 asked s0 child / \"b\" exclusive, own /1, other /1 dD shared sends 14
e21 s0 grants 1 all sends 15
e22 c1 granted 1 all sends 16
e23 c1 asked s1 own /1, other /1 dD shared sends 17
e24 s1 grants 2 all sends 18
e25 c1 granted 2 all sends 19
e26 c1 leading 4 s0 sends 20
e27 s0 prepares s0#1 sends 21 22
e28 s1 votes s0#1 yes sends 23
",
);

/// It is decided and done, and its session is told.
pub(super) const RENAME_ENDS: Piece = (
    b"1 tell 23
1 tell 24
1 tell 25
1 tell 27
",
    b"e29 s0 commits s0#1 renamed sends 24
e30 s1 applies s0#1 sends 25
e31 s0 ends s0#1 sends 26 27
e32 c1 led 4 renamed sends 28
j1 c1 1 create / \"a\" dir /1 made
j2 c1 2 kind /1 isdir
j3 c1 3 lookup /1 \"x\" noname
j4 c1 4 rename / \"a\" / \"b\" renamed
n / dir 0 0
n /1 dir 0 0 in / \"b\"
done events 32 journal 4 nodes 2
",
);

/// It is decided, and not done yet at the other server: it is in the journal and in the namespace.
pub(super) const RENAME_IS_DECIDED: Piece = (
    b"1 tell 23
",
    b"e29 s0 commits s0#1 renamed sends 24
j1 c1 1 create / \"a\" dir /1 made
j2 c1 2 kind /1 isdir
j3 c1 3 lookup /1 \"x\" noname
j4 c1 4 rename / \"a\" / \"b\" renamed
n / dir 0 0
n /1 dir 0 0 in / \"b\"
done events 29 journal 4 nodes 2
",
);

/// What it keeps does not go to another server.
pub(super) const MOVE_MEANWHILE: Piece = (
    b"1 move s0 / s1
",
    b"e29 s0 stays busy s0#1
j1 c1 1 create / \"a\" dir /1 made
j2 c1 2 kind /1 isdir
j3 c1 3 lookup /1 \"x\" noname
n / dir 0 0
n /1 dir 0 0 in / \"a\"
done events 29 journal 3 nodes 2
",
);

/// A rename whose leader, directory and file are each with another server, to where the two are asked for. The leader does not know
/// that the directory went on.
pub(super) const OVER_THREE_BEGINS: Piece = (
    b"farsite 1 servers 3 skew 10 term 100
1 join c1
1 do c1 create / \"a\" dir
1 tell next
1 tell next
1 tell next
1 do c1 create / \"a\" dir
1 turn c1
1 tell next
1 tell next
1 tell next
1 do c1 create / \"b\" dir
1 tell next
1 tell next
1 tell next
1 do c1 create / \"b\" dir
1 turn c1
1 tell next
1 tell next
1 tell next
1 do c1 create /1 \"f\" file
1 tell next
1 tell next
1 tell next
1 do c1 create /1 \"f\" file
1 turn c1
1 tell next
1 tell next
1 tell next
1 move s0 /1 s1
1 tell next
1 tell next
1 move s1 /1/1 s0
1 tell next
1 tell next
1 move s0 /2 s2
1 tell next
1 tell next
1 do c1 rename /1 \"f\" /2 \"g\"
1 tell next
1 tell next
1 tell next
1 do c1 rename /1 \"f\" /2 \"g\"
1 tell next
1 tell next
1 tell next
1 do c1 rename /1 \"f\" /2 \"g\"
1 tell next
1 tell next
1 tell next
1 do c1 rename /1 \"f\" /2 \"g\"
1 tell next
",
    b"e1 c1 joined
e2 c1 asked s0 life / shared, child / \"a\" exclusive, fresh / sends 0
e3 s0 grants 3 all sends 1
e4 c1 granted 3 all sends 2
e5 s0 none
e6 c1 replied 1 made
e7 c1 ships 1 s0 sends 3
e8 s0 admits 1 all sends 4
e9 c1 shipped 1 all sends 5
e10 s0 none
e11 c1 asked s0 child / \"b\" exclusive, fresh / sends 6
e12 s0 grants 2 all sends 7
e13 c1 granted 2 all sends 8
e14 s0 none
e15 c1 replied 2 made
e16 c1 ships 1 s0 sends 9
e17 s0 admits 1 all sends 10
e18 c1 shipped 1 all sends 11
e19 s0 none
e20 c1 asked s0 child /1 \"f\" exclusive, fresh /1 sends 12
e21 s0 grants 2 all sends 13
e22 c1 granted 2 all sends 14
e23 s0 none
e24 c1 replied 3 made
e25 c1 ships 1 s0 sends 15
e26 s0 admits 1 all sends 16
e27 c1 shipped 1 all sends 17
e28 s0 none
e29 s0 moves /1 s1 sends 18
e30 s1 installs /1 sends 19
e31 s0 none
e32 s1 moves /1/1 s0 sends 20
e33 s0 installs /1/1 sends 21
e34 s1 none
e35 s0 moves /2 s2 sends 22
e36 s2 installs /2 sends 23
e37 s0 none
e38 c1 asked s0 child /2 \"g\" exclusive, own /1/1, other /1/1 dD shared sends 24
e39 s0 grants 0 moved /2 s2 sends 25
e40 c1 granted 0 moved /2 s2 sends 26
e41 s0 none
e42 c1 asked s2 child /2 \"g\" exclusive, own /1/1, other /1/1 dD shared sends 27
e43 s2 grants 1 all sends 28
e44 c1 granted 1 all sends 29
e45 s2 none
e46 c1 asked s0 own /1/1, other /1/1 dD shared sends 30
e47 s0 grants 2 all sends 31
e48 c1 granted 2 all sends 32
e49 s0 none
e50 c1 leading 4 s2 sends 33
e51 s2 prepares s2#1 sends 34 35 36
",
);

/// The directory is asked for where it went; all is decided and done.
pub(super) const OVER_THREE_ENDS: Piece = (
    b"1 tell next
1 tell next
1 tell next
1 tell next
1 tell next
1 tell next
1 tell next
1 tell next
1 tell next
1 tell next
1 tell next
1 tell next
1 tell next
1 tell next
1 tell next
1 tell next
1 tell next
",
    b"e52 s0 votes s2#1 moved /1 s1 sends 37
e53 s0 votes s2#1 yes sends 38
e54 c1 none
e55 s2 seeks s2#1 s1 sends 39 40
e56 s2 waits s2#1 sends 41
e57 s0 none
e58 s1 votes s2#1 yes sends 42
e59 s0 none
e60 s2 commits s2#1 renamed sends 43 44
e61 s0 applies s2#1 sends 45
e62 s1 applies s2#1 sends 46
e63 s2 waits s2#1 sends 47
e64 s2 ends s2#1 sends 48 49
e65 s0 none
e66 s1 none
e67 c1 led 4 renamed sends 50
e68 s2 none
j1 c1 1 create / \"a\" dir /1 made
j2 c1 2 create / \"b\" dir /2 made
j3 c1 3 create /1 \"f\" file /1/1 made
j4 c1 4 rename /1 \"f\" /2 \"g\" renamed
n / dir 0 0
n /1 dir 0 0 in / \"a\"
n /1/1 file 0 0 in /2 \"g\"
n /2 dir 0 0 in / \"b\"
done events 68 journal 4 nodes 4
",
);

/// A lease on the file is over when its server is asked, while the directory stays with its own behind its end. So nothing is done.
pub(super) const OVER_THREE_ABORTS: Piece = (
    b"1 tell 34
1 tell 36
1 tell 37
1 tell 38
1 tell 39
1 tell 40
1 tell 41
150 move s1 /1 s0
150 tell 35
150 tell 42
150 tell 43
150 tell 44
150 tell 45
150 tell 46
150 tell 47
150 tell 48
150 move s1 /1 s0
",
    b"e52 s0 votes s2#1 moved /1 s1 sends 37
e53 c1 none
e54 s2 seeks s2#1 s1 sends 38 39
e55 s0 none
e56 s1 votes s2#1 yes sends 40
e57 s2 waits s2#1 sends 41
e58 s1 none
e59 s1 stays busy s2#1
e60 s0 votes s2#1 ended s0.7 101 150 sends 42
e61 s2 aborts s2#1 ended s0.7 101 150 sends 43 44
e62 s0 none
e63 s1 applies s2#1 sends 45
e64 s2 ends s2#1 sends 46 47
e65 s1 none
e66 c1 led ended s0.7 101 150 sends 48
e67 s2 none
e68 s1 moves /1 s0 sends 49
j1 c1 1 create / \"a\" dir /1 made
j2 c1 2 create / \"b\" dir /2 made
j3 c1 3 create /1 \"f\" file /1/1 made
n / dir 0 0
n /1 dir 0 0 in / \"a\"
n /1/1 file 0 0 in /1 \"f\"
n /2 dir 0 0 in / \"b\"
done events 68 journal 3 nodes 4
",
);
