//! Reports with several servers.

/// A directory is handed over while a client works in it.
pub(super) const DELEGATION: &[u8] = b"farsite 1 servers 2 skew 10 term 100
1 join c1
1 do c1 create / \"a\" dir
1 tell 0
1 tell 1
1 do c1 create / \"a\" dir
1 turn c1
1 tell 3
1 tell 4
1 move s0 /1 s1
1 do c1 kind /1
1 do c1 lookup /1 \"x\"
1 tell 7
1 tell 8
1 do c1 lookup /1 \"x\"
1 tell 6
1 tell 11
1 tell 10
1 tell 12
1 do c1 lookup /1 \"x\"
";

pub(super) const DELEGATION_REPORT: &[u8] = b"e1 c1 joined
e2 c1 asked s0 life / shared, child / \"a\" exclusive, fresh / sends 0
e3 s0 grants 3 all sends 1
e4 c1 granted 3 all sends 2
e5 c1 replied 1 made
e6 c1 ships 1 s0 sends 3
e7 s0 admits 1 all sends 4
e8 c1 shipped 1 all sends 5
e9 s0 moves /1 s1 sends 6
e10 c1 read 2 isdir
e11 c1 asked s0 child /1 \"x\" shared sends 7
e12 s0 grants 0 moved /1 s1 sends 8
e13 c1 granted 0 moved /1 s1 sends 9
e14 c1 asked s1 child /1 \"x\" shared sends 10
e15 s1 installs /1 sends 11
e16 s0 none
e17 s1 grants 1 all sends 12
e18 c1 granted 1 all sends 13
e19 c1 read 3 noname
j1 c1 1 create / \"a\" dir /1 made
j2 c1 2 kind /1 isdir
j3 c1 3 lookup /1 \"x\" noname
n / dir 0 0
n /1 dir 0 0 in / \"a\"
done events 19 journal 3 nodes 2
";

/// Moves that are refused, and one that is not.
pub(super) const REFUSED_MOVES: &[u8] = b"farsite 1 servers 2 skew 10 term 100
1 join c1
1 do c1 create / \"a\" dir
1 tell 0
1 tell 1
1 do c1 create / \"a\" dir
1 turn c1
1 tell 3
1 tell 4
1 move s0 /2 s1
1 move s0 /1 s0
1 move s1 /1 s0
1 move s0 /1 s1
1 move s0 /1 s1
";

pub(super) const REFUSED_MOVES_REPORT: &[u8] = b"e1 c1 joined
e2 c1 asked s0 life / shared, child / \"a\" exclusive, fresh / sends 0
e3 s0 grants 3 all sends 1
e4 c1 granted 3 all sends 2
e5 c1 replied 1 made
e6 c1 ships 1 s0 sends 3
e7 s0 admits 1 all sends 4
e8 c1 shipped 1 all sends 5
e9 s0 stays nofile
e10 s0 stays same
e11 s1 stays notmine / s0
e12 s0 moves /1 s1 sends 6
e13 s0 stays notmine /1 s1
j1 c1 1 create / \"a\" dir /1 made
n / dir 0 0
n /1 dir 0 0 in / \"a\"
done events 13 journal 1 nodes 2
";

/// A client that asks by what it knew is sent on, from server to server.
pub(super) const SENT_ON: &[u8] = b"farsite 1 servers 3 skew 10 term 100
1 join c1
1 do c1 create / \"a\" dir
1 tell 0
1 tell 1
1 do c1 create / \"a\" dir
1 turn c1
1 tell 3
1 tell 4
1 move s0 /1 s1
1 move s0 / s2
1 tell 6
1 tell 7
1 do c1 lookup / \"b\"
1 tell 10
1 tell 11
1 do c1 lookup /1 \"x\"
1 tell 13
1 tell 14
1 do c1 lookup /1 \"x\"
1 tell 16
1 tell 17
1 do c1 lookup /1 \"x\"
1 tell 19
1 tell 20
1 do c1 lookup /1 \"x\"
";

pub(super) const SENT_ON_REPORT: &[u8] = b"e1 c1 joined
e2 c1 asked s0 life / shared, child / \"a\" exclusive, fresh / sends 0
e3 s0 grants 3 all sends 1
e4 c1 granted 3 all sends 2
e5 c1 replied 1 made
e6 c1 ships 1 s0 sends 3
e7 s0 admits 1 all sends 4
e8 c1 shipped 1 all sends 5
e9 s0 moves /1 s1 sends 6
e10 s0 moves / s2 sends 7
e11 s1 installs /1 sends 8
e12 s2 installs / sends 9
e13 c1 asked s0 child / \"b\" shared sends 10
e14 s0 grants 0 moved / s2 sends 11
e15 c1 granted 0 moved / s2 sends 12
e16 c1 asked s2 child /1 \"x\" shared sends 13
e17 s2 grants 0 moved /1 s0 sends 14
e18 c1 granted 0 moved /1 s0 sends 15
e19 c1 asked s0 child /1 \"x\" shared sends 16
e20 s0 grants 0 moved /1 s1 sends 17
e21 c1 granted 0 moved /1 s1 sends 18
e22 c1 asked s1 child /1 \"x\" shared sends 19
e23 s1 grants 1 all sends 20
e24 c1 granted 1 all sends 21
e25 c1 read 2 noname
j1 c1 1 create / \"a\" dir /1 made
j2 c1 2 lookup /1 \"x\" noname
n / dir 0 0
n /1 dir 0 0 in / \"a\"
done events 25 journal 2 nodes 2
";

/// The packet of the second directory comes first, and that of the first brings both.
pub(super) const OVERTAKEN: &[u8] = b"farsite 1 servers 2 skew 10 term 100
0 join c1
0 do c1 create / \"a\" dir
1 tell 0
2 tell 1
3 do c1 create / \"a\" dir
4 do c1 create / \"b\" dir
5 tell 3
6 tell 4
7 do c1 create / \"b\" dir
8 turn c1
9 tell 6
10 tell 7
11 tell 8
12 move s0 /1 s1
13 move s0 /2 s1
14 tell 10
15 tell 9
16 turn s0
17 tell 14
18 tell 12
19 turn s0
20 do c1 create /2 \"x\" file
21 tell 16
22 tell 17
23 do c1 create /2 \"x\" file
24 tell 19
25 tell 20
26 do c1 create /2 \"x\" file
27 turn c1
28 tell 22
29 tell 23
";

pub(super) const OVERTAKEN_REPORT: &[u8] = b"e1 c1 joined
e2 c1 asked s0 life / shared, child / \"a\" exclusive, fresh / sends 0
e3 s0 grants 3 all sends 1
e4 c1 granted 3 all sends 2
e5 c1 replied 1 made
e6 c1 asked s0 child / \"b\" exclusive, fresh / sends 3
e7 s0 grants 2 all sends 4
e8 c1 granted 2 all sends 5
e9 c1 replied 2 made
e10 c1 ships 2 s0 sends 6
e11 s0 admits 2 all sends 7
e12 c1 shipped 2 all sends 8
e13 s0 none
e14 s0 moves /1 s1 sends 9
e15 s0 moves /2 s1 sends 10
e16 s1 none sends 11
e17 s1 installs /1; installs /2 sends 12
e18 s0 idle sends 13 14
e19 s1 none sends 15
e20 s0 none
e21 s0 idle
e22 c1 asked s0 child /2 \"x\" exclusive, fresh /2 sends 16
e23 s0 grants 0 moved /2 s1 sends 17
e24 c1 granted 0 moved /2 s1 sends 18
e25 c1 asked s1 child /2 \"x\" exclusive, fresh /2 sends 19
e26 s1 grants 2 all sends 20
e27 c1 granted 2 all sends 21
e28 c1 replied 3 made
e29 c1 ships 1 s1 sends 22
e30 s1 admits 1 all sends 23
e31 c1 shipped 1 all sends 24
j1 c1 1 create / \"a\" dir /1 made
j2 c1 2 create / \"b\" dir /2 made
j3 c1 3 create /2 \"x\" file /2/1 made
n / dir 0 0
n /1 dir 0 0 in / \"a\"
n /2 dir 0 0 in / \"b\"
n /2/1 file 0 0 in /2 \"x\"
done events 31 journal 3 nodes 4
";
