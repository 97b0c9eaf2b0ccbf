//! Schedules of the servers form with their reports.

pub(super) const FIRST_CREATE: &[u8] = b"farsite 1 servers 1 skew 10 term 100
0 join c1
1 do c1 create / \"a\" dir
2 tell 0
3 tell 1
4 do c1 create / \"a\" dir
5 turn c1
6 tell 3
7 tell 4
8 do c1 lookup / \"a\"
";

pub(super) const FIRST_CREATE_REPORT: &[u8] = b"e1 c1 joined
e2 c1 asked s0 life / shared, child / \"a\" exclusive, fresh / sends 0
e3 s0 grants 3 all sends 1
e4 c1 granted 3 all sends 2
e5 c1 replied 1 made
e6 c1 ships 1 s0 sends 3
e7 s0 admits 1 all sends 4
e8 c1 shipped 1 all sends 5
e9 c1 read 2 found /1
j1 c1 1 create / \"a\" dir /1 made
j2 c1 2 lookup / \"a\" found /1
n / dir 0 0
n /1 dir 0 0 in / \"a\"
done events 9 journal 2 nodes 2
";

pub(super) const FIRST_CREATE_NOT_SENT: &[u8] = b"farsite 1 servers 1 skew 10 term 100
0 join c1
1 do c1 create / \"a\" dir
2 tell 0
3 tell 1
4 do c1 create / \"a\" dir
5 turn c1
6 tell 3
7 tell 4
8 do c1 lookup / \"a\"
9 tell 99
";

pub(super) const FIRST_CREATE_NOT_SENT_REPORT: &[u8] = b"e1 c1 joined
e2 c1 asked s0 life / shared, child / \"a\" exclusive, fresh / sends 0
e3 s0 grants 3 all sends 1
e4 c1 granted 3 all sends 2
e5 c1 replied 1 made
e6 c1 ships 1 s0 sends 3
e7 s0 admits 1 all sends 4
e8 c1 shipped 1 all sends 5
e9 c1 read 2 found /1
e10 - nothing
j1 c1 1 create / \"a\" dir /1 made
j2 c1 2 lookup / \"a\" found /1
n / dir 0 0
n /1 dir 0 0 in / \"a\"
done events 10 journal 2 nodes 2
";

pub(super) const FIRST_CREATE_TOLD_TWICE: &[u8] = b"farsite 1 servers 1 skew 10 term 100
0 join c1
1 do c1 create / \"a\" dir
2 tell 0
3 tell 1
4 do c1 create / \"a\" dir
5 turn c1
6 tell 3
7 tell 4
8 do c1 lookup / \"a\"
9 tell 3
";

pub(super) const FIRST_CREATE_TOLD_TWICE_REPORT: &[u8] = b"e1 c1 joined
e2 c1 asked s0 life / shared, child / \"a\" exclusive, fresh / sends 0
e3 s0 grants 3 all sends 1
e4 c1 granted 3 all sends 2
e5 c1 replied 1 made
e6 c1 ships 1 s0 sends 3
e7 s0 admits 1 all sends 4
e8 c1 shipped 1 all sends 5
e9 c1 read 2 found /1
e10 s0 none sends 6
j1 c1 1 create / \"a\" dir /1 made
j2 c1 2 lookup / \"a\" found /1
n / dir 0 0
n /1 dir 0 0 in / \"a\"
done events 10 journal 2 nodes 2
";

pub(super) const LEASE_USED_TO_ITS_END: &[u8] = b"farsite 1 servers 1 skew 10 term 100
0 join c1
0 do c1 kind /
0 tell 0
0 tell 1
99 do c1 kind /
100 do c1 kind /
";

pub(super) const LEASE_USED_TO_ITS_END_REPORT: &[u8] = b"e1 c1 joined
e2 c1 asked s0 life / shared sends 0
e3 s0 grants 1 all sends 1
e4 c1 granted 1 all sends 2
e5 c1 read 1 isdir
e6 c1 asked s0 life / shared sends 3
j1 c1 1 kind / isdir
n / dir 0 0
done events 6 journal 1 nodes 1
";

pub(super) const RECALL_MEETS_PENDING: &[u8] = b"farsite 1 servers 1 skew 10 term 100
1 join c1
1 join c2
1 do c1 create / \"a\" dir
1 tell 0
1 tell 1
1 tell 2
1 do c1 create / \"a\" dir
1 do c2 lookup / \"a\"
1 tell 3
1 tell 4
1 tell 5
1 turn c1
1 tell 8
1 tell 9
1 turn c1
1 tell 11
1 do c2 lookup / \"a\"
1 tell 13
1 tell 14
1 do c2 lookup / \"a\"
";

pub(super) const RECALL_MEETS_PENDING_REPORT: &[u8] = b"e1 c1 joined
e2 c2 joined
e3 c1 asked s0 life / shared, child / \"a\" exclusive, fresh / sends 0
e4 s0 grants 3 all sends 1
e5 c1 granted 3 all sends 2
e6 s0 none
e7 c1 replied 1 made
e8 c2 asked s0 life / shared, child / \"a\" shared sends 3
e9 s0 grants 1 wait s0.2 sends 4 5
e10 c1 recall s0.2 sends 6
e11 c2 granted 1 wait s0.2 sends 7
e12 c1 ships 1 s0 sends 8
e13 s0 admits 1 all sends 9
e14 c1 shipped 1 all sends 10
e15 c1 releases 1 s0 sends 11
e16 s0 frees 1 all sends 12
e17 c2 asked s0 child / \"a\" shared sends 13
e18 s0 grants 1 all sends 14
e19 c2 granted 1 all sends 15
e20 c2 read 1 found /1
j1 c1 1 create / \"a\" dir /1 made
j2 c2 1 lookup / \"a\" found /1
n / dir 0 0
n /1 dir 0 0 in / \"a\"
done events 20 journal 2 nodes 2
";

pub(super) const SHARING: &[u8] = b"farsite 1 servers 1 skew 10 term 100
1 join c1
1 do c1 create / \"f\" file
1 tell 0
1 tell 1
1 do c1 create / \"f\" file
1 turn c1
1 tell 3
1 tell 4
1 do c1 open /1 1 R WD
1 tell 6
1 tell 7
1 do c1 open /1 1 R WD
1 tell 9
1 tell 10
1 do c1 open /1 1 R WD
1 turn c1
1 tell 12
1 tell 13
1 tell 14
1 join c2
1 do c2 open /1 1 R WD
1 tell 15
1 tell 16
1 turn c1
1 tell 19
1 tell 17
1 do c2 open /1 1 R WD
1 tell 22
1 tell 23
1 do c2 open /1 1 R WD
1 tell 25
1 tell 26
1 do c2 open /1 1 R WD
1 turn c2
1 tell 28
1 tell 29
1 tell 20
1 tell 31
1 join c3
1 do c3 open /1 1 W -
1 tell 32
1 tell 33
1 tell 34
1 turn c1
1 tell 37
1 do c3 open /1 1 W -
1 tell 39
1 tell 41
1 do c3 open /1 1 W -
1 do c2 close /1 1
1 turn c2
1 tell 43
1 tell 44
1 do c3 open /1 1 W -
";

pub(super) const SHARING_REPORT: &[u8] = b"e1 c1 joined
e2 c1 asked s0 life / shared, child / \"f\" exclusive, fresh / sends 0
e3 s0 grants 3 all sends 1
e4 c1 granted 3 all sends 2
e5 c1 replied 1 made
e6 c1 ships 1 s0 sends 3
e7 s0 admits 1 all sends 4
e8 c1 shipped 1 all sends 5
e9 c1 asked s0 own /1, other /1 aW shared, other /1 aD shared, other /1 dR shared sends 6
e10 s0 grants 4 all sends 7
e11 c1 granted 4 all sends 8
e12 c1 asked s0 self /1 aR exclusive, self /1 dW exclusive, self /1 dD exclusive sends 9
e13 s0 grants 3 all sends 10
e14 c1 granted 3 all sends 11
e15 c1 replied 2 opened
e16 c1 ships 1 s0 sends 12
e17 s0 admits 1 all sends 13
e18 c1 shipped 1 all sends 14
e19 s0 none
e20 c2 joined
e21 c2 asked s0 life /1 shared, own /1, other /1 aW shared, other /1 aD shared, other /1 dR shared sends 15
e22 s0 grants 0 wait s0.3 sends 16 17
e23 c1 recall s0.3 sends 18
e24 c1 releases 1 s0 sends 19
e25 s0 frees 1 all sends 20
e26 c2 granted 0 wait s0.3 sends 21
e27 c2 asked s0 life /1 shared, own /1, other /1 aW shared, other /1 aD shared, other /1 dR shared sends 22
e28 s0 grants 5 all sends 23
e29 c2 granted 5 all sends 24
e30 c2 asked s0 self /1 aR exclusive, self /1 dW exclusive, self /1 dD exclusive sends 25
e31 s0 grants 3 all sends 26
e32 c2 granted 3 all sends 27
e33 c2 replied 1 opened
e34 c2 ships 1 s0 sends 28
e35 s0 admits 1 all sends 29
e36 c2 shipped 1 all sends 30
e37 c1 released 1 all sends 31
e38 s0 none
e39 c3 joined
e40 c3 asked s0 life /1 shared, own /1, other /1 dW shared sends 32
e41 s0 grants 2 wait s0.9 sends 33 34
e42 c1 recall s0.9 sends 35
e43 c3 granted 2 wait s0.9 sends 36
e44 c1 releases 1 s0 sends 37
e45 s0 frees 1 all sends 38
e46 c3 asked s0 other /1 dW shared, self /1 aW exclusive sends 39
e47 s0 grants 1 wait s0.5 sends 40 41
e48 c3 granted 1 wait s0.5 sends 42
e49 c3 read 1 sharing
e50 c2 replied 2 closed
e51 c2 ships 1 s0 sends 43
e52 s0 admits 1 all sends 44
e53 c2 shipped 1 all sends 45
e54 c3 read 2 sharing
j1 c1 1 create / \"f\" file /1 made
j2 c1 2 open /1 1 R WD opened
j3 c2 1 open /1 1 R WD opened
j4 c3 1 open /1 1 W - sharing
j5 c2 2 close /1 1 closed
j6 c3 2 open /1 1 W - sharing
n / dir 0 0
n /1 file 0 0 in / \"f\"
h /1 c1 1 R WD
done events 54 journal 6 nodes 2
";

pub(super) const SHIPPED_AT_100: &[u8] = b"farsite 1 servers 1 skew 10 term 100
0 join c1
0 do c1 create / \"a\" dir
0 tell 0
0 tell 1
1 do c1 create / \"a\" dir
1 do c1 lookup / \"a\"
2 turn c1
100 tell 3
";

pub(super) const SHIPPED_AT_100_REPORT: &[u8] = b"e1 c1 joined
e2 c1 asked s0 life / shared, child / \"a\" exclusive, fresh / sends 0
e3 s0 grants 3 all sends 1
e4 c1 granted 3 all sends 2
e5 c1 replied 1 made
e6 c1 replied 2 found /1
e7 c1 ships 2 s0 sends 3
e8 s0 admits 2 all sends 4
j1 c1 1 create / \"a\" dir /1 made
j2 c1 2 lookup / \"a\" found /1
n / dir 0 0
n /1 dir 0 0 in / \"a\"
done events 8 journal 2 nodes 2
";

pub(super) const SHIPPED_AT_109: &[u8] = b"farsite 1 servers 1 skew 10 term 100
0 join c1
0 do c1 create / \"a\" dir
0 tell 0
0 tell 1
1 do c1 create / \"a\" dir
1 do c1 lookup / \"a\"
2 turn c1
109 tell 3
";

pub(super) const SHIPPED_AT_109_REPORT: &[u8] = b"e1 c1 joined
e2 c1 asked s0 life / shared, child / \"a\" exclusive, fresh / sends 0
e3 s0 grants 3 all sends 1
e4 c1 granted 3 all sends 2
e5 c1 replied 1 made
e6 c1 replied 2 found /1
e7 c1 ships 2 s0 sends 3
e8 s0 admits 2 all sends 4
j1 c1 1 create / \"a\" dir /1 made
j2 c1 2 lookup / \"a\" found /1
n / dir 0 0
n /1 dir 0 0 in / \"a\"
done events 8 journal 2 nodes 2
";

pub(super) const SHIPPED_AT_110: &[u8] = b"farsite 1 servers 1 skew 10 term 100
0 join c1
0 do c1 create / \"a\" dir
0 tell 0
0 tell 1
1 do c1 create / \"a\" dir
1 do c1 lookup / \"a\"
2 turn c1
110 tell 3
110 tell 4
110 do c1 kind /
";

pub(super) const SHIPPED_AT_110_REPORT: &[u8] = b"e1 c1 joined
e2 c1 asked s0 life / shared, child / \"a\" exclusive, fresh / sends 0
e3 s0 grants 3 all sends 1
e4 c1 granted 3 all sends 2
e5 c1 replied 1 made
e6 c1 replied 2 found /1
e7 c1 ships 2 s0 sends 3
e8 s0 admits 0 ended 1 s0.1 100 110 gap 2 sends 4
e9 c1 shipped 0 ended 1 s0.1 100 110 sends 5
e10 c1 over 1
n / dir 0 0
done events 10 journal 0 nodes 1
";

pub(super) const UNBORN_FILE_IS_LEASED: &[u8] = b"farsite 1 servers 1 skew 10 term 100
1 join c1
1 join c2
1 do c2 kind /1
1 tell 0
1 tell 1
1 do c2 kind /1
1 do c1 create / \"a\" dir
1 tell next
1 tell next
1 tell next
1 do c1 create / \"a\" dir
1 turn c1
1 tell next
1 tell next
";

pub(super) const UNBORN_FILE_IS_LEASED_REPORT: &[u8] = b"e1 c1 joined
e2 c2 joined
e3 c2 asked s0 life /1 shared sends 0
e4 s0 grants 1 all sends 1
e5 c2 granted 1 all sends 2
e6 c2 read 1 gone
e7 c1 asked s0 life / shared, child / \"a\" exclusive, fresh / sends 3
e8 s0 none
e9 s0 grants 3 all sends 4
e10 c1 granted 3 all sends 5
e11 c1 replied 1 made
e12 c1 ships 1 s0 sends 6
e13 s0 none
e14 s0 admits 1 all sends 7
j1 c2 1 kind /1 gone
j2 c1 1 create / \"a\" dir /2 made
n / dir 0 0
n /2 dir 0 0 in / \"a\"
done events 14 journal 2 nodes 2
";

pub(super) const WITHIN_SKEW: &[u8] = b"farsite 1 servers 1 skew 10 term 100
100 join c1
90 join c2
";

pub(super) const WITHIN_SKEW_REPORT: &[u8] = b"e1 c1 joined
e2 c2 joined
n / dir 0 0
done events 2 journal 0 nodes 1
";
