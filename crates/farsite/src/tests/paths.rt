//! Reports of renames of directories between servers.

use super::led::Piece;

/// Two directories are each with another server. Two sessions rename each into the other one, and are to try again:
/// each of the two servers then holds the path of its own one.
pub(super) const PATHS_BEGIN: Piece = (
    b"farsite 1 servers 3 skew 10 term 100
1 join c1
1 join c2
1 do c1 create / \"a\" dir
1 tell next
1 tell next
1 tell next
1 do c1 create / \"a\" dir
1 turn c1
1 tell next
1 tell next
1 tell next
1 do c2 create / \"b\" dir
1 tell next
1 tell next
1 tell next
1 do c2 create / \"b\" dir
1 turn c2
1 tell next
1 tell next
1 tell next
1 recall s0 life /1
1 tell next
1 tell next
1 turn c1
1 tell next
1 tell next
1 tell next
1 recall s0 life /2
1 tell next
1 tell next
1 turn c2
1 tell next
1 tell next
1 tell next
1 move s0 /1 s1
1 tell next
1 tell next
1 move s0 /2 s2
1 tell next
1 tell next
1 do c1 rename / \"a\" /2 \"x\"
1 tell next
1 tell next
1 tell next
1 do c1 rename / \"a\" /2 \"x\"
1 tell next
1 tell next
1 tell next
1 do c1 rename / \"a\" /2 \"x\"
1 tell next
1 tell next
1 tell next
1 do c1 rename / \"a\" /2 \"x\"
1 tell next
1 tell next
1 tell next
1 do c1 rename / \"a\" /2 \"x\"
1 tell next
1 tell next
1 tell next
1 tell next
1 tell next
1 tell next
1 do c2 rename / \"b\" /1 \"y\"
1 tell next
1 tell next
1 tell next
1 do c2 rename / \"b\" /1 \"y\"
1 tell next
1 tell next
1 tell next
1 do c2 rename / \"b\" /1 \"y\"
1 tell next
1 tell next
1 tell next
1 do c2 rename / \"b\" /1 \"y\"
1 tell next
1 tell next
1 tell next
1 do c2 rename / \"b\" /1 \"y\"
1 tell next
1 tell next
1 tell next
1 tell next
1 tell next
1 tell next
",
    b"e1 c1 joined
e2 c2 joined
e3 c1 asked s0 life / shared, child / \"a\" exclusive, fresh / sends 0
e4 s0 grants 3 all sends 1
e5 c1 granted 3 all sends 2
e6 s0 none
e7 c1 replied 1 made
e8 c1 ships 1 s0 sends 3
e9 s0 admits 1 all sends 4
e10 c1 shipped 1 all sends 5
e11 s0 none
e12 c2 asked s0 life / shared, child / \"b\" exclusive, fresh / sends 6
e13 s0 grants 3 all sends 7
e14 c2 granted 3 all sends 8
e15 s0 none
e16 c2 replied 1 made
e17 c2 ships 1 s0 sends 9
e18 s0 admits 1 all sends 10
e19 c2 shipped 1 all sends 11
e20 s0 none
e21 s0 recalls 1 sends 12
e22 c1 recall s0.3 sends 13
e23 s0 none
e24 c1 releases 1 s0 sends 14
e25 s0 frees 1 all sends 15
e26 c1 released 1 all sends 16
e27 s0 none
e28 s0 recalls 1 sends 17
e29 c2 recall s0.6 sends 18
e30 s0 none
e31 c2 releases 1 s0 sends 19
e32 s0 frees 1 all sends 20
e33 c2 released 1 all sends 21
e34 s0 none
e35 s0 moves /1 s1 sends 22
e36 s1 installs /1 sends 23
e37 s0 none
e38 s0 moves /2 s2 sends 24
e39 s2 installs /2 sends 25
e40 s0 none
e41 c1 asked s0 life /2 shared, child /2 \"x\" exclusive, life /1 shared, own /1, other /1 dD shared sends 26
e42 s0 grants 0 moved /2 s2 sends 27
e43 c1 granted 0 moved /2 s2 sends 28
e44 s0 none
e45 c1 asked s2 life /2 shared, child /2 \"x\" exclusive, life /1 shared, own /1, other /1 dD shared sends 29
e46 s2 grants 2 all sends 30
e47 c1 granted 2 all sends 31
e48 s2 none
e49 c1 asked s0 life /1 shared, own /1, other /1 dD shared sends 32
e50 s0 grants 0 moved /1 s1 sends 33
e51 c1 granted 0 moved /1 s1 sends 34
e52 s0 none
e53 c1 asked s1 life /1 shared, own /1, other /1 dD shared sends 35
e54 s1 grants 3 all sends 36
e55 c1 granted 3 all sends 37
e56 s1 none
e57 c1 leading 2 s2 sends 38
e58 s2 refuses wanted /2 sends 39 40
e59 s0 pathgrants s0@1 sends 41
e60 c1 led again wanted /2 sends 42
e61 s2 pathholds s0@1 sends 43
e62 s2 none
e63 s0 none
e64 c2 asked s0 life /1 shared, child /1 \"y\" exclusive, life /2 shared, own /2, other /2 dD shared sends 44
e65 s0 grants 0 moved /1 s1 sends 45
e66 c2 granted 0 moved /1 s1 sends 46
e67 s0 none
e68 c2 asked s1 life /1 shared, child /1 \"y\" exclusive, life /2 shared, own /2, other /2 dD shared sends 47
e69 s1 grants 2 all sends 48
e70 c2 granted 2 all sends 49
e71 s1 none
e72 c2 asked s0 life /2 shared, own /2, other /2 dD shared sends 50
e73 s0 grants 0 moved /2 s2 sends 51
e74 c2 granted 0 moved /2 s2 sends 52
e75 s0 none
e76 c2 asked s2 life /2 shared, own /2, other /2 dD shared sends 53
e77 s2 grants 3 all sends 54
e78 c2 granted 3 all sends 55
e79 s2 none
e80 c2 leading 2 s1 sends 56
e81 s1 refuses wanted /1 sends 57 58
e82 s0 pathgrants s0@2 sends 59
e83 c2 led again wanted /1 sends 60
e84 s1 pathholds s0@2 sends 61
e85 s1 none
e86 s0 none
",
);

/// The first rename has the path asked back that goes over what it moves, and is done. Then the second one is a cycle.
pub(super) const ONE_WINS: Piece = (
    b"1 do c1 rename / \"a\" /2 \"x\"
1 tell next
1 tell next
1 tell next
1 tell next
1 tell next
1 tell next
1 tell next
1 tell next
1 tell next
1 tell next
1 tell next
1 tell next
1 tell next
1 tell next
1 tell next
1 tell next
1 tell next
1 tell next
1 do c1 rename / \"a\" /2 \"x\"
1 tell next
1 tell next
1 tell next
1 tell next
1 tell next
1 tell next
1 tell next
1 tell next
1 tell next
1 tell next
1 tell next
1 tell next
1 tell next
1 tell next
1 tell next
1 tell next
1 tell next
1 tell next
1 do c2 rename / \"b\" /1 \"y\"
1 tell next
1 tell next
1 tell next
1 tell next
1 tell next
1 tell next
1 tell next
1 tell next
1 tell next
1 do c2 rename / \"b\" /1 \"y\"
1 tell next
1 tell next
1 tell next
1 tell next
1 tell next
1 tell next
1 tell next
1 tell next
1 tell next
1 tell next
1 tell next
1 tell next
1 tell next
1 tell next
1 tell next
1 tell next
1 tell next
1 tell next
",
    b"e87 c1 leading 2 s2 sends 62
e88 s2 prepares s2#1 sends 63 64 65
e89 s0 votes s2#1 pathsout s0@2 sends 66 67
e90 s0 votes s2#1 moved /1 s1 sends 68
e91 c1 none
e92 s1 pathfrees s0@2 sends 69
e93 s2 waits s2#1 sends 70
e94 s2 seeks s2#1 s1 sends 71 72
e95 s0 pathback s0@2 sends 73
e96 s0 none
e97 s0 none
e98 s1 votes s2#1 yes sends 74
e99 s1 none
e100 s2 aborts s2#1 pathsout s0@2 sends 75
e101 s1 applies s2#1 sends 76
e102 s2 ends s2#1 sends 77 78
e103 s1 none
e104 c1 led again pathsout s0@2 sends 79
e105 s2 none
e106 c1 leading 2 s2 sends 80
e107 s2 prepares s2#2 sends 81 82 83
e108 s0 votes s2#2 yes sends 84
e109 s0 votes s2#2 moved /1 s1 sends 85
e110 c1 none
e111 s2 waits s2#2 sends 86
e112 s2 seeks s2#2 s1 sends 87 88
e113 s0 none
e114 s0 none
e115 s1 votes s2#2 yes sends 89
e116 s2 commits s2#2 renamed sends 90 91
e117 s0 applies s2#2 sends 92
e118 s1 applies s2#2 sends 93
e119 s2 waits s2#2 sends 94
e120 s2 ends s2#2 sends 95 96
e121 s0 none
e122 s1 none
e123 c1 led 2 renamed sends 97
e124 s2 none
e125 c2 leading 2 s1 sends 98
e126 s1 refuses wanted /1 sends 99 100
e127 s0 pathdenies moved /2 s2 sends 101
e128 c2 led again wanted /1 sends 102
e129 s1 pathseeks /1 s2 sends 103 104
e130 s1 none
e131 s0 none
e132 s2 pathgrants s2@1 sends 105
e133 s1 pathholds s2@1 sends 106
e134 s2 none
e135 c2 leading 2 s1 sends 107
e136 s1 prepares s1#1 sends 108 109 110
e137 s0 votes s1#1 yes sends 111
e138 s0 votes s1#1 moved /2 s2 sends 112
e139 c2 none
e140 s1 waits s1#1 sends 113
e141 s1 seeks s1#1 s2 sends 114 115
e142 s0 none
e143 s0 none
e144 s2 votes s1#1 yes sends 116
e145 s1 commits s1#1 cycle sends 117 118
e146 s0 applies s1#1 sends 119
e147 s2 applies s1#1 sends 120
e148 s1 waits s1#1 sends 121
e149 s1 ends s1#1 sends 122 123
e150 s0 none
e151 s2 none
e152 c2 led 2 cycle sends 124
e153 s1 none
j1 c1 1 create / \"a\" dir /1 made
j2 c2 1 create / \"b\" dir /2 made
j3 c1 2 rename / \"a\" /2 \"x\" renamed
j4 c2 2 rename / \"b\" /1 \"y\" cycle
n / dir 0 0
n /1 dir 0 0 in /2 \"x\"
n /2 dir 0 0 in / \"b\"
done events 153 journal 4 nodes 3
",
);

/// What is on a path that another server holds stays where it is, until that is given back.
pub(super) const MOVES_WAIT_FOR_PATHS: Piece = (
    b"1 move s2 /2 s0
1 move s0 / s1
1 move s2 /2 s0
",
    b"e87 s2 stays paths s0@1 sends 62
e88 s0 stays paths s0@1 sends 63 64
e89 s2 moves /2 s0 sends 65
j1 c1 1 create / \"a\" dir /1 made
j2 c2 1 create / \"b\" dir /2 made
n / dir 0 0
n /1 dir 0 0 in / \"a\"
n /2 dir 0 0 in / \"b\"
done events 89 journal 2 nodes 3
",
);
