//! What each cut and each change of one byte of a grant comes to, in tables that come from where those of `faults` do.
use crate::msg::faults::has_faults;
use std::test::Fail;

const GRANT: [u8; 40] = [
    17, 0, 0, 0, 0, 0, 0, 0, 1, 2, 0, 0, 0, 0, 0, 0, 0, 3, 1, 128, 3, 46, 46, 97, 1, 0, 0, 0, 0, 0,
    0, 0, 9, 1, 1, 64, 16, 32, 0, 0,
];

const GRANT_FAULTS: &str = "0 0 Some(Tag { at: 0 })\n\
0 1 Some(Range { at: 10 })\n\
0 2 Some(Range { at: 9 })\n\
0 4 Some(Range { at: 18 })\n\
0 5 Some(Range { at: 10 })\n\
0 6 Some(Tag { at: 0 })\n\
0 17 None\n\
0 18 Some(Trailing { at: 28 })\n\
0 19 Some(Trailing { at: 19 })\n\
0 21 Some(Trailing { at: 3 })\n\
0 22 Some(Trailing { at: 10 })\n\
0 23 Some(Tag { at: 0 })\n\
0 33 Some(Range { at: 12 })\n\
0 34 Some(Trailing { at: 12 })\n\
0 35 Some(Tag { at: 19 })\n\
0 36 Some(Trailing { at: 11 })\n\
0 37 Some(Range { at: 1 })\n\
0 39 Some(Range { at: 10 })\n\
0 40 Some(Range { at: 1 })\n\
0 41 Some(Trailing { at: 10 })\n\
0 43 Some(Tag { at: 0 })\n\
1 0 None\n\
1 1 Some(Short)\n\
2 0 None\n\
2 1 Some(Short)\n\
3 0 None\n\
3 1 Some(Short)\n\
4 0 None\n\
4 1 Some(Short)\n\
5 0 None\n\
5 1 Some(Short)\n\
6 0 None\n\
6 1 Some(Short)\n\
7 0 None\n\
7 1 Some(Short)\n\
8 0 Some(Range { at: 9 })\n\
8 1 None\n\
8 2 Some(Short)\n\
9 0 None\n\
10 0 None\n\
11 0 None\n\
12 0 None\n\
13 0 None\n\
14 0 None\n\
15 0 None\n\
16 0 None\n\
17 0 None\n\
18 0 Some(Range { at: 20 })\n\
18 1 None\n\
18 2 Some(Range { at: 20 })\n\
18 5 Some(Range { at: 21 })\n\
18 7 Some(Tag { at: 18 })\n\
19 0 Some(Range { at: 19 })\n\
19 4 Some(Range { at: 29 })\n\
19 5 Some(Range { at: 19 })\n\
19 8 Some(Range { at: 29 })\n\
19 16 Some(Range { at: 26 })\n\
19 17 Some(Range { at: 23 })\n\
19 18 Some(Range { at: 29 })\n\
19 19 Some(Range { at: 24 })\n\
19 20 Some(Range { at: 29 })\n\
19 21 Some(Range { at: 26 })\n\
19 22 Some(Range { at: 29 })\n\
19 32 Some(Range { at: 22 })\n\
19 33 Some(Range { at: 21 })\n\
19 36 Some(Range { at: 22 })\n\
19 37 Some(Range { at: 21 })\n\
19 39 None\n\
19 40 Some(Range { at: 24 })\n\
19 45 Some(Range { at: 21 })\n\
19 46 Some(Range { at: 24 })\n\
19 47 Some(Range { at: 21 })\n\
19 48 Some(Range { at: 23 })\n\
19 49 Some(Range { at: 22 })\n\
19 52 Some(Range { at: 23 })\n\
19 53 Some(Range { at: 21 })\n\
19 54 Some(Range { at: 22 })\n\
19 55 Some(Range { at: 21 })\n\
19 56 Some(Range { at: 24 })\n\
19 64 Some(Range { at: 22 })\n\
19 65 Some(Range { at: 20 })\n\
19 68 None\n\
19 73 Some(Range { at: 19 })\n\
19 76 None\n\
19 77 Some(Range { at: 19 })\n\
19 80 None\n\
19 81 Some(Range { at: 19 })\n\
19 96 Some(Range { at: 22 })\n\
19 97 Some(Range { at: 21 })\n\
19 104 Some(Range { at: 24 })\n\
19 105 Some(Range { at: 20 })\n\
19 106 None\n\
19 107 Some(Range { at: 19 })\n\
19 108 Some(Range { at: 24 })\n\
19 109 Some(Range { at: 20 })\n\
19 110 None\n\
19 111 Some(Range { at: 19 })\n\
19 112 Some(Range { at: 22 })\n\
19 113 Some(Range { at: 20 })\n\
19 116 None\n\
19 117 Some(Range { at: 19 })\n\
19 118 None\n\
19 119 Some(Range { at: 19 })\n\
19 120 None\n\
19 121 Some(Range { at: 19 })\n\
19 128 None\n\
19 129 Some(Range { at: 19 })\n\
20 0 Some(Range { at: 20 })\n\
20 1 Some(Range { at: 21 })\n\
20 2 Some(Range { at: 22 })\n\
20 3 None\n\
20 4 Some(Range { at: 24 })\n\
21 0 Some(Range { at: 21 })\n\
21 32 None\n\
21 34 Some(Range { at: 21 })\n\
21 35 None\n\
21 42 Some(Range { at: 21 })\n\
21 43 None\n\
21 47 Some(Range { at: 21 })\n\
21 48 None\n\
21 58 Some(Range { at: 21 })\n\
21 59 None\n\
21 60 Some(Range { at: 21 })\n\
21 61 None\n\
21 62 Some(Range { at: 21 })\n\
21 64 None\n\
21 92 Some(Range { at: 21 })\n\
21 93 None\n\
21 124 Some(Range { at: 21 })\n\
21 125 None\n\
21 127 Some(Range { at: 21 })\n\
22 0 Some(Range { at: 22 })\n\
22 32 None\n\
22 34 Some(Range { at: 22 })\n\
22 35 None\n\
22 42 Some(Range { at: 22 })\n\
22 43 None\n\
22 47 Some(Range { at: 22 })\n\
22 48 None\n\
22 58 Some(Range { at: 22 })\n\
22 59 None\n\
22 60 Some(Range { at: 22 })\n\
22 61 None\n\
22 62 Some(Range { at: 22 })\n\
22 64 None\n\
22 92 Some(Range { at: 22 })\n\
22 93 None\n\
22 124 Some(Range { at: 22 })\n\
22 125 None\n\
22 127 Some(Range { at: 22 })\n\
23 0 Some(Range { at: 23 })\n\
23 32 None\n\
23 34 Some(Range { at: 23 })\n\
23 35 None\n\
23 42 Some(Range { at: 23 })\n\
23 43 None\n\
23 47 Some(Range { at: 23 })\n\
23 48 None\n\
23 58 Some(Range { at: 23 })\n\
23 59 None\n\
23 60 Some(Range { at: 23 })\n\
23 61 None\n\
23 62 Some(Range { at: 23 })\n\
23 64 None\n\
23 92 Some(Range { at: 23 })\n\
23 93 None\n\
23 124 Some(Range { at: 23 })\n\
23 125 None\n\
23 127 Some(Range { at: 23 })\n\
24 0 None\n\
24 2 Some(Range { at: 24 })\n\
25 0 None\n\
26 0 None\n\
27 0 None\n\
28 0 None\n\
29 0 None\n\
30 0 None\n\
31 0 None\n\
32 0 None\n\
33 0 Some(Range { at: 35 })\n\
33 1 None\n\
33 2 Some(Short)\n\
33 5 Some(Trailing { at: 39 })\n\
33 6 Some(Range { at: 35 })\n\
33 7 Some(Tag { at: 33 })\n\
34 0 Some(Range { at: 35 })\n\
34 1 None\n\
34 2 Some(Range { at: 34 })\n\
35 0 Some(Range { at: 35 })\n\
35 4 Some(Short)\n\
35 5 Some(Range { at: 35 })\n\
35 8 Some(Short)\n\
35 33 None\n\
35 37 Some(Range { at: 37 })\n\
35 39 Some(Range { at: 36 })\n\
35 40 Some(Short)\n\
35 45 None\n\
35 47 Some(Range { at: 37 })\n\
35 48 Some(Short)\n\
35 55 None\n\
35 56 Some(Short)\n\
35 64 None\n\
35 65 Some(Range { at: 37 })\n\
35 66 Some(Range { at: 36 })\n\
35 73 Some(Range { at: 35 })\n\
35 76 Some(Range { at: 36 })\n\
35 77 Some(Range { at: 35 })\n\
35 80 Some(Range { at: 36 })\n\
35 81 Some(Range { at: 35 })\n\
35 96 Some(Short)\n\
35 98 Some(Range { at: 37 })\n\
35 105 Some(Range { at: 36 })\n\
35 107 Some(Range { at: 35 })\n\
35 108 Some(Range { at: 37 })\n\
35 109 Some(Range { at: 36 })\n\
35 111 Some(Range { at: 35 })\n\
35 112 None\n\
35 113 Some(Range { at: 36 })\n\
35 117 Some(Range { at: 35 })\n\
35 118 Some(Range { at: 36 })\n\
35 119 Some(Range { at: 35 })\n\
35 120 Some(Range { at: 36 })\n\
35 121 Some(Range { at: 35 })\n\
35 128 Some(Range { at: 36 })\n\
35 129 Some(Range { at: 35 })\n\
36 0 Some(Short)\n\
36 4 None\n\
36 32 Some(Range { at: 37 })\n\
36 129 Some(Range { at: 36 })\n\
36 132 Some(Range { at: 37 })\n\
36 133 Some(Range { at: 36 })\n\
36 136 Some(Range { at: 37 })\n\
36 137 Some(Range { at: 36 })\n\
36 140 Some(Range { at: 37 })\n\
36 141 Some(Range { at: 36 })\n\
36 144 Some(Range { at: 37 })\n\
36 145 Some(Range { at: 36 })\n\
36 148 Some(Range { at: 37 })\n\
36 149 Some(Range { at: 36 })\n\
36 152 Some(Range { at: 37 })\n\
36 153 Some(Range { at: 36 })\n\
36 156 Some(Range { at: 37 })\n\
36 157 Some(Range { at: 36 })\n\
36 160 Some(Range { at: 37 })\n\
36 161 Some(Range { at: 36 })\n\
36 164 Some(Range { at: 37 })\n\
36 165 Some(Range { at: 36 })\n\
36 168 Some(Range { at: 37 })\n\
36 169 Some(Range { at: 36 })\n\
36 172 Some(Range { at: 37 })\n\
36 173 Some(Range { at: 36 })\n\
36 176 Some(Range { at: 37 })\n\
36 177 Some(Range { at: 36 })\n\
36 180 Some(Range { at: 37 })\n\
36 181 Some(Range { at: 36 })\n\
36 184 Some(Range { at: 37 })\n\
36 185 Some(Range { at: 36 })\n\
36 188 Some(Range { at: 37 })\n\
36 189 Some(Range { at: 36 })\n\
36 192 Some(Range { at: 37 })\n\
36 193 Some(Range { at: 36 })\n\
36 196 Some(Range { at: 37 })\n\
36 197 Some(Range { at: 36 })\n\
36 200 Some(Range { at: 37 })\n\
36 201 Some(Range { at: 36 })\n\
36 204 Some(Range { at: 37 })\n\
36 205 Some(Range { at: 36 })\n\
36 208 Some(Range { at: 37 })\n\
36 209 Some(Range { at: 36 })\n\
36 212 Some(Range { at: 37 })\n\
36 213 Some(Range { at: 36 })\n\
36 216 Some(Range { at: 37 })\n\
36 217 Some(Range { at: 36 })\n\
36 220 Some(Range { at: 37 })\n\
36 221 Some(Range { at: 36 })\n\
36 224 Some(Range { at: 37 })\n\
36 225 Some(Range { at: 36 })\n\
36 228 Some(Range { at: 37 })\n\
36 229 Some(Range { at: 36 })\n\
36 232 Some(Range { at: 37 })\n\
36 233 Some(Range { at: 36 })\n\
36 236 Some(Range { at: 37 })\n\
36 237 Some(Range { at: 36 })\n\
36 240 Some(Range { at: 37 })\n\
36 241 Some(Range { at: 36 })\n\
36 244 Some(Range { at: 37 })\n\
36 245 Some(Range { at: 36 })\n\
36 248 Some(Range { at: 37 })\n\
36 249 Some(Range { at: 36 })\n\
36 252 Some(Range { at: 37 })\n\
36 253 Some(Range { at: 36 })\n\
37 0 None\n\
37 1 Some(Range { at: 37 })\n\
37 16 None\n\
37 17 Some(Range { at: 37 })\n\
37 32 None\n\
37 33 Some(Range { at: 37 })\n\
37 48 None\n\
37 49 Some(Range { at: 37 })\n\
37 64 None\n\
37 65 Some(Range { at: 37 })\n\
37 80 None\n\
37 81 Some(Range { at: 37 })\n\
37 96 None\n\
37 97 Some(Range { at: 37 })\n\
37 112 None\n\
37 113 Some(Range { at: 37 })\n\
37 128 None\n\
37 129 Some(Range { at: 37 })\n\
37 144 None\n\
37 145 Some(Range { at: 37 })\n\
37 160 None\n\
37 161 Some(Range { at: 37 })\n\
37 176 None\n\
37 177 Some(Range { at: 37 })\n\
37 192 None\n\
37 193 Some(Range { at: 37 })\n\
37 208 None\n\
37 209 Some(Range { at: 37 })\n\
37 224 None\n\
37 225 Some(Range { at: 37 })\n\
37 240 None\n\
37 241 Some(Range { at: 37 })\n\
38 0 None\n\
38 1 Some(Range { at: 39 })\n\
38 2 Some(Range { at: 38 })\n\
39 0 None\n\
39 1 Some(Short)\n\
39 6 Some(Tag { at: 39 })\n\
        ";

#[test]
fn faults_of_a_grant(rt: HostRuntime) -> Result<(), Fail> {
    has_faults(&rt, rt.alloc(), &GRANT, GRANT_FAULTS)
}
