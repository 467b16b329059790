//! The days that are always played.

/// A day, and what it is about.
pub struct Known {
    pub name: &'static str,
    pub text: &'static str,
}

pub const DAYS: &[Known] = &[
    Known {
        name: "a first list",
        text: "a
milk 2
bread 1
butter 3
.
2d
%p
1i
eggs
.
.=
$=
w list
e list
f
",
    },
    Known {
        name: "empty lines",
        text: "a



.
%n
2,3j
1c

.
0a
.
0i
.
%d
%p
0a

.
1c
.
",
    },
    Known {
        name: "refusals",
        text: "d
p
1
j
e none
a
one
two
.
3p
0p
2,1p
1;+5n
0d
0j
x
12345678901
u
/one/
%m0
w
w 
3a
.
$
+
",
    },
    Known {
        name: "lines at the ends of a record",
        text: "a
!long 502
!long 503
!long 504
!long 505
.
%n
2a
!long 1005
!long 1006
!long 1007
!long 1008
.
1c
!long 1023
.
2i
!long 1024
.
a
!long 1025
.
3,4d
w long
e long
",
    },
    Known {
        name: "joins that are too long",
        text: "a
!long 500
!long 500
!long 24
!long 1
.
1,4j
1,3j
j
1,2j
1j
%p
",
    },
    Known {
        name: "e and w of the same file",
        text: "a
one
two
.
w f
1d
w f
e f
1,1w f
e f
%d
w f
e f
a
x
.
e f
f
",
    },
    Known {
        name: "several stops in a row",
        text: "a
one
.
!stop 3 0 1 0 0
a
two
.
!power 1 0 0 0 0
!power 2 0 1 0 1
!stop 2 1 0 0 0
a
three
.
!power 1 0 0 0 0
!stop 4 1 1 0 0
1d
%p
a
four
.
",
    },
    Known {
        name: "stops of the first power",
        text: "!power 0 0 0 0 0
!power 1 0 0 0 0
!power 2 0 0 0 0
!power 3 0 1 0 1
!power 4 0 0 0 0
!power 5 1 0 1 0
a
one
.
p
",
    },
    Known {
        name: "many lines at once",
        text: "a
1
2
3
4
5
6
7
8
9
10
11
12
13
14
15
16
17
18
19
20
.
w twenty
1,20d
e twenty
5,15c
x
.
%p
",
    },
    Known {
        name: "a compaction in progress",
        text: "!room 1024
a
!lines 120
.
a
.
!again 771
!watch
1c
two
.
3d
2,3j
1c
four
.
w f
5d
",
    },
    Known {
        name: "a compaction that the next power finishes",
        text: "!room 1024
a
!lines 100
.
a
.
!again 792
!stop 40 3 0 20 1
1c
two
.
!power 9 0 0 0 0
!power 300 2 1 30 1
!power
1c
three
.
!again 2
!watch
1c
four
.
",
    },
    Known {
        name: "a compaction that ends in a command",
        text: "!room 1024
a
one
two
three
four
five
six
seven
.
w f
a
.
!again 883
!watch
1c
!long 600
.
!again 3
",
    },
    Known {
        name: "a compaction by a copy",
        text: "!room 1024
a
!lines 30
.
w f
a
.
!again 862
!watch
w g
e f
w f
e g
",
    },
    Known {
        name: "sixty-four files and one more",
        text: "a
x
.
w f00
w f01
w f02
w f03
w f04
w f05
w f06
w f07
w f08
w f09
w f10
w f11
w f12
w f13
w f14
w f15
w f16
w f17
w f18
w f19
w f20
w f21
w f22
w f23
w f24
w f25
w f26
w f27
w f28
w f29
w f30
w f31
w f32
w f33
w f34
w f35
w f36
w f37
w f38
w f39
w f40
w f41
w f42
w f43
w f44
w f45
w f46
w f47
w f48
w f49
w f50
w f51
w f52
w f53
w f54
w f55
w f56
w f57
w f58
w f59
w f60
w f61
w f62
!watch
w last
w one more
w f05
1d
w f06
f
e last
",
    },
    Known {
        name: "a full house",
        text: "!room 1024
a
!long 1024
!long 1024
!long 1024
!long 1024
!long 1024
!long 1024
!long 1024
!long 1024
!long 1024
!long 1024
.
w one
w two
!watch
w three
a
!long 1000
.
!again 4
a
!long 100
.
1d
w three
",
    },
    Known {
        name: "changes past the sixty-fourth",
        text: "a
x
.
1c
y
.
!again 61
!watch
1c
z
.
!again 3
1d
",
    },
    Known {
        name: "addresses",
        text: "a
1
2
3
4
5
.
2;+1p
$-1,$n
5-9+6p
.,+p
3

2,3c
two
three
.
,n
.
",
    },
];
