//! The texts that each shelf of a test holds.

/// Each text, below a line with its name.
pub(crate) const TEXTS: &str = "
@ g1
periods 4
work a
idle .
start S
rule S 0 = W
rule S 0 = R W
rule S 0 = W R
rule S 0 = R W R
rule W 2 = A len 2 3
rule A 1 = 'a'
rule A 1 = 'a' A
rule R 0 = '.'
rule R 0 = '.' R
@ g2
periods 3
work a
idle .
start S
rule S 2 = 'a' 'a' '.'
rule S 2 = '.' 'a' 'a'
rule S 2 = 'a' '.' 'a'
@ g3
periods 24
work a b
idle . p m
start S
rule S 0 = D
rule S 0 = O D
rule S 0 = D O
rule S 0 = O D O
rule D 20 = B L B 'p' B len 8 16
rule D 20 = B 'p' B L B len 8 16
rule B 0 = X len 2 8
rule B 0 = Y len 2 8
rule X 1 = 'a'
rule X 1 = 'a' X
rule Y 1 = 'b'
rule Y 1 = 'b' Y
rule L 0 = 'm' 'm' begin 9 14
rule O 0 = '.'
rule O 0 = '.' O
@ g4
periods 2
work a
start S
rule S 5 = 'a' 'a'
rule S 3 = T T
rule T 0 = 'a'
@ g5
periods 96
work a
start S
rule S 0 = 'a'
rule S 0 = S S
@ g6
periods 2
work a
idle .
start S
rule S 0 = F
rule S 0 = H
rule F 3 = 'a' 'a'
rule H 1 = 'a' '.'
rule H 1 = '.' 'a'
@ one_pair
periods 3
work a
idle .
start S
rule S 2 = 'a' 'a' '.'
@ one
periods 1
work a
idle .
start S
rule S 0 = W
rule S 0 = R W
rule S 0 = W R
rule S 0 = R W R
rule W 2 = A len 2 3
rule A 1 = 'a'
rule A 1 = 'a' A
rule R 0 = '.'
rule R 0 = '.' R
@ many
periods 60
work a
idle .
start S
rule S 2 = 'a'
rule S 1 = '.'
rule S 1 = S S
@ short_full_days
periods 2
work a
idle .
start S
rule S 0 = F
rule S 0 = H
rule F 3 = 'a' 'a' len 1 1
rule H 1 = 'a' '.'
rule H 1 = '.' 'a'
@ equal_rules
periods 2
work a
start S
rule S 3 = 'a' T
rule S 3 = 'a' T
rule T 0 = 'a'
@ late
periods 2
work a
idle .
start S
rule S 1 = '.' 'a'
@ free_pairs
periods 3
work a
idle .
start S
rule S 0 = 'a' 'a' '.'
rule S 0 = '.' 'a' 'a'
rule S 0 = 'a' '.' 'a'
@ beyond
periods 3
work a
idle .
start S
rule S 0 = 'a' 'a' 'a'
rule S 0 = 'a' 'a' '.' len 4 5
rule S 0 = 'a' '.' 'a' begin 4 4
rule S 0 = '.' 'a' 'a' end 5 9
@ idle_parts
periods 2
work a b
idle .
start S
rule S 1 = 'a' 'a'
rule S 1 = M 'a'
rule M 0 = 'b' 'b'
@ teams
periods 2
work a
idle .
start S
rule S 0 = F
rule S 0 = H
rule F 3 = 'a' 'a'
rule H 1 = 'a' '.'
rule K 1 = '.' 'a'
@ repeated
periods 1
work a
start S
rule S 0 = 'a'
rule S 0 = 'a'
rule S 0 = 'a'
rule S 0 = 'a'
rule S 0 = 'a'
rule S 0 = 'a'
rule S 0 = 'a'
rule S 0 = 'a'
rule S 0 = 'a'
rule S 0 = 'a'
rule S 0 = 'a'
rule S 0 = 'a'
rule S 0 = 'a'
rule S 0 = 'a'
rule S 0 = 'a'
@ long_idle
periods 96
work a
start S
rule S 0 = 'a'
rule S 0 = S S
rule S 0 = 'a' len 2 2
@ two_jobs
periods 2
work a b
start S
rule S 1 = 'a' 'a'
rule S 30 = 'b' 'b'
@ cycle
periods 4
start A
rule A 0 = B
rule B 0 = A
@ empty
@ q1
heads 0 2
need a 10 3 1 2 2 1
@ q1_one
heads 0 1
need a 10 3 1 2 2 1
@ some
heads 1 2
need a 10 3 1
@ any
heads 0 2
need a 10 3 1
@ q2
heads 0 3
need a 10 0 1 1 1
@ floors
heads 0 3
need a 10 0 1 1 1
least a 1 1 1
@ early
heads 0 3
least a 1 1 1
need a 10 0 1 1 1
@ many_needs
heads 0 2
need a 10 0 2 1 2 1 2 1 2 1 2 1 2 1 2 1 2 1 2 1 2 1 2 1 2 1 2 1 2 1 2 1 2 1 2 1 2 1 2 1 2 1 2 1 2 1 2 1 2 1 2 1 2 1 2 1 2 1 2 1 2 1
@ exact
heads 0 3
need a 10 0 1 1 1
least a 1 1 1
most a 1 1 1
@ crowd
heads 0 3
need a 10 0 1 1 1
least a 4 0 0
@ early_floors
heads 0 2
need a 10 0 1 1
least a 2 0
most a 1 64
@ pairs
heads 0 3
need a 10 1 1 1 1
@ two_needs
heads 0 3
need a 10 0 1 1
need b 10 0 1 0
@ q3
heads 0 12
need a 30 1 0 0 0 0 1 1 2 2 3 3 2 2 1 1 2 2 3 3 2 2 1 1 0 0
need b 30 1 0 0 0 0 0 0 1 1 1 1 1 1 0 0 1 1 1 1 1 1 0 0 0 0
@ q4
heads 1 1
need a 10 0 1 1
@ one_head
heads 0 1
@ one_worker
heads 0 1
need a 10 0 1 1 1
@ one_group
group S 0 1
@ q7
group F 0 1
group H 1 2
need a 10 2 2 1
@ lasting
group W 1 2
group R 0 1
need a 10 3 1
@ two_teams
group F 0 1
group K 0 1
need a 10 2 1 1
@ full
group F 3 3
group H 1 1
need a 10 2 2 1
@ needed
group F 1 1
group H 1 2
need a 10 2 2 1
@ short
heads 0 2
need a 10 3 1 2 2
@ fallen
heads 2 1
@ idle
heads 0 2
need . 10 3 1 2 2 1
@ mixed
group F 0 1
group H 1 2
need a 10 2 2 1
heads 0 3
@ two_each
heads 0 3
need a 10 0 2 2 2
@ limits
heads 0 3
need a 10 3 1 2 2 1
least a 1 2 0 0
most a 64 64 1 0
@ pair
shift .aaa
shift aaa.
@ halves
proof 1
cost 4
bound 4
shift .aa 2
shift aa. 2
split 1 0 1 3 1 0
priced 1
price a 2 2 0
mult 1 2
priced 1
price a 0 0 2
mult 1 2
end
@ empty_half
proof 1
cost 4
bound 4
shift .aa 2
shift aa. 2
split 1 0 1 3 1 3
priced 1
price a 2 2 0
priced 1
price a 0 0 2
end
";

/// Texts with a byte that no text may have, by name: with a byte order mark, in UTF-16 with either mark and
/// without one, and a certificate.
pub(crate) const BYTES: [(&str, &[u8]); 5] = [
    ("marked", b"\xef\xbb\xbfperiods 4\n"),
    ("low", b"\xff\xfep\x00e\x00r\x00"),
    ("high", b"\xfe\xff\x00p\x00e\x00r"),
    ("bare", b"p\x00e\x00r\x00"),
    (
        "bad_byte",
        b"proof 1\ncost 10\nbound 0\nshift .aaa 5\xff\nshift aaa. 5\nbare\nend\n",
    ),
];
