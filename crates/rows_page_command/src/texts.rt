//! The texts that each shelf of a test holds.

/// Each text, below a line with its name: rules, demands, certificates, labels and reports.
pub(crate) const TEXTS: &str = "
@ g1
periods 4
work a
idle .
start S
rule S 0 = W
rule S 0 = R W
rule S 0 = W R
rule S 0 = R W R
rule W 2 = A len 2 3
rule A 1 = 'a'
rule A 1 = 'a' A
rule R 0 = '.'
rule R 0 = '.' R
@ g3
periods 24
work a b
idle . p m
start S
rule S 0 = D
rule S 0 = O D
rule S 0 = D O
rule S 0 = O D O
rule D 20 = B L B 'p' B len 8 16
rule D 20 = B 'p' B L B len 8 16
rule B 0 = X len 2 8
rule B 0 = Y len 2 8
rule X 1 = 'a'
rule X 1 = 'a' X
rule Y 1 = 'b'
rule Y 1 = 'b' Y
rule L 0 = 'm' 'm' begin 9 14
rule O 0 = '.'
rule O 0 = '.' O
@ letter
periods 1
work a
start S
rule S 1 = 'a'
@ ab
periods 1
work a b
start S
rule S 2 = 'a'
rule S 3 = 'b'
@ both
heads 0 3
need b 5 1 1
need a 4 2 1
least a 1
most b 1
@ pair
periods 1
work a
start S
rule S 1 = 'a' 'a'
@ day
periods 96
work a
idle .
start S
rule S 1 = 'a' S
rule S 1 = '.'
@ halves
periods 2
work a
idle .
start S
rule S 0 = F
rule S 0 = H
rule F 3 = 'a' 'a'
rule H 1 = 'a' '.'
rule H 1 = '.' 'a'
@ split
periods 3
work a
idle . p
start S
rule S 1 = 'a' '.' 'a'
rule S 1 = 'p' 'a' '.'
@ cycle
periods 4
start A
rule A 0 = B
rule B 0 = A
@ two
heads 0 2
need a 10 3 1 2 2 1
@ tight
heads 0 2
need a 10 3 0 2 2 2
least a 0 1 0 0
most a 64 2 64 1
@ noted
# the second hour is short
heads 0 2

need a 10 3 1 2 2 1
@ one
heads 0 1
need a 1 1 1 1 1
@ centre
heads 0 1
need a 30 1 0 0 0 0 1 1 2 2 3 3 2 2 1 1 2 2 3 3 2 2 1 1 0 0
least a 0 0 0 0 1 0 0 0 0 0 0 0 0 0 0 0 0 0 0 0 0 0 0 0
most a 64 64 64 64 3 64 64 64 64 64 64 64 64 64 64 64 64 64 64 64 64 64 64 64
@ crowd
heads 0 64
need a 9 2 0
@ some
heads 1 2
need a 10 3 1
@ all_day
heads 0 1
need a 1 1 1 1 1 1 1 1 1 1 1 1 1 1 1 1 1 1 1 1 1 1 1 1 1 1 1 1 1 1 1 1 1 1 1 1 1 1 1 1 1 1 1 1 1 1 1 1 1 \
1 1 1 1 1 1 1 1 1 1 1 1 1 1 1 1 1 1 1 1 1 1 1 1 1 1 1 1 1 1 1 1 1 1 1 1 1 1 1 1 1 1 1 1 1 1 1 1 1
@ groups
group F 0 1
group H 1 2
need a 10 2 2 1
@ fallen
heads 2 1
@ best
proof 1
cost 10
bound 10
shift .aaa 5
shift aaa. 5
priced 1
price a 1 2 2 1
end
@ high
proof 1
cost 10
bound 11
shift .aaa 5
shift aaa. 5
priced 1
price a 1 2 2 1
end
@ shift
proof 1
cost 808
bound 0
shift ....aaaammaapaa......... 28
bare
end
@ none
proof 1
cost none
bound none
priced 1
price a 0
end
@ long
proof 1
cost 97
bound 0
shift aaaaaaaaaaaaaaaaaaaaaaaaaaaaaaaaaaaaaaaaaaaaaaaaaaaaaaaaaaaaaaaaaaaaaaaaaaaaaaaaaaaaaaaaaaaaaaa. 96
bare
end
@ staff
proof 2
cost 4
bound 0
shift F aa 3
shift H a. 1
bare
end
@ cut
proof 1
cost 10
bound 0
shift .aaa 5
shift aaa 5
bare
end
@ empty
@ twice
title a
title b
@ named
title <Day>
clock 7:00 30
code a R&D
money E&R
@ called
clock 7:00 30
code a =desk, phone
@ fine
shift 2 aaa. =Ann, B.
clock 7:00 30
code a Gespr\u{e4}ch
shift 1 .aaa Zo\u{eb}
decimals 2
@ staffed
shift 1 F aa Ann
shift 2 H a. Bo
@ regrouped
shift 1 H aa Ann
@ swapped
clock 7:00 30
shift 2 .aaa Ann
@ third
clock 7:00 30
shift 3 aaa. Ann
@ third_twice
clock 7:00 30
shift 3 aaa. Ann
title a
title b
@ long_day
clock 0:00 480
paid p yes
@ long_off
clock 0:00 480
paid p yes
off .
@ quarters
clock 0:00 15
@ nights
clock 22:00 60
@ worked
clock 0:00 480
off .
decimals 2
shift 1 a.a Ann
@ stray
clock 7:00 30
shift 7 a Ann
@ team
group F full time
@ report
report 1
result turns
cost 99
bound 9
shift .aaa 90
shift aaa.
over a 1 1 1 1
@ team_report
# by hand

report 2
shift F aa
shift H a.
@ night
report 1
shift a.a
@ early
report 1
shift pa.
@ pairs
report 1
shift a
shift a
@ no_roster
report 1
result none
cost none
@ no_letters
report 1
shift .aaa
shift
@ four
report 1
cost 9
shift aaaa 4
";
