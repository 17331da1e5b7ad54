//! Rows of ends, from RFC 9293 and this project's own rules: how ends receive, send and repeat.

/// RFC 9293, section 3.10.7.4, on an open end; and that the first copy of a letter counts, which is this project's own.
pub const RECEIVING: &str = "\
row: letters come in turn, again and ahead
opens: passive 1.000000 c S -1 0 64240 mss1460
< 1.000000 k SA -1 +0 16384 mss1460
> 1.010000 c A +0 +0 8192 = opened
> 1.020000 c PA +0 +0 8192 414243 = counted
< 1.020000 k A +0 +3 16384
> 1.030000 c PA +0 +0 8192 616263 = challenged
< 1.030000 k A +0 +3 16384
> 1.040000 c PA +1 +0 8192 62634445 = counted
< 1.040000 k A +0 +5 16384
> 1.050000 c PA +7 +0 8192 4849 = counted
< 1.050000 k A +0 +5 16384
> 1.060000 c PA +6 +0 8192 4768694a = counted
< 1.060000 k A +0 +5 16384
> 1.070000 c PA +5 +0 8192 46 = counted
< 1.070000 k A +0 +10 16384
pending 4142434445464748494a
takes 4
pending 45464748494a
> 1.080000 c FPA +10 +0 8192 4b = counted
< 1.080000 k A +0 +12 16384
pending 45464748494a4b End
# Behind End, which was taken.
> 1.090000 c PA +12 +0 8192 4c = counted
< 1.090000 k A +0 +12 16384
> 1.100000 c FA +11 +0 8192 = challenged
< 1.100000 k A +0 +12 16384
pending 45464748494a4b End

row: every kind of overlap
opens: passive 1.000000 c S -1 0 64240 mss1460
< 1.000000 k SA -1 +0 16384 mss1460
> 1.010000 c PA +10 +0 8192 61626364 = opened
< 1.010000 k A +0 +0 16384
# Inside, the same place, over the left end, over the right end, over all of it, beside it.
> 1.020000 c PA +11 +0 8192 5859 = counted
< 1.020000 k A +0 +0 16384
> 1.030000 c PA +10 +0 8192 41424344 = counted
< 1.030000 k A +0 +0 16384
> 1.040000 c PA +8 +0 8192 38394142 = counted
< 1.040000 k A +0 +0 16384
> 1.050000 c PA +12 +0 8192 43446566 = counted
< 1.050000 k A +0 +0 16384
> 1.060000 c PA +7 +0 8192 3778787878787878786768 = counted
< 1.060000 k A +0 +0 16384
> 1.070000 c PA +6 +0 8192 36 = counted
< 1.070000 k A +0 +0 16384
> 1.080000 c PA -3 +0 8192 2e2e2e303132333435 = counted
< 1.080000 k A +0 +18 16384
pending 303132333435363738396162636465666768

row: FIN behind a gap, and another one before it
opens: passive 1.000000 c S -1 0 64240 mss1460
< 1.000000 k SA -1 +0 16384 mss1460
> 1.010000 c A +0 +0 8192 = opened
> 1.020000 c FPA +2 +0 8192 43 = counted
< 1.020000 k A +0 +0 16384
> 1.030000 c FA +5 +0 8192 = counted
< 1.030000 k A +0 +0 16384
> 1.040000 c FA +0 +0 8192 4142 = counted
< 1.040000 k A +0 +4 16384
pending 414243 End
> 1.050000 c PA +3 +0 8192 4445 = counted
< 1.050000 k A +0 +4 16384
pending 414243 End

row: what lies outside draws an acknowledgment
opens: passive 1.000000 c S -1 0 64240 mss1460
< 1.000000 k SA -1 +0 16384 mss1460
> 1.010000 c PA +0 +0 8192 414243 = opened
< 1.010000 k A +0 +3 16384
> 1.020000 c A +2 +0 8192 = challenged
< 1.020000 k A +0 +3 16384
> 1.030000 c A +3 +0 8192 = counted
> 1.040000 c A +16387 +0 8192 = counted
> 1.050000 c A +16388 +0 8192 = challenged
< 1.050000 k A +0 +3 16384
> 1.060000 c PA +16387 +0 8192 78 = challenged
< 1.060000 k A +0 +3 16384
> 1.070000 c PA +16386 +0 8192 7879 = counted
< 1.070000 k A +0 +3 16384
> 1.080000 c PA -2000000000 +0 8192 78 = challenged
< 1.080000 k A +0 +3 16384
> 1.090000 c PA +2000000000 +0 8192 78 = challenged
< 1.090000 k A +0 +3 16384

row: any flags
opens: passive 1.000000 c S -1 0 64240 mss1460
< 1.000000 k SA -1 +0 16384 mss1460
> 1.010000 c AU +0 +0 8192 = opened
> 1.020000 c S +0 +0 8192 = challenged
< 1.020000 k A +0 +0 16384
> 1.030000 c S -1 +0 8192 78797a = challenged
< 1.030000 k A +0 +0 16384
> 1.040000 c FSA +0 +0 8192 78797a = challenged
< 1.040000 k A +0 +0 16384
> 1.050000 c - +0 +0 8192 78 = ignored
> 1.060000 c FPU +0 +0 8192 78 = ignored
> 1.070000 c SR +1 +0 8192 = challenged
< 1.070000 k A +0 +0 16384
> 1.080000 c FPAU +0 +0 8192 78 = counted
< 1.080000 k A +0 +2 16384
> 1.090000 c FSRPAU +2 +0 0 = reset

row: an RST at the base, beside it and outside
opens: passive 1.000000 c S -1 0 64240 mss1460
< 1.000000 k SA -1 +0 16384 mss1460
> 1.010000 c PA +0 +0 8192 414243 = opened
< 1.010000 k A +0 +3 16384
> 1.020000 c R +2 +0 0 = ignored
> 1.030000 c R +4 +0 0 = challenged
< 1.030000 k A +0 +3 16384
> 1.040000 c RA +4 +0 0 78 = challenged
< 1.040000 k A +0 +3 16384
> 1.050000 c R +16386 +0 0 = challenged
< 1.050000 k A +0 +3 16384
> 1.060000 c R +16387 +0 0 = ignored
speaks 1.070000 68656c6c6f
< 1.070000 k PA +0 +3 16384 68656c6c6f
> 1.080000 c R +3 +99 0 = reset
cut 1.080000
< 1.080000 k RA +5 +3 0
";

/// RFC 9293, sections 3.8.4 and 3.8.6. When an acknowledgment goes out, and what a window is told, are this project's own.
pub const SENDING: &str = "\
row: an answer carries the acknowledgment
opens: passive 1.000000 c S -1 0 64240 mss1460
< 1.000000 k SA -1 +0 16384 mss1460
> 1.010000 c A +0 +0 8192 = opened
hears 1.020000 c PA +0 +0 8192 W = counted
speaks 1.020000 W
< 1.020000 k PA +0 +12 16384 W
> 1.030000 c A +12 +12 8192 = counted
hears 1.040000 c PA +12 +12 8192 W = counted
speaks 1.040000 6e6f
< 1.040000 k PA +12 +24 16384 6e6f

row: nothing passes the edge
opens: passive 1.000000 c S -1 0 64240 mss1460
< 1.000000 k SA -1 +0 16384 mss1460
> 1.010000 c A +0 +0 3 = opened
speaks 1.020000 616263646566
< 1.020000 k PA +0 +0 16384 616263
speaks 1.030000 676869
> 1.040000 c A +0 +0 4 = counted
< 1.040000 k PA +3 +0 16384 64
# An edge never falls, and an old acknowledgment may raise it.
> 1.050000 c A +0 +4 0 = counted
> 1.060000 c A +0 +2 4 = counted
< 1.060000 k PA +4 +0 16384 6566
> 1.070000 c A +0 +6 0 = counted
> 1.080000 c A +0 -1 8 = counted
< 1.080000 k PA +6 +0 16384 67
> 1.090000 c A +0 +7 100 = counted
< 1.090000 k PA +7 +0 16384 6869

row: what was never sent cannot be acknowledged
opens: passive 1.000000 c S -1 0 64240 mss1460
< 1.000000 k SA -1 +0 16384 mss1460
> 1.010000 c A +0 +0 8192 = opened
> 1.020000 c PA +0 +1 8192 616263 = challenged
< 1.020000 k A +0 +0 16384
pending
speaks 1.030000 W
< 1.030000 k PA +0 +0 16384 W
> 1.040000 c A +0 +13 65535 = challenged
< 1.040000 k A +12 +0 16384
> 1.050000 c A +0 +12 0 = counted
speaks 1.060000 78
< 1.060000 k PA +12 +0 16384 78

row: the window stays where there is no room
opens: passive 1.000000 c S -1 0 64240 mss1460
< 1.000000 k SA -1 +0 16384 mss1460
> 1.010000 c A +0 +0 8192 = opened
hears 1.020000 c PA +0 +0 8192 616263 = counted
shut 1.020000
< 1.020000 k A +0 +3 16381
shut 1.030000
hears 1.040000 c PA +3 +0 8192 6465 = counted
shut 1.040000
< 1.040000 k A +0 +5 16379
> 1.050000 c A +5 +0 8192 = counted
< 1.050000 k A +0 +5 16384
hears 1.060000 c FA +5 +0 8192 = counted
shut 1.060000
< 1.060000 k A +0 +6 16383
speaks 1.070000
< 1.070000 k A +0 +6 16384

row: a repeat has what went out from the oldest letter on
opens: passive 1.000000 c S -1 0 64240 mss1460
< 1.000000 k SA -1 +0 16384 mss1460
> 1.010000 c A +0 +0 6 = opened
speaks 1.020000 616263
< 1.020000 k PA +0 +0 16384 616263
speaks 1.030000 646566
< 1.030000 k PA +3 +0 16384 646566
speaks 1.040000 676869 End
clock 2.019999 = quiet
clock 2.020000 = repeated
< 2.020000 k PA +0 +0 16384 616263646566
> 2.030000 c A +0 +2 5 = counted
< 2.030000 k PA +6 +0 16384 67
clock 3.030000 = repeated
< 3.030000 k PA +2 +0 16384 6364656667
> 3.040000 c A +0 +7 10 = counted
< 3.040000 k FPA +7 +0 16384 6869

row: a repeat tells what is told now
opens: passive 1.000000 c S -1 0 64240 mss1460
< 1.000000 k SA -1 +0 16384 mss1460
> 1.010000 c A +0 +0 8192 = opened
speaks 1.020000 616263
< 1.020000 k PA +0 +0 16384 616263
hears 1.030000 c PA +0 +0 8192 78797a = counted
shut 1.030000
< 1.030000 k A +3 +3 16381
clock 2.020000 = repeated
< 2.020000 k PA +0 +3 16381 616263
";

/// The timer. That it is set by the last refresh, and backs off to 32 seconds, is this project's own; RFC 6298 has the
/// doubling.
pub const REPEATING: &str = "\
row: six repeats, and then no answer
opens: active 1.000000 c S -1 0 16384 mss1460
< 1.000000 c S -1 0 16384 mss1460
> 1.010000 k SA -1 +0 8192 mss1460 = opened
< 1.010000 c A +0 +0 16384
speaks 10.000000 W
< 10.000000 c PA +0 +0 16384 W
clock 10.499999 = quiet
clock 10.999999 = quiet
clock 11.499999 = repeated
< 11.499999 c PA +0 +0 16384 W
clock 12.999999 = quiet
clock 13.499999 = repeated
< 13.499999 c PA +0 +0 16384 W
clock 16.999999 = quiet
clock 17.499999 = repeated
< 17.499999 c PA +0 +0 16384 W
clock 24.999999 = quiet
clock 25.499999 = repeated
< 25.499999 c PA +0 +0 16384 W
clock 40.999999 = quiet
clock 41.499999 = repeated
< 41.499999 c PA +0 +0 16384 W
clock 72.999999 = quiet
clock 73.499999 = repeated
< 73.499999 c PA +0 +0 16384 W
clock 104.999999 = quiet
clock 105.499999 = noanswer
cut 105.499999
< 105.499999 c RA +12 +0 0

row: a segment that brings nothing new resets the tries alone
opens: active 1.000000 c S -1 0 16384 mss1460
< 1.000000 c S -1 0 16384 mss1460
> 1.010000 k SA -1 +0 8192 mss1460 = opened
< 1.010000 c A +0 +0 16384
speaks 10.000000 W
< 10.000000 c PA +0 +0 16384 W
> 10.500000 k A +0 +0 8192 = counted
clock 11.000000 = repeated
< 11.000000 c PA +0 +0 16384 W
> 12.000000 k A +0 +0 8192 = counted
clock 12.999999 = quiet
clock 13.000000 = repeated
< 13.000000 c PA +0 +0 16384 W
clock 14.999999 = quiet
clock 15.000000 = repeated
< 15.000000 c PA +0 +0 16384 W
clock 18.999999 = quiet
clock 19.000000 = repeated
< 19.000000 c PA +0 +0 16384 W

row: an acknowledged letter refreshes, and so does a greater edge
opens: active 1.000000 c S -1 0 16384 mss1460
< 1.000000 c S -1 0 16384 mss1460
> 1.010000 k SA -1 +0 8192 mss1460 = opened
< 1.010000 c A +0 +0 16384
speaks 10.000000 6162636465666768696a6b6c
< 10.000000 c PA +0 +0 16384 6162636465666768696a6b6c
> 10.700000 k A +0 +1 100 = counted
clock 11.699999 = quiet
clock 11.700000 = repeated
< 11.700000 c PA +1 +0 16384 62636465666768696a6b6c
> 13.000000 k A +0 +1 8192 = counted
clock 13.999999 = quiet
clock 14.000000 = repeated
< 14.000000 c PA +1 +0 16384 62636465666768696a6b6c

row: a challenged segment refreshes nothing
opens: active 1.000000 c S -1 0 16384 mss1460
< 1.000000 c S -1 0 16384 mss1460
> 1.010000 k SA -1 +0 8192 mss1460 = opened
< 1.010000 c A +0 +0 16384
speaks 10.000000 W
< 10.000000 c PA +0 +0 16384 W
> 10.700000 k A +0 +13 65535 = challenged
< 10.700000 c A +12 +0 16384
> 10.800000 k - +9 +12 65535 = ignored
clock 11.000000 = repeated
< 11.000000 c PA +0 +0 16384 W
clock 13.000000 = repeated
< 13.000000 c PA +0 +0 16384 W

row: new letters start no timer that runs
opens: active 1.000000 c S -1 0 16384 mss1460
< 1.000000 c S -1 0 16384 mss1460
> 1.010000 k SA -1 +0 8192 mss1460 = opened
< 1.010000 c A +0 +0 16384
speaks 10.000000 616263
< 10.000000 c PA +0 +0 16384 616263
speaks 10.900000 646566
< 10.900000 c PA +3 +0 16384 646566
clock 10.999999 = quiet
clock 11.000000 = repeated
< 11.000000 c PA +0 +0 16384 616263646566
> 11.500000 k A +0 +6 8192 = counted
clock 60.000000 = quiet
speaks 70.000000 676869
< 70.000000 c PA +6 +0 16384 676869
clock 70.999999 = quiet
clock 71.000000 = repeated
< 71.000000 c PA +6 +0 16384 676869
";

/// RFC 9293, section 3.7.1: the maximum segment size that a peer offers, of which less than 64 counts as 64 and more than 1,460 as
/// 1,460, which is this project's own; and windows of nothing.
pub const SIZES: &str = "\
row: no maximum segment size of the client
opens: passive 1.000000 c S -1 0 64240
< 1.000000 k SA -1 +0 16384 mss1460
> 1.010000 c A +0 +0 65535 = opened
speaks 1.020000 COUNT@0..1500
< 1.020000 k PA +0 +0 16384 COUNT@0..536
< 1.020000 k PA +536 +0 16384 COUNT@536..1072
< 1.020000 k PA +1072 +0 16384 COUNT@1072..1500

row: no maximum segment size of the controller
opens: active 1.000000 c S -1 0 16384 mss1460
< 1.000000 c S -1 0 16384 mss1460
hears 1.010000 k SA -1 +0 65535 = opened
speaks 1.010000 COUNT@0..1500
< 1.010000 c PA +0 +0 16384 COUNT@0..536
< 1.010000 c PA +536 +0 16384 COUNT@536..1072
< 1.010000 c PA +1072 +0 16384 COUNT@1072..1500

row: a maximum segment size of 0, the client's
opens: passive 1.000000 c S -1 0 64240 mss0
< 1.000000 k SA -1 +0 16384 mss1460
> 1.010000 c A +0 +0 65535 = opened
speaks 1.020000 COUNT@0..100
< 1.020000 k PA +0 +0 16384 COUNT@0..64
< 1.020000 k PA +64 +0 16384 COUNT@64..100

row: a maximum segment size of 0, the controller's
opens: active 1.000000 c S -1 0 16384 mss1460
< 1.000000 c S -1 0 16384 mss1460
hears 1.010000 k SA -1 +0 65535 mss0 = opened
speaks 1.010000 COUNT@0..100
< 1.010000 c PA +0 +0 16384 COUNT@0..64
< 1.010000 c PA +64 +0 16384 COUNT@64..100

row: a maximum segment size of 1, the client's
opens: passive 1.000000 c S -1 0 64240 mss1
< 1.000000 k SA -1 +0 16384 mss1460
> 1.010000 c A +0 +0 65535 = opened
speaks 1.020000 COUNT@0..100
< 1.020000 k PA +0 +0 16384 COUNT@0..64
< 1.020000 k PA +64 +0 16384 COUNT@64..100

row: a maximum segment size of 1, the controller's
opens: active 1.000000 c S -1 0 16384 mss1460
< 1.000000 c S -1 0 16384 mss1460
hears 1.010000 k SA -1 +0 65535 mss1 = opened
speaks 1.010000 COUNT@0..100
< 1.010000 c PA +0 +0 16384 COUNT@0..64
< 1.010000 c PA +64 +0 16384 COUNT@64..100

row: a maximum segment size of 20, the client's
opens: passive 1.000000 c S -1 0 64240 mss20
< 1.000000 k SA -1 +0 16384 mss1460
> 1.010000 c A +0 +0 65535 = opened
speaks 1.020000 COUNT@0..100
< 1.020000 k PA +0 +0 16384 COUNT@0..64
< 1.020000 k PA +64 +0 16384 COUNT@64..100

row: a maximum segment size of 20, the controller's
opens: active 1.000000 c S -1 0 16384 mss1460
< 1.000000 c S -1 0 16384 mss1460
hears 1.010000 k SA -1 +0 65535 mss20 = opened
speaks 1.010000 COUNT@0..100
< 1.010000 c PA +0 +0 16384 COUNT@0..64
< 1.010000 c PA +64 +0 16384 COUNT@64..100

row: a maximum segment size of 64, the client's
opens: passive 1.000000 c S -1 0 64240 mss64
< 1.000000 k SA -1 +0 16384 mss1460
> 1.010000 c A +0 +0 65535 = opened
speaks 1.020000 COUNT@0..100
< 1.020000 k PA +0 +0 16384 COUNT@0..64
< 1.020000 k PA +64 +0 16384 COUNT@64..100

row: a maximum segment size of 64, the controller's
opens: active 1.000000 c S -1 0 16384 mss1460
< 1.000000 c S -1 0 16384 mss1460
hears 1.010000 k SA -1 +0 65535 mss64 = opened
speaks 1.010000 COUNT@0..100
< 1.010000 c PA +0 +0 16384 COUNT@0..64
< 1.010000 c PA +64 +0 16384 COUNT@64..100

row: a maximum segment size of 65, the client's
opens: passive 1.000000 c S -1 0 64240 mss65
< 1.000000 k SA -1 +0 16384 mss1460
> 1.010000 c A +0 +0 65535 = opened
speaks 1.020000 COUNT@0..100
< 1.020000 k PA +0 +0 16384 COUNT@0..65
< 1.020000 k PA +65 +0 16384 COUNT@65..100

row: a maximum segment size of 65, the controller's
opens: active 1.000000 c S -1 0 16384 mss1460
< 1.000000 c S -1 0 16384 mss1460
hears 1.010000 k SA -1 +0 65535 mss65 = opened
speaks 1.010000 COUNT@0..100
< 1.010000 c PA +0 +0 16384 COUNT@0..65
< 1.010000 c PA +65 +0 16384 COUNT@65..100

row: a maximum segment size of 1459, the client's
opens: passive 1.000000 c S -1 0 64240 mss1459
< 1.000000 k SA -1 +0 16384 mss1460
> 1.010000 c A +0 +0 65535 = opened
speaks 1.020000 COUNT@0..1500
< 1.020000 k PA +0 +0 16384 COUNT@0..1459
< 1.020000 k PA +1459 +0 16384 COUNT@1459..1500

row: a maximum segment size of 1459, the controller's
opens: active 1.000000 c S -1 0 16384 mss1460
< 1.000000 c S -1 0 16384 mss1460
hears 1.010000 k SA -1 +0 65535 mss1459 = opened
speaks 1.010000 COUNT@0..1500
< 1.010000 c PA +0 +0 16384 COUNT@0..1459
< 1.010000 c PA +1459 +0 16384 COUNT@1459..1500

row: a maximum segment size of 1460, the client's
opens: passive 1.000000 c S -1 0 64240 mss1460
< 1.000000 k SA -1 +0 16384 mss1460
> 1.010000 c A +0 +0 65535 = opened
speaks 1.020000 COUNT@0..1500
< 1.020000 k PA +0 +0 16384 COUNT@0..1460
< 1.020000 k PA +1460 +0 16384 COUNT@1460..1500

row: a maximum segment size of 1460, the controller's
opens: active 1.000000 c S -1 0 16384 mss1460
< 1.000000 c S -1 0 16384 mss1460
hears 1.010000 k SA -1 +0 65535 mss1460 = opened
speaks 1.010000 COUNT@0..1500
< 1.010000 c PA +0 +0 16384 COUNT@0..1460
< 1.010000 c PA +1460 +0 16384 COUNT@1460..1500

row: a maximum segment size of 65535, the client's
opens: passive 1.000000 c S -1 0 64240 mss65535
< 1.000000 k SA -1 +0 16384 mss1460
> 1.010000 c A +0 +0 65535 = opened
speaks 1.020000 COUNT@0..1500
< 1.020000 k PA +0 +0 16384 COUNT@0..1460
< 1.020000 k PA +1460 +0 16384 COUNT@1460..1500

row: a maximum segment size of 65535, the controller's
opens: active 1.000000 c S -1 0 16384 mss1460
< 1.000000 c S -1 0 16384 mss1460
hears 1.010000 k SA -1 +0 65535 mss65535 = opened
speaks 1.010000 COUNT@0..1500
< 1.010000 c PA +0 +0 16384 COUNT@0..1460
< 1.010000 c PA +1460 +0 16384 COUNT@1460..1500

row: what waited at window 0 goes out in twelve segments
opens: passive 1.000000 c S -1 0 64240 mss1460
< 1.000000 k SA -1 +0 16384 mss1460
hears 1.010000 c A +0 +0 0 = opened
speaks 1.010000 COUNT@0..16900
> 1.020000 c A +0 +0 65535 = counted
< 1.020000 k PA +0 +0 16384 COUNT@0..1460
< 1.020000 k PA +1460 +0 16384 COUNT@1460..2920
< 1.020000 k PA +2920 +0 16384 COUNT@2920..4380
< 1.020000 k PA +4380 +0 16384 COUNT@4380..5840
< 1.020000 k PA +5840 +0 16384 COUNT@5840..7300
< 1.020000 k PA +7300 +0 16384 COUNT@7300..8760
< 1.020000 k PA +8760 +0 16384 COUNT@8760..10220
< 1.020000 k PA +10220 +0 16384 COUNT@10220..11680
< 1.020000 k PA +11680 +0 16384 COUNT@11680..13140
< 1.020000 k PA +13140 +0 16384 COUNT@13140..14600
< 1.020000 k PA +14600 +0 16384 COUNT@14600..16060
< 1.020000 k PA +16060 +0 16384 COUNT@16060..16900

row: 65,535 octets of text, of which those below the edge are taken; without room the window is 0 then
opens: passive 1.000000 c S -1 0 64240 mss1460
< 1.000000 k SA -1 +0 16384 mss1460
hears 1.010000 c A +0 +0 8192 COUNT@0..65535 = opened
pending COUNT@0..16384
shut 1.010000
< 1.010000 k A +0 +16384 0
hears 1.020000 c PA +16384 +0 8192 78 = challenged
hears 1.020000 c R +16385 +0 0 = ignored
hears 1.020000 c A +16384 +0 8192 = counted
# At its edge, which is the base.
hears 1.020000 c R +16384 +0 0 = reset
";
