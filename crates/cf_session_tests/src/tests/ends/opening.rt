//! Rows of ends, from RFC 9293 and this project's own rules: how ends open and close.

/// RFC 9293, sections 3.5 and 3.10.7.3. The end sent its SYN at 1.000000.
pub const ACTIVE_OPENING: &str = "\
row: a SYN ACK opens
opens: active 1.000000 c S -1 0 16384 mss1460
< 1.000000 c S -1 0 16384 mss1460
clock 1.009999 = quiet
> 1.010000 k SA -1 +0 8192 mss1460 = opened
< 1.010000 c A +0 +0 16384
# The same once more, and one with another number.
> 1.020000 k SA -1 +0 8192 mss1460 = challenged
< 1.020000 c A +0 +0 16384
> 1.030000 k SA +77 +0 8192 = challenged
< 1.030000 c A +0 +0 16384
speaks 1.040000 W
< 1.040000 c PA +0 +0 16384 W
> 1.050000 k PA +0 +12 8192 6f6b = counted
< 1.050000 c A +12 +2 16384
pending 6f6b

row: only the SYN ACK for its SYN opens
opens: active 1.000000 c S -1 0 16384 mss1460
< 1.000000 c S -1 0 16384 mss1460
> 1.010000 k A +0 +0 8192 = ignored
> 1.020000 k S -1 +0 8192 = ignored
> 1.030000 k SA -1 +1 8192 = ignored
> 1.040000 k SA -1 -1 8192 = ignored
> 1.050000 k PA +0 +0 8192 74657874 = ignored
> 1.060000 k FA +0 +0 8192 = ignored
> 1.070000 k - +0 +0 8192 = ignored
> 1.080000 k SPAU -1 +0 8192 = opened
< 1.080000 c A +0 +0 16384

row: text and End beside a SYN ACK are not taken
opens: active 1.000000 c S -1 0 16384 mss1460
< 1.000000 c S -1 0 16384 mss1460
> 1.010000 k FSA -1 +0 8192 78797a = opened
< 1.010000 c A +0 +0 16384
pending
> 1.020000 k PA +0 +0 8192 616263 = counted
< 1.020000 c A +0 +3 16384
pending 616263

row: an RST that acknowledges the SYN resets
opens: active 1.000000 c S -1 0 16384 mss1460
< 1.000000 c S -1 0 16384 mss1460
> 1.010000 k R +0 +0 0 = ignored
> 1.020000 k RA +0 +1 0 = ignored
> 1.030000 k RA +0 -1 0 = ignored
> 1.040000 k RA +123 +0 0 = reset
cut 1.040000
< 1.040000 c R +0 0 0

row: an RST counts before a SYN ACK in one packet
opens: active 1.000000 c S -1 0 16384 mss1460
< 1.000000 c S -1 0 16384 mss1460
> 1.010000 k SRA -1 +0 8192 = reset
cut 1.010000
< 1.010000 c R +0 0 0

row: a SYN is repeated six times
opens: active 1.000000 c S -1 0 16384 mss1460
< 1.000000 c S -1 0 16384 mss1460
clock 1.999999 = quiet
clock 2.000000 = repeated
< 2.000000 c S -1 0 16384 mss1460
clock 3.999999 = quiet
clock 4.000000 = repeated
< 4.000000 c S -1 0 16384 mss1460
clock 8.000000 = repeated
< 8.000000 c S -1 0 16384 mss1460
clock 16.000000 = repeated
< 16.000000 c S -1 0 16384 mss1460
clock 32.000000 = repeated
< 32.000000 c S -1 0 16384 mss1460
clock 63.999999 = quiet
clock 64.000000 = repeated
< 64.000000 c S -1 0 16384 mss1460
clock 95.999999 = quiet
clock 96.000000 = noanswer
cut 96.000000
< 96.000000 c R +0 0 0

row: a SYN ACK resets the tries and leaves the deadline
opens: active 1.000000 c S -1 0 16384 mss1460
< 1.000000 c S -1 0 16384 mss1460
speaks 1.000000 W
clock 2.000000 = repeated
< 2.000000 c S -1 0 16384 mss1460
clock 4.000000 = repeated
< 4.000000 c S -1 0 16384 mss1460
> 5.000000 k SA -1 +0 8192 = opened
< 5.000000 c PA +0 +0 16384 W
clock 7.999999 = quiet
clock 8.000000 = repeated
< 8.000000 c PA +0 +0 16384 W
clock 9.999999 = quiet
clock 10.000000 = repeated
< 10.000000 c PA +0 +0 16384 W

row: a closed window is probed
# What the controller's SYN ACK with window 0 does to a write that comes after it.
opens: active 1.000000 c S -1 0 16384 mss1460
< 1.000000 c S -1 0 16384 mss1460
> 1.010000 k SA -1 +0 0 mss1460 = opened
< 1.010000 c A +0 +0 16384
speaks 1.030000 W
clock 2.029999 = quiet
clock 2.039999 = probed
< 2.039999 c A -1 +0 16384
> 2.050000 k A +0 +0 100 = counted
< 2.050000 c PA +0 +0 16384 W

row: numbers go round inside a segment
origins: 4294967288 4294967290
opens: active 1.000000 c S -1 0 16384 mss1460
< 1.000000 c S -1 0 16384 mss1460
> 1.010000 k SA -1 +0 8192 mss1460 = opened
< 1.010000 c A +0 +0 16384
speaks 1.020000 W
< 1.020000 c PA +0 +0 16384 W
> 1.030000 k PA +0 +12 8192 30313233343536373839 = counted
< 1.030000 c A +12 +10 16384
> 1.040000 k PA +5 +12 8192 35363738394142 = counted
< 1.040000 c A +12 +12 16384
> 1.050000 k A +12 +13 8192 = challenged
< 1.050000 c A +12 +12 16384
> 1.060000 k PA +12 -1 8192 4344 = counted
< 1.060000 c A +12 +14 16384
speaks 1.070000 616761696e End
< 1.070000 c FPA +12 +14 16384 616761696e
> 1.080000 k RA +13 +18 0 = ignored
> 1.090000 k RA +14 +18 0 = reset
cut 1.090000
< 1.090000 c RA +18 +14 0

row: numbers go round at a SYN
origins: 4294967295 4294967295
opens: active 1.000000 c S -1 0 16384 mss1460
< 1.000000 c S -1 0 16384 mss1460
> 1.010000 k SA -1 +0 8192 mss1460 = opened
< 1.010000 c A +0 +0 16384
> 1.020000 k FPA +0 +0 8192 78 = counted
< 1.020000 c A +0 +2 16384
pending 78 End
";

/// RFC 9293, sections 3.5 and 3.10.7.4, the state SYN-RECEIVED. The end sent its SYN ACK at 1.000000.
pub const PASSIVE_OPENING: &str = "\
row: an ACK of the SYN ACK opens
opens: passive 1.000000 c S -1 0 64240 mss1460
< 1.000000 k SA -1 +0 16384 mss1460
> 1.010000 c S -1 +0 8192 = ignored
> 1.011000 c SA +0 +0 8192 = ignored
> 1.012000 c - +0 +0 8192 = ignored
> 1.013000 c P +0 +0 8192 78 = ignored
> 1.014000 c A +0 +1 8192 = ignored
> 1.015000 c A +0 -1 8192 = ignored
> 1.016000 c A -1 +0 8192 = ignored
> 1.017000 c A +16385 +0 8192 = ignored
> 1.018000 c PA +16384 +0 8192 78 = ignored
> 1.019000 c A +16384 +0 8192 = opened
speaks 1.020000 W
< 1.020000 k PA +0 +0 16384 W

row: text opens and counts
opens: passive 1.000000 c S -1 0 64240 mss1460
< 1.000000 k SA -1 +0 16384 mss1460
> 1.010000 c PA +0 +0 8192 414243 = opened
< 1.010000 k A +0 +3 16384
pending 414243

row: text ahead of its turn opens
opens: passive 1.000000 c S -1 0 64240 mss1460
< 1.000000 k SA -1 +0 16384 mss1460
> 1.010000 c PA +2 +0 8192 43 = opened
< 1.010000 k A +0 +0 16384
> 1.020000 c PA +0 +0 8192 414278 = counted
< 1.020000 k A +0 +3 16384
pending 414243

row: FIN opens and ends
opens: passive 1.000000 c S -1 0 64240 mss1460
< 1.000000 k SA -1 +0 16384 mss1460
> 1.010000 c FA +0 +0 8192 = opened
< 1.010000 k A +0 +1 16384
pending End

row: what waits goes as it opens
opens: passive 1.000000 c S -1 0 64240 mss1460
< 1.000000 k SA -1 +0 16384 mss1460
speaks 1.005000 W End
> 1.010000 c PA +0 +0 8192 414243 = opened
< 1.010000 k FPA +0 +3 16384 W

row: it opens with window 0 while letters wait
# A deadline that runs goes on: opening is no refresh where letters wait.
opens: passive 1.000000 c S -1 0 64240 mss1460
< 1.000000 k SA -1 +0 16384 mss1460
speaks 1.005000 68656c6c6f776f726c642121
> 1.500000 c A +0 +0 0 = opened
clock 1.999999 = quiet
clock 2.000000 = probed
< 2.000000 k A -1 +0 16384
clock 3.999999 = quiet
clock 4.000000 = probed
< 4.000000 k A -1 +0 16384
> 4.500000 c A +0 +0 5 = counted
< 4.500000 k PA +0 +0 16384 68656c6c6f
clock 5.499999 = quiet
clock 5.500000 = repeated
< 5.500000 k PA +0 +0 16384 68656c6c6f

row: an RST at place 0 resets
opens: passive 1.000000 c S -1 0 64240 mss1460
< 1.000000 k SA -1 +0 16384 mss1460
> 1.010000 c RA +0 +0 0 = reset
cut 1.010000
< 1.010000 k RA +0 +0 0

row: elsewhere an RST is nothing
opens: passive 1.000000 c S -1 0 64240 mss1460
< 1.000000 k SA -1 +0 16384 mss1460
> 1.010000 c R -1 +0 0 = ignored
> 1.020000 c R +1 +0 0 = ignored
> 1.030000 c RA +16383 +0 0 = ignored
> 1.040000 c A +0 +0 8192 = opened

row: the tries begin anew as it opens
opens: passive 1.000000 c S -1 0 64240 mss1460
< 1.000000 k SA -1 +0 16384 mss1460
clock 1.999999 = quiet
clock 2.000000 = repeated
< 2.000000 k SA -1 +0 16384 mss1460
clock 4.000000 = repeated
< 4.000000 k SA -1 +0 16384 mss1460
> 5.000000 c A +0 +0 8192 = opened
clock 9.000000 = quiet
speaks 10.000000 W
< 10.000000 k PA +0 +0 16384 W
clock 10.999999 = quiet
clock 11.000000 = repeated
< 11.000000 k PA +0 +0 16384 W

row: a SYN ACK is repeated six times
opens: passive 1.000000 c S -1 0 64240 mss1460
< 1.000000 k SA -1 +0 16384 mss1460
clock 2.000000 = repeated
< 2.000000 k SA -1 +0 16384 mss1460
clock 4.000000 = repeated
< 4.000000 k SA -1 +0 16384 mss1460
clock 8.000000 = repeated
< 8.000000 k SA -1 +0 16384 mss1460
clock 16.000000 = repeated
< 16.000000 k SA -1 +0 16384 mss1460
clock 32.000000 = repeated
< 32.000000 k SA -1 +0 16384 mss1460
clock 64.000000 = repeated
< 64.000000 k SA -1 +0 16384 mss1460
clock 96.000000 = noanswer
cut 96.000000
< 96.000000 k RA +0 +0 0

row: before its SYN ACK an end hears resets alone, and is cut by one that answers the SYN
opens: silent 0.900000 c S -1 0 64240
hears 0.900000 c A +0 +0 8192 = ignored
hears 0.900000 c PA +0 +0 8192 78 = ignored
hears 0.900000 c S -1 +0 8192 = ignored
hears 0.900000 c R -1 +0 0 = ignored
hears 0.900000 c R +1 +0 0 = ignored
hears 0.900000 c RA +0 +0 0 = reset
cut 0.900000
< 0.900000 k RA 0 +0 0
";

/// RFC 9293, sections 3.6 and 3.10.4.
pub const CLOSING: &str = "\
row: the peer closes first
opens: passive 1.000000 c S -1 0 64240 mss1460
< 1.000000 k SA -1 +0 16384 mss1460
> 1.010000 c A +0 +0 8192 = opened
> 1.020000 c FA +0 +0 8192 = counted
< 1.020000 k A +0 +1 16384
speaks 1.030000 6c617374 End
< 1.030000 k FPA +0 +1 16384 6c617374
> 1.040000 c A +1 +5 8192 = counted
# A closed end still draws acknowledgments.
> 1.050000 c FA +0 +5 8192 = challenged
< 1.050000 k A +5 +1 16384
> 1.060000 c A +1 +6 8192 = challenged
< 1.060000 k A +5 +1 16384
clock 900.000000 = quiet

row: the own end closes first
opens: active 1.000000 c S -1 0 16384 mss1460
< 1.000000 c S -1 0 16384 mss1460
> 1.010000 k SA -1 +0 8192 = opened
< 1.010000 c A +0 +0 16384
speaks 1.020000 End
< 1.020000 c FA +0 +0 16384
> 1.030000 k PA +0 +1 8192 6d6f7265 = counted
< 1.030000 c A +1 +4 16384
> 1.040000 k FA +4 +1 8192 = counted
< 1.040000 c A +1 +5 16384
pending 6d6f7265 End

row: both close at once
opens: active 1.000000 c S -1 0 16384 mss1460
< 1.000000 c S -1 0 16384 mss1460
> 1.010000 k SA -1 +0 8192 = opened
< 1.010000 c A +0 +0 16384
speaks 1.020000 End
< 1.020000 c FA +0 +0 16384
> 1.030000 k FA +0 +0 8192 = counted
< 1.030000 c A +1 +1 16384
clock 2.019999 = quiet
> 2.019999 k A +1 +1 8192 = counted
clock 3.019999 = quiet

row: End waits for its place below the edge
opens: active 1.000000 c S -1 0 16384 mss1460
< 1.000000 c S -1 0 16384 mss1460
> 1.010000 k SA -1 +0 12 = opened
< 1.010000 c A +0 +0 16384
speaks 1.020000 W End
< 1.020000 c PA +0 +0 16384 W
> 1.030000 k A +0 +12 0 = counted
clock 2.029999 = quiet
clock 2.030000 = probed
< 2.030000 c A +11 +0 16384
> 2.040000 k A +0 +12 1 = counted
< 2.040000 c FA +12 +0 16384
clock 3.040000 = repeated
< 3.040000 c FA +12 +0 16384
> 3.050000 k A +0 +13 1 = counted

row: End goes with the last byte, and is repeated with it
opens: active 1.000000 c S -1 0 16384 mss1460
< 1.000000 c S -1 0 16384 mss1460
> 1.010000 k SA -1 +0 8192 = opened
< 1.010000 c A +0 +0 16384
speaks 1.020000 W End
< 1.020000 c FPA +0 +0 16384 W
clock 2.020000 = repeated
< 2.020000 c FPA +0 +0 16384 W
> 2.030000 k A +0 +12 8192 = counted
clock 3.030000 = repeated
< 3.030000 c FA +12 +0 16384
> 3.040000 k A +0 +13 8192 = counted

row: a FIN that opens the way for an answer
opens: passive 1.000000 c S -1 0 64240 mss1460
< 1.000000 k SA -1 +0 16384 mss1460
> 1.010000 c FPA +0 +0 8192 W = opened
< 1.010000 k A +0 +13 16384
hears 1.020000 c A +13 +0 8192 = counted
speaks 1.020000 7265706c79
< 1.020000 k PA +0 +13 16384 7265706c79
> 1.030000 c RA +13 +5 0 = reset
cut 1.030000
< 1.030000 k RA +5 +13 0
";
