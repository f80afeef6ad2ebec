//! Pictures of why no order of events with spans has a run.

/// What takes part has a row and a bar each, a yes has its report, and what is no record is
/// refused.
pub const ROWS: &str = "
# The entry is replaced by a write that began before the one of the entry ended, and had ended
# when processor 1 invalidates its page and reads it by the old one.
@stale 50475245434f5244030028030210000000011000000000000000011000000000000000
@stale 010000000007000000
@stale 10000000000000100000000000000720000000000000
@stale 10000000000000200000000000000730000000000000
@stale 10000000000000300000000000000740000000000000
@stale 10000000000028400000000000000790000000000000
@stale 100002000000284000000000000007a0000000000000
@stale 1301000000000050000000000000
@stale 110100000000042351000000000000002391000000000000
@stale 0207000000

== picture_of_a_stale_leaf_in_no_order
$ explain --svg
< @stale
>+ <svg xmlns='http://www.w3.org/2000/svg' viewBox='0 0 1104 356' width='1104' height='356' style='
> max-width:100%;height:auto' font-family='monospace' font-size='14'>
> <title>event 6</title>
> <rect width='1104' height='356' fill='#fff'/>
> <path d='M42 44V228' stroke-width='2' stroke='#bbb'/>
> <text fill='#555' font-size='11' transform='translate(42 40) rotate(-45)'>cpu 1</text>
> <path d='M18 44V228' stroke-width='2' stroke='#bbb'/>
> <text fill='#555' font-size='11' transform='translate(18 40) rotate(-45)'>cpu 0</text>
> <rect x='36' y='192' width='12' height='18' fill='#c22'/>
> <text x='72' y='206' fill='#c22'>6 cpu 1 user read 0x5123 -> 0x9123 began 6</text>
> <rect x='36' y='168' width='12' height='18' fill='#1f5fa8'/>
> <text x='72' y='182' fill='#1f5fa8'>5 cpu 1 invlpg 0x5000 began 5</text>
> <rect x='12' y='48' width='12' height='18' fill='#1f5fa8'/>
> <text x='72' y='62' fill='#1f5fa8'>0 cpu 0 write [0x1000] = 0x2007 began 0</text>
> <rect x='12' y='72' width='12' height='18' fill='#1f5fa8'/>
> <text x='72' y='86' fill='#1f5fa8'>1 cpu 0 write [0x2000] = 0x3007 began 1</text>
> <rect x='12' y='96' width='12' height='18' fill='#1f5fa8'/>
> <text x='72' y='110' fill='#1f5fa8'>2 cpu 0 write [0x3000] = 0x4007 began 2</text>
> <rect x='12' y='96' width='12' height='66' fill='#1f5fa8'/>
> <text x='72' y='158' fill='#1f5fa8'>4 cpu 0 write [0x4028] = 0xa007 began 2</text>
> <rect x='12' y='120' width='12' height='18' fill='#1f5fa8'/>
> <text x='72' y='134' fill='#1f5fa8'>3 cpu 0 write [0x4028] = 0x9007 began 3</text>
> <text font-size='12' y='228'>
> <tspan x='12' dy='16'>event: 6 cpu 1 user read 0x5123 -&gt; 0x9123 began 6</tspan>
> <tspan x='12' dy='16'>read after: 5 cpu 1 invlpg 0x5000 began 5</tspan>
> <tspan x='12' dy='16'>may read: level 4 [0x1000] = 0x2007 table, written by event 0</tspan>
> <tspan x='12' dy='16'>may read: level 3 [0x2000] = 0x3007 table, written by event 1</tspan>
> <tspan x='12' dy='16'>may read: level 2 [0x3000] = 0x4007 table, written by event 2</tspan>
> <tspan x='12' dy='16'>may read: level 1 [0x4028] = 0xa007 leaf 0xa000, written by event 4</tspan>
>+ <tspan x='12' dy='16'>can't read: [0x4028] = 0x9007, written by event 3: event 4 overwrites it
>  and comes before event 5</tspan>
> <tspan x='12' dy='16'></tspan>
> </text>
> </svg>
? 1

== picture_of_a_spanned_walk
$ explain --svg
< 50475245434f5244030028030210000000011000000000000000011000000000000000
< 010000000006000000
< 10000000000000100000000000000720000000000000
< 10000000000000200000000000000730000000000000
< 10000000000000300000000000000740000000000000
< 10000000000028400000000000000790000000000000
< 1301010000000050000000000000
< 110100000000042351000000000000002391000000000000
< 0206000000
> verdict: yes
> events: 6
> segments: 1
? 0

== picture_of_a_truncated_record_with_spans
$ explain --svg
< 50475245434f52440300
! pcid-audit: refused 8 truncated
? 2
";
