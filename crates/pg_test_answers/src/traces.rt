//! Records as traces, by the whole program over memory. Expected objects were written by hand from
//! the text of docs/COMMANDS.md.

/// Records are those of `json`.
pub const ROWS: &str = r#"
== shown_as_a_trace
$ show --trace
< @fresh_walk
> {"traceEvents":[
> {"args":{"name":"record"},"name":"process_name","ph":"M","pid":0,"tid":0},
> {"args":{"name":"cpu 0"},"name":"thread_name","ph":"M","pid":0,"tid":0},
>+ {"args":{"cpu":0,"event":0,"kind":"write","value":"0x2007","word":"0x1000"},"dur":1,"name":"0 cp
> u 0 write [0x1000] = 0x2007","ph":"X","pid":0,"tid":0,"ts":0},
>+ {"args":{"cpu":0,"event":1,"kind":"write","value":"0x3007","word":"0x2000"},"dur":1,"name":"1 cp
> u 0 write [0x2000] = 0x3007","ph":"X","pid":0,"tid":0,"ts":1},
>+ {"args":{"cpu":0,"event":2,"kind":"write","value":"0x4007","word":"0x3000"},"dur":1,"name":"2 cp
> u 0 write [0x3000] = 0x4007","ph":"X","pid":0,"tid":0,"ts":2},
>+ {"args":{"cpu":0,"event":3,"kind":"write","value":"0x9007","word":"0x4028"},"dur":1,"name":"3 cp
> u 0 write [0x4028] = 0x9007","ph":"X","pid":0,"tid":0,"ts":3},
>+ {"args":{"ac":false,"address":"0x5123","cpu":0,"event":4,"kind":"access","moments":[4,4,4,4],"op
>+ eration":"read","outcome":{"page":"0x9123"},"user":true},"dur":1,"name":"4 cpu 0 user read 0x512
> 3 -> 0x9123","ph":"X","pid":0,"tid":0,"ts":4}
> ]}
? 0

== one_event_as_a_trace
$ show --trace --from 3 --word 0x4028 --to 3
< @fresh_walk
> {"traceEvents":[
> {"args":{"name":"record"},"name":"process_name","ph":"M","pid":0,"tid":0},
> {"args":{"name":"cpu 0"},"name":"thread_name","ph":"M","pid":0,"tid":0},
>+ {"args":{"cpu":0,"event":3,"kind":"write","value":"0x9007","word":"0x4028"},"dur":1,"name":"3 cp
> u 0 write [0x4028] = 0x9007","ph":"X","pid":0,"tid":0,"ts":3}
> ]}
? 0

== accepted_as_a_trace
$ certify --trace -j 2
< @fresh_walk
> {"traceEvents":[
> {"args":{"name":"record"},"name":"process_name","ph":"M","pid":0,"tid":0},
> {"args":{"name":"cpu 0"},"name":"thread_name","ph":"M","pid":0,"tid":0},
>+ {"args":{"cpu":0,"event":0,"kind":"write","value":"0x2007","word":"0x1000"},"dur":1,"name":"0 cp
> u 0 write [0x1000] = 0x2007","ph":"X","pid":0,"tid":0,"ts":0},
>+ {"args":{"cpu":0,"event":1,"kind":"write","value":"0x3007","word":"0x2000"},"dur":1,"name":"1 cp
> u 0 write [0x2000] = 0x3007","ph":"X","pid":0,"tid":0,"ts":1},
>+ {"args":{"cpu":0,"event":2,"kind":"write","value":"0x4007","word":"0x3000"},"dur":1,"name":"2 cp
> u 0 write [0x3000] = 0x4007","ph":"X","pid":0,"tid":0,"ts":2},
>+ {"args":{"cpu":0,"event":3,"kind":"write","value":"0x9007","word":"0x4028"},"dur":1,"name":"3 cp
> u 0 write [0x4028] = 0x9007","ph":"X","pid":0,"tid":0,"ts":3},
>+ {"args":{"ac":false,"address":"0x5123","cpu":0,"event":4,"kind":"access","moments":[4,4,4,4],"op
>+ eration":"read","outcome":{"page":"0x9123"},"user":true},"dur":1,"name":"4 cpu 0 user read 0x512
> 3 -> 0x9123","ph":"X","pid":0,"tid":0,"ts":4}
> ]}
? 0

== explained_as_a_trace
$ explain --trace
< @stale_leaf
> {"traceEvents":[
> {"args":{"name":"record"},"name":"process_name","ph":"M","pid":0,"tid":0},
> {"args":{"name":"cpu 0"},"name":"thread_name","ph":"M","pid":0,"tid":0},
>+ {"args":{"cpu":0,"event":0,"kind":"write","value":"0x2007","word":"0x1000"},"dur":1,"name":"0 cp
> u 0 write [0x1000] = 0x2007","ph":"X","pid":0,"tid":0,"ts":0},
>+ {"args":{"cpu":0,"event":1,"kind":"write","value":"0x3007","word":"0x2000"},"dur":1,"name":"1 cp
> u 0 write [0x2000] = 0x3007","ph":"X","pid":0,"tid":0,"ts":1},
>+ {"args":{"cpu":0,"event":2,"kind":"write","value":"0x4007","word":"0x3000"},"dur":1,"name":"2 cp
> u 0 write [0x3000] = 0x4007","ph":"X","pid":0,"tid":0,"ts":2},
>+ {"args":{"cpu":0,"event":3,"kind":"write","value":"0x9007","word":"0x4028"},"dur":1,"name":"3 cp
> u 0 write [0x4028] = 0x9007","ph":"X","pid":0,"tid":0,"ts":3},
>+ {"args":{"cpu":0,"event":4,"kind":"write","value":"0x0","word":"0x4028"},"dur":1,"name":"4 cpu 0
>  write [0x4028] = 0x0","ph":"X","pid":0,"tid":0,"ts":4},
>+ {"args":{"address":"0x5000","cpu":0,"event":5,"kind":"invlpg"},"dur":1,"name":"5 cpu 0 invlpg 0x
> 5000","ph":"X","pid":0,"tid":0,"ts":5},
>+ {"args":{"ac":false,"address":"0x5123","cpu":0,"event":6,"kind":"access","moments":[4,4,4,4],"op
>+ eration":"read","outcome":{"page":"0x9123"},"rejected":{"reason":"translation dropped","text":"e
>+ vent: 6 cpu 0 user read 0x5123 -> 0x9123 moments 4 4 4 4\nlevel 4: moment 4 pcid 0x1 [0x1000] = 
>+ 0x2007 table, written by event 0\nlevel 3: moment 4 pcid 0x1 [0x2000] = 0x3007 table, written by
>+  event 1\nlevel 2: moment 4 pcid 0x1 [0x3000] = 0x4007 table, written by event 2\nlevel 1: momen
>+ t 4 pcid 0x1 [0x4028] = 0x9007 leaf, written by event 3\ndropped: translation of level 1 by 5 cp
>+ u 0 invlpg 0x5000\nfinal: no moments prove this access\nlast: moment 5 by 4 4 4 4; taken by 5 cp
>+ u 0 invlpg 0x5000\n"},"user":true},"cname":"terrible","dur":1,"name":"6 cpu 0 user read 0x5123 -
> > 0x9123","ph":"X","pid":0,"tid":0,"ts":6},
> {"cat":"rejection","id":0,"name":"read by the walk","ph":"s","pid":0,"tid":0,"ts":0},
> {"bp":"e","cat":"rejection","id":0,"name":"read by the walk","ph":"f","pid":0,"tid":0,"ts":6},
> {"cat":"rejection","id":1,"name":"read by the walk","ph":"s","pid":0,"tid":0,"ts":1},
> {"bp":"e","cat":"rejection","id":1,"name":"read by the walk","ph":"f","pid":0,"tid":0,"ts":6},
> {"cat":"rejection","id":2,"name":"read by the walk","ph":"s","pid":0,"tid":0,"ts":2},
> {"bp":"e","cat":"rejection","id":2,"name":"read by the walk","ph":"f","pid":0,"tid":0,"ts":6},
> {"cat":"rejection","id":3,"name":"read by the walk","ph":"s","pid":0,"tid":0,"ts":3},
> {"bp":"e","cat":"rejection","id":3,"name":"read by the walk","ph":"f","pid":0,"tid":0,"ts":6},
> {"cat":"rejection","id":4,"name":"dropped the entry","ph":"s","pid":0,"tid":0,"ts":5},
> {"bp":"e","cat":"rejection","id":4,"name":"dropped the entry","ph":"f","pid":0,"tid":0,"ts":6}
> ]}
? 1

== rejected_as_a_trace
$ certify --trace
< @stale_leaf
> {"traceEvents":[
> {"args":{"name":"record"},"name":"process_name","ph":"M","pid":0,"tid":0},
> {"args":{"name":"cpu 0"},"name":"thread_name","ph":"M","pid":0,"tid":0},
>+ {"args":{"cpu":0,"event":0,"kind":"write","value":"0x2007","word":"0x1000"},"dur":1,"name":"0 cp
> u 0 write [0x1000] = 0x2007","ph":"X","pid":0,"tid":0,"ts":0},
>+ {"args":{"cpu":0,"event":1,"kind":"write","value":"0x3007","word":"0x2000"},"dur":1,"name":"1 cp
> u 0 write [0x2000] = 0x3007","ph":"X","pid":0,"tid":0,"ts":1},
>+ {"args":{"cpu":0,"event":2,"kind":"write","value":"0x4007","word":"0x3000"},"dur":1,"name":"2 cp
> u 0 write [0x3000] = 0x4007","ph":"X","pid":0,"tid":0,"ts":2},
>+ {"args":{"cpu":0,"event":3,"kind":"write","value":"0x9007","word":"0x4028"},"dur":1,"name":"3 cp
> u 0 write [0x4028] = 0x9007","ph":"X","pid":0,"tid":0,"ts":3},
>+ {"args":{"cpu":0,"event":4,"kind":"write","value":"0x0","word":"0x4028"},"dur":1,"name":"4 cpu 0
>  write [0x4028] = 0x0","ph":"X","pid":0,"tid":0,"ts":4},
>+ {"args":{"address":"0x5000","cpu":0,"event":5,"kind":"invlpg"},"dur":1,"name":"5 cpu 0 invlpg 0x
> 5000","ph":"X","pid":0,"tid":0,"ts":5},
>+ {"args":{"ac":false,"address":"0x5123","cpu":0,"event":6,"kind":"access","moments":[4,4,4,4],"op
>+ eration":"read","outcome":{"page":"0x9123"},"rejected":{"reason":"no moments","text":"event: 6 c
>+ pu 0 user read 0x5123 -> 0x9123\nnow: level 4 [0x1000] = 0x2007 table, written by event 0\nnow: 
>+ level 3 [0x2000] = 0x3007 table, written by event 1\nnow: level 2 [0x3000] = 0x4007 table, writt
>+ en by event 2\nnow: level 1 [0x4028] = 0x0 absent, written by event 4\nnow: would give fault 0x4
>+  (user)\nlast: moment 5 by 4 4 4 4; taken by 5 cpu 0 invlpg 0x5000\n"},"user":true},"cname":"ter
> rible","dur":1,"name":"6 cpu 0 user read 0x5123 -> 0x9123","ph":"X","pid":0,"tid":0,"ts":6},
> {"cat":"rejection","id":0,"name":"read by the walk","ph":"s","pid":0,"tid":0,"ts":0},
> {"bp":"e","cat":"rejection","id":0,"name":"read by the walk","ph":"f","pid":0,"tid":0,"ts":6},
> {"cat":"rejection","id":1,"name":"read by the walk","ph":"s","pid":0,"tid":0,"ts":1},
> {"bp":"e","cat":"rejection","id":1,"name":"read by the walk","ph":"f","pid":0,"tid":0,"ts":6},
> {"cat":"rejection","id":2,"name":"read by the walk","ph":"s","pid":0,"tid":0,"ts":2},
> {"bp":"e","cat":"rejection","id":2,"name":"read by the walk","ph":"f","pid":0,"tid":0,"ts":6},
> {"cat":"rejection","id":3,"name":"read by the walk","ph":"s","pid":0,"tid":0,"ts":4},
> {"bp":"e","cat":"rejection","id":3,"name":"read by the walk","ph":"f","pid":0,"tid":0,"ts":6},
> {"cat":"rejection","id":4,"name":"dropped the entry","ph":"s","pid":0,"tid":0,"ts":5},
> {"bp":"e","cat":"rejection","id":4,"name":"dropped the entry","ph":"f","pid":0,"tid":0,"ts":6}
> ]}
? 1

# A record that is cut: its events were written as they were read, none of the segment that is not
# whole.
== cut_as_a_trace
$ show --trace
< 50475245434f52440100280301100000000110000000000000010100000000050000001000001000
> {"traceEvents":[
> {"args":{"name":"record"},"name":"process_name","ph":"M","pid":0,"tid":0},
>+ {"args":{"name":"cpu 0"},"name":"thread_name","ph":"M","pid":0,"tid":0}
! pcid-audit: refused 8 truncated
? 2
"#;
