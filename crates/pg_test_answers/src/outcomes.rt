//! What may come of an event, by the whole program over memory. Expected lines were written by
//! hand.

/// Records that rows name.
pub const RECORDS: &str = "
# A fresh walk.
@fresh_walk 50475245434f52440100280301100000000110000000000000010100000000050000001000001000
@fresh_walk 00000000000720000000000000100000200000000000000730000000000000100000300000000000
@fresh_walk 00074000000000000010002840000000000000079000000000000011000423510000000000000023
@fresh_walk 9100000000000004040000000400000004000000040000000205000000

# A translation that is used after its entry was cleared, and the page invalidated.
@stale_leaf 50475245434f52440100280301100000000110000000000000010100000000070000001000001000
@stale_leaf 00000000000720000000000000100000200000000000000730000000000000100000300000000000
@stale_leaf 00074000000000000010002840000000000000079000000000000010002840000000000000000000
@stale_leaf 00000000001300005000000000000011000423510000000000000023910000000000000404000000
@stale_leaf 0400000004000000040000000207000000

# The same without the invalidation.
@never_invalidated 50475245434f52440100280301100000000110000000000000010100000000060000001000001000
@never_invalidated 00000000000720000000000000100000200000000000000730000000000000100000300000000000
@never_invalidated 00074000000000000010002840000000000000079000000000000010002840000000000000000000
@never_invalidated 00000000001100042351000000000000002391000000000000040400000004000000040000000400
@never_invalidated 00000206000000

# The tables have the accessed flag, and no leaf is there. In version 2, like the next three.
@accessed 50475245434f5244020028030100100000000110000000000000000100000000040000001000000010000000
@accessed 0000002720000000000000100000002000000000000027300000000000001000000030000000000000274000
@accessed 000000000011000004235100000000000000239100000000000001000000000204000000

# No table is there at all.
@no_table 50475245434f5244020028030100100000000110000000000000000100000000010000001100000423510000
@no_table 0000000000239100000000000001000000000201000000

# A page that was written has all flags.
@written 50475245434f5244020028030100100000000110000000000000000100000000050000001000000010000000
@written 0000002720000000000000100000002000000000000027300000000000001000000030000000000000274000
@written 0000000000100000284000000000000067900000000000001100000523510000000000000023910000000000
@written 0001000000000205000000

# A page may be read only, and has the accessed flag.
@protected 50475245434f52440200280301001000000001100000000000000001000000000500000010000000100000
@protected 00000000272000000000000010000000200000000000002730000000000000100000003000000000000027
@protected 40000000000000100000284000000000000025900000000000001100000523510000000000000023910000
@protected 0000000001000000000205000000

# A page of 2 MB is replaced by a table, and not invalidated. In version 1.
@split 50475245434f524401002803011000000001100000000000000001000000000600000010000010000000000000
@split 072000000000000010000020000000000000073000000000000010000030000000000000870040000000000010
@split 002840000000000000079000000000000010000030000000000000074000000000000011000423510000000000
@split 0000239100000000000001000000000206000000
";

pub const ROWS: &str = r#"
== one_page
$ outcomes
< @fresh_walk
> event: 4 cpu 0 user read 0x5123 -> 0x9123
> 0x9123 by 4 4 4 4
>   level 4: moment 4 pcid 0x1 [0x1000] = 0x2007 table, written by event 0
>   level 3: moment 4 pcid 0x1 [0x2000] = 0x3007 table, written by event 1
>   level 2: moment 4 pcid 0x1 [0x3000] = 0x4007 table, written by event 2
>   level 1: moment 4 pcid 0x1 [0x4028] = 0x9007 leaf, written by event 3
>   cached since 4, dropped by nothing
> outcomes: 1
? 0

== a_fault_alone
$ outcomes --event 6
< @stale_leaf
> event: 6 cpu 0 user read 0x5123 -> 0x9123
> fault 0x4 by 6 6 6 6
>   level 4: moment 6 pcid 0x1 [0x1000] = 0x2007 table, written by event 0
>   level 3: moment 6 pcid 0x1 [0x2000] = 0x3007 table, written by event 1
>   level 2: moment 6 pcid 0x1 [0x3000] = 0x4007 table, written by event 2
>   level 1: moment 6 pcid 0x1 [0x4028] = 0x0 absent, written by event 4
> outcomes: 1
? 0

== a_page_and_a_fault
$ outcomes
< @never_invalidated
> event: 5 cpu 0 user read 0x5123 -> 0x9123
> 0x9123 by 4 4 4 4
>   level 4: moment 4 pcid 0x1 [0x1000] = 0x2007 table, written by event 0
>   level 3: moment 4 pcid 0x1 [0x2000] = 0x3007 table, written by event 1
>   level 2: moment 4 pcid 0x1 [0x3000] = 0x4007 table, written by event 2
>   level 1: moment 4 pcid 0x1 [0x4028] = 0x9007 leaf, written by event 3
>   cached since 4, dropped by nothing
> fault 0x4 by 5 5 5 5
>   level 4: moment 5 pcid 0x1 [0x1000] = 0x2007 table, written by event 0
>   level 3: moment 5 pcid 0x1 [0x2000] = 0x3007 table, written by event 1
>   level 2: moment 5 pcid 0x1 [0x3000] = 0x4007 table, written by event 2
>   level 1: moment 5 pcid 0x1 [0x4028] = 0x0 absent, written by event 4
> outcomes: 2
? 0

== the_first_of_two
$ outcomes --limit 1
< @never_invalidated
> event: 5 cpu 0 user read 0x5123 -> 0x9123
> 0x9123 by 4 4 4 4
>   level 4: moment 4 pcid 0x1 [0x1000] = 0x2007 table, written by event 0
>   level 3: moment 4 pcid 0x1 [0x2000] = 0x3007 table, written by event 1
>   level 2: moment 4 pcid 0x1 [0x3000] = 0x4007 table, written by event 2
>   level 1: moment 4 pcid 0x1 [0x4028] = 0x9007 leaf, written by event 3
>   cached since 4, dropped by nothing
> more: 1
> outcomes: 2
? 0

== a_write
$ outcomes --event 3
< @stale_leaf
> no access: event 3
! pcid-audit: input: standard input
? 2

== no_such_event
$ outcomes --event 7
< @stale_leaf
> no access: event 7
! pcid-audit: input: standard input
? 2

== a_page_and_a_fault_as_json
$ outcomes --json
< @never_invalidated
>+ {"count":2,"event":{"ac":false,"address":"0x5123","cpu":0,"event":5,"kind":"access",
>+ "operation":"read","outcome":{"page":"0x9123"},"user":true},"format":1,"outcomes":[{"by":[4,4,
>+ 4,4],"cached_since":4,"page":"0x9123","walk":[{"is":"table","level":4,"moment":4,"pcid":"0x1",
>+ "value":"0x2007","word":"0x1000","written_by":0},{"is":"table","level":3,"moment":4,
>+ "pcid":"0x1","value":"0x3007","word":"0x2000","written_by":1},{"is":"table","level":2,
>+ "moment":4,"pcid":"0x1","value":"0x4007","word":"0x3000","written_by":2},{"is":"leaf",
>+ "level":1,"moment":4,"pcid":"0x1","value":"0x9007","word":"0x4028","written_by":3}]},{"by":[5,
>+ 5,5,5],"cached_since":null,"fault":"0x4","walk":[{"is":"table","level":4,"moment":5,
>+ "pcid":"0x1","value":"0x2007","word":"0x1000","written_by":0},{"is":"table","level":3,
>+ "moment":5,"pcid":"0x1","value":"0x3007","word":"0x2000","written_by":1},{"is":"table",
>+ "level":2,"moment":5,"pcid":"0x1","value":"0x4007","word":"0x3000","written_by":2},
>+ {"is":"absent","level":1,"moment":5,"pcid":"0x1","value":"0x0","word":"0x4028",
> "written_by":4}]}]}
? 0

== the_first_of_two_as_json
$ outcomes --json --limit 1
< @never_invalidated
>+ {"count":2,"event":{"ac":false,"address":"0x5123","cpu":0,"event":5,"kind":"access",
>+ "operation":"read","outcome":{"page":"0x9123"},"user":true},"format":1,"outcomes":[{"by":[4,4,
>+ 4,4],"cached_since":4,"page":"0x9123","walk":[{"is":"table","level":4,"moment":4,"pcid":"0x1",
>+ "value":"0x2007","word":"0x1000","written_by":0},{"is":"table","level":3,"moment":4,
>+ "pcid":"0x1","value":"0x3007","word":"0x2000","written_by":1},{"is":"table","level":2,
>+ "moment":4,"pcid":"0x1","value":"0x4007","word":"0x3000","written_by":2},{"is":"leaf",
> "level":1,"moment":4,"pcid":"0x1","value":"0x9007","word":"0x4028","written_by":3}]}]}
? 0

== a_write_as_json
$ outcomes --json --event 3
< @stale_leaf
> {"format":1,"no_access":3}
? 2

== a_fault_that_needs_flags_of_tables
$ outcomes
< @accessed
> event: 3 cpu 0 user read 0x5123 -> 0x9123
> fault 0x4 by 3 3 3 3
>   level 4: moment 3 pcid 0x1 [0x1000] = 0x2027 table, written by event 0
>   level 3: moment 3 pcid 0x1 [0x2000] = 0x3027 table, written by event 1
>   level 2: moment 3 pcid 0x1 [0x3000] = 0x4027 table, written by event 2
>   level 1: moment 3 pcid 0x1 [0x4028] = 0x0 absent, never written
>   needs: accessed in [0x1000] [0x2000] [0x3000]
> outcomes: 1
? 0

== a_fault_that_needs_no_flags
$ outcomes
< @no_table
> event: 0 cpu 0 user read 0x5123 -> 0x9123
> fault 0x4 by 0
>   level 4: moment 0 pcid 0x1 [0x1000] = 0x0 absent, never written
> outcomes: 1
? 0

== a_write_that_needs_the_dirty_flag
$ outcomes
< @written
> event: 4 cpu 0 user write 0x5123 -> 0x9123
> 0x9123 by 4 4 4 4
>   level 4: moment 4 pcid 0x1 [0x1000] = 0x2027 table, written by event 0
>   level 3: moment 4 pcid 0x1 [0x2000] = 0x3027 table, written by event 1
>   level 2: moment 4 pcid 0x1 [0x3000] = 0x4027 table, written by event 2
>   level 1: moment 4 pcid 0x1 [0x4028] = 0x9067 leaf, written by event 3
>   cached since 4, dropped by nothing
>   needs: accessed in [0x1000] [0x2000] [0x3000] [0x4028], dirty in [0x4028]
> outcomes: 1
? 0

== a_protection_fault_that_needs_the_flag_of_a_leaf
$ outcomes
< @protected
> event: 4 cpu 0 user write 0x5123 -> 0x9123
> fault 0x7 by 4 4 4 4
>   level 4: moment 4 pcid 0x1 [0x1000] = 0x2027 table, written by event 0
>   level 3: moment 4 pcid 0x1 [0x2000] = 0x3027 table, written by event 1
>   level 2: moment 4 pcid 0x1 [0x3000] = 0x4027 table, written by event 2
>   level 1: moment 4 pcid 0x1 [0x4028] = 0x9025 leaf, written by event 3
>   cached since 4, dropped by nothing
>   needs: accessed in [0x1000] [0x2000] [0x3000] [0x4028]
> outcomes: 1
? 0

# Nothing invalidated the large page since moment 4.
== a_large_page_that_was_split
$ outcomes
< @split
> event: 5 cpu 0 user read 0x5123 -> 0x9123
> 0x9123 by 5 5 5 5
>   level 4: moment 5 pcid 0x1 [0x1000] = 0x2007 table, written by event 0
>   level 3: moment 5 pcid 0x1 [0x2000] = 0x3007 table, written by event 1
>   level 2: moment 5 pcid 0x1 [0x3000] = 0x4007 table, written by event 4
>   level 1: moment 5 pcid 0x1 [0x4028] = 0x9007 leaf, written by event 3
>   cached since 5, dropped by nothing
> 0x405123 by 4 4 4
>   level 4: moment 4 pcid 0x1 [0x1000] = 0x2007 table, written by event 0
>   level 3: moment 4 pcid 0x1 [0x2000] = 0x3007 table, written by event 1
>   level 2: moment 4 pcid 0x1 [0x3000] = 0x400087 leaf, written by event 2
>   cached since 4, dropped by nothing
> outcomes: 2
? 0

== a_write_that_needs_the_dirty_flag_as_json
$ outcomes --json
< @written
>+ {"count":1,"event":{"ac":false,"address":"0x5123","cpu":0,"event":4,"kind":"access",
>+ "operation":"write","outcome":{"page":"0x9123"},"user":true},"format":1,
>+ "outcomes":[{"accessed":["0x1000","0x2000","0x3000","0x4028"],"by":[4,4,4,4],"cached_since":4,
>+ "dirty":"0x4028","page":"0x9123","walk":[{"is":"table","level":4,"moment":4,"pcid":"0x1",
>+ "value":"0x2027","word":"0x1000","written_by":0},{"is":"table","level":3,"moment":4,
>+ "pcid":"0x1","value":"0x3027","word":"0x2000","written_by":1},{"is":"table","level":2,
>+ "moment":4,"pcid":"0x1","value":"0x4027","word":"0x3000","written_by":2},{"is":"leaf",
> "level":1,"moment":4,"pcid":"0x1","value":"0x9067","word":"0x4028","written_by":3}]}]}
? 0

== a_protection_fault_as_json
$ outcomes --json
< @protected
>+ {"count":1,"event":{"ac":false,"address":"0x5123","cpu":0,"event":4,"kind":"access",
>+ "operation":"write","outcome":{"page":"0x9123"},"user":true},"format":1,
>+ "outcomes":[{"accessed":["0x1000","0x2000","0x3000","0x4028"],"by":[4,4,4,4],"cached_since":4,
>+ "dirty":null,"fault":"0x7","walk":[{"is":"table","level":4,"moment":4,"pcid":"0x1",
>+ "value":"0x2027","word":"0x1000","written_by":0},{"is":"table","level":3,"moment":4,
>+ "pcid":"0x1","value":"0x3027","word":"0x2000","written_by":1},{"is":"table","level":2,
>+ "moment":4,"pcid":"0x1","value":"0x4027","word":"0x3000","written_by":2},{"is":"leaf",
> "level":1,"moment":4,"pcid":"0x1","value":"0x9025","word":"0x4028","written_by":3}]}]}
? 0
"#;
