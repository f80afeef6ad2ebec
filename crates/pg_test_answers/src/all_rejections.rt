//! All bad events of a record: their explanations, and their summary.

pub const ROWS: &str = "
# Event 4 has a wrong answer, and event 6 uses what event 5 dropped.
@two_rejections 50475245434f5244010028030110000000011000000000000001
@two_rejections 010000000007000000
@two_rejections 100000100000000000000720000000000000
@two_rejections 100000200000000000000730000000000000
@two_rejections 100000300000000000000740000000000000
@two_rejections 100028400000000000000790000000000000
@two_rejections 11000423510000000000000033910000000000000404000000040000000400000004000000
@two_rejections 13000050000000000000
@two_rejections 11000423510000000000000023910000000000000404000000040000000400000004000000
@two_rejections 0207000000

== two_rejections_explained
$ explain --all
< @two_rejections
> verdict: no
> event: 4
> reason: 9 answer
> events: 7
> segments: 1
> event: 4 cpu 0 user read 0x5123 -> 0x9133 moments 4 4 4 4
> level 4: moment 4 pcid 0x1 [0x1000] = 0x2007 table, written by event 0
> level 3: moment 4 pcid 0x1 [0x2000] = 0x3007 table, written by event 1
> level 2: moment 4 pcid 0x1 [0x3000] = 0x4007 table, written by event 2
> level 1: moment 4 pcid 0x1 [0x4028] = 0x9007 leaf, written by event 3
> expected: 0x9123
> final: no moments prove this access
> last: never
>
> event: 6 cpu 0 user read 0x5123 -> 0x9123 moments 4 4 4 4
> level 4: moment 4 pcid 0x1 [0x1000] = 0x2007 table, written by event 0
> level 3: moment 4 pcid 0x1 [0x2000] = 0x3007 table, written by event 1
> level 2: moment 4 pcid 0x1 [0x3000] = 0x4007 table, written by event 2
> level 1: moment 4 pcid 0x1 [0x4028] = 0x9007 leaf, written by event 3
> dropped: translation of level 1 by 5 cpu 0 invlpg 0x5000
> other moments would: 6 6 6 6
>
> bad events: 2
> 5 translation dropped: 1, first 6, cpus 0, pages 0x5000
> 9 answer: 1, first 4, cpus 0, pages 0x5000
? 1

== one_of_two_rejections_explained
$ explain --all --most 1
< @two_rejections
> verdict: no
> event: 4
> reason: 9 answer
> events: 7
> segments: 1
> event: 4 cpu 0 user read 0x5123 -> 0x9133 moments 4 4 4 4
> level 4: moment 4 pcid 0x1 [0x1000] = 0x2007 table, written by event 0
> level 3: moment 4 pcid 0x1 [0x2000] = 0x3007 table, written by event 1
> level 2: moment 4 pcid 0x1 [0x3000] = 0x4007 table, written by event 2
> level 1: moment 4 pcid 0x1 [0x4028] = 0x9007 leaf, written by event 3
> expected: 0x9123
> final: no moments prove this access
> last: never
>
> bad events: 2
> 5 translation dropped: 1, first 6, cpus 0, pages 0x5000
> 9 answer: 1, first 4, cpus 0, pages 0x5000
? 1

# Event 4 has a wrong answer, event 6 uses what event 5 dropped, and events 8 and 9 name moments at
# which event 7 has changed the entry.
@four_rejections 50475245434f5244010028030110000000011000000000000001
@four_rejections 01000000000a000000
@four_rejections 100000100000000000000720000000000000
@four_rejections 100000200000000000000730000000000000
@four_rejections 100000300000000000000740000000000000
@four_rejections 100028400000000000000790000000000000
@four_rejections 11000423510000000000000033910000000000000404000000040000000400000004000000
@four_rejections 13000050000000000000
@four_rejections 11000423510000000000000023910000000000000404000000040000000400000004000000
@four_rejections 1000284000000000000007a0000000000000
@four_rejections 11000423510000000000000023910000000000000408000000080000000800000008000000
@four_rejections 11000423510000000000000023910000000000000409000000090000000900000009000000
@four_rejections 020a000000

== four_rejections_explained
$ explain --all
< @four_rejections
> verdict: no
> event: 4
> reason: 9 answer
> events: 10
> segments: 1
> event: 4 cpu 0 user read 0x5123 -> 0x9133 moments 4 4 4 4
> level 4: moment 4 pcid 0x1 [0x1000] = 0x2007 table, written by event 0
> level 3: moment 4 pcid 0x1 [0x2000] = 0x3007 table, written by event 1
> level 2: moment 4 pcid 0x1 [0x3000] = 0x4007 table, written by event 2
> level 1: moment 4 pcid 0x1 [0x4028] = 0x9007 leaf, written by event 3
> expected: 0x9123
> final: no moments prove this access
> last: never
>
> event: 6 cpu 0 user read 0x5123 -> 0x9123 moments 4 4 4 4
> level 4: moment 4 pcid 0x1 [0x1000] = 0x2007 table, written by event 0
> level 3: moment 4 pcid 0x1 [0x2000] = 0x3007 table, written by event 1
> level 2: moment 4 pcid 0x1 [0x3000] = 0x4007 table, written by event 2
> level 1: moment 4 pcid 0x1 [0x4028] = 0x9007 leaf, written by event 3
> dropped: translation of level 1 by 5 cpu 0 invlpg 0x5000
> other moments would: 6 6 6 6
>
> event: 8 cpu 0 user read 0x5123 -> 0x9123 moments 8 8 8 8
> level 4: moment 8 pcid 0x1 [0x1000] = 0x2007 table, written by event 0
> level 3: moment 8 pcid 0x1 [0x2000] = 0x3007 table, written by event 1
> level 2: moment 8 pcid 0x1 [0x3000] = 0x4007 table, written by event 2
> level 1: moment 8 pcid 0x1 [0x4028] = 0xa007 leaf, written by event 7
> expected: 0xa123
> other moments would: 7 7 7 7
>
> event: 9 cpu 0 user read 0x5123 -> 0x9123 moments 9 9 9 9
> level 4: moment 9 pcid 0x1 [0x1000] = 0x2007 table, written by event 0
> level 3: moment 9 pcid 0x1 [0x2000] = 0x3007 table, written by event 1
> level 2: moment 9 pcid 0x1 [0x3000] = 0x4007 table, written by event 2
> level 1: moment 9 pcid 0x1 [0x4028] = 0xa007 leaf, written by event 7
> expected: 0xa123
> other moments would: 7 7 7 7
>
> bad events: 4
> 5 translation dropped: 1, first 6, cpus 0, pages 0x5000
> 9 answer: 3, first 4, cpus 0, pages 0x5000
? 1

== two_rejections_summed_up
$ check --all
< @two_rejections
> verdict: no
> event: 4
> reason: 9 answer
> events: 7
> segments: 1
> bad events: 2
> 5 translation dropped: 1, first 6, cpus 0, pages 0x5000
> 9 answer: 1, first 4, cpus 0, pages 0x5000
? 1

== no_rejections_summed_up
$ check --all
< 50475245434f5244010028030110000000011000000000000001
< 0200000000
> verdict: yes
> events: 0
> segments: 0
> bad events: 0
? 0

== all_rejections_of_a_truncated_record
$ explain --all --progress
< 50475245434f5244010028030110000000011000000000000001
< 02000000
! pcid-audit: refused 8 truncated
? 2
";
