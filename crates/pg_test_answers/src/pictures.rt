//! Pictures of the causes of rejections.

/// A no is drawn, a yes has its report, and what is no record is refused. The records are those of
/// `json`.
pub const ROWS: &str = "
== picture_of_a_stale_leaf
$ explain --svg
< @stale_leaf
>+ <svg xmlns='http://www.w3.org/2000/svg' viewBox='0 0 1200 420' width='1200' height='420' style='
> max-width:100%;height:auto' font-family='monospace' font-size='14'>
> <title>event 6</title>
> <defs>
>+ <marker id='writes' viewBox='0 0 8 8' refX='8' refY='4' orient='auto' markerWidth='8'
>  markerHeight='8' markerUnits='userSpaceOnUse'><path fill='#1f5fa8' d='M0 0L8 4L0 8z'/></marker>
>+ <marker id='drops' viewBox='0 0 8 8' refX='8' refY='4' orient='auto' markerWidth='8'
>  markerHeight='8' markerUnits='userSpaceOnUse'><path fill='#c22' d='M0 0L8 4L0 8z'/></marker>
> </defs>
> <rect width='1200' height='420' fill='#fff'/>
>+ <text x='10' y='24' font-weight='bold'>dropped: translation of level 1 by 5 cpu 0 invlpg
>  0x5000</text>
> <text x='10' y='44'>final: no moments prove this access
> </text>
> <text x='10' y='62'>last: moment 5 by 4 4 4 4; taken by event 5</text>
> <text x='10' y='80'>allowed: fault 0x4;</text>
>+ <path d='M24 114V420' stroke-width='2' stroke='#bbb'/><text fill='#555' font-size='11'
>  transform='translate(24 110) rotate(-45)'>cpu 0</text>
>+ <path d='M148 114V420' stroke-width='2' stroke='#7a5'/><text fill='#555' font-size='11'
>  transform='translate(148 110) rotate(-45)'>walk</text>
>+ <g transform='translate(216 98)'><rect width='12' height='12' fill='#eef3fa' stroke='#1f5fa8'/>
> <text x='18' y='10' font-size='11'>wrote an entry</text></g>
>+ <g transform='translate(345 98)'><rect width='12' height='12' fill='#eef7e8' stroke='#7a5'/>
> <text x='18' y='10' font-size='11'>an entry, at its moment</text></g>
>+ <g transform='translate(535 98)'><rect width='12' height='12' fill='#fff3dc' stroke='#c80'/>
> <text x='18' y='10' font-size='11'>an entry had to go by it</text></g>
>+ <g transform='translate(732 98)'><rect width='12' height='12' fill='#f3ecfa' stroke='#7a4fa3'/>
> <text x='18' y='10' font-size='11'>took the last moments</text></g>
>+ <g transform='translate(909 98)'><rect width='12' height='12' fill='#fde8e8' stroke='#c22'
>  stroke-width='2'/><text x='18' y='10' font-size='11'>the bad event</text></g>
>+ <g transform='translate(0 120)'><g fill='#eef3fa' stroke='#1f5fa8'><path d='M24 12H216'/><circle
>  r='5' cy='12' cx='24'/><rect x='216' width='976' height='24' rx='0'/></g>
> <text x='224' y='16'>0 cpu 0 write [0x1000] = 0x2007</text>
> </g>
>+ <g transform='translate(0 150)'><g fill='#eef3fa' stroke='#1f5fa8'><path d='M24 12H216'/><circle
>  r='5' cy='12' cx='24'/><rect x='216' width='976' height='24' rx='0'/></g>
> <text x='224' y='16'>1 cpu 0 write [0x2000] = 0x3007</text>
> </g>
>+ <g transform='translate(0 180)'><g fill='#eef3fa' stroke='#1f5fa8'><path d='M24 12H216'/><circle
>  r='5' cy='12' cx='24'/><rect x='216' width='976' height='24' rx='0'/></g>
> <text x='224' y='16'>2 cpu 0 write [0x3000] = 0x4007</text>
> </g>
>+ <g transform='translate(0 210)'><g fill='#eef3fa' stroke='#1f5fa8'><path d='M24 12H216'/><circle
>  r='5' cy='12' cx='24'/><rect x='216' width='976' height='24' rx='0'/></g>
> <text x='224' y='16'>3 cpu 0 write [0x4028] = 0x9007</text>
> </g>
>+ <g transform='translate(0 360)'><g fill='#fff3dc' stroke='#c80'><path d='M24 12H216'/><circle r='
> 5' cy='12' cx='24'/><rect x='216' width='976' height='24' rx='0'/></g>
> <text x='224' y='16'>5 cpu 0 invlpg 0x5000</text>
> </g>
>+ <g transform='translate(0 390)'><g fill='#fde8e8' stroke='#c22' stroke-width='2'><path d='M24
>  12H216'/><circle r='5' cy='12' cx='24'/><rect x='216' width='976' height='24' rx='0'/></g>
> <text x='224' y='16'>6 cpu 0 user read 0x5123 -&gt; 0x9123 moments 4 4 4 4</text>
> </g>
>+ <g transform='translate(0 240)'><g fill='#eef7e8' stroke='#7a5'><path d='M148 12H216'/><circle
>  r='5' cy='12' cx='148'/><rect x='216' width='976' height='24' rx='12'/></g>
> <text x='232' y='16'>level 4: moment 4 pcid 0x1 [0x1000] = 0x2007 table, written by event 0
> </text>
> </g>
>+ <g transform='translate(0 270)'><g fill='#eef7e8' stroke='#7a5'><path d='M148 12H216'/><circle
>  r='5' cy='12' cx='148'/><rect x='216' width='976' height='24' rx='12'/></g>
> <text x='232' y='16'>level 3: moment 4 pcid 0x1 [0x2000] = 0x3007 table, written by event 1
> </text>
> </g>
>+ <g transform='translate(0 300)'><g fill='#eef7e8' stroke='#7a5'><path d='M148 12H216'/><circle
>  r='5' cy='12' cx='148'/><rect x='216' width='976' height='24' rx='12'/></g>
> <text x='232' y='16'>level 2: moment 4 pcid 0x1 [0x3000] = 0x4007 table, written by event 2
> </text>
> </g>
>+ <g transform='translate(0 330)'><g fill='#eef7e8' stroke='#7a5'><path d='M148 12H216'/><circle
>  r='5' cy='12' cx='148'/><rect x='216' width='976' height='24' rx='12'/></g>
> <text x='232' y='16'>level 1: moment 4 pcid 0x1 [0x4028] = 0x9007 leaf, written by event 3
> </text>
> </g>
>+ <path fill='none' stroke-width='2' stroke='#1f5fa8' marker-end='url(#writes)' d='M216
>  137H164V248H216'/>
>+ <path fill='none' stroke-width='2' stroke='#1f5fa8' marker-end='url(#writes)' d='M216
>  167H173V278H216'/>
>+ <path fill='none' stroke-width='2' stroke='#1f5fa8' marker-end='url(#writes)' d='M216
>  197H182V308H216'/>
>+ <path fill='none' stroke-width='2' stroke='#1f5fa8' marker-end='url(#writes)' d='M216
>  227H191V338H216'/>
>+ <path fill='none' stroke-width='2' stroke='#c22' stroke-dasharray='6 3' marker-end='url(#drops)'
>  d='M216 372H200V347H216'/>
> </svg>
? 1

== picture_of_a_fresh_walk
$ explain --svg
< @fresh_walk
> verdict: yes
> events: 5
> segments: 1
? 0

== picture_of_a_truncated_record
$ explain --svg
< 50475245434f5244
! pcid-audit: refused 8 truncated
? 2
";
