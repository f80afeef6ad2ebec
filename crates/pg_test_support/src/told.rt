//! What follows the fixed line of a refusal.

/// The fixed lines, each with the line that says in words what is wrong, as docs/FORMAT.md does.
const WORDS: [(&str, &str); 15] = [
    (
        "pcid-audit: refused 1 magic\n",
        "pcid-audit: a record begins with the eight bytes PGRECORD\n",
    ),
    (
        "pcid-audit: refused 2 version\n",
        "pcid-audit: this command does not read records of this version\n",
    ),
    (
        "pcid-audit: refused 3 header field\n",
        "pcid-audit: a field of the header is out of its bounds\n",
    ),
    (
        "pcid-audit: refused 4 segment number\n",
        "pcid-audit: a segment does not have the next number\n",
    ),
    (
        "pcid-audit: refused 5 segment count\n",
        "pcid-audit: a segment's count of events is 0 or too large, or the segment before it is \
        not full\n",
    ),
    (
        "pcid-audit: refused 6 tag\n",
        "pcid-audit: a tag, a PGE byte or a count of moments is none that the format has\n",
    ),
    (
        "pcid-audit: refused 7 malformed event 0 rule 2\n",
        "pcid-audit: event 0: the address of its word is not a multiple of 8, or not below \
        2^MAXPHYADDR\n",
    ),
    (
        "pcid-audit: refused 7 malformed event 4 rule 3\n",
        "pcid-audit: event 4: its linear address is not canonical\n",
    ),
    (
        "pcid-audit: refused 7 malformed event 4 rule 4\n",
        "pcid-audit: event 4: bits 62:MAXPHYADDR of its operand for CR3 are not 0\n",
    ),
    (
        "pcid-audit: refused 7 malformed event 4 rule 5\n",
        "pcid-audit: event 4: its INVPCID has a type above 3, a PCID above 4095, or a value in an \
        unused field\n",
    ),
    (
        "pcid-audit: refused 8 truncated\n",
        "pcid-audit: the input ends within a field, or before the end mark\n",
    ),
    (
        "pcid-audit: refused 9 total\n",
        "pcid-audit: the end mark does not have the number of events\n",
    ),
    (
        "pcid-audit: refused 10 bytes after the end\n",
        "pcid-audit: bytes follow the end mark\n",
    ),
    (
        "pcid-audit: refused 11 device\n",
        "pcid-audit: a read or a write failed\n",
    ),
    (
        "pcid-audit: refused 12 memory\n",
        "pcid-audit: memory ran out\n",
    ),
];

/// What follows a fixed line, in words.
fn words_behind(line: &str) -> &'static str {
    for (fixed, words) in &WORDS {
        if *fixed == line {
            return *words;
        }
    }
    ""
}

/// The line that names the input.
const INPUT: &str = "pcid-audit: input: standard input\n";

/// What follows that: the input is named where it was refused, but not in JSON. A case whose output
/// says why has that line alone.
fn input_behind(line: &str, status: u8) -> &'static str {
    if status == 2 && line.starts_with("pcid-audit: ") && line != INPUT {
        INPUT
    } else {
        ""
    }
}

/// Whether this line is told of standard input, with this status and all that follows it.
pub fn is_told(line: &str, status: u8, errors: &[u8]) -> bool {
    match errors.strip_prefix(line.as_bytes()) {
        Some(behind) => match behind.strip_prefix(words_behind(line).as_bytes()) {
            Some(last) => last == input_behind(line, status).as_bytes(),
            None => false,
        },
        None => false,
    }
}
