// A plan's entry, its parent and its word, and numbers, as they lie in slices of bytes.
// Every function costs O(1). Assumes that the bytes lie in the slice, as who calls has looked at its length, but for `byte_at` and
// `u16_within`.
#![tactic(auto)]

ghost use Rattle.std.specs.Prelude.{◌≡◌, ◌+◌, ◌*◌, ◌<◌, ◌≤◌, length};
ghost use Rattle.rules.specs.Bytes.{byte_at, u16_at, u32_at};
ghost use Rattle.rules.specs.Table.{plan_count, entry, parent, body_of, is_body};
ghost use Rattle.rules.specs.WaitFor.{first_version, node_count, node};
ghost use Rattle.rules.specs.Words.{word};
ghost use Rattle.rules.specs.declared.Body.TheVariants.{Leaf};

use rules::{Body, Node, PlanEntry};

// The entry of plan p in a table that has one.
pub fn entry_at(table: &[u8], p: usize) -> PlanEntry
    requires { 8 * p + 16 ≤ length table.now }
    ensures { result ≡ entry table.now p }
{
    let at = 8 + 8 * p;
    PlanEntry {
        parent: u16_at(table, at),
        body: table[at + 2],
        flags: table[at + 3],
        present: table[at + 4],
        manual: table[at + 5],
        overridable: table[at + 6],
        wait: table[at + 7],
    }
}

// Whether a plan has no children, by the body of its entry.
pub fn is_leaf(e: PlanEntry) -> bool
    ensures { result ≡ is_body Leaf (body_of e) }
{
    e.body_kind() == Body::Leaf
}

// The number of plan p's parent, in a table that has plan p.
pub fn parent_at(table: &[u8], p: usize) -> usize
    requires { 8 * p + 16 ≤ length table.now }
    ensures { result ≡ parent table.now p }
{
    usize::from(u16_at(table, 8 + 8 * p))
}

// The input word of plan p among words that have one.
pub fn word_at(words: &[u8], p: usize) -> u32
    requires { 4 * p + 4 ≤ length words.now }
    ensures { result ≡ word words.now p }
{
    u32_at(words, 4 * p)
}

// Whether the table is of version 1, in which a plan waits for a number of children and not for a formula.
pub fn is_first_version(table: &[u8]) -> bool
    requires { 8 ≤ length table.now }
    ensures { result ≡ first_version table.now }
{
    u16_at(table, 3) == 1
}

// The number of plans that the header of a table tells.
pub fn plan_count(table: &[u8]) -> usize
    requires { 8 ≤ length table.now }
    ensures { result ≡ plan_count table.now }
{
    usize::from(u16_at(table, 5))
}

// The number of nodes of a table that has its plans and that number.
pub fn node_count(table: &[u8]) -> usize
    requires { 8 * plan_count table.now + 10 ≤ length table.now }
    ensures { result ≡ node_count table.now }
{
    usize::from(u16_at(table, 8 + 8 * plan_count(table)))
}

// Node i of a table that has one.
pub fn node_at(table: &[u8], i: usize) -> Node
    requires { 8 * plan_count table.now + 4 * i + 14 ≤ length table.now }
    ensures { result ≡ node table.now i }
{
    let at = 10 + 8 * plan_count(table) + 4 * i;
    Node {
        kind: table[at],
        a: table[at + 1],
        b: table[at + 2],
        last: table[at + 3],
    }
}

// The 16-bit number at a place of a slice.
pub fn u16_at(s: &[u8], i: usize) -> u16
    requires { i + 2 ≤ length s.now }
    ensures { result ≡ u16_at s.now i }
{
    u16::from_le_bytes([s[i], s[i + 1]])
}

// The 32-bit number at a place of a slice.
pub fn u32_at(s: &[u8], i: usize) -> u32
    requires { i + 4 ≤ length s.now }
    ensures { result ≡ u32_at s.now i }
{
    u32::from_le_bytes([s[i], s[i + 1], s[i + 2], s[i + 3]])
}

// A byte of a slice, or 0 past its end.
pub fn byte_at(s: &[u8], i: usize) -> u8
    ensures { result ≡ byte_at s.now i }
{
    s.get(i).copied().unwrap_or(0)
}

// A 16-bit number that may lie past the end: bytes that are missing count as 0.
pub fn u16_within(s: &[u8], i: usize) -> u16
    requires { i < 65536 }
    ensures { result ≡ u16_at s.now i }
{
    u16::from_le_bytes([byte_at(s, i), byte_at(s, i + 1)])
}
