// Wait-for: whether it holds of a set of a plan's children, by the plan's wait number or by its formula. A number is found once, when the
// table is read, since most plans ask for one; a formula is evaluated in O(its nodes). Assumes a table that has passed check 22.
#![tactic(auto)]

ghost use Rattle.std.specs.Prelude.{◌≡◌, ◌+◌, ◌<◌, ◌≤◌, length, get_or, eqb};
ghost use Rattle.rules.specs.Bytes.{is_set};
ghost use Rattle.rules.specs.WaitFor.{node_count};
ghost use Rattle.formulas.specs.Asked.{number_asked, Formed, Waiting, Numbered, WaitKnown, TellsFormula, TellsWaitFor};

use reading::{entry_at, is_first_version, node_at};
use rules::{Asks, Body, at_least};

// What stands for 'asks otherwise' among the numbers of named children: a byte is below it. No Option, since `find_numbers` promises
// `Numbered`, which speaks of words, and the buffer that its caller lends has nothing else.
const OTHERWISE: u64 = 256;

// For each of n plans, behind the n words of their named children, how many of these its wait-for asks for: 256 where it asks otherwise.
pub fn find_numbers(table: &[u8], n: usize, names: &mut [u64])
    requires { Waiting table.now n × (n + n ≤ length names.old) }
    ensures { Numbered table.now n n names.old names.new }
{
    for (p, number) in names[n..n + n].iter_mut().enumerate() {
        *number = number_asked(table, n, p);
    }
}

// Whether plan p waits for no child at all.
pub fn waits_for_none(n: usize, names: &[u64], p: usize) -> bool
    requires { (n ≤ 256) × (n + p < length names.now) }
    ensures { result ≡ eqb (get_or names.now (n + p) 0) 0 }
{
    names[n + p] == 0
}

// Whether wait-for of plan p holds of a set of its children, a bit for each rank.
pub fn wait_for(table: &[u8], n: usize, names: &[u64], p: usize, set: u64) -> bool
    requires { WaitKnown table.now n names.now p }
    ensures { TellsWaitFor table.now p set result }
{
    // most plans wait for none: nothing to count
    if waits_for_none(n, names, p) {
        return true;
    }
    let number = names[n + p];
    if number == OTHERWISE {
        return formula(table, names[p], set, usize::from(entry_at(table, p).wait));
    }
    at_least(number as u32, names[p] & set)
}

// How many named children wait-for of plan p asks for: in version 1 its wait number; else none of a leaf, and what a formula says.
fn number_asked(table: &[u8], n: usize, p: usize) -> u64
    requires { Waiting table.now n × (p < n) }
    ensures { result ≡ number_asked table.now p }
{
    let e = entry_at(table, p);
    if is_first_version(table) {
        return u64::from(e.wait);
    }
    if e.body_kind() == Body::Leaf {
        return 0;
    }
    match node_at(table, usize::from(e.wait)).asks() {
        Asks::AtLeast(m) => u64::from(m),
        _ => OTHERWISE,
    }
}

// Whether the formula that begins with node i holds of a set of children; `names` has those that are named.
fn formula(table: &[u8], names: u64, set: u64, i: usize) -> bool
    requires { Formed table.now × (i < node_count table.now) }
    ensures { TellsFormula table.now names set i result }
{
    match node_at(table, i).asks() {
        Asks::Child(rank) => has_rank(set, rank),
        Asks::Not(a) => !formula(table, names, set, usize::from(a)),
        Asks::Join(how, a, b) => how.join(
            formula(table, names, set, usize::from(a)),
            formula(table, names, set, usize::from(b)),
        ),
        Asks::AtLeast(m) => at_least(u32::from(m), names & set),
    }
}

// Whether the child of a rank is in a set; no child has rank 64 or above.
fn has_rank(set: u64, rank: u8) -> bool
    ensures { result ≡ is_set rank set }
{
    if 64 <= rank {
        return false;
    }
    (set >> rank) % 2 == 1
}
