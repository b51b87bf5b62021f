// Reads a plan table: checks 1 to 9 and 22 of documents 01 and 02, what a good table gives to those above, and the sub tree question.
// Every function that goes over the plans costs O(n) for n plans, and with its nodes a table of version 2 O(n + nodes); `climbs_to` costs
// O(n) over a whole table. Assumes nothing.
#![tactic(auto)]

ghost use Rattle.std.specs.Prelude.{◌≡◌, [], ◌∷◌, map, ◌+◌, ◌*◌, ◌<◌, ◌≤◌, ◌||◌, eqb, leb, length, take};
ghost use Rattle.rules.specs.Lists.{some, same};
ghost use Rattle.rules.specs.Bytes.{byte_at};
ghost use Rattle.rules.specs.Table.{plan_count, entry, bit_of, conditions, is_or_is_above};
ghost use Rattle.rules.specs.WaitFor.{table_size};
ghost use Rattle.rules.specs.Answers.{Done, undefined_entry, undefined_byte, stray_at, unfit_entry, unfit, too_many, unrooted, header_check, plans_check, table_check, table_verdict};
ghost use Rattle.rules.specs.SubTree.{sub_tree};
ghost use Rattle.children.specs.Sets.{Rooted};
ghost use Rattle.lowest.specs.Lowest.{Lowest};
ghost use Rattle.formulas.specs.Asked.{Numbered};
ghost use Rattle.table.specs.Facts.{HasPlans, waits_check, Shaped, Known, FactsRoom, Checked, outside};

use children::{collect_named, rank_children};
use formulas::find_numbers;
use nodes::check_formulas;
use reading::{entry_at, is_first_version, parent_at, plan_count, u16_at, u16_within};
use rules::{Body, PlanEntry, Refusal};

// Whether a slice begins with `AP` and a third letter, the mark of a table or a record.
pub fn has_mark(s: &[u8], letter: u8) -> bool
    requires { 3 ≤ length s.now }
    ensures { result ≡ same (take 3 s.now) (65 ∷ 80 ∷ letter ∷ []) }
{
    s[..3] == [b'A', b'P', letter]
}

// Checks 1 to 4.
pub fn header_check(table: &[u8]) -> Result<(), Refusal>
    ensures { result ≡ header_check table.now }
{
    if table.len() < 8 {
        return Err(Refusal::TableShort);
    }
    if !has_mark(table, b'T') {
        return Err(Refusal::TableMark);
    }
    let version = u16_at(table, 3);
    if !is_version(version) {
        return Err(Refusal::TableVersion);
    }
    let n = u16_at(table, 5);
    if (n < 1) | (256 < n) | (table[7] != 0) {
        return Err(Refusal::TableCount);
    }
    Ok(())
}

// Whether tables of this version are read.
fn is_version(version: u16) -> bool
    ensures { result ≡ (eqb version 1 || eqb version 2) }
{
    matches!(version, 1 | 2)
}

// Where a table whose header passes ends: behind its plans or, in version 2, its nodes. Bytes that are missing count as 0.
pub fn table_size(table: &[u8]) -> usize
    requires { header_check table.now ≡ Done }
    ensures { result ≡ table_size table.now }
{
    let plans = 8 + 8 * plan_count(table);
    if is_first_version(table) {
        return plans;
    }
    plans + 2 + 4 * usize::from(u16_within(table, plans))
}

// Checks 1 to 9 and 22. Of a good table the buffers then hold the plans' ranks, numbers of children, named children, and, behind these,
// how many of them each plan waits for. Three slices that the caller lends, here, in `body_check` and in those above, and no struct: the
// project's rule is no heap, and no struct of arrays copied about (docs/DECISIONS.md, 'Buffers of a table's facts').
pub fn read_table(
    table: &[u8],
    ranks: &mut [u8],
    counts: &mut [u8],
    names: &mut [u64],
) -> Result<(), Refusal>
    requires { FactsRoom table.now ranks.old counts.old names.old }
    ensures { Checked table.now ranks.new counts.new names.new result }
{
    header_check(table)?;
    body_check(table, ranks, counts, names)
}

// What document 01 says of a table: accepted with its number of plans, or refused.
pub fn check_table(table: &[u8]) -> Result<u16, Refusal>
    ensures { result ≡ table_verdict table.now }
{
    let mut ranks = [0u8; 256];
    let mut counts = [0u8; 256];
    let mut names = [0u64; 512];
    read_table(table, &mut ranks, &mut counts, &mut names)?;
    Ok(u16_at(table, 5))
}

// The sub tree question: the caller's own states from the plan through its last descendant, or none of them: then the empty slice, and no
// Option, is the answer, here and in `part`, since `sub_tree`, which both promise, is a list of states.
pub fn sub_tree<'a>(table: &[u8], states: &'a [u8], plan: usize) -> &'a [u8]
    ensures { result.now ≡ sub_tree table.now states.now plan }
{
    match check_table(table) {
        Err(_) => &states[0..0],
        Ok(n) => part(table, usize::from(n), states, plan),
    }
}

// Whether a is the plan `from` or an ancestor of it, where the plans up to `from` have earlier parents.
fn climbs_to(table: &[u8], a: usize, from: usize) -> bool
    requires { Rooted table.now (from + 1) }
    ensures { result ≡ is_or_is_above table.now a from from }
{
    let mut p = from;
    while a < p {
        p = parent_at(table, p);
    }
    p == a
}

// The lowest plan that breaks the parent rule. No `find`: one may climb from a plan only where those before it keep the rule.
fn lowest_unrooted(table: &[u8], n: usize) -> Option<usize>
    requires { HasPlans table.now n }
    ensures { Lowest (unrooted table.now) n result }
{
    if parent_at(table, 0) != 65535 {
        return Some(0);
    }
    for p in 1..n {
        if !climbs_to(table, parent_at(table, p), p - 1) {
            return Some(p);
        }
    }
    None
}

// The lowest plan whose rank would be a 65th child's.
fn lowest_crowded(ranks: &[u8], n: usize) -> Option<usize>
    requires { n ≤ length ranks.now }
    ensures { Lowest (λ p. leb 64 (byte_at ranks.now p)) n result }
{
    (0..n).find(|&p| 64 <= ranks[p])
}

// Check 6: the lowest plan that breaks the parent rule or is a 65th child. Where there is none, the ranks and the numbers of children
// are found.
fn lowest_bad_parent(table: &[u8], n: usize, ranks: &mut [u8], counts: &mut [u8]) -> Option<usize>
    requires table { HasPlans table.now n }
    requires room { (n ≤ length ranks.old) × (n ≤ length counts.old) }
    ensures { Shaped table.now n ranks.new counts.new result }
{
    let unrooted = lowest_unrooted(table, n);
    let rooted = unrooted.unwrap_or(n);
    rank_children(table, rooted, ranks, counts);
    lowest_crowded(ranks, rooted).or(unrooted)
}

// Check 7 of an entry.
fn undefined_entry(e: PlanEntry) -> bool
    ensures { result ≡ undefined_entry e }
{
    (8 < e.body) | (8 <= e.flags) | (64 <= e.present) | (64 <= e.manual) | (64 <= e.overridable)
}

// Whether a condition is manual or overridable though the plan does not have it: all six at once, one bit each.
fn stray(e: PlanEntry) -> bool
    ensures { result ≡ some (stray_at e) (map bit_of conditions) }
{
    ((e.manual | e.overridable) & !e.present) % 64 != 0
}

// Check 8 of plan p's entry, with its number of children.
fn unfit_entry(p: usize, count: u8, e: PlanEntry) -> bool
    ensures { result ≡ unfit_entry p count e }
{
    let kind = e.body_kind();
    let leaf = kind == Body::Leaf;
    let childless = count == 0;
    let body = (leaf & !childless) | (!leaf & childless);
    let root = (p == 0) & e.is_named();
    let waits = leaf & ((e.wait != 0) | e.retries_aborted() | e.waits_for_optional());
    let unfit = body | stray(e) | root | waits;
    // a branch, since few plans have such a body
    if kind.is_of_two() {
        return unfit | (count != 2) | e.retries_aborted();
    }
    unfit
}

// The plans of a table that has passed checks 1 to 6, with their numbers of children and their words of named children.
#[derive(Clone, Copy)]
struct Plans<'a> {
    table: &'a [u8],
    n: usize,
    counts: &'a [u8],
    names: &'a [u64],
    ghost known: { Known table.now n counts.now names.now },
}

impl<'a> Plans<'a> {
    // Checks 7, 8, 22 and 9.
    fn check(&self) -> Result<(), Refusal>
        ensures { result ≡ plans_check self.now.table.now }
    {
        if let Some(plan) = self.lowest_undefined() {
            return Err(Refusal::Undefined { plan: plan as u16 });
        }
        if let Some(plan) = self.lowest_unfit() {
            return Err(Refusal::Unfit { plan: plan as u16 });
        }
        self.check_waits()
    }

    // Check 9 of a table of version 1, checks 22 and 9 of one of version 2.
    fn check_waits(&self) -> Result<(), Refusal>
        ensures { result ≡ waits_check self.now.table.now }
    {
        if !is_first_version(self.table) {
            return check_formulas(self.table, self.n, self.counts, self.names);
        }
        if let Some(plan) = self.lowest_asking() {
            return Err(Refusal::Wait { plan: plan as u16 });
        }
        Ok(())
    }

    // The lowest plan that check 7 refuses, that check 8 refuses, and whose wait number check 9 refuses.
    fn lowest_undefined(&self) -> Option<usize>
        ensures { Lowest (undefined_byte self.now.table.now) self.now.n result }
    {
        (0..self.n).find(|&p| self.is_undefined(p))
    }

    fn lowest_unfit(&self) -> Option<usize>
        ensures { Lowest (unfit self.now.table.now) self.now.n result }
    {
        (0..self.n).find(|&p| self.is_unfit(p))
    }

    fn lowest_asking(&self) -> Option<usize>
        ensures { Lowest (λ p. too_many self.now.table.now p (entry self.now.table.now p).wait) self.now.n result }
    {
        (0..self.n).find(|&p| self.asks_too_many(p))
    }

    // Whether check 7 refuses plan p, check 8 does, and check 9 refuses its wait number.
    fn is_undefined(&self, p: usize) -> bool
        requires { p < self.now.n }
        ensures { result ≡ undefined_byte self.now.table.now p }
    {
        undefined_entry(entry_at(self.table, p))
    }

    fn is_unfit(&self, p: usize) -> bool
        requires { p < self.now.n }
        ensures { result ≡ unfit self.now.table.now p }
    {
        unfit_entry(p, self.counts[p], entry_at(self.table, p))
    }

    fn asks_too_many(&self, p: usize) -> bool
        requires { p < self.now.n }
        ensures { result ≡ too_many self.now.table.now p (entry self.now.table.now p).wait }
    {
        !entry_at(self.table, p).wait_for(self.names[p])
    }
}

// Checks 7, 8, 22 and 9, and of plans that pass the numbers of children that they wait for.
fn check_and_number(table: &[u8], n: usize, counts: &[u8], names: &mut [u64]) -> Result<(), Refusal>
    requires known { Known table.now n counts.now names.old }
    requires room { n + n ≤ length names.old }
    ensures is { result ≡ plans_check table.now }
    ensures numbered { result ≡ Done → Numbered table.now n n names.old names.new }
{
    let plans = Plans {
        table,
        n,
        counts,
        names,
    };
    plans.check()?;
    find_numbers(table, n, names);
    Ok(())
}

// The checks from 5 on, of a table whose header passes.
fn body_check(
    table: &[u8],
    ranks: &mut [u8],
    counts: &mut [u8],
    names: &mut [u64],
) -> Result<(), Refusal>
    requires header { header_check table.now ≡ Done }
    requires room { FactsRoom table.now ranks.old counts.old names.old }
    ensures { Checked table.now ranks.new counts.new names.new result }
{
    let n = plan_count(table);
    if table.len() != table_size(table) {
        return Err(Refusal::TableLength);
    }
    if let Some(plan) = lowest_bad_parent(table, n, ranks, counts) {
        return Err(Refusal::Parent { plan: plan as u16 });
    }
    collect_named(table, n, ranks, names);
    check_and_number(table, n, counts, names)
}

// The first plan after the sub tree of `plan`, if there is one: the lowest one behind it whose parent stands before it.
fn first_after(table: &[u8], n: usize, plan: usize) -> Option<usize>
    requires { (plan < n) × (n ≤ 256) × (8 + 8 * n ≤ length table.now) }
    ensures { Lowest (outside table.now plan) n result }
{
    (plan + 1..n).find(|&i| parent_at(table, i) < plan)
}

// The part of the states that is a sub tree, of a table that passes.
fn part<'a>(table: &[u8], n: usize, states: &'a [u8], plan: usize) -> &'a [u8]
    requires { (table_check table.now ≡ Done) × (n ≡ plan_count table.now) }
    ensures { result.now ≡ sub_tree table.now states.now plan }
{
    if states.len() != n {
        return &states[0..0];
    }
    if n <= plan {
        return &states[0..0];
    }
    let e = first_after(table, n, plan).unwrap_or(n);
    &states[plan..e]
}
