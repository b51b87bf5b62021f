// Sets of children as 64-bit words, a bit for each rank: what each plan's children are at, found in one pass over the plans.
// Every function here costs O(n) for n plans. Assumes a table whose plans have earlier parents: check 6 sees to it.
// The `for` over plan numbers stays: a turn reads and writes several slices, at a plan and at its parent, and an iterator hands on places
// one by one.
// No struct of a table and its ranks: each caller would build it for a call or two. The words of `survey` lie flat, nine a plan, since
// `Surveyed`, which it promises, counts them so.
#![tactic(auto)]

ghost use Rattle.std.specs.Prelude.{ℕ, ◌*◌, ◌<◌, ◌≤◌, length};
ghost use Rattle.children.specs.Sets.{Rooted, Beyond, Empty, Codes, Ranked, Narrow, Collected, Surveyed};
ghost use Rattle.rules.specs.Bytes.{byte_at};
ghost use Rattle.rules.specs.Table.{entry, named};

use reading::{entry_at, parent_at};

// Each plan's rank among its siblings and number of children.
pub fn rank_children(table: &[u8], n: usize, ranks: &mut [u8], counts: &mut [u8])
    requires rooted { Rooted table.now n }
    requires room { (n ≤ length ranks.old) × (n ≤ length counts.old) }
    ensures found { Ranked table.now n ranks.new counts.new }
    ensures rest { Beyond n ranks.old ranks.new × Beyond n counts.old counts.new }
{
    if n == 0 {
        return;
    }
    ranks[0] = 0;
    counts[0] = 0;
    for p in 1..n {
        let q = parent_at(table, p);
        counts[p] = 0;
        let r = counts[q];
        ranks[p] = r;
        counts[q] = r + 1;
    }
}

// For each plan the word of its named children.
pub fn collect_named(table: &[u8], n: usize, ranks: &[u8], words: &mut [u64])
    requires rooted { Rooted table.now n }
    requires narrow { Narrow table.now n ranks.now }
    requires room { (n ≤ length ranks.now) × (n ≤ length words.old) }
    ensures found { Collected table.now n (λ c. named (entry table.now c)) words.new }
    ensures rest { Beyond n words.old words.new }
{
    words[0] = 0;
    for p in 1..n {
        let q = parent_at(table, p);
        let bit = u64::from(entry_at(table, p).is_named()) << ranks[p];
        words[p] = 0;
        words[q] += bit;
    }
}

// For each plan and each of the nine states the word of the plan's children in that state, nine words a plan, where all are 0 before.
pub fn survey(table: &[u8], n: usize, ranks: &[u8], states: &[u8], sets: &mut [u64])
    requires rooted { Rooted table.now n }
    requires narrow { Narrow table.now n ranks.now }
    requires codes { Codes n states.now }
    requires room { (n ≤ length ranks.now) × (n ≤ length states.now) × (n * 9 ≤ length sets.old) }
    requires empty { Empty (n * 9) sets.old }
    ensures found { Surveyed table.now states.now n sets.new }
    ensures rest { Beyond (n * 9) sets.old sets.new }
{
    for p in 1..n {
        let q = parent_at(table, p);
        let at = q * 9 + usize::from(states[p]);
        sets[at] += 1u64 << ranks[p];
    }
}

// Turns the words of the old states into those of the new ones: only the bits of plans that changed move, so a caller that keeps the
// words from step to step need not survey again.
pub fn resurvey(table: &[u8], n: usize, ranks: &[u8], old: &[u8], new: &[u8], sets: &mut [u64])
    requires rooted { Rooted table.now n }
    requires narrow { Narrow table.now n ranks.now }
    requires codes { (p : ℕ) → p < n → (byte_at old.now p < 9) × (byte_at new.now p < 9) }
    requires room { (n ≤ length ranks.now) × (n ≤ length old.now) × (n ≤ length new.now) × (n * 9 ≤ length sets.old) }
    requires surveyed { Surveyed table.now old.now n sets.old }
    ensures found { Surveyed table.now new.now n sets.new }
    ensures rest { Beyond (n * 9) sets.old sets.new }
{
    for p in 1..n {
        if old[p] == new[p] {
            continue;
        }
        let q = parent_at(table, p);
        let bit = 1u64 << ranks[p];
        let from = q * 9 + usize::from(old[p]);
        let to = q * 9 + usize::from(new[p]);
        sets[from] -= bit;
        sets[to] += bit;
    }
}
