// One step of a record: its words and states as parts of the record, check 12 of its words, and the picks that explain the states it shows
// if any do. Each function costs O(n) for n plans at most; nothing is copied. Assumes a record of good form and a table that passes.
#![tactic(auto)]

ghost use Rattle.std.specs.Prelude.{◌≡◌, List, ℕ, ◌+◌, ◌*◌, ◌≤◌, ◌<◌, length, take, drop, replicate};
ghost use Rattle.rules.specs.Lists.{some_below};
ghost use Rattle.rules.specs.States.{code};
ghost use Rattle.rules.specs.Table.{plan_count};
ghost use Rattle.rules.specs.Record.{words_of, states_of, states_before};
ghost use Rattle.rules.specs.Answers.{bad_record_word};
ghost use Rattle.rules.specs.declared.PlanState.TheVariants.{Inactive};
ghost use Rattle.lowest.specs.Lowest.{Lowest};
ghost use Rattle.children.specs.Sets.{Beyond};
ghost use Rattle.parts.specs.OneStep.{Lies, Unused, wrong_at, Witnessed, Ordered};

use lent::{unused_bits, wrong_word_if};
use reading::{entry_at, parent_at, word_at};
use rules::{Body, PlanState, pick_of};

// Step i of a record of n plans: the words part, and behind it the states part. No struct of the three: each part is asked for once a step.
fn step_of(record: &[u8], n: usize, i: usize) -> &[u8]
    requires { Lies «record».now n i }
    ensures { result.now ≡ take (5 * n) (drop (8 + i * (5 * n)) «record».now) }
{
    let start = 8 + i * (5 * n);
    &record[start..start + 5 * n]
}

// The words part of step i.
pub fn words_of(record: &[u8], n: usize, i: usize) -> &[u8]
    requires { Lies «record».now n i }
    ensures { (t : List ℕ) → n ≡ plan_count t → result.now ≡ words_of t «record».now i }
{
    &step_of(record, n, i)[..4 * n]
}

// The states part of step i.
pub fn states_of(record: &[u8], n: usize, i: usize) -> &[u8]
    requires { Lies «record».now n i }
    ensures { (t : List ℕ) → n ≡ plan_count t → result.now ≡ states_of t «record».now i }
{
    &step_of(record, n, i)[4 * n..]
}

// The states before step i: those that the step before shows; before the first, the idle ones.
pub fn states_before<'a>(idle: &'a [u8], record: &'a [u8], n: usize, i: usize) -> &'a [u8]
    requires { (n ≤ length idle.now) × (take n idle.now ≡ replicate n (code Inactive)) × (8 + i * (5 * n) ≤ length «record».now) }
    ensures { (t : List ℕ) → n ≡ plan_count t → result.now ≡ states_before t «record».now i }
{
    if i == 0 {
        return &idle[..n];
    }
    states_of(record, n, i - 1)
}

// For each plan the bits that its words may not have, but for the pick's: found once for all steps.
pub fn find_unused(table: &[u8], n: usize, unused: &mut [u32])
    requires { (n ≤ 256) × (8 + 8 * n ≤ length table.now) × (n ≤ length unused.old) }
    ensures found { Unused table.now n unused.new }
    ensures rest { Beyond n unused.old unused.new }
{
    for (p, bits) in unused[..n].iter_mut().enumerate() {
        *bits = unused_bits(entry_at(table, p).body_kind());
    }
}

// Check 12: the lowest plan with a wrong word. In nearly every step there is none, which is asked first, of all words at once.
pub fn lowest_wrong_word(table: &[u8], unused: &[u32], words: &[u8], n: usize) -> Option<usize>
    requires { Unused table.now n unused.now × (4 * n ≤ length words.now) }
    ensures { Lowest (bad_record_word table.now words.now) n result }
{
    if !any_wrong_word(unused, words, n) {
        return None;
    }
    (0..n).find(|&p| wrong_word(unused, words, p))
}

// The picks that explain the states shown, if any do: of each any-order plan the rank of its lowest Ready child that is shown Activated,
// else of its highest Ready child; 0 where no child is Ready, and off any-order. `kept` has the state in which the child so picked is
// shown: once that is Activated, the pick stands. Two arrays and not one of pairs, since a step reads the picks as bytes.
// No `Scene` for what it reads: that borrows the picks, which are written here.
pub fn find_picks(
    table: &[u8],
    n: usize,
    ranks: &[u8],
    old: &[u8],
    shown: &[u8],
    picks: &mut [u8],
    kept: &mut [u8],
)
    requires table { Ordered table.now n ranks.now }
    requires shown { (n ≤ length old.now) × (n ≤ length shown.now) }
    requires room { (n ≤ length picks.old) × (n ≤ length kept.old) }
    ensures { Witnessed table.now old.now shown.now picks.new }
{
    picks[0] = 0;
    kept[0] = PlanState::INACTIVE;
    // what is written is the parent's too, at another place than p: no iterator
    for p in 1..n {
        picks[p] = 0;
        kept[p] = PlanState::INACTIVE;
        if old[p] != PlanState::READY {
            continue;
        }
        let q = parent_at(table, p);
        let any_order = entry_at(table, q).body_kind() == Body::AnyOrder;
        if (kept[q] == PlanState::ACTIVATED) | !any_order {
            continue;
        }
        picks[q] = ranks[p];
        kept[q] = shown[p];
    }
}

// Check 12 of the word of plan p.
fn wrong_word(unused: &[u32], words: &[u8], p: usize) -> bool
    requires { (p < length unused.now) × (4 * p + 4 ≤ length words.now) }
    ensures { result ≡ wrong_at unused.now words.now p }
{
    let x = word_at(words, p);
    wrong_word_if(x, unused[p], pick_of(x) == 0)
}

// Check 12: whether one of the first n words is wrong. It has no branch, so that the compiler can look at several words at once: so no
// `any`, which stops at the first wrong word.
#[tactic(auto, unfolding(rules::specs::Lists::some_below))]
fn any_wrong_word(unused: &[u32], words: &[u8], n: usize) -> bool
    requires { (n ≤ length unused.now) × (4 * n ≤ length words.now) }
    ensures { result ≡ some_below (wrong_at unused.now words.now) n }
{
    let mut bad = false;
    for p in 0..n {
        bad |= wrong_word(unused, words, p);
    }
    bad
}
