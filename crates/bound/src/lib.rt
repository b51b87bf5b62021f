// How long a run can go on, document 02 (viii): the figure, where the premises hold under which it is proved. Costs O(1) for each plan and
// node of the table; nothing is allocated. Assumes nothing.
#![tactic(auto)]

ghost use Rattle.std.specs.Prelude.{ℕ, ◌≡◌, cond, ◌&&◌, ◌||◌, Ok, Some, None};
ghost use Rattle.rules.specs.Lists.{some_below};
ghost use Rattle.rules.specs.Table.{plan_count, retry_aborted};
ghost use Rattle.rules.specs.Words.{holds};
ghost use Rattle.rules.specs.declared.Condition.TheVariants.{Suspend, Reactivate};
ghost use Rattle.lent.specs.Calls.{Tabled};
ghost use Rattle.demands.specs.Bound.{most_steps, premises, RestsWithin, bound_answer};
ghost use Rattle.bound.specs.Asked.{Asked, breaks_premise};

use lent::check_words;
use reading::{entry_at, plan_count, word_at};
use rules::{Condition, PlanEntry, Refusal};
use table::read_table;

// The most steps that a run under these words takes to rest, by either rule and from all states that pass; where a premise fails, that no
// figure is known; or a refusal of the table or the words.
pub fn bound(table: &[u8], words: &[u8]) -> Result<Option<u16>, Refusal>
    ensures answer { result ≡ bound_answer table.now words.now }
    ensures promise { (k : ℕ) → result ≡ Ok (Some k) → RestsWithin table.now words.now k }
{
    // no struct of the three buffers: it would be copied about (docs/DECISIONS.md)
    let mut ranks = [0u8; 256];
    let mut counts = [0u8; 256];
    let mut names = [0u64; 512];
    read_table(table, &mut ranks, &mut counts, &mut names)?;
    bound_under(table, &counts, words)
}

// The answer, of a table that passes, with its numbers of children.
fn bound_under(table: &[u8], counts: &[u8], words: &[u8]) -> Result<Option<u16>, Refusal>
    requires { Tabled table.now counts.now }
    ensures { result ≡ bound_answer table.now words.now }
{
    let n = plan_count(table);
    if words.len() != 4 * n {
        return Err(Refusal::Lengths);
    }
    check_words(table, n, counts, words)?;
    Ok(figure(table, n, words))
}

// The figure, of words that pass too, where the premises hold.
fn figure(table: &[u8], n: usize, words: &[u8]) -> Option<u16>
    requires { Asked table.now n words.now }
    ensures { result ≡ cond (premises table.now words.now)
        (Some (most_steps (plan_count table.now))) None }
{
    if some_break(table, n, words) {
        return None;
    }
    Some(6 * n as u16)
}

// Whether some plan breaks a premise.
fn some_break(table: &[u8], n: usize, words: &[u8]) -> bool
    requires { Asked table.now n words.now }
    ensures { result ≡ some_below (breaks_premise table.now words.now) n }
{
    (0..n).any(|p| breaks(entry_at(table, p), word_at(words, p)))
}

// Whether a plan with this entry and word breaks a premise: it has retry-aborted, or its suspend and its reactivate both hold.
fn breaks(e: PlanEntry, x: u32) -> bool
    ensures { result ≡ (retry_aborted e || holds Suspend e x && holds Reactivate e x) }
{
    e.retries_aborted() || e.holds(Condition::Suspend, x) && e.holds(Condition::Reactivate, x)
}
