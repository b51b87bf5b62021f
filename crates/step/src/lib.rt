// One synchronous step and the run to rest: the calls of a host, each in its own work space.
// A step costs O(n) for n plans; nothing is allocated. Assumes nothing.
#![tactic(auto)]

ghost use Rattle.std.specs.Prelude.{◌≡◌, cond, ltb, ℕ, ◌*◌, ◌≤◌, ◌<◌, length, take};
ghost use Rattle.rules.specs.Table.{plan_count};
ghost use Rattle.rules.specs.Step.{step};
ghost use Rattle.rules.specs.Step.{causes as causes_of_step};
ghost use Rattle.rules.specs.Answers.{header_check, Done, step_answer, step_states, step_causes, run_answer, run_states, run_causes};
ghost use Rattle.moves.specs.Causes.{causes_told};
ghost use Rattle.moves.specs.MoveFacts.{CauseFacts};
ghost use Rattle.lent.specs.Calls.{MayMove};
ghost use Rattle.demands.specs.BranchesAgree.{BranchesAgree};
ghost use Rattle.step.specs.Runs.{Ran};
ghost use Rattle.step.specs.WorkSpace.{StepRoom};

use children::{resurvey, survey};
use family::Scene;
use lent::check_call;
use pass::{advance, take_over, take_picks, tell_causes, unchanged};
use reading::plan_count;
use rules::Refusal;

// One synchronous step over the states, by a rule, with the causes of all plans' moves; or a refusal that changes no state and no cause.
// Its work space is cleared in each call: a small tree does not pay for a large one. The rule is the C interface's number, and check 17 is
// about it.
pub fn step(
    rule: u32,
    table: &[u8],
    states: &mut [u8],
    words: &[u8],
    causes: &mut [u8],
) -> Result<(), Refusal>
    ensures answer { result ≡ step_answer rule table.now states.old words.now
        causes.old }
    ensures left { states.new ≡ step_states rule table.now states.old words.now
        causes.old }
    ensures told { causes.new ≡ step_causes rule table.now states.old words.now
        causes.old }
{
    match plans_told(table) {
        0..=16 => step_in::<16, 32, 144>(rule, table, states, words, causes),
        17..=64 => step_in::<64, 128, 576>(rule, table, states, words, causes),
        _ => step_in::<256, 512, 2304>(rule, table, states, words, causes),
    }
}

// Steps by a rule under held words until one more step changes nothing, or until the budget is used, with the causes of the last step
// taken; or a refusal that changes no state and no cause.
pub fn rest(
    rule: u32,
    table: &[u8],
    states: &mut [u8],
    words: &[u8],
    causes: &mut [u8],
    budget: u16,
) -> Result<Option<u16>, Refusal>
    ensures answer { result ≡ run_answer rule table.now states.old words.now
        causes.old budget }
    ensures left { states.new ≡ run_states rule table.now states.old words.now
        causes.old budget }
    ensures told { causes.new ≡ run_causes rule table.now states.old words.now
        causes.old budget }
{
    // no struct of the three buffers: it would be copied about (docs/DECISIONS.md)
    let mut ranks = [0u8; 256];
    let mut counts = [0u8; 256];
    let mut names = [0u64; 512];
    check_call(
        rule,
        table,
        states,
        words,
        causes,
        &mut ranks,
        &mut counts,
        &mut names,
    )?;
    Ok(settle(rule, table, &ranks, &names, states, words, causes, budget))
}

// How many plans the header of a table tells; none where it is short.
fn plans_told(table: &[u8]) -> usize
    ensures { result ≡ cond (ltb (length table.now) 8) 0 (plan_count table.now) }
{
    if table.len() < 8 {
        return 0;
    }
    plan_count(table)
}

// The step of a table of up to PLANS plans, in work space for so many: for each plan two words of named children and nine of children by
// state.
fn step_in<const PLANS: usize, const NAMES: usize, const SETS: usize>(
    rule: u32,
    table: &[u8],
    states: &mut [u8],
    words: &[u8],
    causes: &mut [u8],
) -> Result<(), Refusal>
    requires sizes { (PLANS ≤ 256) × (NAMES ≡ PLANS * 2) × (SETS ≡ PLANS * 9) }
    requires room { header_check table.now ≡ Done → plan_count table.now ≤ PLANS }
    ensures answer { result ≡ step_answer rule table.now states.old words.now
        causes.old }
    ensures left { states.new ≡ step_states rule table.now states.old words.now
        causes.old }
    ensures told { causes.new ≡ step_causes rule table.now states.old words.now
        causes.old }
{
    // nor here
    let mut ranks = [0u8; PLANS];
    let mut counts = [0u8; PLANS];
    let mut names = [0u64; NAMES];
    let mut sets = [0u64; SETS];
    let mut new = [0u8; PLANS];
    check_call(
        rule,
        table,
        states,
        words,
        causes,
        &mut ranks,
        &mut counts,
        &mut names,
    )?;
    // the numbers of children are done with: their room is the picks'
    step_over(
        rule,
        table,
        &ranks,
        &names,
        states,
        words,
        causes,
        &mut sets,
        &mut counts,
        &mut new,
    );
    Ok(())
}

// One step by a rule over states that have passed the checks. It is handed a call and work space one by one: a struct of them would borrow
// five slices for writing, and every clause would have to say of each what it is before and after.
fn step_over(
    rule: u32,
    table: &[u8],
    ranks: &[u8],
    names: &[u64],
    states: &mut [u8],
    words: &[u8],
    causes: &mut [u8],
    sets: &mut [u64],
    picks: &mut [u8],
    new: &mut [u8],
)
    requires moves { MayMove table.now states.old words.now ranks.now names.now }
    requires room { StepRoom (length states.old) sets.old picks.old new.old }
    requires told { length causes.old ≡ length states.old }
    ensures left { states.new ≡ step rule table.now states.old words.now }
    ensures told { causes.new ≡ causes_of_step rule table.now states.old words.now }
{
    let n = states.len();
    survey(table, n, ranks, states, sets);
    take_picks(words, n, picks);
    let scene = Scene {
        rule,
        table,
        n,
        ranks,
        names,
        sets,
        picks,
        old: states,
        words,
    };
    advance(&scene, new);
    take_step(table, words, new, states, causes);
}

// Takes a step that has been worked out: tells why the plans move, and moves them.
fn take_step(table: &[u8], words: &[u8], new: &[u8], states: &mut [u8], causes: &mut [u8])
    requires told { (p : ℕ) → p < length causes.old → CauseFacts table.now states.old words.now new.now p }
    requires room { length states.old ≤ length new.now }
    ensures left { states.new ≡ take (length states.old) new.now }
    ensures told { causes.new ≡ causes_told table.now states.old words.now
        new.now (length causes.old) }
{
    tell_causes(table, states, words, new, causes);
    take_over(new, states);
}

// Steps by a rule over states that have passed the checks, until one more step changes nothing or the budget is used. It is handed them one
// by one, as `step_over`.
fn settle(
    rule: u32,
    table: &[u8],
    ranks: &[u8],
    names: &[u64],
    states: &mut [u8],
    words: &[u8],
    causes: &mut [u8],
    budget: u16,
) -> Option<u16>
    requires moves { MayMove table.now states.old words.now ranks.now names.now }
    requires words { BranchesAgree table.now words.now }
    requires told { length causes.old ≡ length states.old }
    ensures { Ran rule table.now states.old words.now budget
        (Ok result) states.new causes.new }
{
    let n = states.len();
    let mut sets = [0u64; 2304];
    let mut picks = [0u8; 256];
    let mut new = [0u8; 256];
    survey(table, n, ranks, states, &mut sets);
    take_picks(words, n, &mut picks);
    // no step so far: every plan is where it was
    tell_causes(table, states, words, states, causes);
    for k in 0..=budget {
        let scene = Scene {
            rule,
            table,
            n,
            ranks,
            names,
            sets: &sets,
            picks: &picks,
            old: states,
            words,
        };
        advance(&scene, &mut new);
        if unchanged(&new, states) {
            return Some(k);
        }
        if k < budget {
            resurvey(table, n, ranks, states, &new[..n], &mut sets);
            take_step(table, words, &new, states, causes);
        }
    }
    None
}
