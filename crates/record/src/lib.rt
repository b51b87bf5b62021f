// Checks a treatment record by a rule: 17, 1 to 9 of its table, 13, 14, then step by step 12 before 15 of documents 01 and 02.
// A step costs O(n) for n plans; nothing is allocated or copied. Assumes nothing.
#![tactic(auto)]

ghost use Rattle.std.specs.Prelude.{◌≡◌, List, ℕ};
ghost use Rattle.rules.specs.Table.{plan_count};
ghost use Rattle.rules.specs.Record.{step_count};
ghost use Rattle.rules.specs.Answers.{rule_check, wrong_header, Judged, Done};
ghost use Rattle.table.specs.Facts.{Prepared};
ghost use Rattle.record.specs.Sound.{Sound};

use children::{resurvey, survey};
use family::Scene;
use parts::{find_picks, find_unused, lowest_wrong_word, states_before, states_of, words_of};
use pass::advance;
use reading::{plan_count, u16_at};
use rules::{PlanState, Refusal, is_rule};
use table::{has_mark, read_table};

// Whether a record can come from the rules under a table, by the rule named: accepted with its number of steps, or refused at the first
// place. The rule is the C interface's number, and check 17 is about it.
pub fn check(rule: u32, table: &[u8], record: &[u8]) -> Result<u16, Refusal>
    ensures { Judged rule table.now «record».now result }
{
    if !is_rule(rule) {
        return Err(Refusal::RuleNumber);
    }
    // no struct of the three buffers: it would be copied about (docs/DECISIONS.md)
    let mut ranks = [0u8; 256];
    let mut counts = [0u8; 256];
    let mut names = [0u64; 512];
    read_table(table, &mut ranks, &mut counts, &mut names)?;
    check_record(rule, table, &ranks, &names, record)
}

// The steps of a record of good form, one after the other, and in each its plans: the first step with a wrong word or with a plan that
// no picks explain together with the plans before it. Document 01 asks for this form: nested loops over steps and plans, left by a label
// with the first unexplained step and plan. One lifetime for all, since a scene has one; the scene is put together anew in each step, so
// that its parts are handed over one by one.
fn check_steps<'a>(
    rule: u32,
    table: &'a [u8],
    n: usize,
    ranks: &'a [u8],
    names: &'a [u64],
    record: &'a [u8],
    steps: usize,
) -> Result<u16, Refusal>
    requires sound { Sound rule table.now «record».now ranks.now names.now }
    requires sizes { (n ≡ plan_count table.now) × (steps ≡ step_count table.now «record».now) }
    ensures { Judged rule table.now «record».now result }
{
    // work space of this function alone, lent in parts that change at different times: no struct
    let idle = [PlanState::INACTIVE; 256];
    let mut sets = [0u64; 2304];
    let mut picks = [0u8; 256];
    let mut kept = [0u8; 256];
    let mut new = [0u8; 256];
    let mut unused = [0u32; 256];
    survey(table, n, ranks, &idle[..n], &mut sets);
    find_unused(table, n, &mut unused);
    let mut unexplained = None;
    'search: for i in 0..steps {
        let step = (i + 1) as u16;
        let words = words_of(record, n, i);
        let wrong = lowest_wrong_word(table, &unused, words, n);
        // 12 comes before 15: no plan is compared in a step with a wrong word
        if let Some(plan) = wrong {
            let plan = plan as u16;
            return Err(Refusal::Word { step, plan });
        }
        let old = states_before(&idle, record, n, i);
        let shown = states_of(record, n, i);
        find_picks(table, n, ranks, old, shown, &mut picks, &mut kept);
        let scene = Scene {
            rule,
            table,
            n,
            ranks,
            names,
            sets: &sets,
            picks: &picks,
            old,
            words,
        };
        advance(&scene, &mut new);
        for p in 0..n {
            if new[p] != shown[p] {
                unexplained = Some((step, p as u16));
                break 'search;
            }
        }
        resurvey(table, n, ranks, old, shown, &mut sets);
    }
    if let Some((step, plan)) = unexplained {
        return Err(Refusal::Unexplained { step, plan });
    }
    Ok(steps as u16)
}

// Check 13, for a table of n plans.
fn wrong_header(record: &[u8], n: usize) -> bool
    ensures { (t : List ℕ) → n ≡ plan_count t → result ≡ wrong_header t «record».now }
{
    if record.len() < 8 {
        return true;
    }
    let version = u16_at(record, 3);
    let plans = usize::from(u16_at(record, 5));
    !has_mark(record, b'R') | (version != 1) | (plans != n) | (record[7] != 0)
}

// Checks 13 and 14 of a record, and then its steps, where rule number and table have passed.
fn check_record(
    rule: u32,
    table: &[u8],
    ranks: &[u8],
    names: &[u64],
    record: &[u8],
) -> Result<u16, Refusal>
    requires ruled { rule_check rule ≡ Done }
    requires table { Prepared table.now ranks.now names.now }
    ensures { Judged rule table.now «record».now result }
{
    let n = plan_count(table);
    if wrong_header(record, n) {
        return Err(Refusal::RecordHeader);
    }
    let size = 5 * n;
    let body = record.len() - 8;
    let steps = body / size;
    if (body % size != 0) | (65535 < steps) {
        return Err(Refusal::RecordLength);
    }
    check_steps(rule, table, n, ranks, names, record, steps)
}
