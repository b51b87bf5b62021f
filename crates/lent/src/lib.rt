// What a call lends: checks 10 to 12 of documents 01 and 02, of its states, words and room for causes, behind those of its rule number and
// its table. Each check costs O(n) for n plans; nothing is allocated. Assumes nothing.
#![tactic(auto)]

ghost use Rattle.std.specs.Prelude.{◌≡◌, ◌<◌};
ghost use Rattle.rules.specs.Words.{pick_allowed, contradicts};
ghost use Rattle.rules.specs.Step.{done};
ghost use Rattle.rules.specs.HandedIn.{suits, lets_later, bad_state};
ghost use Rattle.rules.specs.Answers.{wrong_word, bad_word, call_words_check, lent_check};
ghost use Rattle.table.specs.Facts.{FactsRoom};
ghost use Rattle.lowest.specs.Lowest.{Lowest};
ghost use Rattle.lent.specs.BodyRule.{stands_alone, breaks_by};
ghost use Rattle.lent.specs.WordBits.{unused_bits, wrong_bits};
ghost use Rattle.lent.specs.Calls.{Planned, Counted, Tabled, Called};

use reading::{entry_at, parent_at, plan_count, word_at};
use rules::{Body, PlanEntry, PlanState, Refusal, is_rule, pick_of};
use table::read_table;

// Checks 17 and 1 to 12 of a call. Where they pass, the buffers hold the table's facts. The rule is the C interface's number, and check 17
// is about it. No struct of the three buffers: it would be copied about (docs/DECISIONS.md).
pub fn check_call(
    rule: u32,
    table: &[u8],
    states: &[u8],
    words: &[u8],
    causes: &[u8],
    ranks: &mut [u8],
    counts: &mut [u8],
    names: &mut [u64],
) -> Result<(), Refusal>
    requires { FactsRoom table.now ranks.old counts.old names.old }
    ensures { Called rule table.now states.now words.now causes.now
        ranks.new counts.new names.new result }
{
    if !is_rule(rule) {
        return Err(Refusal::RuleNumber);
    }
    read_table(table, ranks, counts, names)?;
    check_lent(table, counts, states, words, causes)
}

// Check 12 of the words of a call, which are as many as the n plans of its table.
pub fn check_words(table: &[u8], n: usize, counts: &[u8], words: &[u8]) -> Result<(), Refusal>
    requires { Counted table.now n counts.now words.now }
    ensures { result ≡ call_words_check table.now words.now }
{
    if let Some(plan) = lowest_bad_word(table, n, counts, words) {
        return Err(Refusal::Word {
            step: 0,
            plan: plan as u16,
        });
    }
    Ok(())
}

// The part of check 12 that calls and records share, by the bits that the word may not have and whether its pick is allowed: an unused
// bit, a wrong pick, or filter, setup or if-then-else satisfied but not satisfiable.
pub fn wrong_word_if(x: u32, unused: u32, pick_allowed: bool) -> bool
    ensures { result ≡ wrong_bits unused pick_allowed x }
{
    (x & unused != 0) | !pick_allowed | word_contradicts(x)
}

// The bits, but for the pick's, that the word of a plan with this body may not have: 22, 23, 30 and 31, and 20 and 21 but for
// if-then-else.
pub fn unused_bits(body: Body) -> u32
    ensures { result ≡ unused_bits body }
{
    if body == Body::IfThenElse {
        return 0xC0C0_0000;
    }
    0xC0F0_0000
}

// Checks 10 to 12 of a call whose table passes.
fn check_lent(
    table: &[u8],
    counts: &[u8],
    states: &[u8],
    words: &[u8],
    causes: &[u8],
) -> Result<(), Refusal>
    requires { Tabled table.now counts.now }
    ensures { result ≡ lent_check table.now states.now words.now causes.now }
{
    let n = plan_count(table);
    if (states.len() != n) | (words.len() != 4 * n) | (causes.len() != n) {
        return Err(Refusal::Lengths);
    }
    if let Some(plan) = lowest_bad_state(table, n, states) {
        return Err(Refusal::State { plan: plan as u16 });
    }
    check_words(table, n, counts, words)
}

// Check 11: the lowest plan that breaks a rule together with lower plans. One pass: what counts of the lower children is marked at their
// parent. Most plans are Inactive, so these have a short way: as a child such a plan breaks no rule, whatever its parent.
fn lowest_bad_state(table: &[u8], n: usize, states: &[u8]) -> Option<usize>
    requires { Planned table.now n states.now }
    ensures { Lowest (bad_state table.now states.now) n result }
{
    // two arrays of flags and no array of pairs: an Inactive plan marks one alone, and each is read and proved by itself
    let mut alone = [false; 256];
    let mut shut = [false; 256];
    if PlanState::REJECTED < states[0] {
        return Some(0);
    }
    // the marks are the parent's, at another place than p: no iterator over them
    for p in 1..n {
        if PlanState::REJECTED < states[p] {
            return Some(p);
        }
        let q = parent_at(table, p);
        if states[p] == PlanState::INACTIVE {
            shut[q] = true;
            continue;
        }
        let e = entry_at(table, q);
        let body = e.body_kind();
        let child = PlanState::from_byte(states[p]);
        let fits = child_suits(PlanState::from_byte(states[q]), child);
        if !fits | breaks_by(body, child, alone[q], shut[q]) {
            return Some(p);
        }
        alone[q] = alone[q] | stands_alone(body, child);
        shut[q] = shut[q] | !lets_later(body, e.retries_aborted(), child);
    }
    None
}

// Whether a child's state suits its parent's.
fn child_suits(parent: PlanState, child: PlanState) -> bool
    ensures { result ≡ suits parent child }
{
    let idle = child == PlanState::Inactive;
    match parent {
        PlanState::Inactive
        | PlanState::Considered
        | PlanState::Possible
        | PlanState::Ready
        | PlanState::Rejected => idle,
        PlanState::Activated => true,
        PlanState::Suspended => child != PlanState::Activated,
        PlanState::Completed | PlanState::Aborted => idle | child.is_ended(),
    }
}

// Whether a child in a state breaks the rule of its parent's body, where some lower child stands alone or lets no later one begin.
fn breaks_by(body: Body, child: PlanState, alone: bool, shut: bool) -> bool
    ensures { result ≡ breaks_by body child alone shut }
{
    let begun = child != PlanState::Inactive;
    match body {
        Body::Leaf | Body::Parallel | Body::Unordered => false,
        Body::Sequential | Body::OnAbort | Body::OnSuspend | Body::OnAbortOrSuspend => begun & shut,
        Body::AnyOrder => child.in_execution() & alone,
        Body::IfThenElse => begun & alone,
    }
}

// Whether a child keeps a second one from standing as it does: any-order, in execution; if-then-else, other than Inactive.
fn stands_alone(body: Body, child: PlanState) -> bool
    ensures { result ≡ stands_alone body child }
{
    child.in_execution() | ((body == Body::IfThenElse) & (child != PlanState::Inactive))
}

// Whether a later child may be other than Inactive behind one in this state. What it says of if-then-else is not read: there a child that
// is other than Inactive stands alone.
fn lets_later(body: Body, again: bool, state: PlanState) -> bool
    ensures { result ≡ lets_later body again state }
{
    match body {
        Body::Leaf | Body::Parallel | Body::AnyOrder | Body::Unordered => true,
        Body::Sequential => is_done(again, state),
        Body::OnAbort => state == PlanState::Aborted,
        Body::OnSuspend | Body::OnAbortOrSuspend => state.has_run(),
        Body::IfThenElse => state == PlanState::Inactive,
    }
}

// Whether a sequential plan, with or without retry-aborted, is done with a child.
fn is_done(again: bool, state: PlanState) -> bool
    ensures { result ≡ done again state }
{
    match state {
        PlanState::Completed | PlanState::Rejected => true,
        PlanState::Aborted => !again,
        _ => false,
    }
}

// Check 12: the lowest plan with a wrong word.
fn lowest_bad_word(table: &[u8], n: usize, counts: &[u8], words: &[u8]) -> Option<usize>
    requires { Counted table.now n counts.now words.now }
    ensures { Lowest (bad_word table.now words.now) n result }
{
    (0..n).find(|&p| is_bad_word(table, n, counts, words, p))
}

// Whether the word of plan p is wrong.
fn is_bad_word(table: &[u8], n: usize, counts: &[u8], words: &[u8], p: usize) -> bool
    requires { Counted table.now n counts.now words.now × (p < n) }
    ensures { result ≡ bad_word table.now words.now p }
{
    wrong_word(entry_at(table, p), counts[p], word_at(words, p))
}

// Check 12 of one word, by its plan's entry and number of children.
fn wrong_word(e: PlanEntry, count: u8, x: u32) -> bool
    ensures { result ≡ wrong_word e count x }
{
    let body = e.body_kind();
    wrong_word_if(x, unused_bits(body), may_pick(body, count, pick_of(x)))
}

// Whether a plan with so many children may make a pick.
fn may_pick(body: Body, count: u8, pick: u32) -> bool
    ensures { result ≡ pick_allowed body count pick }
{
    if body == Body::AnyOrder {
        return pick < u32::from(count);
    }
    pick == 0
}

// Whether a word says of the filter, of the setup or of if-then-else that it is satisfied, and that it no longer can be. Filter and setup
// are asked at once: bits 0 and 1 say that they are satisfied, and bits 6 and 7, which the shift brings under them, that they still can
// be. Of if-then-else bits 20 and 21 say so.
fn word_contradicts(x: u32) -> bool
    ensures { result ≡ contradicts x }
{
    ((x & !(x >> 6)) % 4 != 0) | (((x & !(x >> 1)) >> 20) % 2 == 1)
}
