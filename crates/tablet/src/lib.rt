// The step, the run to rest, the figure for it, the checker, the moves of tables and what makes a word's pattern bits, for a tablet's host
// program written in C, on numbers and slices; include/asbru.h declares them. An answer is one 64-bit number, which `Packed` in specs/ lays
// out. Nothing is allocated. Assumes nothing.
// Exports of one kind stay apart, with numbers, flat slices and packed answers: include/asbru.h has their names and types.
#![tactic(auto)]

ghost use Rattle.std.specs.Prelude.{ℕ, ◌≡◌, ◌<◌, ◌≤◌, cond, MatchOption, MatchResult};
ghost use Rattle.rules.specs.Words.{with_bits, with_pattern, satisfiable_bits};
ghost use Rattle.rules.specs.Answers.{step_answer, step_states, step_causes, run_answer, run_states, run_causes};
ghost use Rattle.demands.specs.Bound.{RestsWithin, bound_answer};
ghost use Rattle.versions.specs.Versions.{check_to1, check_to2, in_version1, in_version2, move_answer, move_output};
ghost use Rattle.tablet.specs.Packed.{packed, packed_refusal, packed_outcome, packed_rest, packed_bound, packed_verdict, Told};
ghost use Rattle.tablet.specs.Packed.{packed_judgement, PatternTold, NormalTold, pattern_of, with_answer};

use rules::{Condition, Pattern, Refusal};
use time::Judgement;

// One synchronous step over the states, by a rule, with the causes of all plans' moves; or a refusal that changes no state and no cause.
#[unsafe(no_mangle)]
pub extern "C" fn asbru_step(
    rule: u32,
    table: &[u8],
    states: &mut [u8],
    words: &[u8],
    causes: &mut [u8],
) -> u64
    ensures answer { result ≡ packed_outcome (step_answer rule table.now states.old words.now
        causes.old) }
    ensures left { states.new ≡ step_states rule table.now states.old words.now
        causes.old }
    ensures told { causes.new ≡ step_causes rule table.now states.old words.now
        causes.old }
{
    told(
        step::step(rule, table, states, words, causes),
        |()| pack(0, 0, 0),
    )
}

// Steps by a rule under held words until one more step changes nothing, or until the budget is used, with the causes of the last step
// taken; or a refusal that changes no state and no cause.
#[unsafe(no_mangle)]
pub extern "C" fn asbru_rest(
    rule: u32,
    table: &[u8],
    states: &mut [u8],
    words: &[u8],
    causes: &mut [u8],
    budget: u16,
) -> u64
    ensures answer { result
        ≡ packed_rest budget (run_answer rule table.now states.old words.now
        causes.old budget) }
    ensures left { states.new ≡ run_states rule table.now states.old words.now
        causes.old budget }
    ensures told { causes.new ≡ run_causes rule table.now states.old words.now
        causes.old budget }
{
    told(
        step::rest(rule, table, states, words, causes, budget),
        |rested| match rested {
            Some(k) => pack(0, k, 0),
            None => pack(0, budget, 1),
        },
    )
}

// The most steps that a run under these words takes to rest, by either rule and from all states that pass, where that is known.
#[unsafe(no_mangle)]
pub extern "C" fn asbru_bound(table: &[u8], words: &[u8]) -> u64
    ensures answer { result ≡ packed_bound (bound_answer table.now words.now) }
    ensures promise { (k : ℕ) → result ≡ packed 0 k 0 → RestsWithin table.now words.now k }
{
    told(bound::bound(table, words), |figure| match figure {
        Some(k) => pack(0, k, 0),
        None => pack(0, 0, 1),
    })
}

// Whether a record can come from the rules under a table, by the rule named.
#[unsafe(no_mangle)]
pub extern "C" fn asbru_check(rule: u32, table: &[u8], record: &[u8]) -> u64
    ensures { Told rule table.now «record».now result }
{
    told(
        record::check(rule, table, record),
        |steps| pack(0, steps, 0),
    )
}

// Puts a table of version 1, as one of version 2, at the start of the output, or a refusal that changes none of it.
#[unsafe(no_mangle)]
pub extern "C" fn asbru_to_version_2(table: &[u8], output: &mut [u8]) -> u64
    ensures answer { result
        ≡ packed_verdict (move_answer (check_to2 table.now) (in_version2 table.now) output.old) }
    ensures left { output.new
        ≡ move_output (check_to2 table.now) (in_version2 table.now) output.old }
{
    told(
        versions::to_version_2(table, output),
        |bytes| pack(0, bytes, 0),
    )
}

// The same from version 2 to 1.
#[unsafe(no_mangle)]
pub extern "C" fn asbru_to_version_1(table: &[u8], output: &mut [u8]) -> u64
    ensures answer { result
        ≡ packed_verdict (move_answer (check_to1 table.now) (in_version1 table.now) output.old) }
    ensures left { output.new
        ≡ move_output (check_to1 table.now) (in_version1 table.now) output.old }
{
    told(
        versions::to_version_1(table, output),
        |bytes| pack(0, bytes, 0),
    )
}

// Whether a history satisfies a time annotation at the minute of asking, or still can.
#[unsafe(no_mangle)]
pub extern "C" fn asbru_pattern(annotation: &[u64; 7], samples: &[u64], asked: u64) -> u64
    ensures { PatternTold annotation.now samples.now asked result }
{
    told(
        pattern::judge(annotation, samples, asked),
        |judgement| match judgement {
            Judgement::Satisfied { .. } => pack(0, 0, 3),
            Judgement::Satisfiable => pack(0, 0, 2),
            Judgement::Neither => pack(0, 0, 0),
        },
    )
}

// Puts the normal form of a time annotation in its place, or a refusal that changes none of it.
#[unsafe(no_mangle)]
pub extern "C" fn asbru_normalise(annotation: &mut [u64; 7]) -> u64
    ensures { NormalTold annotation.old annotation.new result }
{
    told(pattern::normalise(annotation), |()| pack(0, 0, 0))
}

// The word with what was answered of the pattern of a condition; as it was, where the answer is a refusal or there is no such condition.
#[unsafe(no_mangle)]
pub extern "C" fn asbru_with_pattern(word: u32, condition: u32, answer: u64) -> u32
    ensures { result ≡ with_answer word condition answer }
{
    if answer % 65536 != 0 {
        return word;
    }
    match pattern_of(condition) {
        Some(pattern) => put(
            pattern,
            (answer >> 16) % 2 == 1,
            (answer >> 17) % 2 == 1,
            word,
        ),
        None => word,
    }
}

// The pattern that a number stands for: a condition by its bit, and 6 for if-then-else; no higher number does for one. No
// `TryFrom<u32> for Pattern`: it would have to stand in `rules`, and None is all there is to tell of a higher one.
fn pattern_of(condition: u32) -> Option<Pattern>
    ensures { MatchOption result (6 < condition) (λ p. (condition ≤ 6) × (p ≡ pattern_of condition)) }
{
    match condition {
        0 => Some(Pattern::Of(Condition::Filter)),
        1 => Some(Pattern::Of(Condition::Setup)),
        2 => Some(Pattern::Of(Condition::Suspend)),
        3 => Some(Pattern::Of(Condition::Reactivate)),
        4 => Some(Pattern::Of(Condition::Abort)),
        5 => Some(Pattern::Of(Condition::Complete)),
        6 => Some(Pattern::If),
        _ => None,
    }
}

// The word with what is known of the pattern in its bits: satisfied and, where the word can say so, satisfiable. The two stay bools, as in
// `with_pattern` and `with_bits` of specs/: a struct of them would be made once, to be opened at once.
fn put(pattern: Pattern, satisfied: bool, satisfiable: bool, word: u32) -> u32
    ensures { result ≡ with_pattern pattern satisfied satisfiable word }
{
    match pattern {
        Pattern::Of(c) => with_bits(
            1 << c.bit(),
            satisfiable_bits(c),
            satisfied,
            satisfiable,
            word,
        ),
        Pattern::If => with_bits(1 << 20, 1 << 21, satisfied, satisfiable, word),
    }
}

// The bit that says of a condition that it still can be.
fn satisfiable_bits(condition: Condition) -> u32
    ensures { result ≡ satisfiable_bits condition }
{
    match condition {
        Condition::Filter => 1 << 6,
        Condition::Setup => 1 << 7,
        _ => 0,
    }
}

// The word with the first bits as satisfied says, the second as satisfiable says, and all others as they were.
fn with_bits(first: u32, second: u32, satisfied: bool, satisfiable: bool, word: u32) -> u32
    ensures { result ≡ with_bits first second satisfied satisfiable word }
{
    (word & !(first | second)) | bits_if(satisfied, first) | bits_if(satisfiable, second)
}

// The bits, or none.
fn bits_if(b: bool, bits: u32) -> u32
    ensures { result ≡ cond b bits 0 }
{
    if b { bits } else { 0 }
}

// An answer in one number: as `of_ok` packs it, or a refusal by its number and its place.
fn told<T, F: FnOnce(T) -> u64>(answer: Result<T, Refusal>, of_ok: F) -> u64
    requires { F.IsAlwaysCallable of_ok }
    ensures { MatchResult answer (λ x. F.post of_ok x result) (λ why. result ≡ packed_refusal why) }
{
    match answer {
        Ok(x) => of_ok(x),
        Err(why) => {
            let place = places::place(why);
            pack(place.number, place.step, place.plan)
        }
    }
}

// A number, a step and a plan in one. It takes no `Place`: most who call have a figure or a flag to tell, which is no place.
fn pack(number: u8, step: u16, plan: u16) -> u64
    ensures { result ≡ packed number step plan }
{
    u64::from(number) + u64::from(plan) * 65536 + u64::from(step) * 4294967296
}
