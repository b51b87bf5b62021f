// How long must it have held: whether a history satisfies a time annotation or still can, and the normal form of an annotation. One pass
// over the samples; nothing is allocated. Numbers come in two's complement, and any are taken. Assumes nothing.
#![tactic(auto)]

ghost use Rattle.std.specs.Prelude.{◌≡◌, ◌+◌, ◌%◌, ◌^◌, ◌≤◌, true, length};
ghost use Rattle.time.specs.Annotations.{base, counted, bound_of, annotation_of, in_range, bound_in_range, annotation_in_range};
ghost use Rattle.time.specs.Patterns.{every, minute_at, in_order, samples_check, Judged};
ghost use Rattle.time.specs.Normal.{larger, smaller, minus, plus, larger_number, normal, plain, number_of, numbers_of, Normalised};
ghost use Rattle.time.specs.Search.{placed, window, admitted, over, next, pass_to, finish, goes_on, starts_from};
ghost use Rattle.time.specs.Search.{can_be, answer};
ghost use Rattle.time.specs.Search.{Small, Named, Worked, SmallWindow, NamedPass, Near, NearBound, NearAll};

use rules::Refusal;
use time::{Annotation, Judgement, Pass, Window};

// A number of minutes z is counted as z + BASE.
const BASE: u64 = 4_000_000_000;

// The least and the greatest number in range, counted: a billion minutes before and after BASE.
const FIRST: u64 = 3_000_000_000;

const LAST: u64 = 5_000_000_000;

// A minute beyond all that are asked about.
const FAR: u64 = 20_000_000_000;

// The least of all numbers in two's complement: what asbru.h hands in and out for an open bound, ASBRU_OPEN. In between it is None.
const NONE: u64 = 0x8000_0000_0000_0000;

// The most samples.
const MOST: usize = 1024;

// Whether a history satisfies an annotation at a minute, or still can; or refusal 18, 19 or 20.
#[tactic(auto, using(time::proofs::Histories::judging), unfolding(time::specs::Search::judgement_of))]
pub fn judge(numbers: &[u64; 7], samples: &[u64], minute: u64) -> Result<Judgement, Refusal>
    ensures { Judged numbers.now samples.now minute result }
{
    let a = annotation(numbers);
    let asked = counted(minute);
    if !(annotation_in_range(a) & in_range(asked)) {
        return Err(Refusal::ValueRange);
    }
    let history = History { samples, asked };
    history.check()?;
    Ok(Bounds::of(a, a.reference).answer(history))
}

// Puts the normal form of an annotation in its place, or refuses with 18, 21 or 26 and changes nothing.
#[tactic(auto, using(time::proofs::Possibles::normalising))]
pub fn normalise(numbers: &mut [u64; 7]) -> Result<(), Refusal>
    ensures { Normalised numbers.old result numbers.new }
{
    let a = annotation(numbers);
    if !annotation_in_range(a) {
        return Err(Refusal::ValueRange);
    }
    // a run that may start before all bounds
    if !Bounds::of(a, BASE).starts_from(0) {
        return Err(Refusal::NoInterval);
    }
    let n = normal(a);
    if !annotation_in_range(n) {
        return Err(Refusal::NormalRange);
    }
    *numbers = numbers_of(n);
    Ok(())
}

// A number in two's complement, counted.
fn counted(x: u64) -> u64
    ensures { result ≡ counted x }
{
    x.wrapping_add(BASE)
}

// A bound as it is handed in.
fn bound(x: u64) -> Option<u64>
    ensures { result ≡ bound_of x }
{
    if x == NONE { None } else { Some(counted(x)) }
}

// An annotation as it is handed in.
fn annotation(numbers: &[u64; 7]) -> Annotation
    ensures { result ≡ annotation_of numbers.now }
{
    let [ess, lss, efs, lfs, least, greatest, reference] = *numbers;
    Annotation {
        ess: bound(ess),
        lss: bound(lss),
        efs: bound(efs),
        lfs: bound(lfs),
        least: counted(least),
        greatest: bound(greatest),
        reference: counted(reference),
    }
}

// A sample, 2 * minute + truth, with its minute counted.
fn sample(x: u64) -> u64
    ensures { result ≡ (x + (base + base)) % 2 ^ 64 }
{
    x.wrapping_add(2 * BASE)
}

// Whether a number is in range.
fn in_range(v: u64) -> bool
    ensures { result ≡ in_range v }
{
    (FIRST..=LAST).contains(&v)
}

// Whether a bound is in range.
fn bound_in_range(b: Option<u64>) -> bool
    ensures { result ≡ bound_in_range b }
{
    b.is_none_or(in_range)
}

// Whether every number of an annotation is in range.
#[tactic(auto, unfolding(time::specs::Annotations::annotation_in_range))]
fn annotation_in_range(a: Annotation) -> bool
    ensures { result ≡ annotation_in_range a }
{
    bound_in_range(a.ess)
        & bound_in_range(a.lss)
        & bound_in_range(a.efs)
        & bound_in_range(a.lfs)
        & in_range(a.least)
        & (BASE <= a.least)
        & bound_in_range(a.greatest)
        & in_range(a.reference)
}

// A history: the samples, and the minute of asking, which is in range.
#[derive(Clone, Copy)]
struct History<'a> {
    samples: &'a [u64],
    asked: u64,
    ghost early: { asked ≤ 5000000000 },
}

impl History<'_> {
    // Whether the samples' minutes rise strictly, and the last is not after the minute of asking.
    fn is_in_order(self) -> bool
        ensures { result ≡ in_order self.entry.samples.now self.entry.asked }
    {
        // `is_sorted_by` works each minute out twice, and was slower: 2.7 ns a sample for 1.8
        let mut until = self.asked + 1;
        for &x in self.samples.iter().rev() {
            let t = sample(x) / 2;
            if until <= t {
                return false;
            }
            until = t;
        }
        true
    }

    // Whether every sample's minute is in range.
    fn is_in_range(self) -> bool
        ensures { result
            ≡ every (λ i. in_range (minute_at self.entry.samples.now i)) (length self.entry.samples.now) }
    {
        self.samples.iter().all(|&x| in_range(sample(x) / 2))
    }

    // The same of samples in order, whose first minute tells it: they end by the minute of asking.
    fn starts_in_range(self) -> bool
        requires { in_order self.samples.now self.asked ≡ true }
        ensures { result
            ≡ every (λ i. in_range (minute_at self.entry.samples.now i)) (length self.entry.samples.now) }
    {
        self.samples.first().is_none_or(|&x| FIRST <= sample(x) / 2)
    }

    // Checks 18 to 20. Where the samples are in order, one minute tells 18; where they are not, all must be looked at.
    #[tactic(auto, using(time::proofs::Histories::checks))]
    fn check(self) -> Result<(), Refusal>
        ensures { result ≡ samples_check self.entry.samples.now self.entry.asked }
    {
        let ordered = self.is_in_order();
        let ranged = if ordered {
            self.starts_in_range()
        } else {
            self.is_in_range()
        };
        if !ranged {
            return Err(Refusal::ValueRange);
        }
        if MOST < self.samples.len() {
            return Err(Refusal::ManySamples);
        }
        if !ordered {
            return Err(Refusal::TimesOrder);
        }
        Ok(())
    }
}

// A bound with the reference point added; an open one as the minute that stands for it.
fn placed(beyond: u64, b: Option<u64>, reference: u64) -> u64
    requires { Small beyond × NearBound b × Near reference }
    ensures is { result ≡ placed beyond b reference }
    ensures small { Small result }
{
    b.map_or(beyond, |v| reference + v - BASE)
}

// The window of an annotation, with bounds small enough for sums.
#[derive(Clone, Copy)]
struct Bounds {
    window: Window,
    ghost small: { SmallWindow window },
}

// `Named` and `NamedPass` stay clauses: the definitions compute with passes and minutes of any size, so that no type keeps these facts.
impl Bounds {
    // The window of an annotation whose reference point is there. An open bound lies before all minutes, or beyond all that are asked
    // about.
    fn of(a: Annotation, reference: u64) -> Bounds
        requires { NearAll a × Near reference }
        ensures { result.window ≡ window a reference }
    {
        Bounds {
            window: Window {
                ess: placed(0, a.ess, reference),
                lss: placed(FAR, a.lss, reference),
                efs: placed(0, a.efs, reference),
                lfs: placed(FAR, a.lfs, reference),
                least: a.least,
                greatest: placed(FAR, a.greatest, BASE),
            },
        }
    }

    // Whether the interval from t1 to t2 lies in the window.
    #[tactic(auto, unfolding(time::specs::Search::admitted))]
    fn admits(self, t1: u64, t2: u64) -> bool
        requires { Worked t1 × Worked t2 }
        ensures { result ≡ admitted self.window t1 t2 }
    {
        let w = self.window;
        (t1 + w.least <= t2 + BASE)
            & (t2 + BASE <= t1 + w.greatest)
            & (w.ess <= t1)
            & (t1 <= w.lss)
            & (w.efs <= t2)
            & (t2 <= w.lfs)
    }

    // What is left of a run from b that is over at the minute `past`: the one interval in it that can satisfy, or nothing.
    #[tactic(auto, unfolding(time::specs::Search::over))]
    fn over(self, b: u64, past: u64) -> Pass
        requires { Named b × Named past }
        ensures is { result ≡ over self.window b past }
        ensures named { NamedPass result }
    {
        let first = self.window.ess.max(b);
        let last = self.window.lfs.min(past.saturating_sub(1));
        if self.admits(first, last) {
            return Pass::Found { first, last };
        }
        Pass::Off
    }

    // What a sample makes of a pass: it starts a run, goes on with one, or ends one.
    fn next(self, pass: Pass, t: u64, truth: bool) -> Pass
        requires { NamedPass pass × Named t }
        ensures is { result ≡ next self.window pass t truth }
        ensures named { NamedPass result }
    {
        // with `_ => pass` for the three cases that stay as they are it was slower: 2.5 ns a sample for 1.8
        match pass {
            Pass::Found { .. } => pass,
            Pass::Off if truth => Pass::Since(t),
            Pass::Off => Pass::Off,
            Pass::Since(b) if truth => Pass::Since(b),
            Pass::Since(b) => self.over(b, t),
        }
    }

    // The pass over the samples, as far as an interval that satisfies.
    #[tactic(auto, unfolding(time::specs::Search::pass_to))]
    fn passed(self, samples: &[u64]) -> Pass
        ensures is { result ≡ pass_to self.window samples.now (length samples.now) }
        ensures named { NamedPass result }
    {
        let mut pass = Pass::Off;
        for &x in samples {
            let s = sample(x);
            pass = self.next(pass, s / 2, s % 2 == 1);
            if matches!(pass, Pass::Found { .. }) {
                return pass;
            }
        }
        pass
    }

    // The first finish of an interval that starts at t1.
    fn finish(self, t1: u64) -> u64
        requires { t1 ≤ 2 ^ 63 + 10 ^ 12 }
        ensures { result ≡ finish self.window t1 }
    {
        let w = self.window;
        w.efs.max((t1 + w.least).saturating_sub(BASE))
    }

    // Whether a run from b that goes on at the minute of asking can satisfy.
    #[tactic(auto, unfolding(time::specs::Search::goes_on))]
    fn goes_on(self, b: u64, asked: u64) -> bool
        requires { Named b × Named asked }
        ensures { result ≡ goes_on self.window b asked }
    {
        let first = self.window.ess.max(b);
        self.admits(first, asked.max(self.finish(first)))
    }

    // Whether a run that starts at the minute k or later can satisfy.
    #[tactic(auto, unfolding(time::specs::Search::starts_from))]
    fn starts_from(self, k: u64) -> bool
        requires { k ≤ 2 ^ 63 + 2 }
        ensures { result ≡ starts_from self.window k }
    {
        let w = self.window;
        let first = k.max(w.ess.max((w.efs + BASE).saturating_sub(w.greatest)));
        self.admits(first, self.finish(first))
    }

    // Whether some continuation can satisfy, of what a pass was left with.
    #[tactic(auto, unfolding(time::specs::Search::can_be))]
    fn can_be(self, pass: Pass, asked: u64) -> bool
        requires { NamedPass pass × Named asked }
        ensures { result ≡ can_be self.window pass asked }
    {
        match pass {
            Pass::Found { .. } => true,
            Pass::Off => self.starts_from(asked + 1),
            Pass::Since(b) => self.goes_on(b, asked) | self.starts_from(asked + 2),
        }
    }

    // The answer of a history in order: a run that goes on is over after the minute of asking.
    #[tactic(auto, unfolding(time::specs::Search::answer))]
    fn answer(self, history: History<'_>) -> Judgement
        ensures { let h = history.entry.samples.now in
            result ≡ answer self.window (pass_to self.window h (length h)) history.entry.asked }
    {
        let asked = history.asked;
        let pass = self.passed(history.samples);
        match self.next(pass, asked + 1, false) {
            Pass::Found { first, last } => Judgement::Satisfied { first, last },
            _ if self.can_be(pass, asked) => Judgement::Satisfiable,
            _ => Judgement::Neither,
        }
    }
}

// The larger of two least bounds. None counts as less than any number, as an open one is.
fn larger(x: Option<u64>, y: Option<u64>) -> Option<u64>
    ensures { result ≡ larger x y }
{
    x.max(y)
}

// The smaller of two greatest bounds. An open one is more than any number, which `min` would not say.
fn smaller(x: Option<u64>, y: Option<u64>) -> Option<u64>
    ensures { result ≡ smaller x y }
{
    match (x, y) {
        (Some(v), Some(w)) => Some(v.min(w)),
        _ => x.or(y),
    }
}

// The difference of two bounds. (That these are near stays a clause here, of the sum and of `placed`: `NearAll` tells it of each bound of
// an annotation, and a type of near bounds would only be made to be opened at once.)
fn minus(x: Option<u64>, y: Option<u64>) -> Option<u64>
    requires { NearBound x × NearBound y }
    ensures { result ≡ minus x y }
{
    Some(x? + BASE - y?)
}

// The sum of two bounds.
fn plus(x: Option<u64>, y: Option<u64>) -> Option<u64>
    requires { NearBound x × NearBound y }
    ensures { result ≡ plus x y }
{
    Some(x? + y? - BASE)
}

// The larger of a number and a bound.
fn larger_number(v: u64, y: Option<u64>) -> u64
    ensures { result ≡ larger_number v y }
{
    y.map_or(v, |w| v.max(w))
}

// Document 001's six formulas, all from the old values.
#[tactic(auto, unfolding(time::specs::Normal::normal))]
fn normal(a: Annotation) -> Annotation
    requires { NearAll a }
    ensures { result ≡ normal a }
{
    let least = Some(a.least);
    Annotation {
        ess: larger(a.ess, minus(a.efs, a.greatest)),
        lss: smaller(a.lss, minus(a.lfs, least)),
        efs: larger(a.efs, plus(a.ess, least)),
        lfs: smaller(a.lfs, plus(a.lss, a.greatest)),
        least: larger_number(a.least, minus(a.efs, a.lss)),
        greatest: smaller(a.greatest, minus(a.lfs, a.ess)),
        reference: a.reference,
    }
}

// A number in two's complement, of one that is counted.
fn plain(v: u64) -> u64
    ensures { result ≡ plain v }
{
    v.wrapping_sub(BASE)
}

// A bound as it is handed out.
fn number(b: Option<u64>) -> u64
    ensures { result ≡ number_of b }
{
    b.map_or(NONE, plain)
}

// An annotation as it is handed out.
fn numbers_of(a: Annotation) -> [u64; 7]
    ensures { result ≡ numbers_of a }
{
    [
        number(a.ess),
        number(a.lss),
        number(a.efs),
        number(a.lfs),
        plain(a.least),
        number(a.greatest),
        plain(a.reference),
    ]
}
