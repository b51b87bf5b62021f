// What one line of a text for `aptime` says: a statement, nothing, or what is wrong with it. `says` is the whole of it on a slice.
// Assumes nothing.
#![tactic(auto)]

ghost use Rattle.std.specs.Prelude.{◌≡◌, ◌≤◌, cond, length};
ghost use Rattle.statements.specs.Words as Words;
ghost use Rattle.statements.specs.Statements as Statements;

// Stands for an open bound, in the numbers that `pattern` takes, as include/asbru.h has them for C. A number and no Option, since these are
// the numbers of the C interface (ASBRU_OPEN).
pub const OPEN: u64 = 0x8000_0000_0000_0000;

// What a line says.
#[derive(Clone, Copy)]
pub enum Saying {
    Nothing,
    Bounds {
        pair: Pair,
        least: u64,
        greatest: u64,
    },
    One {
        single: Single,
        number: u64,
    },
    Sample(u64),
}

// Statements of two bounds.
#[derive(Clone, Copy)]
pub enum Pair {
    Start,
    Finish,
    Lasts,
}

impl Pair {
    // What `_` stands for as its first bound.
    fn unbound(self) -> u64
        ensures { result ≡ Statements.unbound self }
    {
        match self {
            Pair::Start | Pair::Finish => OPEN,
            Pair::Lasts => 0,
        }
    }
}

// Statements of one number.
#[derive(Clone, Copy)]
pub enum Single {
    From,
    Asked,
}

// What is wrong with a line; the last two show only beside the other lines.
#[derive(Clone, Copy)]
pub enum Fault {
    Unknown,
    NoNumber,
    NoDots,
    NoTruth,
    More,
    Again,
    NotAsked,
}

// What a line says.
#[tactic(auto, unfolding(crate::specs::Statements::says))]
pub fn says(line: &[u8]) -> Result<Saying, Fault>
    ensures { result ≡ Statements.says line.now }
{
    let (word, rest) = first_word(line);
    if word.is_empty() || word[0] == b'#' {
        return Ok(Saying::Nothing);
    }
    statement(word, rest)
}

// What the line of a statement says by its first word and what follows it.
#[tactic(auto, unfolding(crate::specs::Statements::statement))]
fn statement(word: &[u8], rest: &[u8]) -> Result<Saying, Fault>
    ensures { result ≡ Statements.statement word.now rest.now }
{
    // A `match` on byte strings leaves open a goal for each byte at which a word may differ, 28 of them.
    if word == b"start".as_slice() {
        return bounds(Pair::Start, rest);
    }
    if word == b"finish".as_slice() {
        return bounds(Pair::Finish, rest);
    }
    if word == b"lasts".as_slice() {
        return bounds(Pair::Lasts, rest);
    }
    if word == b"from".as_slice() {
        return one(Single::From, rest);
    }
    if word == b"at".as_slice() {
        return at(rest);
    }
    if word == b"asked".as_slice() {
        return one(Single::Asked, rest);
    }
    Err(Fault::Unknown)
}

// What `A .. B` says behind the first word.
#[tactic(auto, unfolding(crate::specs::Statements::bounds))]
fn bounds(pair: Pair, s: &[u8]) -> Result<Saying, Fault>
    ensures { result ≡ Statements.bounds pair s.now }
{
    let (first, s) = first_word(s);
    let (dots, s) = first_word(s);
    let (second, s) = first_word(s);
    let least = bound(first, pair.unbound()).ok_or(Fault::NoNumber)?;
    if dots != b"..".as_slice() {
        return Err(Fault::NoDots);
    }
    let greatest = bound(second, OPEN).ok_or(Fault::NoNumber)?;
    end(s)?;
    Ok(Saying::Bounds {
        pair,
        least,
        greatest,
    })
}

// What `N` says there.
#[tactic(auto, unfolding(crate::specs::Statements::one))]
fn one(single: Single, s: &[u8]) -> Result<Saying, Fault>
    ensures { result ≡ Statements.one single s.now }
{
    let (word, s) = first_word(s);
    let number = number(word).ok_or(Fault::NoNumber)?;
    end(s)?;
    Ok(Saying::One { single, number })
}

// What `N true` or `N false` says there.
#[tactic(auto, unfolding(crate::specs::Statements::at))]
fn at(s: &[u8]) -> Result<Saying, Fault>
    ensures { result ≡ Statements.at s.now }
{
    let (first, s) = first_word(s);
    let (second, s) = first_word(s);
    let minute = number(first).ok_or(Fault::NoNumber)?;
    let held = truth(second).ok_or(Fault::NoTruth)?;
    end(s)?;
    Ok(Saying::Sample(sample(minute, held)))
}

// A sample as `judge` takes it.
fn sample(minute: u64, held: bool) -> u64
    ensures { result ≡ Statements.sample minute held }
{
    minute.wrapping_add(minute).wrapping_add(u64::from(held))
}

// That nothing but blanks is left.
fn end(s: &[u8]) -> Result<(), Fault>
    ensures { result ≡ cond (Words.ends s.now) (Ok tt) (Err Fault.More) }
{
    let (word, _) = first_word(s);
    if word.is_empty() {
        Ok(())
    } else {
        Err(Fault::More)
    }
}

// What `true` and `false` say.
#[tactic(auto, unfolding(crate::specs::Words::truth))]
fn truth(w: &[u8]) -> Option<bool>
    ensures { result ≡ Words.truth w.now }
{
    if w == b"true".as_slice() {
        return Some(true);
    }
    if w == b"false".as_slice() {
        return Some(false);
    }
    None
}

// A bound, where `_` stands for `other`.
#[tactic(auto, unfolding(crate::specs::Words::bound))]
fn bound(w: &[u8], other: u64) -> Option<u64>
    ensures { result ≡ Words.bound w.now other }
{
    if w == b"_".as_slice() {
        Some(other)
    } else {
        number(w)
    }
}

// A number in two's complement: `-` if it is negative, then digits.
#[tactic(auto, unfolding(crate::specs::Words::number))]
fn number(w: &[u8]) -> Option<u64>
    ensures { result ≡ Words.number w.now }
{
    match w.strip_prefix(b"-") {
        Some(digits) => unsigned(digits).map(|x| x.wrapping_neg()),
        None => unsigned(w),
    }
}

// A number without a sign, of one to ten digits.
fn unsigned(w: &[u8]) -> Option<u64>
    ensures { result ≡ Words.unsigned w.now }
{
    if w.is_empty() || 10 < w.len() {
        return None;
    }
    natural(w)
}

// Digits as a number: so few that it fits.
#[tactic(auto, using(crate::proofs::Scanning::digit_here, crate::proofs::Scanning::digit_stop, crate::proofs::Scanning::digit_end, crate::proofs::Scanning::next_power))]
fn natural(s: &[u8]) -> Option<u64>
    requires { length s.now ≤ 10 }
    ensures { result ≡ Words.natural 0 s.now }
{
    let mut v = 0;
    for &b in s {
        if !b.is_ascii_digit() {
            return None;
        }
        v = 10 * v + u64::from(b - b'0');
    }
    Some(v)
}

// The first word of a text, and what follows it.
fn first_word(s: &[u8]) -> (&[u8], &[u8])
    ensures { (result.0.now ≡ Words.word s.now) × (result.1.now ≡ Words.after s.now) }
{
    let t = trimmed(s);
    let k = t.iter().position(|&b| is_blank(b)).unwrap_or(t.len());
    t.split_at(k)
}

// A text without the blanks before it.
fn trimmed(s: &[u8]) -> &[u8]
    ensures { result.now ≡ Words.trimmed s.now }
{
    let k = s.iter().position(|&b| !is_blank(b)).unwrap_or(s.len());
    &s[k..]
}

// Whether a byte is a blank.
fn is_blank(b: u8) -> bool
    ensures { result ≡ Words.is_blank b }
{
    b <= b' '
}
