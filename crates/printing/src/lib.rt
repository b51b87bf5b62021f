// What `aptime` prints, put behind what stands in a vector of fixed room: a line of the text that is wrong, or the answer with the normal
// form. Each contract says every byte. The bytes are put by hand and not by a `Display`: its contract says nothing of when it fails, so
// that no caller could be promised that they are there. Assumes that there is room, as each `requires` asks.
#![tactic(auto)]

ghost use Rattle.std.specs.Prelude.{◌≡◌, [], ◌∷◌, ◌+◌, ◌++◌, ◌≤◌, length, true};
ghost use Rattle.arrayvec.specs.ArrayVec.{array_vec_len};
ghost use Rattle.printing.specs.Printing as Printing;

pub mod in_slice;

use arrayvec::ArrayVec;
use rules::Refusal;
use statements::{Fault, OPEN};
use text::{put, put_decimal, put_refusal};
use time::Judgement;

// A line of the text that is wrong.
#[derive(Clone, Copy)]
pub struct Wrong {
    pub line: usize,
    pub fault: Fault,
}

impl Wrong {
    // Puts what is said of it.
    pub fn put<const N: usize>(self, out: &mut ArrayVec<u8, N>)
        requires { array_vec_len out.old + 512 ≤ N }
        ensures items { out.new.items ≡ out.old.items ++ Printing.wrong_text self.line self.fault }
        ensures room { array_vec_len out.new ≤ array_vec_len out.old + 512 }
    {
        put(b"line ", out);
        put_decimal(self.line as u64, out);
        put(b": ", out);
        put(words(self.fault), out);
        out.push(b'\n');
    }
}

// What is wrong with it.
fn words(fault: Fault) -> &'static [u8]
    ensures is { result.now ++ (10 ∷ []) ≡ Printing.fault_text fault }
    ensures short { length result.now ≤ 31 }
{
    match fault {
        Fault::Unknown => b"not a statement",
        Fault::NoNumber => b"a number was expected",
        Fault::NoDots => b"'..' was expected",
        Fault::NoTruth => b"'true' or 'false' was expected",
        Fault::More => b"something follows the statement",
        Fault::Again => b"said before",
        Fault::NotAsked => b"'asked' is missing",
    }
}

// An answer: what was judged, and the numbers of the normal form, or why there is none.
#[derive(Clone, Copy)]
pub struct Answer {
    pub judgement: Judgement,
    pub normal: Result<[u64; 7], Refusal>,
}

impl Answer {
    // Puts it.
    pub fn put<const N: usize>(self, out: &mut ArrayVec<u8, N>)
        requires { array_vec_len out.old + 512 ≤ N }
        ensures items { out.new.items ≡ out.old.items ++ (Printing.judged_text self.judgement ++ Printing.form_text self.normal) }
        ensures room { array_vec_len out.new ≤ array_vec_len out.old + 512 }
    {
        put_judged(self.judgement, out);
        put_form(self.normal, out);
    }
}

// Puts what was judged.
fn put_judged<const N: usize>(judgement: Judgement, out: &mut ArrayVec<u8, N>)
    requires { array_vec_len out.old + 72 ≤ N }
    ensures items { out.new.items ≡ out.old.items ++ Printing.judged_text judgement }
    ensures room { array_vec_len out.new ≤ array_vec_len out.old + 72 }
{
    match judgement {
        Judgement::Satisfied { first, last } => put_satisfied(first, last, out),
        Judgement::Satisfiable => put(b"not satisfied\nsatisfiable\n", out),
        Judgement::Neither => put(b"not satisfied\nnot satisfiable\n", out),
    }
}

// Puts the interval that satisfies.
fn put_satisfied<const N: usize>(first: u64, last: u64, out: &mut ArrayVec<u8, N>)
    requires { array_vec_len out.old + 72 ≤ N }
    ensures items { out.new.items ≡ out.old.items ++ Printing.satisfied_text first last }
    ensures room { array_vec_len out.new ≤ array_vec_len out.old + 72 }
{
    put(b"satisfied by ", out);
    put_minute(first, out);
    put(b" .. ", out);
    put_minute(last, out);
    put(b"\nsatisfiable\n", out);
}

// Puts what normalising came to.
fn put_form<const N: usize>(normal: Result<[u64; 7], Refusal>, out: &mut ArrayVec<u8, N>)
    requires { array_vec_len out.old + 200 ≤ N }
    ensures items { out.new.items ≡ out.old.items ++ Printing.form_text normal }
    ensures room { array_vec_len out.new ≤ array_vec_len out.old + 200 }
{
    match normal {
        Ok(numbers) => put_normal(numbers, out),
        Err(why) => {
            put(b"no normal form: ", out);
            put_refusal(why, out);
        }
    }
}

// Puts an annotation, in the words of the input.
fn put_normal<const N: usize>(numbers: [u64; 7], out: &mut ArrayVec<u8, N>)
    requires { array_vec_len out.old + 200 ≤ N }
    ensures items { out.new.items ≡ out.old.items ++ Printing.normal_text numbers }
    ensures room { array_vec_len out.new ≤ array_vec_len out.old + 200 }
{
    put(b"normal form:\n", out);
    put_shifts(numbers, out);
    put_durations(numbers, out);
}

// Puts its shifts.
#[tactic(auto, unfolding(crate::specs::Printing::shifts_text))]
fn put_shifts<const N: usize>(numbers: [u64; 7], out: &mut ArrayVec<u8, N>)
    requires { array_vec_len out.old + 107 ≤ N }
    ensures items { out.new.items ≡ out.old.items ++ Printing.shifts_text numbers }
    ensures room { array_vec_len out.new ≤ array_vec_len out.old + 107 }
{
    put_bounds(b"start ", numbers[0], numbers[1], out);
    put_bounds(b"finish ", numbers[2], numbers[3], out);
}

// Puts its durations and its reference point.
#[tactic(auto, unfolding(crate::specs::Printing::durations_text))]
fn put_durations<const N: usize>(numbers: [u64; 7], out: &mut ArrayVec<u8, N>)
    requires { array_vec_len out.old + 80 ≤ N }
    ensures items { out.new.items ≡ out.old.items ++ Printing.durations_text numbers }
    ensures room { array_vec_len out.new ≤ array_vec_len out.old + 80 }
{
    put_bounds(b"lasts ", numbers[4], numbers[5], out);
    put(b"from ", out);
    put_bound(numbers[6], out);
    out.push(b'\n');
}

// Puts a statement of two bounds, with its name.
fn put_bounds<const N: usize>(name: &[u8], first: u64, second: u64, out: &mut ArrayVec<u8, N>)
    requires { array_vec_len out.old + (length name.now + 47) ≤ N }
    ensures items { out.new.items ≡ out.old.items ++ Printing.bounds_text name.now first second }
    ensures room { array_vec_len out.new ≤ array_vec_len out.old + (length name.now + 47) }
{
    put(name, out);
    put_bound(first, out);
    put(b" .. ", out);
    put_bound(second, out);
    out.push(b'\n');
}

// Puts a number in two's complement, or `_` for an open bound.
fn put_bound<const N: usize>(x: u64, out: &mut ArrayVec<u8, N>)
    requires { array_vec_len out.old + 21 ≤ N }
    ensures items { out.new.items ≡ out.old.items ++ Printing.bound_text x }
    ensures room { array_vec_len out.new ≤ array_vec_len out.old + 21 }
{
    if x == OPEN {
        out.push(b'_');
    } else if x < OPEN {
        put_decimal(x, out);
    } else {
        put_negative(x.wrapping_neg(), out);
    }
}

// A minute of the judgement is coded as the number of minutes and this many more.
const ZERO: u64 = 4_000_000_000;

// Puts one.
fn put_minute<const N: usize>(v: u64, out: &mut ArrayVec<u8, N>)
    requires { array_vec_len out.old + 21 ≤ N }
    ensures items { out.new.items ≡ out.old.items ++ Printing.minute v }
    ensures room { array_vec_len out.new ≤ array_vec_len out.old + 21 }
{
    if v < ZERO {
        put_negative(ZERO - v, out);
    } else {
        put_decimal(v - ZERO, out);
    }
}

// Puts a sign and a size.
fn put_negative<const N: usize>(size: u64, out: &mut ArrayVec<u8, N>)
    requires { array_vec_len out.old + 21 ≤ N }
    ensures items { out.new.items ≡ out.old.items ++ Printing.signed true size }
    ensures room { array_vec_len out.new ≤ array_vec_len out.old + 21 }
{
    out.push(b'-');
    put_decimal(size, out);
}
