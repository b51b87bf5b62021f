// The same put into a lent slice, behind its first `at` bytes, for who holds a slice and no vector. Each function answers the new end, and
// says every byte of the slice, also those past the end, which stay. It puts the text into a vector first, and copies it. Assumes that there
// is room.
ghost use Rattle.std.specs.Prelude.{◌≡◌, [], ◌∷◌, ◌++◌, ◌+◌, ◌≤◌, length, Err};
ghost use Rattle.rules.specs.Program.{decimal, line};
ghost use Rattle.output.specs.Output.{Put};

use arrayvec::ArrayVec;
use rules::Refusal;

// Puts the line for a refusal there. No plan count shows in it.
pub fn put_refusal(why: Refusal, out: &mut [u8], at: usize) -> usize
    requires { at + 71 ≤ length out.old }
    ensures { Put 71 out.old at (line 0 (Err why)) out.new result }
{
    let mut line = ArrayVec::<u8, 71>::new();
    super::put_refusal(why, &mut line);
    output::put(&line, out, at)
}

// Puts a number in decimal and one byte more there.
pub fn put_number(x: u64, stop: u8, out: &mut [u8], at: usize) -> usize
    requires { at + 21 ≤ length out.old }
    ensures { Put 21 out.old at (decimal x ++ (stop ∷ [])) out.new result }
{
    let mut number = ArrayVec::<u8, 21>::new();
    super::put_decimal(x, &mut number);
    number.push(stop);
    output::put(&number, out, at)
}

// Puts a number in decimal there.
pub fn put_decimal(x: u64, out: &mut [u8], at: usize) -> usize
    requires { at + 20 ≤ length out.old }
    ensures { Put 20 out.old at (decimal x) out.new result }
{
    let mut digits = ArrayVec::<u8, 20>::new();
    super::put_decimal(x, &mut digits);
    output::put(&digits, out, at)
}
