// The program `aprcheck` of document 01: a table and then a record on standard input, one line on standard output.
// `report` is the whole of it on a slice: its contract says that the bytes are the line of a verdict which the definitions permit; `main`
// hands them over in one write. Where standard input cannot be read to its end there is no input, and so no line: `main` says so on
// standard error. Assumes what crate `text` does of the system's read and write.
#![tactic(auto)]

ghost use Rattle.std.specs.Prelude.{◌≡◌, ◌+◌, ◌++◌, ◌≤◌, length};
ghost use Rattle.arrayvec.specs.ArrayVec.{array_vec_len};
ghost use Rattle.rules.specs.Table.{plan_count};
ghost use Rattle.rules.specs.Program.{table_length, Answered, line, Printed};

use arrayvec::ArrayVec;
use rules::Refusal;
use text::{put, put_decimal, put_refusal};

fn main(rt: HostRuntime) {
    let mut input = text::buffer();
    let Ok(n) = text::read_input(&mut rt.stdin(), &mut input) else {
        let _ = eprintln!(rt; "aprcheck: standard input cannot be read; nothing is judged");
        return;
    };
    if rt.stdout().write_all(&report(&input[..n])).is_err() {
        let _ = eprintln!(rt; "aprcheck: standard output cannot be written");
    }
}

// The line for an input.
fn report(input: &[u8]) -> ArrayVec<u8, 128>
    ensures { Printed input.now result.items }
{
    let mut out = ArrayVec::new();
    put_line(plan_count(input), answer(input), &mut out);
    out
}

// Puts the line for a verdict on a table of so many plans.
fn put_line<const N: usize>(plans: u16, verdict: Result<u16, Refusal>, out: &mut ArrayVec<u8, N>)
    requires { array_vec_len out.old + 128 ≤ N }
    ensures { out.new.items ≡ out.old.items ++ line plans verdict }
{
    match verdict {
        Ok(steps) => {
            put(b"accepted ", out);
            put_decimal(u64::from(plans), out);
            out.push(b' ');
            put_decimal(u64::from(steps), out);
            out.push(b'\n');
        }
        Err(why) => put_refusal(why, out),
    }
}

// The verdict on an input, under rule 2: its length is looked at first.
#[tactic(auto, using(crate::proofs::Inputs::long, crate::proofs::Inputs::answers))]
fn answer(input: &[u8]) -> Result<u16, Refusal>
    ensures { Answered input.now result }
{
    if 65536 < input.len() {
        return Err(Refusal::InputLong);
    }
    let k = table_length(input);
    record::check(2, &input[..k], &input[k..])
}

// How many bytes of the input are the table.
#[tactic(auto, using(crate::proofs::Inputs::table_or_all, crate::proofs::Inputs::all_of_refused))]
fn table_length(input: &[u8]) -> usize
    ensures { (result ≡ table_length input.now) × (result ≤ length input.now) }
{
    match table::header_check(input) {
        Ok(()) => table::table_size(input).min(input.len()),
        Err(_) => input.len(),
    }
}

// The plan count in the header of the input. It is read before anything is checked, so bytes that are missing count as 0.
fn plan_count(input: &[u8]) -> u16
    ensures { result ≡ plan_count input.now }
{
    reading::u16_within(input, 5)
}
