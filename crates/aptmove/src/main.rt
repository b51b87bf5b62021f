// The program `aptmove` of document 02 (vi): a plan table on standard input, the moved one on standard output; version 1 becomes 2, and 2
// becomes 1. A table that is refused leaves standard output empty, and standard error has the line for the refusal. `report` is the whole
// of it on a slice: its contract fixes every byte of both, and `main` hands them over in one write. Where standard input cannot be read to
// its end there is no table: `main` says so on standard error. Assumes what crate `text` does of the system's read and write.
#![tactic(auto)]

ghost use Rattle.std.specs.Prelude.{◌≡◌, ◌≤◌, length, Err};
ghost use Rattle.rules.specs.WaitFor.{first_version};
ghost use Rattle.versions.specs.Versions.{move_answer, move_output};
ghost use Rattle.rules.specs.Program.{line};
ghost use Rattle.aptmove.specs.Moving.{check, moved, printed, complained, on_output, on_error, Within};

use arrayvec::ArrayVec;
use rules::Refusal;
use text::put_refusal;

fn main(rt: HostRuntime) {
    let mut input = text::buffer();
    let Ok(n) = text::read_input(&mut rt.stdin(), &mut input) else {
        let _ = eprintln!(rt; "aptmove: standard input cannot be read; nothing is moved");
        return;
    };
    let mut out = [0u8; 4096];
    match report(&input[..n], &mut out) {
        Ok(end) => {
            if rt.stdout().write_all(&out[..usize::from(end)]).is_err() {
                let _ = eprintln!(rt; "aptmove: standard output cannot be written");
            }
        }
        Err(line) => {
            let _ = rt.stderr().write_all(&line);
        }
    }
}

// Puts the moved table of an input at the start of `out`, for standard output, and answers where it ends; or the line that says why there is
// none, for standard error.
#[tactic(auto, using(crate::proofs::Inputs::table_lies, crate::proofs::Inputs::table_is, crate::proofs::Inputs::no_complaint, crate::proofs::Inputs::no_table, crate::proofs::Inputs::complaint_is))]
fn report(input: &[u8], out: &mut [u8; 4096]) -> Result<u16, ArrayVec<u8, 71>>
    ensures within { Within result out.new }
    ensures output { on_output result out.new ≡ printed input.now }
    ensures error { on_error result ≡ complained input.now }
{
    match answer(input, out) {
        Ok(end) => Ok(end),
        Err(why) => Err(bytes(why)),
    }
}

// The bytes of the line for a refusal.
fn bytes(why: Refusal) -> ArrayVec<u8, 71>
    ensures { result.items ≡ line 0 (Err why) }
{
    let mut out = ArrayVec::new();
    put_refusal(why, &mut out);
    out
}

// The same of any slice: the length of the input is looked at first.
fn answer(input: &[u8], out: &mut [u8]) -> Result<u16, Refusal>
    ensures is { result ≡ move_answer (check input.now) (moved input.now) out.old }
    ensures left { out.new ≡ move_output (check input.now) (moved input.now) out.old }
{
    if 65536 < input.len() {
        return Err(Refusal::InputLong);
    }
    if is_first_version(input) {
        return versions::to_version_2(input, out);
    }
    versions::to_version_1(input, out)
}

// Whether the input tells version 1: bytes that are missing count as 0.
fn is_first_version(input: &[u8]) -> bool
    ensures { result ≡ first_version input.now }
{
    reading::u16_within(input, 3) == 1
}
