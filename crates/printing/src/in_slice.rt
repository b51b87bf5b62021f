// The same put at the start of a lent slice, for who holds a slice and no vector. Each function answers where it ends, and says every byte of
// the slice, also those past the end, which stay. It puts the text into a vector first, and copies it. Assumes that there is room.
ghost use Rattle.std.specs.Prelude.{◌≤◌, length};
ghost use Rattle.output.specs.Output.{Put};
ghost use Rattle.printing.specs.Printing as Printing;

use super::{Answer, Wrong};
use arrayvec::ArrayVec;
use rules::Refusal;
use statements::Fault;
use text::put_refusal;
use time::Judgement;

// Puts the line for a line that is wrong there.
pub fn put_wrong(line: usize, fault: Fault, out: &mut [u8]) -> usize
    requires { 512 ≤ length out.old }
    ensures { Put 512 out.old 0 (Printing.wrong_text line fault) out.new result }
{
    let mut text = ArrayVec::<u8, 512>::new();
    Wrong { line, fault }.put(&mut text);
    output::put(&text, out, 0)
}

// Puts the answer there: what was judged, what normalising came to, and the numbers that it left.
pub fn put_answer(
    judgement: Result<Judgement, Refusal>,
    outcome: Result<(), Refusal>,
    numbers: &[u64; 7],
    out: &mut [u8],
) -> usize
    requires { 512 ≤ length out.old }
    ensures { Put 512 out.old 0 (Printing.answer_text judgement outcome numbers.now) out.new result }
{
    let mut text = ArrayVec::<u8, 512>::new();
    match judgement {
        Ok(judgement) => {
            let normal = outcome.and(Ok(*numbers));
            Answer { judgement, normal }.put(&mut text);
        }
        Err(why) => put_refusal(why, &mut text),
    }
    output::put(&text, out, 0)
}
