// The program `aptime`: a time annotation and a history in words on standard input; on standard output whether the history satisfies the
// annotation or still can, and the annotation's normal form. `report` is the whole of it on a slice: its contract fixes every byte, and
// `main` hands them over in one write. Where standard input cannot be read to its end there is no input, and so no answer: `main` says so on
// standard error. Assumes what crate `text` does of the system's read and write.
#![tactic(auto)]

ghost use Rattle.std.specs.Prelude.{◌≡◌, ◌+◌, ◌<◌, ◌≤◌, ◌∷◌, [], ◌++◌, length, MatchOption};
ghost use Rattle.arrayvec.specs.ArrayVec.{array_vec_len};
ghost use Rattle.aptime.specs.Lines as Lines;
ghost use Rattle.aptime.specs.Printed as Printed;
ghost use Rattle.aptime.specs.Steps as Steps;

use arrayvec::ArrayVec;
use printing::{Answer, Wrong};
use rules::Refusal;
use statements::{Fault, OPEN, Pair, Saying, Single};
use text::put_refusal;

fn main(rt: HostRuntime) {
    let mut input = text::buffer();
    let Ok(n) = text::read_input(&mut rt.stdin(), &mut input) else {
        let _ = eprintln!(rt; "aptime: standard input cannot be read; nothing is answered");
        return;
    };
    if rt.stdout().write_all(&report(&input[..n])).is_err() {
        let _ = eprintln!(rt; "aptime: standard output cannot be written");
    }
}

// The bytes of the answer to an input.
fn report(input: &[u8]) -> ArrayVec<u8, 512>
    ensures { Printed.Printed input.now result.items }
{
    let mut out = ArrayVec::new();
    respond(input).put(&mut out);
    out
}

// What an input is answered.
#[derive(Clone, Copy)]
enum Response {
    Refused(Refusal),
    Wrong(Wrong),
    Answered(Answer),
}

impl Response {
    // Puts it.
    fn put<const N: usize>(self, out: &mut ArrayVec<u8, N>)
        requires { array_vec_len out.old + 512 ≤ N }
        ensures { out.new.items ≡ out.old.items ++ Printed.response_text self }
    {
        match self {
            Response::Refused(why) => put_refusal(why, out),
            Response::Wrong(wrong) => wrong.put(out),
            Response::Answered(answer) => answer.put(out),
        }
    }
}

// The answer to an input.
fn respond(input: &[u8]) -> Response
    ensures { Printed.Printed input.now (Printed.response_text result) }
{
    if 65536 < input.len() {
        return Response::Refused(Refusal::InputLong);
    }
    let mut samples = ArrayVec::<u64, 65536>::new();
    match read(input, &mut samples) {
        Ok(question) => answer(question, &samples),
        Err(wrong) => Response::Wrong(wrong),
    }
}

// The answer to what was told.
fn answer(question: Question, samples: &[u64]) -> Response
    ensures { Printed.Answered question samples.now (Printed.response_text result) }
{
    let mut numbers = question.numbers;
    let normal = pattern::normalise(&mut numbers).and(Ok(numbers));
    match pattern::judge(&question.numbers, samples, question.asked) {
        Ok(judgement) => Response::Answered(Answer { judgement, normal }),
        Err(why) => Response::Refused(why),
    }
}

// What a text asks: about an annotation's numbers, at a minute.
#[derive(Clone, Copy)]
struct Question {
    numbers: [u64; 7],
    asked: u64,
}

// What a text told so far.
#[derive(Clone, Copy)]
struct Told {
    start: Option<(u64, u64)>,
    finish: Option<(u64, u64)>,
    lasts: Option<(u64, u64)>,
    from: Option<u64>,
    asked: Option<u64>,
}

const SILENT: Told = Told {
    start: None,
    finish: None,
    lasts: None,
    from: None,
    asked: None,
};

impl Told {
    // The numbers of the annotation: where nothing was said, Table 1's default.
    fn numbers(self) -> [u64; 7]
        ensures { result ≡ Lines.numbers_of self }
    {
        let (ess, lss) = self.start.unwrap_or((OPEN, OPEN));
        let (efs, lfs) = self.finish.unwrap_or((OPEN, OPEN));
        let (least, greatest) = self.lasts.unwrap_or((0, OPEN));
        [ess, lss, efs, lfs, least, greatest, self.from.unwrap_or(0)]
    }

    // What was told, with what a line says.
    fn and(self, saying: Saying) -> Result<Told, Fault>
        ensures { result ≡ Lines.told_and saying self }
    {
        match saying {
            Saying::Nothing | Saying::Sample(_) => Ok(self),
            Saying::Bounds {
                pair,
                least,
                greatest,
            } => self.and_bounds(pair, (least, greatest)),
            Saying::One { single, number } => self.and_one(single, number),
        }
    }

    // The same, of two bounds.
    fn and_bounds(self, pair: Pair, bounds: (u64, u64)) -> Result<Told, Fault>
        ensures { result ≡ Lines.told_bounds pair bounds self }
    {
        Ok(match pair {
            Pair::Start => Told {
                start: once(self.start, bounds)?,
                ..self
            },
            Pair::Finish => Told {
                finish: once(self.finish, bounds)?,
                ..self
            },
            Pair::Lasts => Told {
                lasts: once(self.lasts, bounds)?,
                ..self
            },
        })
    }

    // The same, of one number.
    fn and_one(self, single: Single, number: u64) -> Result<Told, Fault>
        ensures { result ≡ Lines.told_one single number self }
    {
        Ok(match single {
            Single::From => Told {
                from: once(self.from, number)?,
                ..self
            },
            Single::Asked => Told {
                asked: once(self.asked, number)?,
                ..self
            },
        })
    }
}

// What is said, where it was not said before.
fn once<T: Copy>(before: Option<T>, said: T) -> Result<Option<T>, Fault>
    ensures { result ≡ Lines.once before said }
{
    if before.is_some() {
        return Err(Fault::Again);
    }
    Ok(Some(said))
}

// Reads a text line by line. Its samples are put into `samples`, which is empty before.
#[tactic(auto, using(crate::proofs::Turns::at_first, crate::proofs::Turns::goes_on, crate::proofs::Turns::stops, crate::proofs::Turns::not_asked, crate::proofs::Turns::all_read,))]
fn read(input: &[u8], samples: &mut ArrayVec<u64, 65536>) -> Result<Question, Wrong>
    requires { (length input.now ≤ 65536) × (samples.old.items ≡ []) }
    ensures { Steps.ReadAs input.now result samples.new.items }
{
    let mut told = SILENT;
    let mut line = 1;
    let mut rest = input;
    while let Some((text, tail)) = first_line(rest) {
        // Behind a `map_err` with a closure and `?` the goal at the exit stays open.
        match take_line(text, told, samples) {
            Ok(more) => told = more,
            Err(fault) => return Err(Wrong { line, fault }),
        }
        line += 1;
        rest = tail;
    }
    let asked = told.asked.ok_or(Wrong {
        line,
        fault: Fault::NotAsked,
    })?;
    Ok(Question {
        numbers: told.numbers(),
        asked,
    })
}

// Takes in what a line says.
fn take_line(line: &[u8], told: Told, samples: &mut ArrayVec<u64, 65536>) -> Result<Told, Fault>
    requires { array_vec_len samples.old < 65536 }
    ensures took { Steps.Took line.now told samples.old.items result samples.new.items }
    ensures room { array_vec_len samples.new ≤ array_vec_len samples.old + 1 }
{
    let saying = statements::says(line)?;
    let told = told.and(saying)?;
    if let Saying::Sample(sample) = saying {
        samples.push(sample);
    }
    Ok(told)
}

// The first line of a text and what follows it, if the text is not empty. The last line may lack its newline.
fn first_line(text: &[u8]) -> Option<(&[u8], &[u8])>
    ensures lines { MatchOption result (Lines.lines text.now ≡ []) (λ p. Lines.lines text.now ≡ p.0.now ∷ Lines.lines p.1.now) }
    ensures shorter { MatchOption result (length text.now ≡ 0) (λ p. length p.1.now < length text.now) }
{
    if text.is_empty() {
        return None;
    }
    match text.iter().position(|&b| b == b'\n') {
        Some(k) => Some((&text[..k], &text[k + 1..])),
        None => Some((text, &[])),
    }
}
