// Runs trials and prints each answer. Standard input has a line for each trial, its fields parted by single spaces:
//   table TABLE                           checks a table
//   subtree TABLE STATES PLAN             asks for a sub tree
//   move RULE TABLE STATES WORDS          takes one step, and shows the states that it leaves
//   rest RULE TABLE STATES WORDS BUDGET   steps until rest, and shows the states that it leaves
//   why RULE TABLE STATES WORDS CAUSES           likewise one step, and shows the causes that it leaves too
//   last RULE TABLE STATES WORDS CAUSES BUDGET   likewise until rest
//   bound TABLE WORDS                     asks for the most steps to rest
//   judge RULE TABLE RECORD               checks a record
//   up TABLE OUTPUT                       moves a table to version 2, and shows the output that it leaves
//   down TABLE OUTPUT                     moves a table to version 1, likewise
// with bytes in hexadecimal (see `read_bytes`) and numbers in decimal. A line that begins with `#` is printed as it is,
// and an empty one as well.
// Assumes of the system's read that the buffer is given the bytes of standard input, of its write that what is printed is written, and that
// the input is at most 262,144 bytes.
#![tactic(auto)]

ghost use Rattle.std.specs.Prelude.{◌≡◌, ◌<◌, ◌≤◌, length};

use arrayvec::ArrayVec;
use rules::Refusal;
use std::fmt;
use std::io::{Print, Read};

// Bytes that are lent to a call. No table, states, words or causes of a trial take more.
type Bytes = ArrayVec<u8, 4096>;

// Room for a record: for the header and one step too many of one plan. `main` makes it once, since to clear it takes longer than most lines.
type Steps = ArrayVec<u8, 327688>;

fn main(rt: HostRuntime) {
    let mut input = input_buffer();
    let n = read_full(&mut rt.stdin(), &mut input);
    let mut steps = Steps::new();
    for line in input[..n].split_inclusive(|&b| b == b'\n') {
        run_line(&rt, line.strip_suffix(b"\n").unwrap_or(line), &mut steps);
    }
}

// Room for all trials.
fn input_buffer() -> [u8; 262144]
    ensures { 262144 ≡ length result }
{
    [0; 262144]
}

// Reads until the buffer is full, the input ends or a read fails, and answers how many bytes there are: unlike `text::read_input`, what was
// read before a failure is kept, and its lines are run. `read_to_end` wants a heap, and `read_exact` does not say how many bytes came.
fn read_full<R: Read>(reader: &mut R, buffer: &mut [u8]) -> usize
    ensures { result ≤ length buffer.new }
{
    let mut n = 0;
    while n < buffer.len() {
        match reader.read(&mut buffer[n..]) {
            Ok(0) | Err(_) => return n,
            Ok(k) => n += k,
        }
    }
    n
}

fn run_line<P: Print>(rt: &P, line: &[u8], steps: &mut Steps) {
    match line.first() {
        None => end_line(rt),
        Some(b'#') => {
            let _ = rt.write_all(line);
            end_line(rt);
        }
        Some(b't') => run_table(rt, line),
        Some(b's') => run_sub_tree(rt, line),
        Some(b'm') => run_step(rt, line, 3, print_left),
        Some(b'r') => run_rest(rt, line, 3, 5, print_left),
        Some(b'w') => run_step(rt, line, 5, print_both),
        Some(b'l') => run_rest(rt, line, 5, 6, print_both),
        Some(b'b') => run_bound(rt, line),
        Some(b'j') => run_judge(rt, line, steps),
        Some(b'u') => run_move(rt, line, versions::to_version_2),
        Some(b'd') => run_move(rt, line, versions::to_version_1),
        Some(_) => {
            let _ = println!(rt; "no such trial");
        }
    }
}

// By `write_all`, since `println!` takes longer than all else that an empty line asks for.
fn end_line<P: Print>(rt: &P) {
    let _ = rt.write_all(b"\n");
}

// Field k of a line, counted from 0, or nothing.
fn field(line: &[u8], k: usize) -> &[u8] {
    line.split(|&b| b == b' ').nth(k).unwrap_or(&[])
}

// The value of a hexadecimal digit, 0 for any other byte.
fn digit(b: u8) -> u32
    ensures { result < 16 }
{
    char::from(b).to_digit(16).unwrap_or(0)
}

// Reads the bytes of a hexadecimal text, as far as there is room. Groups are parted by dots, and one that ends in `*` and a number stands so
// many times. They are put where they stay: a vector that is handed out is copied, and the room for the copy cleared.
fn read_bytes<const N: usize>(text: &[u8], bytes: &mut ArrayVec<u8, N>) {
    for group in text.split(|&b| b == b'.') {
        let mut parts = group.splitn(2, |&b| b == b'*');
        let digits = parts.next().unwrap_or(&[]);
        let times = parts.next().map_or(1, |s| number_of(s));
        for _ in 0..times {
            add_bytes(digits, bytes);
        }
    }
}

// Adds as many as there is room for: where there is none, no digit is looked at, however often a group stands.
fn add_bytes<const N: usize>(text: &[u8], bytes: &mut ArrayVec<u8, N>) {
    for pair in text.chunks_exact(2).take(bytes.remaining_capacity()) {
        let _ = bytes.try_push((digit(pair[0]) * 16 + digit(pair[1])) as u8);
    }
}

// The number that a decimal text says, the last 32 bits of it; a byte that is no digit counts as 0.
fn number_of(text: &[u8]) -> u32 {
    text.iter()
        .fold(0, |n, &b| n.wrapping_mul(10).wrapping_add(digit(b)))
}

fn run_table<P: Print>(rt: &P, line: &[u8]) {
    let mut table = Bytes::new();
    read_bytes(field(line, 1), &mut table);
    print_accepted(rt, table::check_table(&table));
    end_line(rt);
}

fn run_sub_tree<P: Print>(rt: &P, line: &[u8]) {
    let mut table = Bytes::new();
    read_bytes(field(line, 1), &mut table);
    let mut states = Bytes::new();
    read_bytes(field(line, 2), &mut states);
    let plan = number_of(field(line, 3)) as usize;
    let _ = println!(rt; "{}", Hex(table::sub_tree(&table, &states, plan)));
}

// The rule number that a line names first.
fn rule_of(line: &[u8]) -> u32 {
    number_of(field(line, 1))
}

// Lends a table, states, words and room for causes, which the field of this number tells, to the step, and shows what it leaves of the states
// and of the causes.
fn run_step<P: Print, F: FnOnce(&P, &[u8], &[u8])>(rt: &P, line: &[u8], told: usize, show: F)
    requires { F.IsAlwaysCallable show }
{
    let mut table = Bytes::new();
    read_bytes(field(line, 2), &mut table);
    let mut states = Bytes::new();
    read_bytes(field(line, 3), &mut states);
    let mut words = Bytes::new();
    read_bytes(field(line, 4), &mut words);
    let mut causes = Bytes::new();
    read_bytes(field(line, told), &mut causes);
    let _ = match step::step(rule_of(line), &table, &mut states, &words, &mut causes) {
        Ok(()) => print!(rt; "done"),
        Err(why) => print!(rt; "{}", Refused(why)),
    };
    show(rt, &states, &causes);
}

// The same to the run to rest, under the budget that a field tells.
fn run_rest<P: Print, F: FnOnce(&P, &[u8], &[u8])>(
    rt: &P,
    line: &[u8],
    told: usize,
    budget: usize,
    show: F,
)
    requires { F.IsAlwaysCallable show }
{
    let mut table = Bytes::new();
    read_bytes(field(line, 2), &mut table);
    let mut states = Bytes::new();
    read_bytes(field(line, 3), &mut states);
    let mut words = Bytes::new();
    read_bytes(field(line, 4), &mut words);
    let mut causes = Bytes::new();
    read_bytes(field(line, told), &mut causes);
    let budget = (number_of(field(line, budget)) % 65536) as u16;
    let _ = match step::rest(
        rule_of(line),
        &table,
        &mut states,
        &words,
        &mut causes,
        budget,
    ) {
        Ok(Some(k)) => print!(rt; "rested {k}"),
        Ok(None) => print!(rt; "moving"),
        Err(why) => print!(rt; "{}", Refused(why)),
    };
    show(rt, &states, &causes);
}

// The states that a call leaves. Where the line does not tell what stands in the room for causes, there is as much as the states take, and
// it is not shown.
fn print_left<P: Print>(rt: &P, states: &[u8], _causes: &[u8]) {
    let _ = println!(rt; " {}", Hex(states));
}

// The states and the causes.
fn print_both<P: Print>(rt: &P, states: &[u8], causes: &[u8]) {
    let _ = println!(rt; " {} {}", Hex(states), Hex(causes));
}

fn run_bound<P: Print>(rt: &P, line: &[u8]) {
    let mut table = Bytes::new();
    read_bytes(field(line, 1), &mut table);
    let mut words = Bytes::new();
    read_bytes(field(line, 2), &mut words);
    let _ = match bound::bound(&table, &words) {
        Ok(Some(k)) => println!(rt; "within {k}"),
        Ok(None) => println!(rt; "unknown"),
        Err(why) => println!(rt; "{}", Refused(why)),
    };
}

fn run_judge<P: Print>(rt: &P, line: &[u8], steps: &mut Steps) {
    let mut table = Bytes::new();
    read_bytes(field(line, 2), &mut table);
    steps.clear();
    read_bytes(field(line, 3), steps);
    print_accepted(rt, record::check(rule_of(line), &table, steps));
    end_line(rt);
}

// Lends a table and an output to a move of tables.
fn run_move<P: Print, F: FnOnce(&[u8], &mut [u8]) -> Result<u16, Refusal>>(
    rt: &P,
    line: &[u8],
    to_version: F,
)
    requires { F.IsAlwaysCallable to_version }
{
    let mut table = Bytes::new();
    read_bytes(field(line, 1), &mut table);
    let mut output = Bytes::new();
    read_bytes(field(line, 2), &mut output);
    print_accepted(rt, to_version(&table, &mut output));
    let _ = println!(rt; " {}", Hex(&output));
}

fn print_accepted<P: Print>(rt: &P, verdict: Result<u16, Refusal>) {
    let _ = match verdict {
        Ok(n) => print!(rt; "accepted {n}"),
        Err(why) => print!(rt; "{}", Refused(why)),
    };
}

// A refusal: its number, and its place.
#[derive(Clone, Copy)]
struct Refused(Refusal);

impl fmt::Display for Refused {
    fn fmt<W: fmt::Write>(&self, f: &mut fmt::Formatter<W>) -> fmt::Result {
        let place = places::place(self.0);
        write!(f, "refused {} {} {}", place.number, place.step, place.plan)
    }
}

// Bytes, two digits each.
#[derive(Clone, Copy)]
struct Hex<'a>(&'a [u8]);

impl fmt::Display for Hex<'_> {
    fn fmt<W: fmt::Write>(&self, f: &mut fmt::Formatter<W>) -> fmt::Result {
        for b in self.0 {
            write!(f, "{b:02x}")?;
        }
        Ok(())
    }
}
