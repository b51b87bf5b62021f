// What a time annotation is, and what a question about one is answered: the words of document 003, section 13.2. The definitions are in
// specs/, their laws in proofs/; the code that decides them is crate `pattern`. Assumes nothing.
#![tactic(auto)]

// A time annotation: four shifts from a reference point, and two durations. A number of minutes z is coded as z + 4,000,000,000; a bound
// that is open is None.
#[derive(Clone, Copy)]
pub struct Annotation {
    pub ess: Option<u64>,
    pub lss: Option<u64>,
    pub efs: Option<u64>,
    pub lfs: Option<u64>,
    pub least: u64,
    pub greatest: Option<u64>,
    pub reference: u64,
}

// What a question about a pattern is answered that is not refused: satisfied, with the earliest interval that satisfies; not yet, but it
// still can be; or neither.
#[derive(Clone, Copy)]
pub enum Judgement {
    Satisfied { first: u64, last: u64 },
    Satisfiable,
    Neither,
}

// How the code decides: the bounds of an annotation as minutes, an open one as a minute beyond all that are asked about. Numbers and no
// Options here: each test of a window is then one comparison, with no case for an open bound.
#[derive(Clone, Copy)]
pub struct Window {
    pub ess: u64,
    pub lss: u64,
    pub efs: u64,
    pub lfs: u64,
    pub least: u64,
    pub greatest: u64,
}

// How the code decides: what a pass over the samples has come to. An interval that satisfies, no run of true minutes, or one that goes on
// since a minute. Three ways with a value each of its own, so neither an Option nor a Result.
#[derive(Clone, Copy)]
pub enum Pass {
    Found { first: u64, last: u64 },
    Off,
    Since(u64),
}
