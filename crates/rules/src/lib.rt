// What a plan, its table entry and its input word are, and what every call answers: the words of documents 01 and 02.
// The rules themselves are the definitions of specs/; each function here meets one of them. Assumes nothing.
#![tactic(auto)]

ghost use Rattle.std.specs.Prelude.{◌≡◌, ◌<◌, leb};
ghost use Rattle.std.specs.Int.Count.{ones};
ghost use Rattle.rules.specs.Bytes.{is_set};
ghost use Rattle.rules.specs.States.{code, state_of, in_selection, in_execution, ended, has_run, cause_code};
ghost use Rattle.rules.specs.Table.{body_of, of_two, retry_aborted, wait_for_optional, named, bit_of};
ghost use Rattle.rules.specs.WaitFor.{joined, asks};
ghost use Rattle.rules.specs.Answers.{is_rule};
ghost use Rattle.rules.specs.Words.{pick_of, holds, satisfiable};

// The state of a plan.
#[derive(Clone, Copy, PartialEq, Eq)]
pub enum PlanState {
    Inactive,
    Considered,
    Possible,
    Ready,
    Activated,
    Suspended,
    Completed,
    Aborted,
    Rejected,
}

impl PlanState {
    pub const INACTIVE: u8 = 0;

    pub const CONSIDERED: u8 = 1;

    pub const POSSIBLE: u8 = 2;

    pub const READY: u8 = 3;

    pub const ACTIVATED: u8 = 4;

    pub const SUSPENDED: u8 = 5;

    pub const COMPLETED: u8 = 6;

    pub const ABORTED: u8 = 7;

    pub const REJECTED: u8 = 8;

    // The state whose code is b. A byte above 8 is no code: check 11 or 15 refuses it, and here it counts as Rejected. Document 01 asks for
    // the constants and for this function of the type, so there is no `TryFrom`, which would leave each caller a case that cannot come.
    pub fn from_byte(b: u8) -> PlanState
        ensures { result ≡ state_of b }
    {
        match b {
            PlanState::INACTIVE => PlanState::Inactive,
            PlanState::CONSIDERED => PlanState::Considered,
            PlanState::POSSIBLE => PlanState::Possible,
            PlanState::READY => PlanState::Ready,
            PlanState::ACTIVATED => PlanState::Activated,
            PlanState::SUSPENDED => PlanState::Suspended,
            PlanState::COMPLETED => PlanState::Completed,
            PlanState::ABORTED => PlanState::Aborted,
            PlanState::REJECTED => PlanState::Rejected,
            _ => PlanState::Rejected,
        }
    }

    // Whether the plan is in selection.
    pub fn in_selection(self) -> bool
        ensures { result ≡ in_selection self }
    {
        matches!(
            self,
            PlanState::Considered | PlanState::Possible | PlanState::Ready
        )
    }

    // Whether the plan is in execution.
    pub fn in_execution(self) -> bool
        ensures { result ≡ in_execution self }
    {
        matches!(self, PlanState::Activated | PlanState::Suspended)
    }

    // Whether the plan has ended.
    pub fn is_ended(self) -> bool
        ensures { result ≡ ended self }
    {
        matches!(
            self,
            PlanState::Completed | PlanState::Aborted | PlanState::Rejected
        )
    }

    // Whether the plan is Activated, Suspended, Completed or Aborted.
    pub fn has_run(self) -> bool
        ensures { result ≡ has_run self }
    {
        matches!(
            self,
            PlanState::Activated | PlanState::Suspended | PlanState::Completed | PlanState::Aborted
        )
    }
}

// The code of a state.
impl From<PlanState> for u8 {
    ghost from_gives = { λ state b. b ≡ code state };

    fn from(state: PlanState) -> u8 {
        match state {
            PlanState::Inactive => PlanState::INACTIVE,
            PlanState::Considered => PlanState::CONSIDERED,
            PlanState::Possible => PlanState::POSSIBLE,
            PlanState::Ready => PlanState::READY,
            PlanState::Activated => PlanState::ACTIVATED,
            PlanState::Suspended => PlanState::SUSPENDED,
            PlanState::Completed => PlanState::COMPLETED,
            PlanState::Aborted => PlanState::ABORTED,
            PlanState::Rejected => PlanState::REJECTED,
        }
    }
}

// Why a plan moved in a step, in the order of the codes.
#[derive(Clone, Copy)]
#[repr(u8)]
pub enum Cause {
    Unmoved,
    Ordered,
    OwnCondition,
    ChildrenLost,
    Forced,
}

// The code of a cause.
impl From<Cause> for u8 {
    ghost from_gives = { λ cause b. b ≡ cause_code cause };

    fn from(cause: Cause) -> u8 {
        cause as u8
    }
}

// The body of a plan: how it orders its children about.
#[derive(Clone, Copy, PartialEq, Eq)]
pub enum Body {
    Leaf,
    Sequential,
    Parallel,
    AnyOrder,
    Unordered,
    OnAbort,
    OnSuspend,
    OnAbortOrSuspend,
    IfThenElse,
}

impl Body {
    // Whether the body is one of two children: 5 to 8.
    pub fn is_of_two(self) -> bool
        ensures { result ≡ of_two self }
    {
        matches!(
            self,
            Body::OnAbort | Body::OnSuspend | Body::OnAbortOrSuspend | Body::IfThenElse
        )
    }
}

// A condition of a plan, in the order of the bits.
#[derive(Clone, Copy)]
pub enum Condition {
    Filter,
    Setup,
    Suspend,
    Reactivate,
    Abort,
    Complete,
}

impl Condition {
    // The bit that stands for the condition in a plan's bytes 4 to 6 and, from several places on, in its input word.
    pub fn bit(self) -> u32
        ensures is { result ≡ bit_of self }
        ensures small { result < 6 }
    {
        self as u32
    }
}

// Whether bit k of x is set.
pub fn is_set(x: u32, k: u32) -> bool
    requires { k < 32 }
    ensures { result ≡ is_set k x }
{
    (x >> k) % 2 == 1
}

// What a pattern stands for in an input word: a condition of a plan, or the one that its if-then-else asks.
#[derive(Clone, Copy)]
pub enum Pattern {
    Of(Condition),
    If,
}

// A plan's eight bytes of the table.
#[derive(Clone, Copy)]
pub struct PlanEntry {
    pub parent: u16,
    pub body: u8,
    pub flags: u8,
    pub present: u8,
    pub manual: u8,
    pub overridable: u8,
    pub wait: u8,
}

impl PlanEntry {
    // The conditions that hold of a plan that lacks them, a bit for each: 0 filter, 1 setup, 3 reactivate and 5 complete.
    const ABSENT_HOLDS: u32 = 0b10_1011;

    // The conditions that hold of the plan under its input word, a bit for each: all six at once, since a plan asks for several.
    fn holding(self, word: u32) -> u32
        ensures { (c : Condition) → is_set (bit_of c) result ≡ holds c self word }
    {
        let present = u32::from(self.present);
        let manual = u32::from(self.manual);
        let overridable = u32::from(self.overridable);
        let held = (word & (!manual | (word >> 8))) | (overridable & (word >> 14));
        (present & held) | (!present & PlanEntry::ABSENT_HOLDS)
    }

    // Whether the condition holds of the plan under its input word.
    pub fn holds(self, c: Condition, word: u32) -> bool
        ensures { result ≡ holds c self word }
    {
        is_set(self.holding(word), c.bit())
    }

    // Whether the plan's filter or setup is satisfiable under its input word.
    pub fn satisfiable(self, c: Condition, word: u32) -> bool
        ensures { result ≡ satisfiable c self word }
    {
        let k = c.bit();
        !is_set(u32::from(self.present), k)
            | is_set(word, 6 + k)
            | is_set(u32::from(self.overridable), k)
    }

    // The plan's body. A byte above 8 is none: check 7 refuses it, and here it counts as if-then-else.
    pub fn body_kind(self) -> Body
        ensures { result ≡ body_of self }
    {
        match self.body {
            0 => Body::Leaf,
            1 => Body::Sequential,
            2 => Body::Parallel,
            3 => Body::AnyOrder,
            4 => Body::Unordered,
            5 => Body::OnAbort,
            6 => Body::OnSuspend,
            7 => Body::OnAbortOrSuspend,
            _ => Body::IfThenElse,
        }
    }

    // Whether the plan retries its aborted children.
    pub fn retries_aborted(self) -> bool
        ensures { result ≡ retry_aborted self }
    {
        is_set(u32::from(self.flags), 0)
    }

    // Whether the plan waits for its optional children too.
    pub fn waits_for_optional(self) -> bool
        ensures { result ≡ wait_for_optional self }
    {
        is_set(u32::from(self.flags), 1)
    }

    // Whether the plan is named in its parent's wait-for.
    pub fn is_named(self) -> bool
        ensures { result ≡ named self }
    {
        is_set(u32::from(self.flags), 2)
    }

    // Whether wait-for holds, by the wait number, of a set of named children, a bit for each.
    pub fn wait_for(self, set: u64) -> bool
        ensures { result ≡ leb self.wait (ones set) }
    {
        // m is 0 of every leaf and of most plans: nothing to count
        if self.wait == 0 {
            return true;
        }
        at_least(u32::from(self.wait), set)
    }
}

// Whether at least m children are in a set, a bit for each.
pub fn at_least(m: u32, set: u64) -> bool
    ensures { result ≡ leb m (ones set) }
{
    m <= set.count_ones()
}

// A node of a wait-for formula: its four bytes of a table of version 2.
#[derive(Clone, Copy)]
pub struct Node {
    pub kind: u8,
    pub a: u8,
    pub b: u8,
    pub last: u8,
}

// How a node joins what two others ask.
#[derive(Clone, Copy)]
pub enum Joint {
    And,
    Or,
    Xor,
}

impl Joint {
    // The two truths, joined.
    pub fn join(self, a: bool, b: bool) -> bool
        ensures { result ≡ joined self a b }
    {
        match self {
            Joint::And => a & b,
            Joint::Or => a | b,
            Joint::Xor => a != b,
        }
    }
}

// What a node asks of a set of children: the child of a rank, not what another node asks, what two others ask, joined, or a number of
// named children.
#[derive(Clone, Copy)]
pub enum Asks {
    Child(u8),
    Not(u8),
    Join(Joint, u8, u8),
    AtLeast(u8),
}

impl Node {
    // What the node asks. A kind above 5 is none: check 22 refuses it, and here it counts as 5.
    pub fn asks(self) -> Asks
        ensures { result ≡ asks self }
    {
        match self.kind {
            0 => Asks::Child(self.a),
            1 => Asks::Not(self.a),
            2 => Asks::Join(Joint::And, self.a, self.b),
            3 => Asks::Join(Joint::Or, self.a, self.b),
            4 => Asks::Join(Joint::Xor, self.a, self.b),
            _ => Asks::AtLeast(self.a),
        }
    }
}

// What a parent orders a child to do.
#[derive(Clone, Copy)]
pub struct Orders {
    pub considers: bool,
    pub activates: bool,
    pub retries: bool,
}

// Why a call is refused: the answer numbers of documents 01 and 02, in their order. A call that answers only whether it is refused answers
// `Result<(), Refusal>`; one that counts plans, steps or bytes hands out the number; the run to rest and the figure for it answer
// `Result<Option<u16>, Refusal>`, with no number where the run has not come to rest, or no figure is known.
#[derive(Clone, Copy)]
pub enum Refusal {
    TableShort,
    TableMark,
    TableVersion,
    TableCount,
    TableLength,
    Parent { plan: u16 },
    Undefined { plan: u16 },
    Unfit { plan: u16 },
    Wait { plan: u16 },
    Lengths,
    State { plan: u16 },
    Word { step: u16, plan: u16 },
    RecordHeader,
    RecordLength,
    Unexplained { step: u16, plan: u16 },
    InputLong,
    RuleNumber,
    ValueRange,
    ManySamples,
    TimesOrder,
    NoInterval,
    Formula { node: u16 },
    NodeKind,
    OutputShort,
    NormalRange,
}

// The number of a refusal and its place: unnamed places are 0.
#[derive(Clone, Copy)]
pub struct Place {
    pub number: u8,
    pub step: u16,
    pub plan: u16,
}

// Whether there is a rule of this number: 1, the old one, or 2, the new one.
pub fn is_rule(rule: u32) -> bool
    ensures { result ≡ is_rule rule }
{
    (rule == 1) | (rule == 2)
}

// The pick of an input word.
pub fn pick_of(x: u32) -> u32
    ensures is { result ≡ pick_of x }
    ensures small { result < 64 }
{
    (x >> 24) % 64
}
