// What a plan is told by its family, from the words of children by state: what its parent orders it to do, and whether too many of its own
// children are lost or they let it complete. Document 01, 'One step'. Every function here costs O(1); where a plan waits for a formula,
// what asks it costs O(its nodes). Assumes a table that has passed its checks and the words of its plans' children (`StepFacts`).
#![tactic(auto)]

ghost use Rattle.std.specs.Prelude.{◌≡◌, ◌+◌, ◌*◌, ◌<◌, ◌≤◌, length, get_or, [], ◌∷◌};
ghost use Rattle.rules.specs.States.{code};
ghost use Rattle.rules.specs.Table.{plan_count};
ghost use Rattle.rules.specs.declared.PlanState.TheVariants.{Inactive, Considered, Possible, Activated, Suspended};
ghost use Rattle.rules.specs.Step.{orders_of_two, orders_of, after_abort, after_suspend};
ghost use Rattle.rules.specs.Step.{chosen as Step·chosen};
ghost use Rattle.family.specs.ChildWords.{HasWords};
ghost use Rattle.family.specs.Tells.{TellsFirstNotDone, TellsGate, TellsMayActivate, TellsChosenRank, TellsOrders, TellsOrdersIf};
ghost use Rattle.family.specs.Tells.{unended, kept_states, TellsEachEnded, TellsAllEnded, TellsLost, TellsComplete, TellsWord};
ghost use Rattle.family.specs.Tells.{TellsBadTurn, TellsBranch, TellsDue, TellsBothEnded};
ghost use Rattle.family.specs.StepFacts.{picks_of, StepFacts, NamedWords, OwnChildren};
ghost use Rattle.family.specs.OrdersAt.{orders_at};

use formulas::{wait_for, waits_for_none};
use reading::{entry_at, parent_at, word_at};
use rules::{Body, Orders, PlanEntry, PlanState, is_set};

// What all plans of a step read. No ghost field says what of it must hold: docs name the functions below, so that they may ask no more than
// they did, and they ask for different things. `rule` is a number, since the definitions and the C interface speak of every number.
#[derive(Clone, Copy)]
pub struct Scene<'a> {
    // the number of the rule, which says what children are lost
    pub rule: u32,
    // the plans' entries, and how many plans there are
    pub table: &'a [u8],
    pub n: usize,
    // for each plan its rank among its siblings
    pub ranks: &'a [u8],
    // for each plan its children that are named in its wait-for; from n on, how many of these it waits for
    pub names: &'a [u64],
    // for each plan its children by old state
    pub sets: &'a [u64],
    // for each plan the rank that it picks
    pub picks: &'a [u8],
    // the states before the step
    pub old: &'a [u8],
    // the plans' input words
    pub words: &'a [u8],
}

impl<'a> Scene<'a> {
    // Whether plan p's parent considers, activates or retries it, by the parent's body, its children and its word (RULES section 6): none
    // of them unless the parent was and stays Activated, and the last only if the parent has retry-aborted. The root moves as if it had a
    // parent that considers it when Inactive and activates it when Ready; nobody retries it.
    #[inline(always)]
    pub fn orders(&self, after: PlanState, p: usize) -> Orders
        requires facts { StepFacts self.now.table.now self.now.old.now self.now.ranks.now self.now.sets.now self.now.picks.now }
        requires named { NamedWords self.now.table.now self.now.names.now }
        requires plan { (p < plan_count self.now.table.now) × (4 * p + 4 ≤ length self.now.words.now) }
        ensures { result ≡ orders_at self.now.table.now self.now.old.now self.now.words.now
            (Step·chosen self.now.table.now self.now.old.now (picks_of self.now.picks.now)) after p }
    {
        // compiled into the move that asks: a call would be handed the scene, and for that alone it would have to lie in memory
        if p == 0 {
            return ROOT_ORDERS;
        }
        let q = parent_at(self.table, p);
        let before = PlanState::from_byte(self.old[q]);
        let rank = u32::from(self.ranks[p]);
        let siblings = self.children(q);
        let chosen = rank == siblings.chosen_rank(self.names[q], u32::from(self.picks[q]));
        let e = entry_at(self.table, q);
        siblings.orders_if(before, after, e, word_at(self.words, q), rank, chosen)
    }

    // Whether too many children of plan p are lost: wait-for (RULES 3.9) does not hold of those that were not lost. Lost are those that
    // were Rejected or Aborted; by rule 2 (RULES 1.8), if p has retry-aborted, those that were Rejected only.
    pub fn too_many_lost(&self, p: usize) -> bool
        requires { OwnChildren self.now.table.now self.now.n self.now.names.now self.now.sets.now p }
        ensures { TellsLost self.now.sets.now p self.now.rule self.now.table.now result }
    {
        // most plans wait for none: no word is put together for them
        if waits_for_none(self.n, self.names, p) {
            return false;
        }
        let again = entry_at(self.table, p).retries_aborted();
        let kept = self.children(p).not_lost(self.rule, again);
        !wait_for(self.table, self.n, self.names, p, kept)
    }

    // Whether the children of plan p let it complete: wait-for holds of those that were Completed, and, with wait-for-optional, all were
    // ended; of the two children of a body 5 to 8 an Inactive one can count as ended (RULES 5.19).
    pub fn may_complete(&self, p: usize) -> bool
        requires { OwnChildren self.now.table.now self.now.n self.now.names.now self.now.sets.now p }
        ensures { TellsComplete self.now.sets.now p self.now.table.now result }
    {
        let children = self.children(p);
        let completed = children.in_state(PlanState::Completed);
        if !wait_for(self.table, self.n, self.names, p, completed) {
            return false;
        }
        let e = entry_at(self.table, p);
        if !e.waits_for_optional() {
            return true;
        }
        children.all_ended(e.body_kind())
    }

    // The children of plan q.
    fn children(&self, q: usize) -> Children<'a>
        requires { HasWords self.now.sets.now q }
        ensures { (result.sets.now ≡ self.now.sets.now) × (result.q ≡ q) }
    {
        Children { sets: self.sets, q }
    }
}

// The children of plan q: nine words among those of all plans, one for each state, a bit for each rank.
#[derive(Clone, Copy)]
struct Children<'a> {
    sets: &'a [u64],
    q: usize,
    ghost has_words: { HasWords sets.now q },
}

impl<'a> Children<'a> {
    // What q orders a child, given q's states before and after: nothing unless it was and stays Activated.
    fn orders_if(
        &self,
        before: PlanState,
        after: PlanState,
        e: PlanEntry,
        word: u32,
        rank: u32,
        chosen: bool,
    ) -> Orders
        ensures { TellsOrdersIf self.now.sets.now self.now.q before after e word rank chosen result }
    {
        if (before == PlanState::Activated) & (after == PlanState::Activated) {
            return self.orders_to(e, word, rank, chosen);
        }
        NO_ORDERS
    }

    // What q, by its entry and input word, orders its child of a rank; `chosen` says that this is the child that an any-order plan would
    // activate.
    fn orders_to(&self, e: PlanEntry, word: u32, rank: u32, chosen: bool) -> Orders
        ensures { TellsOrders self.now.sets.now self.now.q e word rank chosen result }
    {
        let body = e.body_kind();
        let again = e.retries_aborted();
        let is_next = rank == self.first_not_done(again);
        let is_chosen = self.may_activate(again) & chosen;
        let is_due = self.due(body, word, rank == 0);
        orders_by(body, again, is_next, self.gate_open(), is_chosen, is_due)
    }

    // Whether q, whose body is one of two, considers its first child, or its second; of other bodies the answer is not read.
    fn due(&self, body: Body, word: u32, is_first: bool) -> bool
        ensures { TellsDue self.now.sets.now self.now.q body word is_first result }
    {
        if body == Body::IfThenElse {
            return self.branch_taken(word, is_first);
        }
        is_first | self.bad_turn(body)
    }

    // If-then-else: while both children are Inactive, the first is considered if the condition is satisfied, the second if it is not
    // satisfiable.
    fn branch_taken(&self, word: u32, is_first: bool) -> bool
        ensures { TellsBranch self.now.sets.now self.now.q word is_first result }
    {
        let open = self.in_state(PlanState::Inactive) == 3;
        if is_first {
            return open & is_set(word, 20);
        }
        open & !is_set(word, 21)
    }

    // Whether the first child has taken the turn for which the second is there.
    fn bad_turn(&self, body: Body) -> bool
        ensures { TellsBadTurn self.now.sets.now self.now.q body result }
    {
        let aborted = self.in_state(PlanState::Aborted) % 2 == 1;
        let suspended = self.in_state(PlanState::Suspended) % 2 == 1;
        (after_abort(body) & aborted) | (after_suspend(body) & suspended)
    }

    // The rank of the child that q, an any-order plan whose named children are the word `named`, activates under a pick: the Ready child
    // of that rank, else the lowest that is Ready and named, else the lowest that is Ready; with none 64, which no child has as its rank:
    // no Option, since trailing zeros are the form that document 01 names.
    fn chosen_rank(&self, named: u64, pick: u32) -> u32
        requires { pick < 64 }
        ensures { TellsChosenRank self.now.sets.now self.now.q named pick result }
    {
        let ready = self.in_state(PlanState::Ready);
        if (ready >> pick) % 2 == 1 {
            return pick;
        }
        let mandatory = ready & named;
        if mandatory != 0 {
            return mandatory.trailing_zeros();
        }
        ready.trailing_zeros()
    }

    // The rank of the first child that is not done; with none, a number that no child has as its rank: trailing zeros again.
    fn first_not_done(&self, again: bool) -> u32
        ensures { TellsFirstNotDone self.now.sets.now self.now.q again result }
    {
        let done = self.in_state(PlanState::Completed) | self.in_state(PlanState::Rejected);
        let aborted = self.in_state(PlanState::Aborted);
        if again {
            return (!done).trailing_zeros();
        }
        (!(done | aborted)).trailing_zeros()
    }

    // Whether the gate of q, a parallel plan, is open.
    fn gate_open(&self) -> bool
        ensures { TellsGate self.now.sets.now self.now.q result }
    {
        let over = self.in_state(PlanState::Completed) | self.in_state(PlanState::Aborted);
        (self.before_ready() == 0) | ((self.running() | over) != 0)
    }

    // Whether q, an any-order plan, may activate a child.
    fn may_activate(&self, again: bool) -> bool
        ensures { TellsMayActivate self.now.sets.now self.now.q again result }
    {
        (self.running() == 0) & !(again & (self.in_state(PlanState::Aborted) != 0))
    }

    // Those that are not lost by a rule, as a word; `again` is q's retry-aborted.
    fn not_lost(&self, rule: u32, again: bool) -> u64
        ensures { TellsWord self.now.sets.now self.now.q (kept_states rule again) result }
    {
        let others = self.not_ended() | self.in_state(PlanState::Completed);
        // read before the test, so that no branch comes of it
        let aborted = self.in_state(PlanState::Aborted);
        if (rule == 2) & again {
            return others | aborted;
        }
        others
    }

    // Whether all are ended; of a body of two, whether both count as ended.
    fn all_ended(&self, body: Body) -> bool
        ensures { TellsAllEnded self.now.sets.now self.now.q body result }
    {
        if body.is_of_two() {
            return self.both_ended(body);
        }
        self.each_ended()
    }

    // Whether each is ended.
    fn each_ended(&self) -> bool
        ensures { TellsEachEnded self.now.sets.now self.now.q result }
    {
        self.not_ended() == 0
    }

    // Whether the two children count as ended: each is ended or Inactive, one is ended, and, where the second is there for an Aborted
    // first, it is not Inactive beside one.
    fn both_ended(&self, body: Body) -> bool
        ensures { TellsBothEnded self.now.sets.now self.now.q body result }
    {
        let idle = self.in_state(PlanState::Inactive);
        let aborted = self.in_state(PlanState::Aborted);
        let over = self.in_state(PlanState::Completed)
            | self.in_state(PlanState::Rejected)
            | aborted;
        let second_waits = after_abort(body) & (aborted == 1) & (idle == 2);
        ((idle | over) == 3) & (over != 0) & !second_waits
    }

    // Those that are not ended, as a word.
    fn not_ended(&self) -> u64
        ensures { TellsWord self.now.sets.now self.now.q unended result }
    {
        self.before_ready() | self.in_state(PlanState::Ready) | self.running()
    }

    // Those that have not come to be Ready, as a word.
    fn before_ready(&self) -> u64
        ensures { TellsWord self.now.sets.now self.now.q (Inactive ∷ Considered ∷ Possible ∷ []) result }
    {
        self.in_state(PlanState::Inactive)
            | self.in_state(PlanState::Considered)
            | self.in_state(PlanState::Possible)
    }

    // Those in execution, as a word.
    fn running(&self) -> u64
        ensures { TellsWord self.now.sets.now self.now.q (Activated ∷ Suspended ∷ []) result }
    {
        self.in_state(PlanState::Activated) | self.in_state(PlanState::Suspended)
    }

    // Those in a state, as a word.
    fn in_state(&self, state: PlanState) -> u64
        ensures { result ≡ get_or self.now.sets.now (self.now.q * 9 + code state) 0 }
    {
        self.sets[self.q * 9 + state as usize]
    }
}

// No orders, and what the root is ordered.
const NO_ORDERS: Orders = Orders {
    considers: false,
    activates: false,
    retries: false,
};

const ROOT_ORDERS: Orders = Orders {
    considers: true,
    activates: true,
    retries: false,
};

// What a plan orders one child, by the plan's body.
fn orders_by(
    body: Body,
    again: bool,
    is_next: bool,
    gate: bool,
    is_chosen: bool,
    is_due: bool,
) -> Orders
    ensures { result ≡ orders_of body again is_next gate is_chosen is_due }
{
    match body {
        Body::Leaf => NO_ORDERS,
        Body::Sequential => Orders {
            considers: is_next,
            activates: is_next,
            retries: again & is_next,
        },
        Body::Parallel => Orders {
            considers: true,
            activates: gate,
            retries: again,
        },
        Body::AnyOrder => Orders {
            considers: true,
            activates: is_chosen,
            retries: again,
        },
        Body::Unordered => Orders {
            considers: true,
            activates: true,
            retries: again,
        },
        Body::OnAbort | Body::OnSuspend | Body::OnAbortOrSuspend | Body::IfThenElse => {
            orders_of_two(is_due)
        }
    }
}

// What a plan with two children orders one of them.
fn orders_of_two(is_due: bool) -> Orders
    ensures { result ≡ orders_of_two is_due }
{
    Orders {
        considers: is_due,
        activates: true,
        retries: false,
    }
}

// Whether the second of two children is there for a first that is Aborted.
fn after_abort(body: Body) -> bool
    ensures { result ≡ after_abort body }
{
    matches!(body, Body::OnAbort | Body::OnAbortOrSuspend)
}

// Whether it is there for a first that is Suspended.
fn after_suspend(body: Body) -> bool
    ensures { result ≡ after_suspend body }
{
    matches!(body, Body::OnSuspend | Body::OnAbortOrSuspend)
}
