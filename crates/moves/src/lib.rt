// The next state of one plan: document 01's list, 'One step', line by line. Beside its parent's new state and its own conditions it reads
// what its family tells it (crate family). And, once it has moved, why it did. Every function here costs O(1); where a plan waits for a
// formula, what asks it costs O(its nodes). Assumes a table that has passed its checks and the words of its plans' children (`MoveFacts`).
#![tactic(auto)]

ghost use Rattle.std.specs.Prelude.{◌≡◌, ◌+◌, ◌*◌, ◌<◌, ◌≤◌, length};
ghost use Rattle.rules.specs.Table.{parent, entry};
ghost use Rattle.rules.specs.Words.{word};
ghost use Rattle.rules.specs.Words.{holds as Words·holds, satisfiable as Words·satisfiable};
ghost use Rattle.rules.specs.Step.{new_state};
ghost use Rattle.rules.specs.Step.{chosen as Step·chosen};
ghost use Rattle.family.specs.StepFacts.{picks_of};
ghost use Rattle.moves.specs.Parents.{parent_state};
ghost use Rattle.moves.specs.Causes.{cause_of_move, cause_told};
ghost use Rattle.moves.specs.MoveFacts.{OwnBytes, MoveFacts, CauseFacts};

use family::Scene;
use reading::{entry_at, parent_at, word_at};
use rules::{Cause, Condition, PlanState};

// The new state of plan p: document 01's list, 'By the parent's new state', from the top; where a state has several outcomes, the first
// whose test fits, and `else` means that none before it did. docs/MOVE.md lays list, definition and code side by side.
// To read it beside the list, begin at `let parent`: above that stands what the function is handed, and what is proved of it. `parent` is
// the parent's new state, `state` the plan's old one; each test asks for the rest itself. Left of `=>` stands what the plan was. A state
// alone on its line, or behind `return` or `=>`, is what the plan becomes, and `state` there says that it stays, which the list leaves
// unsaid at Inactive, Ready, Activated and Suspended. Of `PlanState::X` and `Condition::X` read the X. `parent == X`: the parent is X.
// Selection is Considered, Possible and Ready, execution Activated and Suspended, ended Completed, Aborted and Rejected.
// `scene.orders(..).considers`: the parent considers it; likewise `activates` and `retries`. Between tests and between states `|` is or,
// between tests `&` is and; `!` before a test is not. `||` is or too: it asks its right side only if the left says no, which spares plans
// under an Inactive one the rest of the first test.
// `scene` is what all plans of a step read (`Scene`): the rule, the table, the old states and input words, and what has been worked out of
// them beforehand. `new` has the new states of the plans before p, its parent's among them: parents stand before their children, and
// plans move in table order.
pub fn next_state(scene: &Scene, new: &[u8], p: usize) -> PlanState
    requires { MoveFacts scene.now.table.now scene.now.n scene.now.old.now scene.now.ranks.now scene.now.names.now
        scene.now.sets.now scene.now.picks.now scene.now.words.now new.now p }
    ensures { result ≡ new_state scene.now.rule scene.now.table.now scene.now.old.now scene.now.words.now
        (Step·chosen scene.now.table.now scene.now.old.now (picks_of scene.now.picks.now)) new.now p }
{
    let parent = parent_state(scene.table, new, p);
    let state = PlanState::from_byte(scene.old[p]);
    // by the parent's new state: Inactive or selection
    if (parent == PlanState::Inactive) || parent.in_selection() {
        return PlanState::Inactive;
    }
    // the parent has ended
    if parent.is_ended() {
        if state.in_selection() {
            return PlanState::Rejected;
        }
        if state.in_execution() {
            return PlanState::Aborted;
        }
        return state;
    }
    // what is left, Activated or Suspended: by the plan's old state
    match state {
        PlanState::Inactive => {
            if scene.orders(parent, p).considers {
                PlanState::Considered
            } else {
                state
            }
        }
        PlanState::Considered => {
            if holds(Condition::Filter, scene, p) {
                PlanState::Possible
            } else if !satisfiable(Condition::Filter, scene, p) {
                PlanState::Rejected
            } else {
                state
            }
        }
        PlanState::Possible => {
            if holds(Condition::Setup, scene, p) {
                PlanState::Ready
            } else if !satisfiable(Condition::Setup, scene, p) {
                PlanState::Rejected
            } else {
                state
            }
        }
        PlanState::Ready => {
            if scene.orders(parent, p).activates {
                PlanState::Activated
            } else {
                state
            }
        }
        PlanState::Activated => {
            if holds(Condition::Abort, scene, p) | scene.too_many_lost(p) {
                PlanState::Aborted
            } else if (parent == PlanState::Suspended) | holds(Condition::Suspend, scene, p) {
                PlanState::Suspended
            } else if holds(Condition::Complete, scene, p) & scene.may_complete(p) {
                PlanState::Completed
            } else {
                state
            }
        }
        PlanState::Suspended => {
            if holds(Condition::Abort, scene, p) | scene.too_many_lost(p) {
                PlanState::Aborted
            } else if (parent == PlanState::Activated) & holds(Condition::Reactivate, scene, p) {
                PlanState::Activated
            } else {
                state
            }
        }
        // the plan has ended
        PlanState::Completed | PlanState::Rejected => state,
        PlanState::Aborted => {
            if scene.orders(parent, p).retries {
                PlanState::Considered
            } else {
                state
            }
        }
    }
}

// Why plan p went from its old state to its new one (document 02 (ix)), where a step gave it that. The definition says the cause on the
// line of the list that fits; the line can be told afterwards, from the parent's new state, the two states and the plan's own abort. So
// whoever wants no causes, as the checker, does not pay for them (docs/BENCHMARKS.md).
pub fn cause(table: &[u8], old: &[u8], words: &[u8], new: &[u8], p: usize) -> Cause
    requires { CauseFacts table.now old.now words.now new.now p }
    ensures { result ≡ cause_told table.now old.now words.now new.now p }
{
    let was = PlanState::from_byte(old[p]);
    let state = PlanState::from_byte(new[p]);
    // most plans stay: nothing more is read of them
    if state == was {
        return Cause::Unmoved;
    }
    let aborts = entry_at(table, p).holds(Condition::Abort, word_at(words, p));
    cause_of_move(parent_state(table, new, p), aborts, was, state)
}

// Why a plan went from one state to another: by the parent's new state, and whether the plan's own abort holds.
fn cause_of_move(parent: PlanState, aborts: bool, was: PlanState, state: PlanState) -> Cause
    ensures { result ≡ cause_of_move parent aborts was state }
{
    // under a parent that is not in execution a plan is reset, Rejected or Aborted; under a Suspended one it is suspended
    if !parent.in_execution()
        | ((parent == PlanState::Suspended) & (state == PlanState::Suspended))
    {
        return Cause::Forced;
    }
    // considered, for the first time or again; and what was Ready is activated
    if (state == PlanState::Considered) | (was == PlanState::Ready) {
        return Cause::Ordered;
    }
    if (state == PlanState::Aborted) & !aborts {
        return Cause::ChildrenLost;
    }
    Cause::OwnCondition
}

// The state of plan p's parent, here its new one. The root moves as if it had a parent that was and stays Activated.
fn parent_state(table: &[u8], states: &[u8], p: usize) -> PlanState
    requires { (8 * p + 16 ≤ length table.now) × (0 < p → parent table.now p < length states.now) }
    ensures { result ≡ parent_state table.now states.now p }
{
    if p == 0 {
        return PlanState::Activated;
    }
    let q = parent_at(table, p);
    PlanState::from_byte(states[q])
}

// Whether a condition of plan p holds, by the plan's entry and input word (RULES 4.3). An absent suspend or abort never holds, any other
// absent condition always.
fn holds(c: Condition, scene: &Scene, p: usize) -> bool
    requires { OwnBytes scene.now.table.now scene.now.words.now p }
    ensures { result ≡ Words·holds c (entry scene.now.table.now p) (word scene.now.words.now p) }
{
    entry_at(scene.table, p).holds(c, word_at(scene.words, p))
}

// Whether plan p's filter or setup can still be satisfied, or is overridable (RULES 4.5).
fn satisfiable(c: Condition, scene: &Scene, p: usize) -> bool
    requires { OwnBytes scene.now.table.now scene.now.words.now p }
    ensures { result ≡ Words·satisfiable c (entry scene.now.table.now p) (word scene.now.words.now p) }
{
    entry_at(scene.table, p).satisfiable(c, word_at(scene.words, p))
}
