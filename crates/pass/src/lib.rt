// One pass over all plans of a step, and what stands around it: the picks of the words before it, the new states beside the old ones and
// the causes after it. The step, the run and the checker all go through it; the checker asks for no causes. Each function costs O(n) for n
// plans; nothing is allocated. Assumes a table that passes, its facts, and the words of the old states (`StepFacts`).
#![tactic(auto)]

ghost use Rattle.std.specs.Prelude.{◌≡◌, ℕ, ◌*◌, ◌≤◌, ◌<◌, length, take};
ghost use Rattle.rules.specs.Lists.{same};
ghost use Rattle.rules.specs.Table.{plan_count};
ghost use Rattle.rules.specs.Step.{step_under};
ghost use Rattle.children.specs.Sets.{Beyond};
ghost use Rattle.family.specs.StepFacts.{picks_of, StepFacts, Names};
ghost use Rattle.moves.specs.Causes.{causes_told};
ghost use Rattle.moves.specs.MoveFacts.{CauseFacts};
ghost use Rattle.pass.specs.Taken.{Taken};

use family::Scene;
use moves::{cause, next_state};
use reading::word_at;
use rules::pick_of;

// One step from the old states into `new`, by the rule and under the picks: plans move in table order. The step, the run and the checker
// all go through this one loop, the only caller of a move, which is then compiled into it.
pub fn advance(scene: &Scene, new: &mut [u8])
    requires facts { StepFacts scene.now.table.now scene.now.old.now scene.now.ranks.now scene.now.sets.now scene.now.picks.now }
    requires names { Names scene.now.table.now scene.now.names.now }
    requires room { (scene.now.n ≡ plan_count scene.now.table.now) × (scene.now.n ≤ length new.old)
        × (4 * scene.now.n ≤ length scene.now.words.now) }
    ensures moved { take scene.now.n new.new
        ≡ step_under scene.now.rule scene.now.table.now scene.now.old.now scene.now.words.now (picks_of scene.now.picks.now) }
    ensures rest { Beyond scene.now.n new.old new.new }
{
    // its own copy, which no write to `new` can change: so the compiler reads its fields once, and not again for each plan
    let scene = *scene;
    // `new` is read by the move while it is written: no iterator over it
    for p in 0..scene.n {
        new[p] = u8::from(next_state(&scene, new, p));
    }
}

// The picks of the words.
pub fn take_picks(words: &[u8], n: usize, picks: &mut [u8])
    requires { (4 * n ≤ length words.now) × (n ≤ length picks.old) }
    ensures taken { Taken words.now n picks.new }
    ensures rest { Beyond n picks.old picks.new }
{
    for (p, pick) in picks[..n].iter_mut().enumerate() {
        *pick = pick_of(word_at(words, p)) as u8;
    }
}

// Tells why each plan went from its old state to its new one. It asks for no `Scene`: before the first step of a run there is none.
pub fn tell_causes(table: &[u8], old: &[u8], words: &[u8], new: &[u8], causes: &mut [u8])
    requires { (p : ℕ) → p < length causes.old → CauseFacts table.now old.now words.now new.now p }
    ensures { causes.new ≡ causes_told table.now old.now words.now new.now
        (length causes.old) }
{
    for (p, told) in causes.iter_mut().enumerate() {
        *told = u8::from(cause(table, old, words, new, p));
    }
}

// Copies the new states over the states.
pub fn take_over(new: &[u8], states: &mut [u8])
    requires { length states.old ≤ length new.now }
    ensures { states.new ≡ take (length states.old) new.now }
{
    // place by place, and no `copy_from_slice`: a host in C would have to bring a memmove for it, beside memcpy and memset
    for (p, state) in states.iter_mut().enumerate() {
        *state = new[p];
    }
}

// Whether the new states are the states.
pub fn unchanged(new: &[u8], states: &[u8]) -> bool
    requires { length states.now ≤ length new.now }
    ensures { result ≡ same (take (length states.now) new.now) states.now }
{
    let n = states.len();
    &new[..n] == states
}
