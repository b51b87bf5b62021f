// A plan's state as a call lends it, of eight bytes (document 02 (x)): takes the states out, a byte each, looks for a filler byte that is
// not 0 and for a number that a step may not have, and lays down what a step leaves. `Stored` of specs/ has the layout, which
// only this crate's code knows too. Each function costs O(n) for n plans; nothing is allocated. Assumes that there are eight bytes for each
// plan, as who calls has looked at the length.
// The bytes stay flat, with n beside them: so the C interface is to lend them, and `states_in` and `stamped` are over such bytes.
// The loops stay `for p in 0..n`: each turn reads one slice and writes another, at places that eight bytes a plan part.
#![tactic(auto)]

ghost use Rattle.std.specs.Prelude.{◌≡◌, cond, ◌+◌, ◌*◌, ◌≤◌, leb, length};
ghost use Rattle.rules.specs.Lists.{some_below};
ghost use Rattle.rules.specs.States.{state_of};
ghost use Rattle.stored.specs.Stored.{state_byte, filled, since_at, states_in, eight_bytes, enters, since_after, stamped};
ghost use Rattle.lowest.specs.Lowest.{Lowest};
ghost use Rattle.output.specs.Output.{Appended};

use output::put;
use reading::u32_at;
use rules::PlanState;

// Copies the states of n plans, a byte each.
pub fn take_states(stored: &[u8], n: usize, states: &mut [u8])
    requires { (8 * n ≤ length stored.now) × (n ≤ length states.old) }
    ensures { Appended states.old 0 (states_in n stored.now) states.new n }
{
    for p in 0..n {
        states[p] = stored[8 * p];
    }
}

// A part of check 11: the lowest of n plans with a filler byte that is not 0.
pub fn lowest_filled(stored: &[u8], n: usize) -> Option<usize>
    requires { 8 * n ≤ length stored.now }
    ensures { Lowest (filled stored.now) n result }
{
    (0..n).find(|&p| is_filled(stored, p))
}

// Whether plan p has such a byte.
fn is_filled(stored: &[u8], p: usize) -> bool
    requires { 8 * p + 8 ≤ length stored.now }
    ensures { result ≡ filled stored.now p }
{
    (stored[8 * p + 1] != 0) | (stored[8 * p + 2] != 0) | (stored[8 * p + 3] != 0)
}

// A part of check 25: whether some of n plans has stored this number or a higher one.
pub fn is_reached(number: u32, stored: &[u8], n: usize) -> bool
    requires { 8 * n ≤ length stored.now }
    ensures { result ≡ some_below (λ p. leb number (since_at stored.now p)) n }
{
    (0..n).any(|p| number <= u32_at(stored, 8 * p + 4))
}

// Lays down what a step with this number leaves of n plans, once their new states are known.
pub fn stamp(new: &[u8], n: usize, number: u32, stored: &mut [u8])
    requires { (n ≤ length new.now) × (length stored.old ≡ 8 * n) }
    ensures { stored.new ≡ stamped n stored.old new.now number }
{
    for p in 0..n {
        stamp_plan(new[p], number, stored, p);
    }
}

// Lays down what it leaves of plan p.
fn stamp_plan(state: u8, number: u32, stored: &mut [u8], p: usize) -> usize
    requires { 8 * p + 8 ≤ length stored.old }
    ensures { Appended stored.old (8 * p) (eight_bytes state (since_after number
        (state_of (state_byte stored.old p)) (state_of state) (since_at stored.old p))) stored.new result }
{
    let old = PlanState::from_byte(stored[8 * p]);
    let since = since_after(
        number,
        old,
        PlanState::from_byte(state),
        u32_at(stored, 8 * p + 4),
    );
    put_eight(state, since, stored, 8 * p)
}

// The number that a plan has stored after a step with this number, by its states before and after it and the number before.
fn since_after(number: u32, old: PlanState, new: PlanState, since: u32) -> u32
    ensures { result ≡ since_after number old new since }
{
    if enters(old, new) { number } else { since }
}

// Whether a plan enters Activated: from Ready or Suspended.
fn enters(old: PlanState, new: PlanState) -> bool
    ensures { result ≡ enters old new }
{
    matches!(old, PlanState::Ready | PlanState::Suspended) && new == PlanState::Activated
}

// Puts a plan's eight bytes there.
fn put_eight(state: u8, since: u32, stored: &mut [u8], at: usize) -> usize
    requires { at + 8 ≤ length stored.old }
    ensures { Appended stored.old at (eight_bytes state since) stored.new result }
{
    let [a, b, c, d] = since.to_le_bytes();
    put(&[state, 0, 0, 0, a, b, c, d], stored, at)
}
