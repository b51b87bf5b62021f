// Checks the formulas of a table of version 2: 22, and 9 of the numbers that they ask for. Document 02 (v).
// All of it costs O(plans + nodes). Assumes a table that has passed the checks before 22.
// A `for` over plans or nodes stays where each turn writes the places of a buffer that the plan's or the node's own bytes name: no chain
// or method hands on a slice's places in such an order, so it would be the same loop.
#![tactic(auto)]

ghost use Rattle.std.specs.Prelude.{◌≡◌, false, ◌||◌, ℕ, ◌<◌, ◌≤◌, leb, ltb, length};
ghost use Rattle.rules.specs.Lists.{least, some_below};
ghost use Rattle.rules.specs.WaitFor.{asks, operands, node_count, node};
ghost use Rattle.rules.specs.Answers.{◌and_then◌, refuse_at, stray_first, bad_bytes, bad_node, bad_rank, bad_wait, formulas_check};
ghost use Rattle.rules.specs.declared.Refusal.TheVariants.{Formula, Wait};
ghost use Rattle.children.specs.Sets.{Empty};
ghost use Rattle.lowest.specs.Lowest.{Lowest};
ghost use Rattle.nodes.specs.Checking.{HasNodes, Uses, used_once_more, used_each, bad_operands, FirstOwners, owned_each, Owners, Children};
ghost use Rattle.nodes.specs.Checking.{asks_beyond, asks_more, asking, asking_plan};

use reading::{entry_at, is_leaf, node_at, node_count};
use rules::{Asks, Node, Refusal, at_least};

// Checks 22 and 9 of a table of version 2, with its plans' numbers of children and named children.
pub fn check_formulas(table: &[u8], n: usize, counts: &[u8], names: &[u64]) -> Result<(), Refusal>
    requires { HasNodes table.now n (node_count table.now) × Children table.now n counts.now names.now }
    ensures { result ≡ (formulas_check table.now and_then refuse_at Wait (least (bad_wait table.now) n)) }
{
    let k = node_count(table);
    if 256 < k {
        return Err(Refusal::Formula { node: 0 });
    }
    let nodes = Nodes { table, n, k };
    if nodes.has_stray_first() {
        return Err(Refusal::Formula { node: 0 });
    }
    if let Some(node) = nodes.lowest_bad_node() {
        return Err(Refusal::Formula { node: node as u16 });
    }
    nodes.check_asked(counts, names)
}

// The k nodes of a table of version 2 of n plans: no more than a byte can number.
#[derive(Clone, Copy)]
struct Nodes<'a> {
    table: &'a [u8],
    n: usize,
    k: usize,
    ghost there: { HasNodes table.now n k },
    ghost few: { k ≤ 256 },
}

impl<'a> Nodes<'a> {
    // Whether the formula of some plan would begin with a node that is not there.
    fn has_stray_first(&self) -> bool
        ensures { result ≡ some_below (stray_first self.now.table.now) self.now.n }
    {
        (0..self.n).any(|p| self.is_stray_first(p))
    }

    // Whether that of plan p would.
    fn is_stray_first(&self, p: usize) -> bool
        requires { p < self.now.n }
        ensures { result ≡ stray_first self.now.table.now p }
    {
        let e = entry_at(self.table, p);
        !is_leaf(e) & (self.k <= usize::from(e.wait))
    }

    // The lowest node that breaks a rule of check 22 by its own bytes, its operands or its uses.
    fn lowest_bad_node(&self) -> Option<usize>
        ensures { Lowest (bad_node self.now.table.now) self.now.k result }
    {
        let mut uses = [0u8; 256];
        self.count_firsts(&mut uses);
        self.count_asked(&mut uses);
        (0..self.k).find(|&i| self.is_bad_node(&uses, i))
    }

    // Counts the uses of nodes as the first ones of plans' formulas.
    fn count_firsts(&self, uses: &mut [u8])
        requires { Uses self.now.table.now 0 0 «uses».old }
        ensures { Uses self.now.table.now self.now.n 0 «uses».new }
    {
        for p in 0..self.n {
            let e = entry_at(self.table, p);
            if !is_leaf(e) {
                count_use(uses, e.wait);
            }
        }
    }

    // Counts those as operands.
    fn count_asked(&self, uses: &mut [u8])
        requires { Uses self.now.table.now self.now.n 0 «uses».old }
        ensures { Uses self.now.table.now self.now.n self.now.k «uses».new }
    {
        for i in 0..self.k {
            count_operands(uses, node_at(self.table, i).asks());
        }
    }

    // Whether node i breaks a rule of check 22, when its uses have been counted.
    fn is_bad_node(&self, uses: &[u8], i: usize) -> bool
        requires node { i < self.now.k }
        requires uses { Uses self.now.table.now self.now.n self.now.k «uses».now }
        ensures { result ≡ bad_node self.now.table.now i }
    {
        let e = node_at(self.table, i);
        bad_bytes(e) | bad_operands(e.asks(), i, self.k) | (uses[i] != 1)
    }

    // The rest of 22, and 9: the ranks and numbers that nodes ask for, each of the plan in whose formula it stands.
    fn check_asked(&self, counts: &[u8], names: &[u64]) -> Result<(), Refusal>
        requires good { (i : ℕ) → i < self.now.k → bad_node self.now.table.now i ≡ false }
        requires children { Children self.now.table.now self.now.n counts.now names.now }
        ensures { result ≡ (refuse_at Formula (least (bad_rank self.now.table.now) self.now.k)
            and_then refuse_at Wait (least (bad_wait self.now.table.now) self.now.n)) }
    {
        let mut owners = [0u8; 256];
        self.own_firsts(&mut owners);
        self.own_asked(&mut owners);
        let owned = Owned {
            nodes: *self,
            owners: &owners,
            counts,
            names,
        };
        owned.check()
    }

    // The plans own the first nodes of their formulas.
    fn own_firsts(&self, owners: &mut [u8])
        requires { Empty 256 owners.old × (length owners.old ≡ 256) }
        ensures { FirstOwners self.now.table.now self.now.n owners.new }
    {
        for p in 0..self.n {
            let e = entry_at(self.table, p);
            if !is_leaf(e) {
                owners[usize::from(e.wait)] = p as u8;
            }
        }
    }

    // Who owns a node owns its operands: their numbers are higher, so that its owner is known by then.
    fn own_asked(&self, owners: &mut [u8])
        requires good { (i : ℕ) → i < self.now.k → bad_operands (asks (node self.now.table.now i)) i self.now.k ≡ false }
        requires owners { FirstOwners self.now.table.now self.now.n owners.old }
        ensures { Owners self.now.table.now self.now.k owners.new }
    {
        for i in 0..self.k {
            let owner = owners[i];
            own_operands(owners, node_at(self.table, i).asks(), owner);
        }
    }
}

// One more use of a node.
fn count_use(uses: &mut [u8], i: u8)
    requires { 256 ≤ length «uses».old }
    ensures { «uses».new ≡ used_once_more «uses».old i }
{
    let at = usize::from(i);
    uses[at] = uses[at].saturating_add(1);
}

// One more use of each operand of a node. This, `bad_operands` and `own_operands` are no one function with a closure for an operand: two
// write to a slice and one answers, so its contract would follow the closure's calls one by one, to save a `match` of three lines.
fn count_operands(uses: &mut [u8], asked: Asks)
    requires { 256 ≤ length «uses».old }
    ensures { «uses».new ≡ used_each «uses».old (operands asked) }
{
    match asked {
        Asks::Not(a) => count_use(uses, a),
        Asks::Join(_, a, b) => {
            count_use(uses, a);
            count_use(uses, b);
        }
        Asks::Child(_) | Asks::AtLeast(_) => {}
    }
}

// Whether a node is of no kind, or has a byte that its kind does not use and that is not 0.
fn bad_bytes(e: Node) -> bool
    ensures { result ≡ bad_bytes e }
{
    (5 < e.kind) | (e.last != 0) | (lacks_second(e.asks()) & (e.b != 0))
}

// Whether a node has no second operand.
fn lacks_second(asked: Asks) -> bool
    ensures { result ≡ ltb (length (operands asked)) 2 }
{
    !matches!(asked, Asks::Join(_, _, _))
}

// Whether an operand of node i is not above it or not below k.
fn bad_operands(asked: Asks, i: usize, k: usize) -> bool
    ensures { result ≡ bad_operands asked i k }
{
    match asked {
        Asks::Not(a) => bad_operand(a, i, k),
        Asks::Join(_, a, b) => bad_operand(a, i, k) | bad_operand(b, i, k),
        Asks::Child(_) | Asks::AtLeast(_) => false,
    }
}

fn bad_operand(o: u8, i: usize, k: usize) -> bool
    ensures { result ≡ (leb o i || leb k o) }
{
    (usize::from(o) <= i) | (k <= usize::from(o))
}

// The operands of a node become the owner's.
fn own_operands(owners: &mut [u8], asked: Asks, owner: u8)
    requires { 256 ≤ length owners.old }
    ensures { owners.new ≡ owned_each owners.old owner (operands asked) }
{
    match asked {
        Asks::Not(a) => owners[usize::from(a)] = owner,
        Asks::Join(_, a, b) => {
            owners[usize::from(a)] = owner;
            owners[usize::from(b)] = owner;
        }
        Asks::Child(_) | Asks::AtLeast(_) => {}
    }
}

// Nodes that pass the rest of check 22, each with the plan that owns it, and the plans' numbers of children and words of named children.
#[derive(Clone, Copy)]
struct Owned<'a> {
    nodes: Nodes<'a>,
    owners: &'a [u8],
    counts: &'a [u8],
    names: &'a [u64],
    ghost good: { (i : ℕ) → i < nodes.k → bad_node nodes.table.now i ≡ false },
    ghost owned: { Owners nodes.table.now nodes.k owners.now },
    ghost children: { Children nodes.table.now nodes.n counts.now names.now },
}

impl<'a> Owned<'a> {
    // What check 22 says of ranks, and check 9 of numbers.
    fn check(&self) -> Result<(), Refusal>
        ensures { result ≡ (refuse_at Formula (least (bad_rank self.now.nodes.table.now) self.now.nodes.k)
            and_then refuse_at Wait (least (bad_wait self.now.nodes.table.now) self.now.nodes.n)) }
    {
        if let Some(node) = self.lowest_bad_rank() {
            return Err(Refusal::Formula { node: node as u16 });
        }
        if let Some(plan) = self.lowest_asking() {
            return Err(Refusal::Wait { plan: plan as u16 });
        }
        Ok(())
    }

    // The lowest node that asks for a child that its plan does not have.
    fn lowest_bad_rank(&self) -> Option<usize>
        ensures { Lowest (bad_rank self.now.nodes.table.now) self.now.nodes.k result }
    {
        (0..self.nodes.k).find(|&i| self.is_bad_rank(i))
    }

    // Whether node i does.
    fn is_bad_rank(&self, i: usize) -> bool
        requires { i < self.now.nodes.k }
        ensures { result ≡ bad_rank self.now.nodes.table.now i }
    {
        let owner = usize::from(self.owners[i]);
        asks_beyond(node_at(self.nodes.table, i).asks(), self.counts[owner])
    }

    // The lowest plan in whose formula a node asks for more named children than the plan has.
    fn lowest_asking(&self) -> Option<usize>
        ensures { Lowest (asking self.now.nodes.table.now self.now.nodes.k) self.now.nodes.n result }
    {
        (0..self.nodes.k).filter_map(|i| self.asking_plan(i)).min()
    }

    // The plan that owns node i, if node i asks for more of its named children than it has.
    fn asking_plan(&self, i: usize) -> Option<usize>
        requires { i < self.now.nodes.k }
        ensures { result ≡ asking_plan self.now.nodes.table.now i }
    {
        let owner = usize::from(self.owners[i]);
        asks_more(node_at(self.nodes.table, i).asks(), self.names[owner]).then_some(owner)
    }
}

// Whether a node asks for the child of a rank that is not below a number of children.
fn asks_beyond(asked: Asks, count: u8) -> bool
    ensures { result ≡ asks_beyond asked count }
{
    match asked {
        Asks::Child(rank) => count <= rank,
        _ => false,
    }
}

// Whether it asks for more named children than there are.
fn asks_more(asked: Asks, names: u64) -> bool
    ensures { result ≡ asks_more asked names }
{
    match asked {
        Asks::AtLeast(m) => !at_least(u32::from(m), names),
        _ => false,
    }
}
