// Moves a plan table from version 1 to 2 and back, document 02 (vi), into a lent output. Every function that goes over plans or nodes costs
// O(1) for each of them. Assumes nothing.
#![tactic(auto)]

ghost use Rattle.std.specs.Prelude.{◌≡◌, List, ℕ, cond, [], ◌∷◌, ◌+◌, ◌*◌, ◌/◌, ◌%◌, ◌<◌, ◌≤◌, length};
ghost use Rattle.rules.specs.Table.{entry};
ghost use Rattle.rules.specs.WaitFor.{node_count, is_leaf};
ghost use Rattle.rules.specs.Answers.{refuse_if, Done};
ghost use Rattle.output.specs.Output.{Appended};
ghost use Rattle.versions.specs.Room.{HasPlans, HasNodes};
ghost use Rattle.versions.specs.Versions.{header_as, plan_as, plans_as, nodes_before, node_as, nodes_as, number_waited};
ghost use Rattle.versions.specs.Versions.{in_version1, in_version2, version_check, other_kind, check_from, check_to1, check_to2, room_check};
ghost use Rattle.versions.specs.Versions.{move_answer, move_output};

use output::{put, put_byte};
use reading::{byte_at, entry_at, is_leaf, node_at, node_count, plan_count, u16_at};
use rules::Refusal;
use table::{check_table, has_mark};

// Puts a table of version 1, as one of version 2, at the start of the output, and answers how many bytes it has; or a refusal that changes
// none of them.
pub fn to_version_2(table: &[u8], output: &mut [u8]) -> Result<u16, Refusal>
    ensures answer { result ≡ move_answer (check_to2 table.now) (in_version2 table.now) output.old }
    ensures left { output.new
        ≡ move_output (check_to2 table.now) (in_version2 table.now) output.old }
{
    check_from(1, table)?;
    let n = plan_count(table);
    Plans { table, n }.move_to_2(output)
}

// The same from version 2 to 1.
pub fn to_version_1(table: &[u8], output: &mut [u8]) -> Result<u16, Refusal>
    ensures answer { result ≡ move_answer (check_to1 table.now) (in_version1 table.now) output.old }
    ensures left { output.new
        ≡ move_output (check_to1 table.now) (in_version1 table.now) output.old }
{
    check_to_1(table)?;
    let n = plan_count(table);
    Plans { table, n }.move_to_1(output)
}

// Checks 1 and 2, and 3 of a table that is not of the version moved from.
fn version_check(from: u16, table: &[u8]) -> Result<(), Refusal>
    ensures { result ≡ version_check table.now from }
{
    if table.len() < 8 {
        return Err(Refusal::TableShort);
    }
    if !has_mark(table, b'T') {
        return Err(Refusal::TableMark);
    }
    if u16_at(table, 3) != from {
        return Err(Refusal::TableVersion);
    }
    Ok(())
}

// Checks 1 to 9 and 22 of a table that is moved from a version.
fn check_from(from: u16, table: &[u8]) -> Result<(), Refusal>
    ensures { result ≡ check_from table.now from }
{
    version_check(from, table)?;
    check_table(table)?;
    Ok(())
}

// The checks of a table that is moved to version 1: 23 is the last.
fn check_to_1(table: &[u8]) -> Result<(), Refusal>
    ensures { result ≡ check_to1 table.now }
{
    check_from(2, table)?;
    kinds_check(table)
}

// Check 23 of a table of version 2 that passes.
#[tactic(auto, unfolding(rules::specs::Answers::refuse_if))]
fn kinds_check(table: &[u8]) -> Result<(), Refusal>
    requires { HasNodes table.now (node_count table.now) }
    ensures { result ≡ refuse_if (other_kind table.now) Refusal.NodeKind }
{
    if has_other_kind(table, node_count(table)) {
        return Err(Refusal::NodeKind);
    }
    Ok(())
}

// Whether some of the first k nodes is of another kind than 5.
fn has_other_kind(table: &[u8], k: usize) -> bool
    requires { HasNodes table.now k }
    ensures { result ≡ other_kind table.now }
{
    (0..k).any(|i| node_at(table, i).kind != 5)
}

// Check 24, of so many bytes.
#[tactic(auto, unfolding(crate::specs::Versions::room_check, rules::specs::Answers::refuse_if))]
fn room_check(size: usize, output: &[u8]) -> Result<(), Refusal>
    ensures { (written : List ℕ) → size ≡ length written → result ≡ room_check written output.now }
{
    if output.len() < size {
        return Err(Refusal::OutputShort);
    }
    Ok(())
}

// The n plans of a table, which lie in it.
#[derive(Clone, Copy)]
struct Plans<'a> {
    table: &'a [u8],
    n: usize,
    ghost there: { HasPlans table.now n },
}

// The loops stay `for p in 0..n`: each turn puts bytes behind those before, and an iterator would hand out the plans, not the end.
impl<'a> Plans<'a> {
    // Check 24, and the table in version 2.
    fn move_to_2(&self, output: &mut [u8]) -> Result<u16, Refusal>
        ensures answer { result ≡ move_answer Done (in_version2 self.now.table.now) output.old }
        ensures left { output.new ≡ move_output Done (in_version2 self.now.table.now) output.old }
    {
        let nodes = self.count_nodes();
        room_check(10 + 8 * self.n + 4 * nodes, output)?;
        Ok(self.write_2(nodes, output) as u16)
    }

    // The table in version 2, with so many nodes.
    fn write_2(&self, nodes: usize, output: &mut [u8]) -> usize
        requires nodes { nodes ≡ nodes_before self.now.table.now self.now.n }
        requires room { 10 + 8 * self.now.n + 4 * nodes ≤ length output.old }
        ensures { Appended output.old 0 (in_version2 self.now.table.now) output.new result }
    {
        put_header(2, self.table, output);
        let at = self.put_numbered(output);
        let at = put_count(nodes, output, at);
        self.put_nodes(output, at)
    }

    // Check 24, and the table in version 1. Sizes and writers differ from version 2's: one function of both would take a closure for each.
    fn move_to_1(&self, output: &mut [u8]) -> Result<u16, Refusal>
        ensures answer { result ≡ move_answer Done (in_version1 self.now.table.now) output.old }
        ensures left { output.new ≡ move_output Done (in_version1 self.now.table.now) output.old }
    {
        room_check(8 + 8 * self.n, output)?;
        Ok(self.write_1(output) as u16)
    }

    // The table in version 1.
    fn write_1(&self, output: &mut [u8]) -> usize
        requires { 8 + 8 * self.now.n ≤ length output.old }
        ensures { Appended output.old 0 (in_version1 self.now.table.now) output.new result }
    {
        put_header(1, self.table, output);
        self.put_waiting(output)
    }

    // How many plans have children, and so a node.
    fn count_nodes(&self) -> usize
        ensures { result ≡ nodes_before self.now.table.now self.now.n }
    {
        (0..self.n).filter(|&p| !self.is_leaf_at(p)).count()
    }

    // Puts the plans behind the header, those with children with the numbers of their nodes. It is not one function with `put_waiting`, by
    // a closure that gives byte 7: here the closure would keep the count, and the contract would have to follow its calls one by one.
    fn put_numbered(&self, output: &mut [u8]) -> usize
        requires { 8 + 8 * self.now.n ≤ length output.old }
        ensures { Appended output.old 8 (plans_as self.now.table.now (nodes_before self.now.table.now) self.now.n)
            output.new result }
    {
        let mut nodes = 0;
        for p in 0..self.n {
            self.put_plan(p, nodes as u8, output);
            nodes += usize::from(!self.is_leaf_at(p));
        }
        8 + 8 * self.n
    }

    // Puts the plans behind the header, those with children with the m of their nodes.
    fn put_waiting(&self, output: &mut [u8]) -> usize
        requires { 8 + 8 * self.now.n ≤ length output.old }
        ensures { Appended output.old 8 (plans_as self.now.table.now (number_waited self.now.table.now) self.now.n)
            output.new result }
    {
        for p in 0..self.n {
            self.put_plan(p, self.number_waited(p), output);
        }
        8 + 8 * self.n
    }

    // The a of the node with which plan p begins. A leaf has none: its byte 7 is 0, and what is read then is not put.
    fn number_waited(&self, p: usize) -> u8
        requires { p < self.now.n }
        ensures { result ≡ number_waited self.now.table.now p }
    {
        byte_at(
            self.table,
            11 + 8 * self.n + 4 * usize::from(self.wait_at(p)),
        )
    }

    // Puts the nodes of the plans there, in plan order.
    fn put_nodes(&self, output: &mut [u8], at: usize) -> usize
        requires { at + 4 * nodes_before self.now.table.now self.now.n ≤ length output.old }
        ensures { Appended output.old at (nodes_as self.now.table.now self.now.n) output.new result }
    {
        let mut end = at;
        for p in 0..self.n {
            end = self.put_node(p, output, end);
        }
        end
    }

    // Puts plan p, with another byte 7 if it has children, behind the plans before it.
    fn put_plan(&self, p: usize, wait: u8, output: &mut [u8]) -> usize
        requires there { p < self.now.n }
        requires room { 8 * p + 16 ≤ length output.old }
        ensures { Appended output.old (8 + 8 * p) (plan_as self.now.table.now p wait) output.new result }
    {
        let at = put(&self.table[8 + 8 * p..15 + 8 * p], output, 8 + 8 * p);
        put_byte(self.wait_as(p, wait), output, at)
    }

    // Byte 7 of plan p as it is, or another if it has children.
    fn wait_as(&self, p: usize, wait: u8) -> u8
        requires { p < self.now.n }
        ensures { result ≡ cond (is_leaf self.now.table.now p) (entry self.now.table.now p).wait wait }
    {
        if self.is_leaf_at(p) {
            self.wait_at(p)
        } else {
            wait
        }
    }

    // Puts the node of plan p there, if it has children.
    fn put_node(&self, p: usize, output: &mut [u8], at: usize) -> usize
        requires there { p < self.now.n }
        requires room { at + length (node_as self.now.table.now p) ≤ length output.old }
        ensures { Appended output.old at (node_as self.now.table.now p) output.new result }
    {
        if self.is_leaf_at(p) {
            return at;
        }
        put(&[5, self.wait_at(p), 0, 0], output, at)
    }

    // Whether plan p has no children, by its body.
    fn is_leaf_at(&self, p: usize) -> bool
        requires { p < self.now.n }
        ensures { result ≡ is_leaf self.now.table.now p }
    {
        is_leaf(entry_at(self.table, p))
    }

    // Byte 7 of plan p.
    fn wait_at(&self, p: usize) -> u8
        requires { p < self.now.n }
        ensures { result ≡ (entry self.now.table.now p).wait }
    {
        entry_at(self.table, p).wait
    }
}

// Puts the header, with another version, at the start of the output.
fn put_header(version: u8, table: &[u8], output: &mut [u8]) -> usize
    requires { (8 ≤ length table.now) × (8 ≤ length output.old) }
    ensures { Appended output.old 0 (header_as table.now version) output.new result }
{
    let at = put(&table[0..3], output, 0);
    let at = put(&[version, 0], output, at);
    put(&table[5..8], output, at)
}

// Puts the number of nodes, in two bytes.
fn put_count(nodes: usize, output: &mut [u8], at: usize) -> usize
    requires { (nodes < 65536) × (at + 2 ≤ length output.old) }
    ensures { Appended output.old at (nodes % 256 ∷ nodes / 256 ∷ []) output.new result }
{
    put(&(nodes as u16).to_le_bytes(), output, at)
}
