//! S14.2 to S14.5: the graph that a text says.
ghost use Rattle.std.specs.Prelude.{◌≡◌, suc, MatchResult, None, Some};
ghost use Rattle.graph_text.specs.Graph.{time_lawful};
ghost use Rattle.graph_text.specs.Read.{read_of};
ghost use Rattle.graph_text.specs.means.Entries.{bit_named, named_from, entry_from, Reads};
ghost use Rattle.graph_text.specs.means.Entries.{held_of};

use crate::text::{BadFormat, Numerals};

/// S14.5: the most nodes that are held.
const NODES: u32 = 32;

/// An entry as a node: its time, its mask, and whether it names lower numbers only (S14.4), a mark as in a graph.
#[derive(Clone, Copy)]
struct Node {
    time: u16,
    mask: u32,
    rising: bool,
}

impl Node {
    ghost use Rattle.std.specs.Prelude.{◌≡◌};
    ghost use Rattle.graph_text.specs.means.Entries.{with_named};

    /// Names one predecessor more, as entry v.
    #[tactic(auto, unfolding(crate::specs::means::Entries::with_named))]
    fn name(&mut self, v: u32, p: u16)
        ensures { self.new ≡ with_named v self.old p }
    {
        self.mask |= bit_named(u32::from(p));
        self.rising &= u32::from(p) < v;
    }
}

/// A graph by its nodes, of which the first 32 are held: their times, their masks, their count, and whether
/// every entry names lower numbers only.
/// Two arrays of 32, since there is no heap, and apart, since an import scales the times alone. `rising` is a mark and
/// no error, since an import is refused for other causes first (S14.9).
#[derive(Clone, Copy, Debug, PartialEq, Eq)]
pub struct NodeGraph {
    pub times: [u16; 32],
    pub masks: [u32; 32],
    pub count: u16,
    pub rising: bool,
}

impl NodeGraph {
    ghost use Rattle.std.specs.Prelude.{◌≡◌};
    ghost use Rattle.graph_text.specs.means.Entries.{is_node, held_with, none_held};

    /// A graph of which no entry is read.
    fn new(count: u16) -> NodeGraph
        ensures { result ≡ none_held count }
    {
        NodeGraph {
            times: [0; 32],
            masks: [0; 32],
            count,
            rising: true,
        }
    }

    /// S14.5: whether entry v is one of the first 32 nodes: neither a dummy, 0 or the last, nor past them.
    #[tactic(auto, unfolding(crate::specs::means::Entries::is_node))]
    fn is_node(&self, v: u32) -> bool
        ensures { result ≡ is_node self.now.count v }
    {
        (1..=u32::from(self.count).min(NODES)).contains(&v)
    }

    /// Holds entry v.
    fn hold(&mut self, v: u32, node: Node)
        ensures { self.new ≡ held_with self.old.count v node self.old }
    {
        if self.is_node(v) {
            // `u32` has no `From` to `usize`.
            let i = (v - 1) as usize;
            self.times[i] = node.time;
            self.masks[i] = node.mask;
        }
        self.rising &= node.rising;
    }
}

/// S14.3: the time of entry v.
#[tactic(auto, unfolding(crate::specs::Graph::time_lawful))]
fn time_lawful(count: u16, v: u32, time: u16) -> bool
    ensures { result ≡ time_lawful count v time }
{
    if v == 0 || v == u32::from(count) + 1 {
        time == 0
    } else {
        1 <= time
    }
}

/// The mask of the node that a predecessor names, if it names one: the dummy 0 wraps past the 32 bits.
#[tactic(auto, unfolding(crate::specs::means::Entries::bit_named))]
fn bit_named(p: u32) -> u32
    ensures { result ≡ bit_named p }
{
    1u32.checked_shl(p.wrapping_sub(1)).unwrap_or(0)
}

/// The node of entry v with so many predecessors more. Inlined: a call costs an import a tenth more.
#[inline(always)]
fn read_named(numerals: &mut Numerals, v: u32, many: u16, begun: Node) -> Result<Node, BadFormat>
    ensures { Reads (named_from v many begun) numerals.old numerals.new result }
{
    let mut node = begun;
    for _ in 0..many {
        node.name(v, numerals.take()?);
    }
    Ok(node)
}

/// S14.2, S14.3: entry v. A call: inlined, each walk over blanks or digits moves the places of the next ones too. It reads
/// by numerals of its own, which stay in registers.
#[inline(never)]
fn read_entry(numerals: &mut Numerals, count: u16, v: u32) -> Result<Node, BadFormat>
    ensures { Reads (entry_from count v) numerals.old numerals.new result }
{
    let mut own = numerals.again();
    let number = own.take()?;
    let time = own.take()?;
    let many = own.take()?;
    if u32::from(number) != v || !time_lawful(count, v, time) {
        return Err(BadFormat);
    }
    let begun = Node {
        time,
        mask: 0,
        rising: true,
    };
    let node = read_named(&mut own, v, many, begun)?;
    *numerals = own;
    Ok(node)
}

/// S14.2: the entries of a graph, from the first on, behind which nothing follows. They are held in place: a graph handed
/// back would be copied once more.
fn read_entries(numerals: &mut Numerals, graph: &mut NodeGraph) -> Result<(), BadFormat>
    ensures { MatchResult result
        (λ _. held_of graph.old.count 0 (suc (suc graph.old.count)) graph.old numerals.old ≡ Some graph.new)
        (λ _. held_of graph.old.count 0 (suc (suc graph.old.count)) graph.old numerals.old ≡ None) }
{
    let count = graph.count;
    for v in 0..u32::from(count) + 2 {
        graph.hold(v, read_entry(numerals, count, v)?);
    }
    match numerals.next_numeral()? {
        None => Ok(()),
        Some(_) => Err(BadFormat),
    }
}

/// S14.1 to S14.5: the graph that a text says.
pub fn read_graph(text: &[u8]) -> Result<NodeGraph, BadFormat>
    ensures { result ≡ read_of text.now }
{
    let mut numerals = Numerals::new(text);
    let mut graph = NodeGraph::new(numerals.take()?);
    read_entries(&mut numerals, &mut graph)?;
    Ok(graph)
}
