ghost use Rattle.std.specs.Prelude.{◌≡◌, ◌≢◌, ◌<◌, ◌≤◌, ◌+◌, ◌++◌, ◌∷◌, [], map, sum, length, is_some, position, slice_get, IfOk, OnOk, OnErr, false, true, None, Some};
ghost use Rattle.std.specs.List.{list_any};
ghost use Rattle.std.specs.Str.{bytes_eq};
ghost use Rattle.graph_core.specs.Limits.{most_cost, most_costs, most_lines, most_nodes, most_number, most_numbers};
ghost use Rattle.graph_core.specs.Name.{IsName};
ghost use Rattle.graph_core.specs.Graph.{IsWithinSize};
ghost use Rattle.graph_core.specs.declared.graph.Kind.TheVariants.{Undirected, Directed};
ghost use Rattle.graph_text.specs.Before.{cost_of};
ghost use Rattle.graph_text.specs.Text.{StandsFor};
ghost use Rattle.graph_text.specs.Taken.{with_ends};
ghost use Rattle.graph_text.specs.DraftView.{MayCost};
ghost use Rattle.graph_text.specs.PlainText.{HasFewCosts};

use graph_core::{Counts, Graph, Kind, Line, Name, NoMemory};
use indexmap::IndexSet;
use std::alloc::Global;
use std::marker::Model;

/// A graph that is being read.
#[derive(Drop)]
pub struct Draft {
    kind: Option<Kind>,
    names: IndexSet<Vec<u8>>,
    numbers: Vec<u64>,
    number_sum: u64,
    lines: Vec<Line>,
    cost_sum: u64,
}

impl Model for Draft {
    ghost use Rattle.graph_text.specs.Before.{Content};

    ghost Value = { Content };

    ghost use Rattle.graph_text.specs.DraftView.{view_of, IsDraft};

    ghost view = { view_of };

    ghost invariant = { IsDraft };
}

impl Draft {
    pub(crate) fn new(alloc: Global) -> Self
        ensures { result ≡ record { kind = None; names = []; numbers = []; ends = [] } }
    {
        Draft {
            kind: None,
            names: IndexSet::new(alloc),
            numbers: Vec::new(alloc),
            number_sum: 0,
            lines: Vec::new(alloc),
            cost_sum: 0,
        }
    }

    /// Whether a header was read.
    pub(crate) fn has_begun(&self) -> bool
        ensures { result ≡ is_some self.now.kind }
    {
        self.kind.is_some()
    }

    pub(crate) fn kind(&self) -> Option<Kind>
        ensures { result ≡ self.now.kind }
    {
        self.kind
    }

    pub(crate) fn node_count(&self) -> usize
        ensures { result ≡ length self.now.names }
    {
        self.names.len()
    }

    pub(crate) fn line_count(&self) -> usize
        ensures { result ≡ length self.now.ends }
    {
        self.lines.len()
    }

    /// What the numbers of the nodes add up to.
    pub(crate) fn number_sum(&self) -> u64
        ensures sum { result ≡ sum self.now.numbers }
        ensures within { result ≤ most_numbers }
    {
        self.number_sum
    }

    /// What the costs of the lines add up to.
    pub(crate) fn cost_sum(&self) -> u64
        ensures sum { result ≡ cost_of self.now.ends }
        ensures within { result ≤ most_costs }
    {
        self.cost_sum
    }

    /// The number of the node with this name.
    pub(crate) fn find(&self, name: &[u8]) -> Option<u32>
        ensures number { result ≡ position (bytes_eq name.now) self.now.names }
        ensures found { is_some result ≡ list_any (bytes_eq name.now) self.now.names }
    {
        match self.names.get_index_of(name) {
            Some(number) => Some(number as u32),
            None => None,
        }
    }

    pub(crate) fn put_kind(&mut self, kind: Kind)
        requires { self.old.kind ≡ None }
        ensures { self.new ≡ record { kind = Some kind; names = self.old.names; numbers = self.old.numbers; ends = self.old.ends } }
    {
        self.kind = Some(kind);
    }

    pub(crate) fn push_node(
        &mut self,
        alloc: Global,
        name: &[u8],
        number: u64,
    ) -> Result<(), NoMemory>
        requires room { length self.old.names < most_nodes }
        requires named { IsName name.now }
        requires is_new { list_any (bytes_eq name.now) self.old.names ≡ false }
        requires most { number ≤ most_number }
        requires total { sum self.old.numbers + number ≤ most_numbers }
        ensures ok { OnOk result (self.new ≡ record { kind = self.old.kind; names = self.old.names ++ name.now ∷ []; numbers = self.old.numbers ++ number ∷ []; ends = self.old.ends }) }
        ensures err { OnErr result (self.new ≡ self.old) }
    {
        let Ok(name) = name.to_vec(alloc) else {
            return Err(NoMemory);
        };
        push_both(&mut self.names, &mut self.numbers, name, number)?;
        self.number_sum += number;
        Ok(())
    }

    // Does nothing, and gives that edges cost together as much as there are of them, since each costs 1.
    fn know_edges(&self)
        ensures { self.now.kind ≡ Some Undirected → cost_of self.now.ends ≡ length self.now.ends }
    {
        let _kind = self.kind;
    }

    pub(crate) fn push_edge(&mut self, tail: &[u8], head: &[u8]) -> Result<(), NoMemory>
        requires room { length self.old.ends < most_lines }
        requires tail { list_any (bytes_eq tail.now) self.old.names ≡ true }
        requires head { list_any (bytes_eq head.now) self.old.names ≡ true }
        requires apart { bytes_eq tail.now head.now ≡ false }
        requires kind { self.old.kind ≡ Some Undirected }
        ensures ok { OnOk result (self.new ≡ with_ends self.old (record { tail = tail.now; head = head.now; fixed = false; cost = 1 })) }
        ensures err { OnErr result (self.new ≡ self.old) }
    {
        self.know_edges();
        self.push_line(tail, head, false, 1)
    }

    pub(crate) fn push_arc(
        &mut self,
        tail: &[u8],
        head: &[u8],
        fixed: bool,
        cost: u32,
    ) -> Result<(), NoMemory>
        requires room { length self.old.ends < most_lines }
        requires tail { list_any (bytes_eq tail.now) self.old.names ≡ true }
        requires head { list_any (bytes_eq head.now) self.old.names ≡ true }
        requires apart { bytes_eq tail.now head.now ≡ false }
        requires kind { self.old.kind ≡ Some Directed }
        requires most { cost ≤ most_cost }
        requires one { fixed ≡ true → cost ≡ 1 }
        requires total { cost_of self.old.ends + cost ≤ most_costs }
        ensures ok { OnOk result (self.new ≡ with_ends self.old (record { tail = tail.now; head = head.now; fixed = fixed; cost = cost })) }
        ensures err { OnErr result (self.new ≡ self.old) }
    {
        self.push_line(tail, head, fixed, cost)
    }

    fn push_line(
        &mut self,
        tail: &[u8],
        head: &[u8],
        fixed: bool,
        cost: u32,
    ) -> Result<(), NoMemory>
        requires room { length self.old.ends < most_lines }
        requires tail { list_any (bytes_eq tail.now) self.old.names ≡ true }
        requires head { list_any (bytes_eq head.now) self.old.names ≡ true }
        requires apart { bytes_eq tail.now head.now ≡ false }
        requires priced { MayCost self.old.kind fixed cost }
        requires total { cost_of self.old.ends + cost ≤ most_costs }
        ensures ok { OnOk result (self.new ≡ with_ends self.old (record { tail = tail.now; head = head.now; fixed = fixed; cost = cost })) }
        ensures err { OnErr result (self.new ≡ self.old) }
    {
        let tail = self.find(tail).unwrap();
        let head = self.find(head).unwrap();
        let line = Line {
            tail,
            head,
            fixed,
            cost,
        };
        let Ok(()) = self.lines.push(line) else {
            return Err(NoMemory);
        };
        self.cost_sum += u64::from(cost);
        Ok(())
    }

    fn name(&self, at: usize) -> &[u8]
        requires { at < length self.now.names }
        ensures name { slice_get self.now.names at ≡ Some result.now }
        ensures named { IsName result.now }
    {
        self.names.get_index(at).unwrap().as_slice()
    }

    fn to_names(&self, alloc: Global) -> Result<Vec<Name>, NoMemory>
        ensures { IfOk result (λ names. names.items ≡ self.now.names) }
    {
        let mut names = Vec::new(alloc);
        for at in 0..self.node_count() {
            let name = Name::make(alloc, self.name(at))?;
            let Ok(()) = names.push(name) else {
                return Err(NoMemory);
            };
        }
        Ok(names)
    }

    /// The graph that was read.
    pub(crate) fn finish(self, alloc: Global) -> Result<Graph, NoMemory>
        requires kind { is_some self.kind ≡ true }
        requires some { 0 < length self.names }
        ensures graph { IfOk result (StandsFor self) }
        ensures size { IfOk result IsWithinSize }
        ensures costs { IfOk result HasFewCosts }
    {
        let names = self.to_names(alloc)?;
        let Draft {
            kind,
            names: _words,
            numbers,
            number_sum: _,
            lines,
            cost_sum: _,
        } = self;
        let numbers = Counts::from_vec(numbers);
        Ok(Graph::with_numbers(kind.unwrap(), names, lines, numbers))
    }
}

// Puts the name and the number at the ends of their lists, or neither.
fn push_both(
    names: &mut IndexSet<Vec<u8>>,
    numbers: &mut Vec<u64>,
    name: Vec<u8>,
    number: u64,
) -> Result<(), NoMemory>
    requires is_new { list_any (bytes_eq name.items) (map (λ k. k.items) names.old.keys) ≡ false }
    ensures names { OnOk result (map (λ k. k.items) names.new.keys ≡ map (λ k. k.items) names.old.keys ++ name.items ∷ []) }
    ensures numbers { OnOk result (numbers.new.items ≡ numbers.old.items ++ number ∷ []) }
    ensures names_stay { OnErr result (map (λ k. k.items) names.new.keys ≡ map (λ k. k.items) names.old.keys) }
    ensures numbers_stay { OnErr result (numbers.new.items ≡ numbers.old.items) }
{
    let Ok(()) = numbers.push(number) else {
        return Err(NoMemory);
    };
    let Ok(_) = names.insert(name) else {
        numbers.pop();
        return Err(NoMemory);
    };
    Ok(())
}
