ghost use Rattle.std.specs.Prelude.{◌≡◌, ◌-◌, ◌<◌, ◌≤◌};
ghost use Rattle.graph_core.specs.Graph.{line_of};
ghost use Rattle.connect_gen.specs.Draws.{next_state, drawn};
ghost use Rattle.connect_gen.specs.Generated.{chord};

use graph_core::Line;

/// Knuth's multiplier.
const MULTIPLIER: u64 = 6_364_136_223_846_793_005;

const INCREMENT: u64 = 1_442_695_040_888_963_407;

/// Where a row of draws stands.
#[derive(Drop)]
pub struct Draws {
    pub state: u64,
}

impl Draws {
    /// The next draw below the bound.
    pub fn draw(&mut self, bound: u32) -> u32
        requires { 0 < bound }
        ensures state { self.new.state ≡ next_state self.old.state }
        ensures value { result ≡ drawn (next_state self.old.state) bound }
        ensures within { result < bound }
    {
        self.state = self.state.wrapping_mul(MULTIPLIER).wrapping_add(INCREMENT);
        ((self.state >> 33) % u64::from(bound)) as u32
    }

    /// The line between two different nodes of so many, by the next two draws.
    pub fn draw_chord(&mut self, nodes: u32) -> Line
        requires { 2 ≤ nodes }
        ensures state { self.new.state ≡ next_state (next_state self.old.state) }
        ensures line { result ≡ chord (drawn (next_state self.old.state) nodes) (drawn (next_state (next_state self.old.state)) (nodes - 1)) }
    {
        let one = self.draw(nodes);
        let rest = self.draw(nodes - 1);
        let other = if rest >= one { rest + 1 } else { rest };
        line(one.min(other), one.max(other))
    }
}

/// A line of cost 1 that isn't fixed.
pub fn line(tail: u32, head: u32) -> Line
    ensures { result ≡ line_of (tail, head) }
{
    Line {
        tail,
        head,
        fixed: false,
        cost: 1,
    }
}
