ghost use Rattle.std.specs.Prelude.{◌≡◌, ◌+◌, ◌^◌, ◌<◌, ◌≤◌, length};
ghost use Rattle.flow_cuts.specs.Residual.{from_of, to_of, room_of, moved, pushed, from_at, to_at, room_at, EachFits, link_of, link_along};
ghost use Rattle.flow_cuts.specs.Streams.{one_less, taken};

use graph_core::{Kind, Line};

/// An arc between two nodes, by their numbers, with its capacity: how many units it lets through.
#[derive(Clone, Copy)]
pub struct Cap {
    pub tail: u32,
    pub head: u32,
    pub cap: u32,
}

impl Cap {
    /// The arc as a link along which nothing goes back.
    pub(crate) fn link(self) -> Link
        ensures link { result ≡ link_of self }
        ensures fits { result.forth + result.back < 2 ^ 32 }
    {
        Link {
            tail: self.tail,
            head: self.head,
            forth: self.cap,
            back: 0,
        }
    }
}

/// A link of a residual network: how much may still go from its tail to its head, and how much back.
#[derive(Clone, Copy)]
pub struct Link {
    pub tail: u32,
    pub head: u32,
    pub forth: u32,
    pub back: u32,
}

/// A way to go along a link: from its tail to its head, or back.
#[derive(Clone, Copy)]
pub enum Way {
    Forth,
    Back,
}

/// A link by its number, and the way to go along it.
#[derive(Clone, Copy)]
pub struct Step {
    pub link: u32,
    pub way: Way,
}

impl Link {
    /// A line of a graph as a link: an edge lets one unit through either way, an arc one along it.
    pub fn along(kind: Kind, line: Line) -> Link
        ensures link { result ≡ link_along kind line }
        ensures fits { result.forth + result.back < 2 ^ 32 }
    {
        Link {
            tail: line.tail,
            head: line.head,
            forth: 1,
            back: match kind {
                Kind::Undirected => 1,
                Kind::Directed => 0,
            },
        }
    }

    /// The node from which one comes.
    pub fn from(&self, way: Way) -> u32
        ensures { result ≡ from_of self.now way }
    {
        match way {
            Way::Forth => self.tail,
            Way::Back => self.head,
        }
    }

    /// The node to which one goes.
    pub fn to(&self, way: Way) -> u32
        ensures { result ≡ to_of self.now way }
    {
        match way {
            Way::Forth => self.head,
            Way::Back => self.tail,
        }
    }

    /// How much may still go.
    pub fn room(&self, way: Way) -> u32
        ensures { result ≡ room_of self.now way }
    {
        match way {
            Way::Forth => self.forth,
            Way::Back => self.back,
        }
    }

    /// Takes a unit away, with nothing more to come back.
    pub fn take(&mut self, way: Way)
        requires { 0 < room_of self.old way }
        ensures { self.new ≡ one_less self.old way }
    {
        match way {
            Way::Forth => self.forth -= 1,
            Way::Back => self.back -= 1,
        }
    }

    /// Sends an amount along the link, so that as much more may come back.
    pub fn push(&mut self, way: Way, amount: u32)
        requires room { amount ≤ room_of self.old way }
        requires fits { self.old.forth + self.old.back < 2 ^ 32 }
        ensures { self.new ≡ moved self.old way amount }
    {
        match way {
            Way::Forth => {
                self.forth -= amount;
                self.back += amount;
            }
            Way::Back => {
                self.back -= amount;
                self.forth += amount;
            }
        }
    }
}

pub fn take_step(links: &mut [Link], step: Step)
    requires link { step.link < length links.old }
    requires room { 0 < room_at links.old step }
    ensures { links.new ≡ taken links.old step }
{
    links[step.link as usize].take(step.way);
}

pub fn step_from(links: &[Link], step: Step) -> u32
    requires { step.link < length links.now }
    ensures { result ≡ from_at links.now step }
{
    links[step.link as usize].from(step.way)
}

pub fn step_to(links: &[Link], step: Step) -> u32
    requires { step.link < length links.now }
    ensures { result ≡ to_at links.now step }
{
    links[step.link as usize].to(step.way)
}

pub fn step_room(links: &[Link], step: Step) -> u32
    requires { step.link < length links.now }
    ensures { result ≡ room_at links.now step }
{
    links[step.link as usize].room(step.way)
}

pub fn push_step(links: &mut [Link], step: Step, amount: u32)
    requires link { step.link < length links.old }
    requires fits { EachFits links.old }
    requires room { amount ≤ room_at links.old step }
    ensures { links.new ≡ pushed links.old step amount }
{
    links[step.link as usize].push(step.way, amount);
}
