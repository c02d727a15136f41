// The first part of `path_solve` of solver.rs: the rows in the order of a path, which lists the rows of its blocks from one
// end to the other.
ghost use Rattle.std.specs.Prelude.{◌≡◌, ◌≤◌, ◌<◌, ◌+◌, ◌-◌, length, take, IfOk};
ghost use Rattle.solves.specs.Path.{with_block, other_block, neighbors, follows as follows_of, next_at, none_seen, visit, walk, is_end, path_walks};
ghost use Rattle.solves.specs.Path.{note_row, path_blocks, path_edges, path_order};
ghost use Rattle.solves.specs.Answer.{left_as};
ghost use Rattle.solves.specs.PathView.{Blocked, Sound, Linking, Noted, rows_of, Appended, Ordered};
ghost use Rattle.solves.specs.View.{count_of, side_a, side_b, Blank};

use crate::joined::Rows;

// The rows at their places in an order. There are at most 96.
pub(crate) type Order = [usize; 96];

// The rows lie along no path: a body joins a third block, or blocks close a ring.
#[derive(Drop)]
pub(crate) struct NoPath;

// A run of rows on one pair of bodies.
#[derive(Clone, Copy)]
struct RowBlock {
    a: usize,
    b: usize,
    start: usize,
    end: usize,
}

// The blocks on a body, which has room for two.
#[derive(Clone, Copy)]
struct Ends {
    first: Option<usize>,
    second: Option<usize>,
}

// The blocks and the bodies that join them.
#[derive(Clone, Copy)]
struct Graph<'a> {
    blocks: &'a [RowBlock],
    edges: &'a [Ends; 16],
    ghost sound: { Sound blocks.now edges.now },
}

// The rows that a walk has listed, at the head of a table that is 0 behind them, and the blocks that it has visited.
#[derive(Drop)]
struct Seen {
    rows: Order,
    listed: usize,
    visited: [bool; 96],
    ghost whole: { (length rows ≡ 96) × (length visited ≡ 96) },
    ghost few: { listed ≤ 96 },
    ghost blank: { Blank rows listed },
}

impl RowBlock {
    const NONE: RowBlock = RowBlock {
        a: 0,
        b: 0,
        start: 0,
        end: 0,
    };
}

impl Ends {
    const NONE: Ends = Ends {
        first: None,
        second: None,
    };

    // Notes a block, if there is room for it.
    #[tactic(auto, unfolding(crate::specs::Path::with_block))]
    fn add(&mut self, block: usize) -> Result<(), NoPath>
        ensures { left_as result self.new ≡ with_block self.old block }
    {
        if self.first.is_none() {
            self.first = Some(block);
        } else if self.second.is_none() {
            self.second = Some(block);
        } else {
            return Err(NoPath);
        }
        Ok(())
    }

    // The other block of the body.
    #[tactic(auto, unfolding(crate::specs::Path::other_block))]
    fn other(self, block: usize) -> Option<usize>
        ensures { result ≡ other_block self block }
    {
        match self.first {
            Some(first) if first == block => self.second,
            first => first,
        }
    }
}

// Whether `block` is one, and another than the one before.
#[tactic(auto, unfolding(crate::specs::Path::follows))]
fn follows(block: Option<usize>, previous: Option<usize>) -> bool
    ensures { result ≡ follows_of block previous }
{
    block.is_some() && block != previous
}

// The rows of a block at the end of the order, and how many stand there then.
fn append(rows: &mut Order, listed: usize, block: RowBlock) -> usize
    requires { (block.start ≤ block.end) × (listed + (block.end - block.start) ≤ 96) }
    ensures { Appended rows.old listed block.start block.end rows.new result }
{
    let size = block.end - block.start;
    for (k, row) in rows[listed..listed + size].iter_mut().enumerate() {
        *row = block.start + k;
    }
    listed + size
}

impl Seen {
    ghost use Rattle.solves.specs.OrderView.{seen_of};

    fn new() -> Seen
        ensures { seen_of result ≡ none_seen }
    {
        Seen {
            rows: [0; 96],
            listed: 0,
            visited: [false; 96],
        }
    }

    // Block k, with its rows at the end of the order.
    fn visit(&mut self, k: usize, block: RowBlock)
        requires { (k < 96) × (block.start ≤ block.end) × (self.old.listed + (block.end - block.start) ≤ 96) }
        ensures { seen_of self.new ≡ visit k block (seen_of self.old) }
    {
        self.listed = append(&mut self.rows, self.listed, block);
        self.visited[k] = true;
    }
}

impl<'a> Graph<'a> {
    ghost use Rattle.solves.specs.OrderView.{seen_of, Free, Walked};

    // The other blocks on the bodies of block k.
    #[tactic(auto, unfolding(crate::specs::Path::neighbor))]
    fn neighbors(&self, k: usize) -> (Option<usize>, Option<usize>)
        requires { k < length self.now.blocks.now }
        ensures { result ≡ neighbors self.now.blocks.now self.now.edges.now k }
    {
        let block = self.blocks[k];
        (self.edges[block.a].other(k), self.edges[block.b].other(k))
    }

    // The block that follows when one comes from `previous`.
    #[tactic(auto, unfolding(crate::specs::Path::next_block))]
    fn next(&self, current: usize, previous: Option<usize>) -> Option<usize>
        requires { current < length self.now.blocks.now }
        ensures { result ≡ next_at self.now.blocks.now self.now.edges.now current previous }
    {
        let (a, b) = self.neighbors(current);
        if follows(a, previous) {
            a
        } else if follows(b, previous) {
            b
        } else {
            None
        }
    }

    // Whether a block has a free end and was not visited yet.
    #[tactic(auto, unfolding(crate::specs::Path::is_end))]
    fn is_end(&self, visited: &[bool; 96], k: usize) -> bool
        requires { k < length self.now.blocks.now }
        ensures { result ≡ is_end self.now.blocks.now self.now.edges.now visited.now k }
    {
        let (a, b) = self.neighbors(k);
        !visited[k] && (a.is_none() || b.is_none())
    }

    // Follows the blocks from `first` to the other end, which is at most as many turns away as there are blocks.
    fn walk(&self, first: usize, seen: &mut Seen) -> Result<(), NoPath>
        requires { (first < length self.now.blocks.now) × (Free self.now.blocks.now seen.old) }
        ensures { Walked self.now.blocks.now result seen.new (walk self.now.blocks.now self.now.edges.now first (seen_of seen.old)) }
    {
        let mut current = first;
        let mut previous = None;
        for k in 0..self.blocks.len() {
            if seen.visited[current] {
                return Err(NoPath);
            }
            seen.visit(current, self.blocks[current]);
            let Some(next) = self.next(current, previous) else {
                return Ok(());
            };
            previous = Some(current);
            current = next;
        }
        Err(NoPath)
    }

    // Walks from every end.
    fn walks(&self, seen: &mut Seen) -> Result<(), NoPath>
        requires { seen_of seen.old ≡ none_seen }
        ensures { Walked self.now.blocks.now result seen.new (path_walks self.now.blocks.now self.now.edges.now) }
    {
        for first in 0..self.blocks.len() {
            if !self.is_end(&seen.visited, first) {
                continue;
            }
            self.walk(first, seen)?;
        }
        Ok(())
    }
}

// Row i, on bodies a and b, at the end of the last of so many blocks or of a new one, and how many there are then.
#[tactic(auto, unfolding(crate::specs::Path::note_row))]
fn note_row(blocks: &mut [RowBlock; 96], number: usize, a: usize, b: usize, i: usize) -> usize
    requires { (number ≤ i) × (i < 96) }
    ensures { Noted blocks.new result (note_row a b i (take number blocks.old)) }
{
    if number > 0 && blocks[number - 1].a == a && blocks[number - 1].b == b {
        blocks[number - 1].end = i + 1;
        return number;
    }
    blocks[number] = RowBlock {
        a,
        b,
        start: i,
        end: i + 1,
    };
    number + 1
}

// How many blocks there are, at the head of the table.
fn path_blocks(rows: &Rows, blocks: &mut [RowBlock; 96]) -> usize
    ensures { (Noted blocks.new result (path_blocks (side_a rows.now) (side_b rows.now) (count_of rows.now)))
        × (Blocked (take result blocks.new)) × (rows_of (take result blocks.new) ≡ count_of rows.now) }
{
    let mut number = 0;
    for i in 0..rows.count() {
        number = note_row(blocks, number, rows.a[i], rows.b[i], i);
    }
    number
}

// The blocks on each body.
fn path_edges(blocks: &[RowBlock]) -> Result<[Ends; 16], NoPath>
    requires { Blocked blocks.now }
    ensures { (result ≡ path_edges blocks.now) × (IfOk result (λ edges. Linking (length blocks.now) edges)) }
{
    let mut edges = [Ends::NONE; 16];
    for (k, block) in blocks.iter().enumerate() {
        edges[block.a].add(k)?;
        edges[block.b].add(k)?;
    }
    Ok(edges)
}

// The rows along the path, if the graph is one.
pub(crate) fn path_order(rows: &Rows) -> Result<Order, NoPath>
    ensures { Ordered (count_of rows.now) result (path_order (side_a rows.now) (side_b rows.now) (count_of rows.now)) }
{
    let mut room = [RowBlock::NONE; 96];
    let number = path_blocks(rows, &mut room);
    let blocks = &room[..number];
    let edges = path_edges(blocks)?;
    let mut seen = Seen::new();
    let graph = Graph {
        blocks,
        edges: &edges,
    };
    graph.walks(&mut seen)?;
    if seen.listed != rows.count() {
        return Err(NoPath);
    }
    Ok(seen.rows)
}
