// Lines: an axis on one level, held as the places of its nodes. The unit of a place is half a cell of the finest grid.

ghost use Rattle.std.specs.Prelude.{◌≡◌, ◌++◌, ℕ, ◌+◌, ◌-◌, ◌<◌, ◌≤◌, min, nat_lt, get_or, length, replicate};
ghost use Rattle.std.specs.List.{prefix_len};
ghost use Rattle.lattice.specs.Line.{packed, ends_of, finest_ends, joins_by, next_by, coarser_ends, place_of, nodes_of, Held};
ghost use Rattle.numbers.specs.Lists.{before as before_of, Rises};

use numbers::C64;

// A line of `cells` cells: its ends, one more than the cells, then zeros. A fixed list: lines are handed on by value, and nothing is allocated.
#[derive(Clone, Copy)]
pub struct Line {
    pub cells: usize,
    pub ends: [usize; 65],
}

// The line of n finest cells. `requires` of all functions here: a line over at most 64 cells, as the levels have them.
pub fn finest(n: usize) -> Line
    requires { n ≤ 64 }
    ensures { result ≡ packed (finest_ends n) }
{
    let mut ends = [0usize; 65];
    for (m, end) in ends[..n + 1].iter_mut().enumerate() {
        *end = 2 * m;
    }
    Line { cells: n, ends }
}

// Whether two cells join, by the map at their first end and at their last.
#[tactic(auto, unfolding(crate::specs::Line::joins_by))]
fn joins(first: C64, last: C64, target: f64) -> bool
    ensures { result ≡ joins_by first last target }
{
    (last - first).norm_sqr() <= target * target
}

// The second end behind end m of a line of n cells, or the last.
fn second_behind(m: usize, n: usize) -> usize
    requires { m < n }
    ensures { result ≡ min (m + 2) n }
{
    m + (n - m).min(2)
}

// The end that is kept behind end m of a line of n cells, by the map at end m and at the second behind it.
#[tactic(auto, using(crate::proofs::LineLaws::next_two, crate::proofs::LineLaws::next_one, crate::proofs::LineLaws::next_last))]
fn next_end(n: usize, m: usize, first: C64, last: C64, target: f64) -> usize
    requires { (m < n) × (n ≤ 64) }
    ensures { result ≡ next_by n m (joins_by first last target) }
{
    if m + 2 <= n {
        if joins(first, last, target) {
            return m + 2;
        }
    }
    m + 1
}

// The next level's line: neighbouring cells joined in pairs, from the left, where a pair is no longer than `target` in the map x.
pub fn coarser(l: Line, x: [C64; 129], target: f64) -> Line
    requires { Held l }
    ensures { result ≡ packed (coarser_ends x target (ends_of l)) }
{
    let n = l.cells;
    if n < 4 {
        return l;
    }
    let mut ends = [0usize; 65];
    ends[0] = l.ends[0];
    let mut m = 0;
    let mut k = 0;
    // The line goes on by one end or by two: no iterator steps so.
    while m < n {
        let a = l.ends[m];
        let i = second_behind(m, n);
        let c = l.ends[i];
        m = next_end(n, m, x[a], x[c], target);
        k += 1;
        ends[k] = l.ends[m];
    }
    Line { cells: k, ends }
}

// How many ends stand before the first that is not below e.
fn before(ends: &[usize], e: usize) -> usize
    ensures value { result ≡ prefix_len (λ f. nat_lt f e) ends.now }
    ensures most { result ≤ length ends.now }
{
    ends.iter().take_while(|end| **end < e).count()
}

// The same of a line. `requires`: the first `from` ends are below it.
fn before_from(l: Line, from: usize, e: usize) -> usize
    requires held { Held l }
    requires from_bound { from ≤ l.cells + 1 }
    requires by_index { (m : ℕ) → m < from → get_or l.ends m 0 < e }
    ensures { result ≡ before_of e (ends_of l) }
{
    let ends = &l.ends[..l.cells + 1];
    from + before(&ends[from..], e)
}

// For each node of the coarse line the number of the same node on the fine one, then zeros.
pub fn nodes_of(fine: Line, coarse: Line) -> [usize; 65]
    requires held { Held fine }
    requires held_2 { Held coarse }
    requires rises { Rises (ends_of coarse) }
    ensures { result ≡ nodes_of (ends_of fine) (ends_of coarse) ++ replicate (64 - coarse.cells) 0 }
{
    let mut nodes = [0usize; 65];
    let mut q = 0;
    // An index: a zip with the nodes to be written gives its proof no list of what is written.
    for (m, end) in coarse.ends[..coarse.cells + 1].iter().enumerate() {
        q = before_from(fine, q, *end);
        nodes[m] = q;
    }
    nodes
}

// The place of value m: that of node m across the axis; along it, the middle of the cell that begins there.
#[tactic(auto, using(crate::proofs::LineLaws::ends_at), unfolding(crate::specs::Line::place_of))]
pub fn place(l: Line, m: usize, along: bool) -> usize
    requires held { Held l }
    requires m_lt_cells { m < l.cells }
    ensures { result ≡ place_of (ends_of l) m along }
{
    if along {
        return (l.ends[m] + l.ends[m + 1]) / 2;
    }
    l.ends[m]
}
