// The grid: cells and steps along each axis, and the numbering of its edges. An axis is 0, 1 or 2; any other number is taken for 2.

ghost use Rattle.std.specs.Prelude.{◌≡◌};
ghost use Rattle.lattice.specs.Grid.{axis3, n_of, step_of, cells_of, unknowns_of, place_on, moved_to, with_component, index_of, at_of, next_axis, last_axis, Limits, Inside};

#[derive(Clone, Copy)]
pub struct Grid3d {
    pub nx: usize,
    pub ny: usize,
    pub nz: usize,
    pub dx: f64,
    pub dy: f64,
    pub dz: f64,
}

// A component of a field and its place (i, j, k).
#[derive(Clone, Copy)]
pub struct Position {
    pub component: usize,
    pub i: usize,
    pub j: usize,
    pub k: usize,
}

// By the axis: the first of three, the second, or the third.
#[tactic(auto, unfolding(crate::specs::Grid::axis3))]
pub fn axis3<T: Copy>(axis: usize, x: T, y: T, z: T) -> T
    ensures { result ≡ axis3 axis x y z }
{
    if axis == 0 {
        return x;
    }
    if axis == 1 {
        return y;
    }
    z
}

// The cells along an axis.
#[tactic(auto, unfolding(crate::specs::Grid::n_of))]
pub fn n(g: Grid3d, axis: usize) -> usize
    ensures { result ≡ n_of g axis }
{
    axis3(axis, g.nx, g.ny, g.nz)
}

// The step along an axis.
#[tactic(auto, unfolding(crate::specs::Grid::step_of))]
pub fn step(g: Grid3d, axis: usize) -> f64
    ensures { result ≡ step_of g axis }
{
    axis3(axis, g.dx, g.dy, g.dz)
}

// The number of cells. `requires`: every layer above works within the limits of refusal 1.
#[tactic(auto, unfolding(crate::specs::Grid::cells_of))]
pub fn cells(g: Grid3d) -> usize
    requires { Limits g }
    ensures { result ≡ cells_of g }
{
    g.nx * g.ny * g.nz
}

// The number of edges, three for each cell.
#[tactic(auto, using(crate::proofs::GridLaws::cells_most), unfolding(crate::specs::Grid::unknowns_of))]
pub fn unknowns(g: Grid3d) -> usize
    requires { Limits g }
    ensures { result ≡ unknowns_of g }
{
    3 * cells(g)
}

// The axis that follows in cyclic order, and the one after it.
#[tactic(auto, unfolding(crate::specs::Grid::next_axis))]
pub fn next_axis(axis: usize) -> usize
    ensures { result ≡ next_axis axis }
{
    axis3(axis, 1, 2, 0)
}

#[tactic(auto, unfolding(crate::specs::Grid::last_axis))]
pub fn last_axis(axis: usize) -> usize
    ensures { result ≡ last_axis axis }
{
    axis3(axis, 2, 0, 1)
}

// Where the position lies along an axis.
#[tactic(auto, unfolding(crate::specs::Grid::place_on))]
pub fn place_on(p: Position, axis: usize) -> usize
    ensures { result ≡ place_on p axis }
{
    axis3(axis, p.i, p.j, p.k)
}

// The position with place m along an axis.
#[tactic(auto, unfolding(crate::specs::Grid::moved_to))]
pub fn moved_to(p: Position, axis: usize, m: usize) -> Position
    ensures { result ≡ moved_to p axis m }
{
    axis3(
        axis,
        Position { i: m, ..p },
        Position { j: m, ..p },
        Position { k: m, ..p },
    )
}

// The same place of another component.
#[tactic(auto, unfolding(crate::specs::Grid::with_component))]
pub fn with_component(p: Position, component: usize) -> Position
    ensures { result ≡ with_component p component }
{
    Position { component, ..p }
}

// The number of a position. `requires`: it lies in the grid.
#[tactic(auto, using(crate::proofs::GridLaws::index_most), unfolding(crate::specs::Grid::index_of))]
pub fn index(g: Grid3d, p: Position) -> usize
    requires limits { Limits g }
    requires inside { Inside g p }
    ensures { result ≡ index_of g p }
{
    p.component * cells(g) + (p.k * g.ny + p.j) * g.nx + p.i
}

// The position of a number.
#[tactic(auto, using(crate::proofs::GridLaws::cells_some), unfolding(crate::specs::Grid::at_of))]
pub fn at(g: Grid3d, r: usize) -> Position
    requires { Limits g }
    ensures { result ≡ at_of g r }
{
    let n = cells(g);
    let rest = r % n;
    Position {
        component: r / n,
        i: rest % g.nx,
        j: rest / g.nx % g.ny,
        k: rest / (g.nx * g.ny),
    }
}
