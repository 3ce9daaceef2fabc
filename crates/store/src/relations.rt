// The relations of the levels, which give the columns of Galerkin's rows, and how many terms a level's rows have.

ghost use Rattle.store.specs.Hierarchy.{the_lattice};
ghost use Rattle.std.specs.Prelude.{◌≡◌, suc, ◌<◌, ◌≤◌, length};
ghost use Rattle.lattice.specs.Sound.{full};
ghost use Rattle.numbers.specs.Lists.{start_of};
ghost use Rattle.operators.specs.LevelLists.{edges_on};
ghost use Rattle.operators.specs.Levels.{grid_at, pattern_row};
ghost use Rattle.operators.specs.Numbered.{word_count};
ghost use Rattle.store.specs.FillSteps.{Relations};

use crate::hierarchy::Hierarchy;
use crate::lines;
use lattice::sound::Sound;
use operators::pattern;
use operators::tables::WORDS;
use weights::tables;

// The relations of level 0.
pub fn first_relations(l: &Sound<'_>) -> [u64; WORDS]
    ensures { Relations (full l.now) 0 result }
{
    pattern::base_relations(l.lattice, l.st, l.lattice.grid)
}

// Those of level `level` + 1; u has those of level `level`.
pub fn next_relations(h: &Hierarchy<'_>, level: usize, u: &[u64]) -> [u64; WORDS]
    requires level_lt_m { level < h.now.m }
    requires relations { Relations (the_lattice h.now) level u.now }
    ensures { Relations (the_lattice h.now) (suc level) result }
{
    pattern::relations_below(&h.pair(level), u)
}

// How many terms the rows of a level have whose relations are u.
pub fn level_terms(h: &Hierarchy<'_>, level: usize, u: &[u64]) -> usize
    requires level_le_m { level ≤ h.now.m }
    requires u_len { length u.now ≡ word_count }
    ensures { result ≡ start_of (pattern_row (the_lattice h.now) (grid_at (the_lattice h.now) level) u.now)
        (edges_on (the_lattice h.now) level) }
{
    let g = tables::grid_of(h.l.lattice.grid, h.three(level));
    pattern::level_count(h.l.lattice, h.l.st, g, u)
}
