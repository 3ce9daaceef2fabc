// Interpolation along one axis: which coarse values a fine place takes, and with which weights.
// `requires` of these functions: the places of the coarse values in a list; at least one, as every line has. Where a place is made a double: an
// `Axis`, whose places are at most 128, so that it is exact.

ghost use Rattle.std.specs.Prelude.{◌≡◌, [], ◌∷◌, ℕ, ◌<◌, ◌≤◌, length, get_or, take, drop, option_to_list, position, nat_lt};
ghost use Rattle.numbers.specs.Complex.{no_number};
ghost use Rattle.lattice.specs.Stretched.{map_points};
ghost use Rattle.weights.specs.Interpolate.{up_to, meets as meets_at, outside as outside_of, rule_by, rule_of, low_side, high_side, coordinate as coordinate_at, low_coordinate, high_coordinate, ratio as ratio_of, ratio_at, share_place, share_weight, few_list, side_shares, rule_shares, shares_in, kept_shares};
ghost use Rattle.weights.specs.declared.interpolate.Share.TheVariants.{There};
ghost use Rattle.weights.specs.Tables.{map_in};

use lattice::lattice::Edges;
use lattice::neighbours;
use lattice::neighbours::Arrival;
use numbers::C64;

// The rule that gives a place its weights: a coarse value there; on a wall axis outside the coarse values, the nearest (along) or an outside
// neighbour dropped (across); else between two neighbours. Of the first two the coarse value, of the others how many values lie before the place.
#[derive(Clone, Copy)]
pub enum Rule {
    Coincides(usize),
    Nearest(usize),
    Between(usize),
    Dropped(usize),
}

// A coarse value that a place takes: the one that lies there, or a share of a neighbour's.
#[derive(Clone, Copy)]
pub enum Share {
    There(usize),
    Low(Arrival),
    High(Arrival),
}

// At most two of them, in order.
#[derive(Clone, Copy)]
pub struct Few {
    pub first: Option<Share>,
    pub second: Option<Share>,
}

// An axis whose coarse values have coordinates: block `block` of the maps gives those of the places, and the period is the line's end. The maps are
// whole, there is a value, and every place is one of a map.
#[derive(Clone, Copy)]
pub struct Axis<'a> {
    pub edges: Edges,
    pub maps: &'a [f64],
    pub block: usize,
    pub values: &'a [usize],
    pub period: usize,
    ghost maps_long: { (length maps.now ≡ 1548) × (block < 6) },
    ghost some: { (0 < length values.now) × (period < map_points) },
    ghost low: { (m : ℕ) → m < length values.now → get_or values.now m 0 < map_points },
}

impl Share {
    // The coarse value.
    pub fn place(self) -> usize
        ensures { result ≡ share_place self }
    {
        match self {
            Share::There(m) => m,
            Share::Low(to) => to.at,
            Share::High(to) => to.at,
        }
    }

    // Its weight, where the place lies t of the way from the low neighbour to the high one: a neighbour's share times its phase.
    pub fn weight(self, t: C64) -> C64
        ensures { result ≡ share_weight t self }
    {
        match self {
            Share::There(_) => C64::one(),
            Share::Low(to) => t.one_minus() * to.phase,
            Share::High(to) => t * to.phase,
        }
    }
}

impl Few {
    pub fn none() -> Few
        ensures { few_list result ≡ [] }
    {
        Few {
            first: None,
            second: None,
        }
    }

    // How many there are.
    pub fn count(self) -> usize
        ensures { result ≡ length (few_list self) }
    {
        usize::from(self.first.is_some()) + usize::from(self.second.is_some())
    }

    // Number d of them.
    pub fn get(self, d: usize) -> Option<Share>
        requires { d < 2 }
        ensures { option_to_list result ≡ take 1 (drop d (few_list self)) }
    {
        if d == 0 {
            return self.first.or(self.second);
        }
        self.first.and(self.second)
    }

    // Those without place 0 where it is fixed.
    #[tactic(auto, using(crate::proofs::InterpolateLaws::kept_append))]
    fn kept(self, wall: bool) -> Few
        ensures { few_list result ≡ kept_shares wall (few_list self) }
    {
        Few {
            first: kept(self.first, wall),
            second: kept(self.second, wall),
        }
    }
}

#[tactic(auto, unfolding(crate::specs::Interpolate::kept_shares))]
fn kept(s: Option<Share>, wall: bool) -> Option<Share>
    ensures { option_to_list result ≡ kept_shares wall (option_to_list s) }
{
    let s = s?;
    if wall && s.place() == 0 {
        return None;
    }
    Some(s)
}

// ---- structure

// The first coarse value past place p.
fn first_past(cs: &[usize], p: usize) -> Option<usize>
    ensures { result ≡ position (λ x. nat_lt p x) cs.now }
{
    cs.iter().position(|x| *x > p)
}

// How many coarse values lie at or before place p.
#[tactic(auto, using(crate::proofs::InterpolateLaws::up_to_most))]
fn up_to(cs: &[usize], p: usize) -> usize
    ensures value { result ≡ up_to cs.now p }
    ensures most { result ≤ length cs.now }
{
    first_past(cs, p).unwrap_or(cs.len())
}

// Whether the last of the first h values is at p.
#[tactic(auto, unfolding(crate::specs::Interpolate::meets))]
fn meets(cs: &[usize], p: usize, h: usize) -> bool
    requires { h ≤ length cs.now }
    ensures { result ≡ meets_at cs.now p h }
{
    h > 0 && cs[h - 1] == p
}

// Before the first of n values or past the last.
#[tactic(auto, unfolding(crate::specs::Interpolate::outside))]
fn outside(n: usize, h: usize) -> bool
    ensures { result ≡ outside_of n h }
{
    h == 0 || n <= h
}

#[tactic(auto, unfolding(crate::specs::Interpolate::rule_by))]
fn rule_by(wall: bool, along: bool, n: usize, h: usize, met: bool) -> Rule
    ensures { result ≡ rule_by wall along n h met }
{
    let last = h.saturating_sub(1);
    if met {
        return Rule::Coincides(last);
    }
    if wall && outside(n, h) {
        if along {
            return Rule::Nearest(last);
        }
        return Rule::Dropped(h);
    }
    Rule::Between(h)
}

// The rule of place p.
#[tactic(auto, unfolding(crate::specs::Interpolate::rule_of))]
pub fn rule_of(e: Edges, cs: &[usize], along: bool, p: usize) -> Rule
    ensures { result ≡ rule_of e cs.now along p }
{
    let h = up_to(cs, p);
    let met = meets(cs, p, h);
    rule_by(lattice::lattice::is_wall(e), along, cs.len(), h, met)
}

// The neighbour on each side where h of n values lie before the place, with its phase.
#[tactic(auto, unfolding(crate::specs::Interpolate::low_side))]
fn low_side(e: Edges, n: usize, h: usize) -> Option<Arrival>
    requires { 0 < n }
    ensures { result ≡ low_side e n h }
{
    if h == 0 {
        match e {
            Edges::Pml => None,
            Edges::Bloch(p) => neighbours::to_place(n - 1, p.inv()),
        }
    } else {
        neighbours::to_place(h - 1, C64::one())
    }
}

#[tactic(auto, unfolding(crate::specs::Interpolate::high_side))]
fn high_side(e: Edges, n: usize, h: usize) -> Option<Arrival>
    ensures { result ≡ high_side e n h }
{
    if n <= h {
        match e {
            Edges::Pml => None,
            Edges::Bloch(p) => neighbours::to_place(0, p),
        }
    } else {
        neighbours::to_place(h, C64::one())
    }
}

// The one that lies there.
fn there(m: usize) -> Few
    ensures { few_list result ≡ There m ∷ [] }
{
    Few {
        first: Some(Share::There(m)),
        second: None,
    }
}

// Those of the two neighbours that are there.
fn sides(low: Option<Arrival>, high: Option<Arrival>) -> Few
    ensures { few_list result ≡ side_shares low high }
{
    Few {
        first: low.map(|to| Share::Low(to)),
        second: high.map(|to| Share::High(to)),
    }
}

// The coarse values that a rule takes.
fn rule_shares(e: Edges, n: usize, by: Rule) -> Few
    requires { 0 < n }
    ensures { few_list result ≡ rule_shares e n by }
{
    match by {
        Rule::Coincides(m) => there(m),
        Rule::Nearest(m) => there(m),
        Rule::Between(h) => sides(low_side(e, n, h), high_side(e, n, h)),
        Rule::Dropped(h) => sides(low_side(e, n, h), high_side(e, n, h)),
    }
}

// The coarse values that place p takes, without place 0 where it is fixed.
#[tactic(auto, unfolding(crate::specs::Interpolate::shares_in))]
pub fn taken(e: Edges, cs: &[usize], along: bool, p: usize, wall: bool) -> Few
    requires { 0 < length cs.now }
    ensures { few_list result ≡ kept_shares wall (shares_in e cs.now along p) }
{
    rule_shares(e, cs.len(), rule_of(e, cs, along, p)).kept(wall)
}

// ---- numbers

// How far p lies from low to high.
#[tactic(auto, unfolding(crate::specs::Interpolate::ratio))]
fn ratio(p: C64, low: C64, high: C64) -> C64
    ensures { result ≡ ratio_of p low high }
{
    (p - low) / (high - low)
}

impl Axis<'_> {
    // The coordinate at place p: the map there; on a Bloch axis the place itself.
    fn coordinate(&self, p: usize) -> C64
        requires { p < 258 }
        ensures { result ≡ coordinate_at self.now.edges (map_in self.now.maps.now self.now.block) p }
    {
        match self.edges {
            Edges::Pml => {
                if p < 129 {
                    return numbers::get(self.maps, 129 * self.block + p);
                }
                let nan = 0.0 / 0.0;
                C64 { re: nan, im: nan }
            }
            Edges::Bloch(_) => C64 {
                re: p as f64,
                im: 0.0,
            },
        }
    }

    // That of the low neighbour where h values lie before the place.
    #[tactic(auto, unfolding(crate::specs::Interpolate::low_coordinate, crate::specs::Interpolate::whole))]
    fn low_coordinate(&self, h: usize) -> C64
        requires { h ≤ length self.now.values.now }
        ensures { result ≡ low_coordinate self.now.edges (map_in self.now.maps.now self.now.block) self.now.values.now self.now.period h }
    {
        let cs = self.values;
        if h == 0 {
            return C64 {
                re: cs[cs.len() - 1] as f64 - self.period as f64,
                im: 0.0,
            };
        }
        self.coordinate(cs[h - 1])
    }

    // That of the high one.
    #[tactic(auto, unfolding(crate::specs::Interpolate::high_coordinate))]
    fn high_coordinate(&self, h: usize) -> C64
        ensures { result ≡ high_coordinate self.now.edges (map_in self.now.maps.now self.now.block) self.now.values.now self.now.period h }
    {
        let cs = self.values;
        if cs.len() <= h {
            return self.coordinate(cs[0] + self.period);
        }
        self.coordinate(cs[h])
    }

    // How far place p lies from its low neighbour to its high one.
    #[tactic(auto, unfolding(crate::specs::Interpolate::ratio_at))]
    pub fn ratio_at(&self, p: usize) -> C64
        requires { p < map_points }
        ensures { result ≡ ratio_at self.now.edges (map_in self.now.maps.now self.now.block) self.now.values.now self.now.period p (up_to self.now.values.now p) }
    {
        let h = up_to(self.values, p);
        let low = self.low_coordinate(h);
        let high = self.high_coordinate(h);
        ratio(self.coordinate(p), low, high)
    }
}
