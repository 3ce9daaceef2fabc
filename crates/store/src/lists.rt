// The twelve lists of a store, as they go through the code.

ghost use Rattle.std.specs.Prelude.{◌≡◌};
ghost use Rattle.store.specs.Store.{sizes, zeroed};
ghost use Rattle.store.specs.FillSteps.{sizes_of};
ghost use Rattle.store.specs.Lists.{store_of, SameLists};

use crate::needs::Lengths;

// All of them, for a setup to fill.
#[derive(Drop)]
pub struct Lists<'a> {
    pub ends: &'a mut [usize],
    pub eps: &'a mut [f64],
    pub starts: &'a mut [usize],
    pub columns: &'a mut [usize],
    pub values: &'a mut [f64],
    pub tstarts: &'a mut [usize],
    pub tcolumns: &'a mut [usize],
    pub tvalues: &'a mut [f64],
    pub ostarts: &'a mut [usize],
    pub ocolumns: &'a mut [usize],
    pub ovalues: &'a mut [f64],
    pub scaling: &'a mut [f64],
}

impl Lists<'_> {
    // How many places each has.
    pub fn lengths(&self) -> Lengths
        ensures { sizes_of result ≡ sizes (store_of self.now) }
    {
        Lengths {
            ends: self.ends.len(),
            eps: self.eps.len(),
            starts: self.starts.len(),
            columns: self.columns.len(),
            values: self.values.len(),
            tstarts: self.tstarts.len(),
            tcolumns: self.tcolumns.len(),
            tvalues: self.tvalues.len(),
            ostarts: self.ostarts.len(),
            ocolumns: self.ocolumns.len(),
            ovalues: self.ovalues.len(),
            scaling: self.scaling.len(),
        }
    }

    // Zero in every place of every list.
    pub fn clear(&mut self)
        ensures same { SameLists self.old self.new }
        ensures zeroed { store_of self.new ≡ zeroed (store_of self.old) }
    {
        self.ends.fill(0);
        self.eps.fill(0.0);
        self.starts.fill(0);
        self.columns.fill(0);
        self.values.fill(0.0);
        self.tstarts.fill(0);
        self.tcolumns.fill(0);
        self.tvalues.fill(0.0);
        self.ostarts.fill(0);
        self.ocolumns.fill(0);
        self.ovalues.fill(0.0);
        self.scaling.fill(0.0);
    }
}

// The forward and the turned rows of all transfers, as the operators and the scaling read them.
#[derive(Clone, Copy)]
pub struct Transfers<'a> {
    pub starts: &'a [usize],
    pub columns: &'a [usize],
    pub values: &'a [f64],
    pub tstarts: &'a [usize],
    pub tcolumns: &'a [usize],
    pub tvalues: &'a [f64],
}

// Those that depend on the lattice alone: a change reads them.
#[derive(Clone, Copy)]
pub struct Structure<'a> {
    pub ends: &'a [usize],
    pub starts: &'a [usize],
    pub columns: &'a [usize],
    pub tstarts: &'a [usize],
    pub tcolumns: &'a [usize],
    pub ostarts: &'a [usize],
    pub ocolumns: &'a [usize],
}

// Those that depend on the permittivities too: a change renews them.
#[derive(Drop)]
pub struct Numbers<'a> {
    pub eps: &'a mut [f64],
    pub values: &'a mut [f64],
    pub tvalues: &'a mut [f64],
    pub ovalues: &'a mut [f64],
    pub scaling: &'a mut [f64],
}
