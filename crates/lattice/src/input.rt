// What a setup is given, beside the lattice record.

// The six lists of stretches of a setup's input: on each axis those at the nodes, and those half a step after them.
#[derive(Clone, Copy)]
pub struct Stretches<'a> {
    pub xn: &'a [f64],
    pub xh: &'a [f64],
    pub yn: &'a [f64],
    pub yh: &'a [f64],
    pub zn: &'a [f64],
    pub zh: &'a [f64],
}
