// Answers in runs.
use crate::reading::{Outcome, Said};
use case_lines::shown::{Times, mixed};
use std::io;

// Equal answers one behind another, and a digest of what all readings so far left.
#[derive(Clone, Copy)]
pub struct Answers {
    last: Option<Times<Said>>,
    digest: u64,
}

impl Answers {
    pub fn new() -> Answers {
        Answers {
            last: None,
            digest: 0,
        }
    }

    // With one more answer; a run that ends before it is printed.
    pub fn push(&mut self, rt: &impl Print, o: Outcome) -> io::Result<()> {
        self.digest = mixed(self.digest, o.digest);
        let mut times = 1;
        if let Some(run) = self.last {
            if run.of == o.said {
                times = run.times.wrapping_add(1);
            } else {
                rt.print(run)?;
            }
        }
        self.last = Some(Times { times, of: o.said });
        Ok(())
    }

    // The last run, and the digest.
    pub fn end(self, rt: &impl Print) -> io::Result<()> {
        if let Some(run) = self.last {
            rt.print(run)?;
        }
        print!(rt; "\ndigest {:x}\n", self.digest)
    }
}
