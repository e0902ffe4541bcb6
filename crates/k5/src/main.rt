//! Prints Table K.5 as the library holds it, a row for each run. What it must print is made of the standard's own form
//! of the table, sixteen counts and 162 values, by tests/k5.awk.
#![tactic(auto)]

use block::tables::K5;
use std::{fmt, io};

// The lengths of a run's codes, size 0 to 15.
#[derive(Clone, Copy)]
struct Row<'a>(&'a [u8]);

impl fmt::Display for Row<'_> {
    fn fmt<W: fmt::Write>(&self, f: &mut fmt::Formatter<W>) -> fmt::Result {
        for (size, length) in self.0.iter().enumerate() {
            if 0 < size {
                write!(f, " ")?;
            }
            write!(f, "{length}")?;
        }
        Ok(())
    }
}

fn main(rt: HostRuntime) -> io::Result<()> {
    for row in K5.chunks_exact(16) {
        println!(rt; "{}", Row(row))?;
    }
    Ok(())
}
