//! What is printed behind a case: the answer, and what was lent, afterwards.
use answers::{Point, Refusal};
use std::{fmt, io};

// As many numbers are told one by one.
const SHORT: usize = 24;

/// A point, and the keep slice.
pub fn point(rt: &impl Print, said: Result<Point, Refusal>, keep: &[u64]) -> io::Result<()> {
    match said {
        Ok(p) => print!(rt; ": point {} {} {}", p.bits.0, p.error.0, p.kept)?,
        Err(refusal) => refused(rt, refusal)?,
    }
    let kept = Stored::whole(keep);
    print!(rt; ", keep{kept}")
}

/// A number of corners, and the list.
pub fn corners(rt: &impl Print, said: Result<usize, Refusal>, list: &[u64]) -> io::Result<()> {
    match said {
        Ok(n) => print!(rt; ": corners {n}")?,
        Err(refusal) => refused(rt, refusal)?,
    }
    let listed = Stored {
        places: list,
        end: said.map_or(0, |n| 3 * (n % 65536)),
    };
    print!(rt; ", list{listed}")
}

/// A number of kept coefficients, the keep slice and the levels.
pub fn kept(
    rt: &impl Print,
    said: Result<u64, Refusal>,
    keep: &[u64],
    levels: &[i16],
) -> io::Result<()> {
    match said {
        Ok(n) => print!(rt; ": kept {n}")?,
        Err(refusal) => refused(rt, refusal)?,
    }
    let kept = Stored::whole(keep);
    print!(rt; ", keep{kept}, levels")?;
    for (i, level) in levels.iter().enumerate() {
        if *level != 0 {
            print!(rt; " {}/{}={level}", i / 64, i % 64)?;
        }
    }
    Ok(())
}

fn refused(rt: &impl Print, refusal: Refusal) -> io::Result<()> {
    print!(rt;
        ": refused {} {} {}",
        refusal.kind.number(),
        refusal.first,
        refusal.second
    )
}

// Numbers, each behind a blank.
#[derive(Clone, Copy)]
struct Numbers<'a>(&'a [u64]);

impl fmt::Display for Numbers<'_> {
    fn fmt<W: fmt::Write>(&self, f: &mut fmt::Formatter<W>) -> fmt::Result {
        for number in self.0 {
            write!(f, " {number}")?;
        }
        Ok(())
    }
}

// All of a short slice. Of a longer one the first six numbers; three before and three behind the end of what is stored;
// the sum.
#[derive(Clone, Copy)]
struct Stored<'a> {
    places: &'a [u64],
    end: usize,
}

impl Stored<'_> {
    fn whole(places: &[u64]) -> Stored<'_> {
        Stored {
            places,
            end: places.len(),
        }
    }
}

impl fmt::Display for Stored<'_> {
    fn fmt<W: fmt::Write>(&self, f: &mut fmt::Formatter<W>) -> fmt::Result {
        let places = self.places;
        if places.len() <= SHORT {
            return write!(f, "{}", Numbers(places));
        }
        let from = self.end.saturating_sub(3).min(places.len());
        let to = places.len().min(from + 6);
        let first = Numbers(&places[..6]);
        let around = Numbers(&places[from..to]);
        write!(f, "{first};{around}; {}", sum(places))
    }
}

// A number that each place and the order of the places count for.
fn sum(places: &[u64]) -> u64 {
    let mut sum = 0;
    for x in places {
        sum = (31 * sum + x % 1000000007) % 1000000007;
    }
    sum
}
