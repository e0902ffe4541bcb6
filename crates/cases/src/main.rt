//! Runs the four jobs on bad input, on barely good input and on stills that are hard. A line of the input is a case, told
//! again with its answer and with what was lent, afterwards; a line that begins with # is a heading. The first word of a
//! case names the job: `price`, `list`, `thin`, or `budget=N` for a budget of N bits. The others change a sound call, each
//! told by its first letter:
//! `levels`, `steps`, `entries`, `places`, `keeps`: how long a slice is; `n`: 64 * n levels and n keeps,
//! `level[i]`, `step[i]`, `entry[i]`, `keep[i]`: what stands at a place; `position[k]`: at position k of every block,
//! `fill=V`: the levels are V and -V in turn; `mixed=V`: they have many values from -V to V,
//! `quantizer=V`: the steps are V; `rise=V`: they are V, V + 1, V + 2 and so on; `table=V`: the lengths are V,
//! `a`, `b`: the price.
//! What must be printed is the output of tests/cases.c, which makes the same calls of the independent implementation.
#![tactic(auto)]

mod answer;
mod call;
mod tell;
mod word;

use std::io;

// A line with no newline behind it is no case yet.
fn tell_all(rt: &impl Print, cases: &[u8]) -> io::Result<()> {
    for line in cases.split_inclusive(|c| *c == b'\n') {
        match line.strip_suffix(b"\n") {
            Some(case) => {
                rt.write_all(case)?;
                answer::tell(rt, case)?;
                rt.write_all(b"\n")?;
            }
            None => rt.write_all(line)?,
        }
    }
    Ok(())
}

fn main(rt: HostRuntime) -> io::Result<()> {
    let mut room = [0u8; 65536];
    let n = input::read_full(&mut rt.stdin(), &mut room)?;
    tell_all(&rt, &room[..n])
}
