//! A call of a job: what is lent to it, a sound call to start from, and the changes to it.
ghost use Rattle.std.specs.Prelude.{◌<◌};

use crate::word;
use crate::word::Word;
use block::tables;

/// The levels of one block more than a job takes.
pub const LEVELS: usize = 64 * 1025;

/// One step more than a job takes.
pub const STEPS: usize = 65;

/// One length more than a job takes.
pub const LENGTHS: usize = 257;

/// A job, with its budget of bits if it has one.
#[derive(Clone, Copy)]
pub enum Job {
    Price,
    List,
    Budget(u32),
    Thin,
}

impl Job {
    /// The job that a word names.
    pub fn named(word: Word) -> Option<Job> {
        match word.letter? {
            b'p' => Some(Job::Price),
            b'l' => Some(Job::List),
            b'b' => Some(Job::Budget((word.value % (1 << 32)) as u32)),
            b't' => Some(Job::Thin),
            _ => None,
        }
    }
}

/// What may be lent, and how much of it is, which may be more than there is.
#[derive(Drop)]
pub struct Lent<'a, T> {
    pub all: &'a mut [T],
    pub count: usize,
}

impl<T> Lent<'_, T> {
    /// The part that is lent, if it is there.
    pub fn part(&self) -> Option<&[T]> {
        self.all.get(..self.count)
    }

    /// The same to be changed.
    pub fn part_mut(&mut self) -> Option<&mut [T]> {
        let count = self.count;
        self.all.get_mut(..count)
    }
}

/// What a job is lent.
#[derive(Drop)]
pub struct Call<'a> {
    pub levels: Lent<'a, i16>,
    pub steps: Lent<'a, u8>,
    pub lengths: Lent<'a, u8>,
    pub a: u64,
    pub b: u64,
    /// How long the list is.
    pub places: usize,
    /// The first keep numbers; 9 stands behind them.
    pub keep: [u64; 3],
    /// How many keep numbers are lent.
    pub keeps: usize,
}

/// The still that is lent.
#[derive(Clone, Copy)]
pub struct Still<'a> {
    pub levels: &'a [i16],
    pub steps: &'a [u8],
    pub lengths: &'a [u8],
}

impl<'a> Call<'a> {
    /// A still of four corners, put into the arrays whatever they hold, with room for one corner more. A keep slice of odd
    /// numbers, which no choice has; but a thinning keeps two of the still's three levels.
    pub fn sound(
        job: Job,
        levels: &'a mut [i16; LEVELS],
        steps: &'a mut [u8; STEPS],
        lengths: &'a mut [u8; LENGTHS],
    ) -> Call<'a> {
        levels.fill(0);
        levels[1] = 1;
        levels[65] = 1;
        levels[81] = 1;
        steps.fill(10);
        steps[1] = 2;
        lengths.fill(0);
        lengths[..256].copy_from_slice(&tables::k5());
        Call {
            levels: Lent {
                all: levels,
                count: 128,
            },
            steps: Lent {
                all: steps,
                count: 64,
            },
            lengths: Lent {
                all: lengths,
                count: 256,
            },
            a: 1,
            b: 1,
            places: 15,
            keep: match job {
                Job::Thin => [1 << 1, 1 << 17, 9],
                _ => [5, 7, 9],
            },
            keeps: 2,
        }
    }

    /// The still, if all of it is there.
    pub fn still(&self) -> Option<Still<'_>> {
        Some(Still {
            levels: self.levels.part()?,
            steps: self.steps.part()?,
            lengths: self.lengths.part()?,
        })
    }

    /// Makes the change that a word tells.
    pub fn change(&mut self, word: Word) {
        match word.index {
            Some(i) => self.change_at(i, word),
            None => self.change_all(word),
        }
    }

    // What stands at an index of a slice, or at a position of every block.
    fn change_at(&mut self, i: usize, word: Word) {
        match word.letter {
            Some(b'l') => put(self.levels.all, i, word.level()),
            Some(b'p') => self.put_every(64, i, word.level()),
            Some(b's') => put(self.steps.all, i, word.byte()),
            Some(b'e') => put(self.lengths.all, i, word.byte()),
            _ => put(&mut self.keep, i, word.value),
        }
    }

    // How long a slice is, a part of the price, or what stands everywhere in a slice.
    fn change_all(&mut self, word: Word) {
        let n = word.value as usize;
        match word.letter {
            Some(b'l') => self.levels.count = n,
            Some(b's') => self.steps.count = n,
            Some(b'e') => self.lengths.count = n,
            Some(b'p') => self.places = n,
            Some(b'k') => self.keeps = n,
            Some(b'n') => {
                self.levels.count = 64 * (n % 2048);
                self.keeps = n;
            }
            Some(b'a') => self.a = word.value,
            Some(b'b') => self.b = word.value,
            Some(b'f') => {
                self.put_every(2, 1, word.level());
                self.put_every(2, 0, word.opposite());
            }
            Some(b'm') => self.mix(word.value),
            Some(b'q') => self.steps.all.fill(word.byte()),
            Some(b'r') => self.rise(word.value),
            Some(b't') => self.lengths.all.fill(word.byte()),
            _ => {}
        }
    }

    // The places that leave `rest` on division by `every`.
    fn put_every(&mut self, every: usize, rest: usize, level: i16)
        requires { 0 < every }
    {
        for (i, place) in self.levels.all.iter_mut().enumerate() {
            if i % every == rest {
                *place = level;
            }
        }
    }

    fn mix(&mut self, most: u64) {
        for (i, level) in self.levels.all.iter_mut().enumerate() {
            *level = square(i as u64, most);
        }
    }

    fn rise(&mut self, first: u64) {
        for (k, step) in self.steps.all.iter_mut().enumerate() {
            *step = ((first % 256 + k as u64) % 256) as u8;
        }
    }
}

// Puts a value at an index, where there is one.
fn put<T: Drop>(places: &mut [T], i: usize, value: T) {
    if let Some(place) = places.get_mut(i) {
        *place = value;
    }
}

// The square of i, reduced to a level from -most to most.
fn square(i: u64, most: u64) -> i16 {
    let half = most % 1024;
    let range = 2 * half + 1;
    let root = i % range;
    let rest = root * root % range;
    if rest > half {
        return word::signed(range - rest, true);
    }
    word::signed(rest, false)
}
