//! A word of a case: `list`, `levels=63`, `level[67]=-1024`.

/// What a word tells: its first letter, the index in its brackets, and its number.
#[derive(Clone, Copy)]
pub struct Word {
    pub letter: Option<u8>,
    pub index: Option<usize>,
    pub value: u64,
    negative: bool,
}

impl From<&[u8]> for Word {
    fn from(text: &[u8]) -> Word {
        let mut word = Word {
            letter: None,
            index: None,
            value: 0,
            negative: false,
        };
        for c in text {
            word.read(*c);
        }
        word
    }
}

impl Word {
    // The numbers of the cases are below 10 * 2^60.
    fn read(&mut self, c: u8) {
        match c {
            b'0'..=b'9' => {
                if self.value < 1 << 60 {
                    self.value = self.value * 10 + u64::from(c - b'0');
                }
            }
            b']' => {
                self.index = Some(self.value as usize);
                self.value = 0;
            }
            b'-' => self.negative = true,
            b'\0' => {}
            _ => {
                if self.letter.is_none() {
                    self.letter = Some(c);
                }
            }
        }
    }

    /// The number as a level.
    pub fn level(self) -> i16 {
        signed(self.value, self.negative)
    }

    /// The level of the other sign.
    pub fn opposite(self) -> i16 {
        signed(self.value, !self.negative)
    }

    /// The number as a step or a length.
    pub fn byte(self) -> u8 {
        (self.value % 256) as u8
    }
}

/// A number below 32,768, or its negative, which may be one more.
pub fn signed(n: u64, negative: bool) -> i16 {
    if negative && n > 0 {
        return -1 - ((n - 1) % 32768) as i16;
    }
    (n % 32768) as i16
}
