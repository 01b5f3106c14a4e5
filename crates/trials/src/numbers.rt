// The numbers of a line of the script.
ghost use Rattle.std.specs.Prelude.{◌≤◌};

use crate::MOST_NUMBERS;

#[derive(Clone, Copy)]
pub(crate) struct Numbers {
    pub count: usize,
    pub all: [u16; MOST_NUMBERS],
}

impl Numbers {
    // The number at a place, 0 past the last.
    pub(crate) fn at(&self, place: usize) -> u16 {
        self.all.get(place).copied().unwrap_or(0)
    }

    // Four of them, from a place on.
    pub(crate) fn four(&self, from: usize) -> [u16; 4]
        requires { from ≤ 2 }
    {
        [
            self.at(from),
            self.at(from + 1),
            self.at(from + 2),
            self.at(from + 3),
        ]
    }

    pub(crate) fn told(&self) -> &[u16] {
        &self.all[..self.count.min(MOST_NUMBERS)]
    }
}

// Past 65,535 it goes on from 0.
fn number_of(digits: &[u8]) -> u16 {
    digits.iter().fold(
        0u16,
        |v, digit| v
            .wrapping_mul(10)
            .wrapping_add(u16::from(digit.wrapping_sub(b'0'))),
    )
}

// The first of them; those past a '#' do not count.
pub(crate) fn numbers_of(line: &[u8]) -> Numbers {
    let mut all = [0u16; MOST_NUMBERS];
    let mut count: usize = 0;
    let read = line.split(|byte| *byte == b'#').next().unwrap_or(line);
    for digits in read
        .split(|byte| !byte.is_ascii_digit())
        .filter(|digits| !digits.is_empty())
    {
        if let Some(place) = all.get_mut(count) {
            *place = number_of(digits);
            count += 1;
        }
    }
    Numbers { count, all }
}
