// What stands in a line: its letters, its numbers and its label.
ghost use Rattle.std.specs.Prelude.{◌<◌, length};
ghost use Rattle.std.specs.Iterator.{at_most};

// A line of the cases, and the lines behind it.
#[derive(Clone, Copy)]
pub(crate) struct Line<'a>(pub &'a [u8]);

// The lines of a text, one after another.
#[derive(Clone, Copy)]
pub(crate) struct Lines<'a>(pub &'a [u8]);

// The number that digits make. A digit for which it has no room is left out.
fn value(digits: &[u8]) -> u64 {
    digits.iter().fold(0u64, |n, digit| {
        let next = u64::from(digit.wrapping_sub(b'0'));
        n.checked_mul(10)
            .and_then(|tens| tens.checked_add(next))
            .unwrap_or(n)
    })
}

// How many numbers a text has. The chain stands in `numbers` too, since a function cannot hand out one with closures.
fn numbers_in(text: &[u8]) -> usize {
    text.split(|b| !b.is_ascii_digit())
        .filter(|digits| !digits.is_empty())
        .count()
}

impl<'a> Line<'a> {
    // The byte in a place, or a line feed behind the end.
    pub fn letter(self, place: usize) -> u8 {
        self.0.get(place).copied().unwrap_or(b'\n')
    }

    // What the line has before a mark: all of it where the mark is missing.
    pub fn before(self, mark: u8) -> &'a [u8] {
        match self.0.iter().position(|b| *b == mark || *b == b'\n') {
            Some(end) => &self.0[..end],
            None => self.0,
        }
    }

    // The lines behind it.
    pub fn below(self) -> Lines<'a>
        ensures { 0 < length self.entry.0.now → length result.0.now < length self.entry.0.now }
    {
        match self.0.iter().position(|b| *b == b'\n') {
            Some(end) => Lines(&self.0[end + 1..]),
            None => Lines(&[]),
        }
    }

    // The numbers from a place on, up to the label, and 0 for each that is missing. The first number has place 0.
    pub fn numbers<const N: usize>(self, place: usize) -> [u64; N] {
        let mut numbers = [0; N];
        let digits = self
            .before(b'|')
            .split(|b| !b.is_ascii_digit())
            .filter(|digits| !digits.is_empty());
        for (number, digits) in numbers.iter_mut().zip(digits.skip(place)) {
            *number = value(digits);
        }
        numbers
    }

    pub fn number(self, place: usize) -> u64 {
        let [number] = self.numbers::<1>(place);
        number
    }

    pub fn count(self) -> usize {
        numbers_in(self.before(b'|'))
    }

    // How many numbers stand before the last such sign, where any do.
    pub fn ahead(self, sign: u8) -> Option<usize> {
        let text = self.before(b'|');
        let end = text.iter().rposition(|b| *b == sign)?;
        Some(numbers_in(&text[..end])).filter(|n| 0 < *n)
    }

    pub fn has_minus(self) -> bool {
        self.before(b'|').contains(&b'-')
    }

    // What stands behind the bar and a space.
    pub fn label(self) -> &'a [u8] {
        let behind = self.before(b'\n').splitn(2, |b| *b == b'|').nth(1);
        behind.and_then(|label| label.get(1..)).unwrap_or(&[])
    }
}

impl<'a> Iterator for Lines<'a> {
    type Item = Line<'a>;

    ghost remaining = { λ s. at_most (length s.0.now) };

    fn next(&mut self) -> Option<Line<'a>> {
        if self.0.is_empty() {
            return None;
        }
        let line = Line(self.0);
        *self = line.below();
        Some(line)
    }
}
