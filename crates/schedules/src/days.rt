// Days: the day of a card that a party keeps, and a reading of it.
//
// A day is bytes that make words, the high byte first. The low 11 bits of a word are its minute. A word holds from its minute to that of the next word,
// the last one to 1,440. One that holds for no minute, because the next has the same, is dropped; each of the others is a stretch.
ghost use Rattle.std.specs.Prelude.{◌≤◌};
ghost use Rattle.schedules.specs.declared.days.TheConstants.{ROOM};

// How many bytes there is room for.
pub const ROOM: usize = 24;

// Whether a party is at a day: in doubt where the last call was refused and where the day is done.
#[derive(Clone, Copy, PartialEq, Eq)]
pub enum Progress {
    None,
    UnderWay,
    InDoubt,
}

// What a party keeps of a day: how far it is, the place that was returned last, first entry, driver and start, and the bytes. They have a room of fixed size,
// since a run has no heap and days are copied from party to party.
#[derive(Clone, Copy)]
pub struct Day {
    pub progress: Progress,
    pub place: u32,
    pub entry: u32,
    pub driver: u32,
    pub start: u32,
    bytes: [u8; ROOM],
    len: usize,
    ghost fits: { len ≤ ROOM },
}

impl Day {
    // No day.
    pub fn new() -> Self {
        Day {
            progress: Progress::None,
            place: 0,
            entry: 0,
            driver: 0,
            start: 0,
            bytes: [0; ROOM],
            len: 0,
        }
    }

    pub fn bytes(&self) -> &[u8] {
        &self.bytes[..self.len]
    }

    // So many bytes, of which those that are new are what stood there before.
    pub fn set_len(&mut self, len: usize) {
        self.len = len.min(ROOM);
    }

    // How many words there are.
    pub fn words(&self) -> usize {
        self.len / 2
    }

    fn word(&self, i: usize) -> u32 {
        let at = 2 * (i % (ROOM / 2));
        u16::from_be_bytes([self.bytes[at], self.bytes[at + 1]]) as u32
    }

    // Word i, with a minute and other bits above it.
    pub fn set_word(&mut self, i: usize, top: u32, minute: u32) {
        let at = 2 * (i % (ROOM / 2));
        let [_, _, high, low] = (top << 11 | minute % 2048).to_be_bytes();
        self.bytes[at] = high;
        self.bytes[at + 1] = low;
    }

    fn minute(&self, i: usize) -> u32 {
        self.word(i) % 2048
    }

    // The minute to which word i holds.
    fn end(&self, i: usize) -> u32 {
        let next = i.wrapping_add(1);
        if next < self.words() {
            self.minute(next)
        } else {
            1440
        }
    }

    // Is it a day: not empty, from minute 0 on, with minutes of a day that don't fall?
    pub fn is_day(&self) -> bool {
        self.words() != 0
            && self.minute(0) == 0
            && (0..self.words()).all(|i| self.minute(i) < 1440 && self.minute(i) <= self.end(i))
    }

    // Does word i hold for a minute?
    fn is_stretch(&self, i: usize) -> bool {
        self.minute(i) != self.end(i)
    }

    // How many stretches a day has.
    pub fn stretches(&self) -> usize {
        (0..self.words()).filter(|i| self.is_stretch(*i)).count()
    }

    // The word that is stretch k, from 0.
    fn stretch(&self, k: usize) -> usize {
        (0..self.words())
            .filter(|i| self.is_stretch(*i))
            .nth(k)
            .unwrap_or(0)
    }

    // The value of stretch k: its word with the length in place of the minute.
    pub fn value(&self, k: usize) -> u32 {
        let i = self.stretch(k);
        let length = self.end(i).wrapping_sub(self.minute(i));
        (self.word(i) & 0xf800).wrapping_add(length)
    }

    // The key of stretch k, as a number that may be no word.
    pub fn key(&self, k: usize, driver: u32, start: u32) -> u64 {
        let from = self.minute(self.stretch(k));
        1048576 * driver as u64 + start as u64 + from as u64
    }
}
