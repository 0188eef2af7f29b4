// Lines: the line in hand, byte by byte, and which command it is.
//
// Blanks (spaces, tabs, returns) part the words of a line. The first word is one byte, each other one a number in digits, of at most 32 bits. A # ends the
// words wherever it stands, also inside one: it and the rest of the line are a comment.
ghost use Rattle.std.specs.Prelude.{◌≡◌, Ok, None, IsErr};
ghost use Rattle.scripts.specs.declared.lines.Place.TheVariants.{Comment};
ghost use Rattle.scripts.specs.declared.lines.Words.TheVariants.{Nothing};

// What a line asks for. The party comes first; a recover has none.
#[derive(Clone, Copy, PartialEq, Eq, Debug)]
pub enum Command {
    Begin { party: u32 },
    Read { party: u32, entry: u32 },
    Write { party: u32, entry: u32, value: u32 },
    Insert { party: u32, entry: u32, key: u32 },
    Remove { party: u32, entry: u32, key: u32 },
    Locate { party: u32, first: u32, second: u32 },
    Tidy { party: u32, first: u32 },
    Step { party: u32 },
    // Steps until the answer is not more.
    Go { party: u32 },
    Commit { party: u32 },
    Abort { party: u32 },
    Ask { party: u32 },
    Recover,
}

// A line that is no command.
#[derive(Clone, Copy, PartialEq, Eq, Debug)]
pub struct Malformed;

// The words that have begun: the letter, and the numbers.
#[derive(Clone, Copy, PartialEq, Eq, Debug)]
pub enum Words {
    Nothing,
    Letter(u8),
    One(u8, u32),
    Two(u8, u32, u32),
    Three(u8, u32, u32, u32),
}

// Where the last byte of a line stands.
#[derive(Clone, Copy, PartialEq, Eq, Debug)]
pub enum Place {
    Blank,
    Word,
    Comment,
}

#[derive(Clone, Copy, PartialEq, Eq, Debug)]
pub struct Line {
    // An error where some word is not of the form above, or is one too many.
    pub words: Result<Words, Malformed>,
    pub place: Place,
}

fn digit(byte: u8) -> Result<u32, Malformed> {
    match byte {
        b'0'..=b'9' => Ok(u32::from(byte - b'0')),
        _ => Err(Malformed),
    }
}

// A number with one more digit.
fn appended(number: u32, byte: u8) -> Result<u32, Malformed> {
    let digit = digit(byte)?;
    let tens = number.checked_mul(10).ok_or(Malformed)?;
    tens.checked_add(digit).ok_or(Malformed)
}

impl Words {
    // The words with a byte that begins another one.
    fn begin(self, byte: u8) -> Result<Words, Malformed> {
        match self {
            Words::Nothing => Ok(Words::Letter(byte)),
            Words::Letter(letter) => Ok(Words::One(letter, digit(byte)?)),
            Words::One(letter, a) => Ok(Words::Two(letter, a, digit(byte)?)),
            Words::Two(letter, a, b) => Ok(Words::Three(letter, a, b, digit(byte)?)),
            Words::Three(..) => Err(Malformed),
        }
    }

    // The words with one more byte of the last one.
    fn go_on(self, byte: u8) -> Result<Words, Malformed> {
        match self {
            Words::Nothing | Words::Letter(_) => Err(Malformed),
            Words::One(letter, a) => Ok(Words::One(letter, appended(a, byte)?)),
            Words::Two(letter, a, b) => Ok(Words::Two(letter, a, appended(b, byte)?)),
            Words::Three(letter, a, b, c) => Ok(Words::Three(letter, a, b, appended(c, byte)?)),
        }
    }

    // The command that these words are, none if there are none.
    fn command(self) -> Result<Option<Command>, Malformed>
        ensures { self ≡ Nothing → result ≡ Ok None }
    {
        Ok(Some(match self {
            Words::Nothing => return Ok(None),
            Words::Letter(b'v') => Command::Recover,
            Words::One(b'b', party) => Command::Begin { party },
            Words::One(b's', party) => Command::Step { party },
            Words::One(b'g', party) => Command::Go { party },
            Words::One(b'c', party) => Command::Commit { party },
            Words::One(b'a', party) => Command::Abort { party },
            Words::One(b'k', party) => Command::Ask { party },
            Words::Two(b'r', party, entry) => Command::Read { party, entry },
            Words::Two(b't', party, first) => Command::Tidy { party, first },
            Words::Three(b'w', party, entry, value) => Command::Write {
                party,
                entry,
                value,
            },
            Words::Three(b'i', party, entry, key) => Command::Insert { party, entry, key },
            Words::Three(b'd', party, entry, key) => Command::Remove { party, entry, key },
            Words::Three(b'l', party, first, second) => Command::Locate {
                party,
                first,
                second,
            },
            _ => return Err(Malformed),
        }))
    }
}

impl Line {
    pub fn new() -> Self
        ensures { result.words ≡ Ok Nothing }
    {
        Line {
            words: Ok(Words::Nothing),
            place: Place::Blank,
        }
    }

    // Takes one more byte of the line. Behind a # it changes nothing, and a line that is malformed stays so.
    pub fn push(&mut self, byte: u8)
        ensures comment { self.old.place ≡ Comment → self.new ≡ self.old }
        ensures malformed { IsErr self.old.words → IsErr self.new.words }
        ensures hash { byte ≡ 35 → (self.new.words ≡ self.old.words) × (self.new.place ≡ Comment) }
    {
        match (self.place, byte) {
            (Place::Comment, _) => {}
            (_, b'#') => self.place = Place::Comment,
            (_, b' ' | b'\t' | b'\r') => self.place = Place::Blank,
            (Place::Blank, _) => {
                self.place = Place::Word;
                self.words = self.words.and_then(|words| words.begin(byte));
            }
            (Place::Word, _) => self.words = self.words.and_then(|words| words.go_on(byte)),
        }
    }

    // The command of the whole line, none if it is blank or only a comment.
    pub fn command(self) -> Result<Option<Command>, Malformed>
        ensures malformed { IsErr self.words → IsErr result }
        ensures blank { self.words ≡ Ok Nothing → result ≡ Ok None }
    {
        self.words?.command()
    }
}
