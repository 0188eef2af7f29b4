// Card days: a day of a driver's card as big-endian words, its stretches, the ordinary requests that store it, and the day written out again.
//
// Each function promises that its result is that of the definition (specs/Day): `survey` walks the bytes once and says whether they are a proper day, how
// many stretches it has and which is the one asked for; `request_from` makes a request of that stretch; `write_day` writes a day's keys and values out as
// bytes, or leaves the bytes as they were. It rests on no other crate: no store is named here.
#![tactic(auto)]

ghost use Rattle.std.specs.Prelude.{◌≡◌, ◌++◌, ◌+◌, ◌*◌, ◌≤◌, ◌<◌, ◌%◌, length, get_or, drop};
ghost use Rattle.card_days.specs.Day.{words, proper, stretch, stretches, no_stretch, day_key, word_out, written_out, valued, of_day, all_of_day, writable, WritesDay};
ghost use Rattle.card_days.specs.Loops.{WordAt, RequestFrom, still, ended, started, passed};

#[derive(Clone, Copy, Default, PartialEq, Eq, Debug)]
pub struct Stretch {
    // The minute of the day that it starts at.
    pub minute: u32,
    // The five top bits of its word, and its length in minutes in the place of the minute.
    pub value: u32,
}

// A request as its code and the arguments that the code uses, as numbers that nothing bounds yet. They are numbers and no enum because a day call holds them,
// word by word, to the code, entry and first argument of the request in hand.
#[derive(Clone, Copy, PartialEq, Eq, Debug)]
pub struct DayRequest {
    pub code: u32,
    pub entry: u64,
    pub first: u64,
}

// What one walk of the bytes tells.
#[derive(Clone, Copy, PartialEq, Eq, Debug)]
pub struct Surveyed {
    pub is_proper: bool,
    // How many stretches there are.
    pub count: usize,
    // The one that was asked for; all 0 if there are not so many, since a place past the last one names a request too.
    pub stretch: Stretch,
}

// The walk of the bytes at one of their words: what the words before it tell.
#[derive(Clone, Copy)]
struct Walk {
    word: u32,
    told: Surveyed,
}

// ---- words

// The word whose high byte stands at `at`.
fn word_at(bytes: &[u8], at: usize) -> u32
    requires { at + 2 ≤ length bytes.now }
    ensures { WordAt bytes.now at result }
{
    u32::from(bytes[at]) * 256 + u32::from(bytes[at + 1])
}

// ---- one walk of the bytes

// The stretch of a word that runs to `end`.
fn stretch_of(w: u32, end: u32) -> Stretch
    requires { (w < 65536) × (end ≤ 2048) }
    ensures { result ≡ stretch w end }
{
    let minute = w % 2048;
    Stretch {
        minute,
        value: w / 2048 * 2048 + end.saturating_sub(minute),
    }
}

// Whether a day that was proper to the word w is so to the word v after it: minutes don't fall, and each is below 1,440.
#[tactic(auto, unfolding(crate::specs::Loops::still))]
fn is_still(proper: bool, w: u32, v: u32) -> bool
    ensures { result ≡ still proper w v }
{
    proper && w % 2048 <= v % 2048 && v % 2048 < 1440
}

impl Surveyed {
    // A stretch ends, that of the word w: one more, and the one that is asked for if its number is k.
    #[tactic(auto, unfolding(crate::specs::Loops::ended))]
    fn end_stretch(self, k: usize, w: u32, end: u32) -> Surveyed
        requires { (self.count < 18446744073709551615) × (w < 65536) × (end ≤ 2048) }
        ensures { result ≡ ended k self w end }
    {
        Surveyed {
            count: self.count + 1,
            stretch: if self.count == k {
                stretch_of(w, end)
            } else {
                self.stretch
            },
            ..self
        }
    }
}

impl Walk {
    // The walk at the first word of a day.
    #[tactic(auto, unfolding(crate::specs::Loops::started))]
    fn start(word: u32) -> Walk
        ensures { result ≡ started word }
    {
        let told = Surveyed {
            is_proper: word % 2048 == 0,
            count: 0,
            stretch: Stretch::default(),
        };
        Walk { word, told }
    }

    // The walk goes on to the next word, v. Where the minutes are equal the later word counts.
    #[tactic(auto, unfolding(crate::specs::Loops::passed))]
    fn pass(self, k: usize, v: u32) -> Walk
        requires { (self.told.count < 18446744073709551615) × (self.word < 65536) }
        ensures { result ≡ passed k self v }
    {
        let told = Surveyed {
            is_proper: is_still(self.told.is_proper, self.word, v),
            ..self.told
        };
        if self.word % 2048 == v % 2048 {
            return Walk { word: v, told };
        }
        let told = told.end_stretch(k, self.word, v % 2048);
        Walk { word: v, told }
    }
}

// Whether the bytes are a proper day, how many stretches it has, and stretch k of them, counted from 0.
pub fn survey(bytes: &[u8], k: usize) -> Surveyed
    ensures { (result.is_proper ≡ proper (words bytes.now)) × (result.count ≡ length (stretches (words bytes.now))) × (result.stretch ≡ get_or (stretches (words bytes.now)) k no_stretch) }
{
    if bytes.len() < 2 {
        return Surveyed {
            is_proper: false,
            count: 0,
            stretch: Stretch::default(),
        };
    }
    let mut walk = Walk::start(word_at(bytes, 0));
    for i in 1..bytes.len() / 2 {
        walk = walk.pass(k, word_at(bytes, 2 * i));
    }
    walk.told.end_stretch(k, walk.word, 1440)
}

// ---- requests

// Request j of a day, of its stretch j / 2: writes at even places, inserts at odd ones.
pub fn request_from(st: Stretch, driver: u32, start: u32, entry: u32, j: u32) -> DayRequest
    ensures { RequestFrom st driver start entry j result }
{
    let entry = u64::from(entry) + u64::from(j / 2);
    if j % 2 == 0 {
        return DayRequest {
            code: 2,
            entry,
            first: u64::from(st.value),
        };
    }
    DayRequest {
        code: 3,
        entry,
        first: u64::from(driver) * 1048576 + u64::from(start) + u64::from(st.minute),
    }
}

// ---- written out

// Whether the key is one of the day that starts at key k0, and the value one of a stretch.
#[tactic(auto, unfolding(crate::specs::Day::of_day))]
fn is_of_day(k0: u64, key: u32, value: u32) -> bool
    ensures { result ≡ of_day k0 key value }
{
    let key = u64::from(key);
    k0 <= key && key <= k0 + 1439 && value < 65536
}

fn are_of_day(k0: u64, pairs: &[u32], values: &[u32]) -> bool
    requires { 2 * length values.now ≤ length pairs.now }
    ensures { result ≡ all_of_day k0 (valued pairs.now values.now) }
{
    for (i, &value) in values.iter().enumerate() {
        if !is_of_day(k0, pairs[2 * i], value) {
            return false;
        }
    }
    true
}

// The word of a membership's key and its entry's value.
fn out_word(k0: u64, key: u32, value: u32) -> u64
    ensures { result ≡ word_out k0 key value }
{
    u64::from(value) / 2048 * 2048 + u64::from(key).saturating_sub(k0)
}

fn low_byte(w: u64) -> u8
    ensures { result ≡ w % 256 }
{
    (w % 256) as u8
}

// The words of keys and values, high byte first. Later bytes stay.
fn write_out(k0: u64, pairs: &[u32], values: &[u32], out: &mut [u8])
    requires { (2 * length values.now ≤ length pairs.now) × (2 * length values.now ≤ length out.old) }
    ensures { out.new ≡ written_out k0 (valued pairs.now values.now) ++ drop (2 * length values.now) out.old }
{
    for (i, &value) in values.iter().enumerate() {
        let w = out_word(k0, pairs[2 * i], value);
        out[2 * i] = low_byte(w / 256);
        out[2 * i + 1] = low_byte(w);
    }
}

#[tactic(auto, unfolding(crate::specs::Day::writable))]
fn is_writable(k0: u64, pairs: &[u32], values: &[u32], room: usize) -> bool
    ensures { result ≡ writable k0 pairs.now values.now room }
{
    values.len() <= 1440
        && 2 * values.len() <= pairs.len()
        && 2 * values.len() <= room
        && are_of_day(k0, pairs, values)
}

// A locate's pairs (key, entry) and the values of these entries, written out as the bytes of that day of the driver. Later bytes stay. False if they are
// no such day or there is no room: then all bytes stay.
pub fn write_day(driver: u32, start: u32, pairs: &[u32], values: &[u32], out: &mut [u8]) -> bool
    ensures { WritesDay (day_key driver start) pairs.now values.now out.old result out.new }
{
    let k0 = u64::from(driver) * 1048576 + u64::from(start);
    let writable = is_writable(k0, pairs, values, out.len());
    if writable {
        write_out(k0, pairs, values, out);
    }
    writable
}
