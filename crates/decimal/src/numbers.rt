// The numbers of a text, byte by byte: a text may come in pieces of any length.
ghost use Rattle.std.specs.Prelude.{◌≡◌, [], true, ◌+◌, ◌*◌, ◌-◌, ◌≤◌, length, take};
ghost use Rattle.words.specs.Reader.{Words};
ghost use Rattle.decimal.specs.declared.numbers.Place.TheVariants.{Unread};
ghost use Rattle.decimal.specs.Numbers.{at, may_be, is_digit, is_white, grown, outside, added, byte, bytes, last, delivered, said, start, Stands, Delivers};

// Where a reading stands.
#[derive(Clone, Copy)]
pub enum Place {
    // the text is no input
    Unread,
    // no number is under way
    Between,
    // a number is under way, with this value so far
    Within(u32),
}

// Where a reading stands, and how many numbers it found.
#[derive(Clone, Copy)]
pub struct Reading {
    pub place: Place,
    pub count: usize,
}

// The reading after a piece of a text, and whether there may be more.
#[derive(Clone, Copy)]
pub struct Piece {
    pub read: Reading,
    pub more: bool,
}

// White space, the vertical tab too, which `is_ascii_whitespace` leaves out.
fn is_white(b: u8) -> bool
    ensures { result ≡ is_white b }
{
    matches!(b, b'\t'..=b'\r' | b' ')
}

// The value with a digit after it, if that is still a word.
#[tactic(auto, unfolding(crate::specs::Numbers::grown))]
fn grow(value: u32, digit: u8) -> Place
    requires { is_digit digit ≡ true }
    ensures { result ≡ grown (10 * value + (digit - 48)) }
{
    match u32::try_from(10 * u64::from(value) + u64::from(digit - b'0')) {
        Ok(value) => Place::Within(value),
        Err(_) => Place::Unread,
    }
}

// One byte where no number is under way.
#[tactic(auto, unfolding(crate::specs::Numbers::grown, crate::specs::Numbers::outside))]
fn begin(b: u8) -> Place
    ensures { result ≡ outside b }
{
    match b {
        b'0'..=b'9' => Place::Within(u32::from(b - b'0')),
        _ if is_white(b) => Place::Between,
        _ => Place::Unread,
    }
}

impl Reading {
    // Before the first byte.
    pub fn first() -> Reading
        ensures { (ws : Words) → said result ws ≡ start }
    {
        Reading {
            place: Place::Between,
            count: 0,
        }
    }

    // A text that cannot be read whole.
    pub fn unread() -> Reading
        ensures { (ws : Words) → said result ws ≡ at Unread [] }
    {
        Reading {
            place: Place::Unread,
            count: 0,
        }
    }

    // The same numbers, and another place.
    fn at(self, place: Place) -> Reading
        ensures { result ≡ record { place = place; count = self.count } }
    {
        Reading { place, ..self }
    }

    // May a text that was read so far be an input?
    fn goes_on(self) -> bool
        ensures { result ≡ may_be self.place }
    {
        !matches!(self.place, Place::Unread)
    }

    // One number more, if there is room for it.
    #[tactic(auto, using(crate::proofs::Reading::add_room, crate::proofs::Reading::add_full))]
    fn add(self, value: u32, words: &mut [u32]) -> Reading
        requires { self.count ≤ length words.old }
        ensures { Stands (added (length words.old) (take self.count words.old) value) words.old result words.new }
    {
        // By `get_mut` the proof did not close: it does not learn what the words are afterwards.
        if self.count < words.len() {
            words[self.count] = value;
            return Reading {
                place: Place::Between,
                count: self.count + 1,
            };
        }
        self.at(Place::Unread)
    }

    // One byte.
    #[tactic(auto, using(crate::proofs::Reading::stands_same), unfolding(crate::specs::Numbers::byte_at))]
    fn read_byte(self, b: u8, words: &mut [u32]) -> Reading
        requires { self.count ≤ length words.old }
        ensures { Stands (byte (length words.old) (said self words.old) b) words.old result words.new }
    {
        match self.place {
            Place::Unread => self,
            Place::Between => self.at(begin(b)),
            Place::Within(value) if b.is_ascii_digit() => self.at(grow(value, b)),
            Place::Within(value) if is_white(b) => self.add(value, words),
            Place::Within(_) => self.at(Place::Unread),
        }
    }

    // The bytes one after the other. The numbers found so far are the first words; a count past their end counts them all.
    fn read_bytes(self, text: &[u8], words: &mut [u32]) -> Reading
        ensures { Stands (bytes (length words.old) (said self words.old) text.now) words.old result words.new }
    {
        let mut reading = Reading {
            count: self.count.min(words.len()),
            ..self
        };
        for b in text {
            reading = reading.read_byte(*b, words);
        }
        reading
    }

    // The text ends.
    #[tactic(auto, using(crate::proofs::Reading::stands_same, crate::proofs::Reading::count_all), unfolding(crate::specs::Numbers::last_at))]
    fn read_end(self, words: &mut [u32]) -> Reading
        ensures { Stands (last (length words.old) (said self words.old)) words.old result words.new }
    {
        let reading = Reading {
            count: self.count.min(words.len()),
            ..self
        };
        match reading.place {
            Place::Within(value) => reading.add(value, words),
            Place::Unread | Place::Between => reading,
        }
    }

    // What the system's `read` delivered: none, where it failed; no bytes, where the text is at its end; or so many at the start of the buffer. A text that cannot
    // be read whole is unread.
    pub fn read_piece(self, got: Option<usize>, buffer: &[u8], words: &mut [u32]) -> Piece
        ensures { Delivers got (delivered (length words.old) (said self words.old) got buffer.now) words.old result words.new }
    {
        match got {
            None => Piece {
                read: Reading::unread(),
                more: false,
            },
            Some(0) => Piece {
                read: self.read_end(words),
                more: false,
            },
            Some(n) => {
                let read = self.read_bytes(&buffer[..n.min(buffer.len())], words);
                Piece {
                    read,
                    more: read.goes_on(),
                }
            }
        }
    }
}
