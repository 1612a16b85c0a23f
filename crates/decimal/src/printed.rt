// The lines that tell an outcome, put into lent bytes: as much as there is room for.
ghost use Rattle.std.specs.Prelude.{◌≤◌, length};
ghost use Rattle.meaning.specs.Meaning.{done, stopped};
ghost use Rattle.meaning.specs.Outcome.{refused, ended};
ghost use Rattle.decimal.specs.Printed.{printed, printed_unread, Put};

// A text in lent bytes, from the first on. What there is no room for is left out. It is not put by `write!`: that may answer an error, and of the bytes nothing is
// known then.
#[derive(Drop)]
struct Text<'a> {
    bytes: &'a mut [u8],
    end: usize,
    ghost within: { end ≤ length bytes.now },
}

impl<'a> Text<'a> {
    ghost use Rattle.std.specs.Prelude.{◌≡◌, ◌∷◌, []};
    ghost use Rattle.decimal.specs.Printed.{decimal, spaced, all_spaced, line, counts};
    ghost use Rattle.decimal.specs.Texts.{Grows};

    // Nothing so far.
    fn new(bytes: &'a mut [u8]) -> Text<'a>
        ensures same_reference { result.bytes.ghost_name ≡ bytes.entry.ghost_name }
        ensures bytes { result.bytes.now ≡ bytes.old }
        ensures end { result.end ≡ 0 }
    {
        Text { bytes, end: 0 }
    }

    // Puts one byte.
    fn put(&mut self, byte: u8)
        ensures { Grows self.old (byte ∷ []) self.new }
    {
        if self.end < self.bytes.len() {
            self.bytes[self.end] = byte;
            self.end += 1;
        }
    }

    // Puts bytes.
    fn put_text(&mut self, text: &[u8])
        ensures { Grows self.old text.now self.new }
    {
        for byte in text {
            self.put(*byte);
        }
    }

    // A number, the most significant digit first.
    fn put_digits(&mut self, n: usize)
        ensures { Grows self.old (decimal n) self.new }
    {
        if n >= 10 {
            self.put_digits(n / 10);
        }
        self.put(b'0' + (n % 10) as u8);
    }

    // A blank and a number.
    fn put_spaced(&mut self, n: usize)
        ensures { Grows self.old (spaced n) self.new }
    {
        self.put(b' ');
        self.put_digits(n);
    }

    // Each number after a blank.
    fn put_all_spaced(&mut self, numbers: &[u32])
        ensures { Grows self.old (all_spaced numbers.now) self.new }
    {
        for number in numbers {
            self.put_spaced(*number as usize);
        }
    }

    // A line of numbers, with single blanks between them.
    fn put_line(&mut self, numbers: &[u32])
        ensures { Grows self.old (line numbers.now) self.new }
    {
        if let Some((first, others)) = numbers.split_first() {
            self.put_digits(*first as usize);
            self.put_all_spaced(others);
        }
        self.put(b'\n');
    }

    // What a run counted, and the words that it filled.
    fn put_counts(&mut self, attempts: u32, replacements: u32, filled: &[u32])
        ensures { Grows self.old (counts attempts replacements filled.now) self.new }
    {
        self.put_spaced(attempts as usize);
        self.put_spaced(replacements as usize);
        self.put_spaced(filled.len());
        self.put(b'\n');
        self.put_line(filled);
    }
}

// The line of an input that cannot be read.
pub fn print_unread(out: &mut [u8]) -> usize
    ensures { Put out.old 0 printed_unread result out.new }
{
    let mut text = Text::new(out);
    text.put_text(b"unread\n");
    text.end
}

// The line of a refusal.
pub fn print_refused(number: u32, position: usize, out: &mut [u8]) -> usize
    ensures { Put out.old 0 (printed (refused number position)) result out.new }
{
    let mut text = Text::new(out);
    text.put_text(b"refused");
    text.put_spaced(number as usize);
    text.put_spaced(position);
    text.put(b'\n');
    text.end
}

// The lines of a run that was done.
pub fn print_done(attempts: u32, replacements: u32, filled: &[u32], out: &mut [u8]) -> usize
    ensures { Put out.old 0 (printed (ended done attempts replacements filled.now)) result out.new }
{
    let mut text = Text::new(out);
    text.put_text(b"done");
    text.put_counts(attempts, replacements, filled);
    text.end
}

// The lines of a run that stopped.
pub fn print_stopped(
    number: u32,
    attempts: u32,
    replacements: u32,
    filled: &[u32],
    out: &mut [u8],
) -> usize
    ensures { Put out.old 0 (printed (ended (stopped number) attempts replacements filled.now)) result out.new }
{
    let mut text = Text::new(out);
    text.put_text(b"stopped");
    text.put_spaced(number as usize);
    text.put_counts(attempts, replacements, filled);
    text.end
}
