// The bench: one input from standard input, and what came of it to standard output. Of the system's `read` and `write` nothing is assumed but that they return, and how
// many bytes they may move. So it is outside the proof that the bytes handed to `read_piece` are those that `read` delivered, each once and in order, and that those
// of the answer are written.
#![tactic(auto)]

ghost use Rattle.std.specs.Prelude.{◌≡◌, ◌+◌, ◌≤◌, length};
ghost use Rattle.std.proofs.Math.Option.{some};
ghost use Rattle.tamarind.specs.Run.{said, filled_of, memories};
ghost use Rattle.decimal.specs.Numbers.{said as read_as};
ghost use Rattle.decimal.specs.Input.{input, input_of, inputs_of};
ghost use Rattle.decimal.specs.Printed.{printed, Put};
ghost use Rattle.bench.specs.Bench.{Answers, AnswersWhole, ReadsOnce, ReadsOn, AnswersInput};

use decimal::input::Parts;
use decimal::numbers::{Piece, Place, Reading};
use std::io::{Read, Stdin, Write};
use tamarind::Outcome;

// A budget, three lengths, and one word past each limit.
const NUMBERS: usize = 26631;

// The bytes of one `read`.
const BUFFER: usize = 65536;

const RESULT: usize = 6144;

const WORK: usize = 16384;

// Room for the longest answer: a full result, each word with at most 20 digits and a blank, and the line before it.
const OUT: usize = 129200;

// What is printed of an outcome.
fn print_outcome(outcome: Outcome, res: &[u32], out: &mut [u8]) -> usize
    requires { filled_of outcome ≤ length res.now }
    ensures { Put out.old 0 (printed (said outcome res.now)) result out.new }
{
    match outcome {
        Outcome::Refused(refusal) => {
            decimal::printed::print_refused(refusal.number(), refusal.position(), out)
        }
        Outcome::Done(counts) => {
            let filled = counts.filled;
            decimal::printed::print_done(counts.attempts, counts.replacements, &res[..filled], out)
        }
        Outcome::Stopped(cause, counts) => {
            let filled = counts.filled;
            decimal::printed::print_stopped(
                cause.number(),
                counts.attempts,
                counts.replacements,
                &res[..filled],
                out,
            )
        }
    }
}

// Runs an input that is in parts, and prints the outcome.
fn run_parts(parts: Parts, res: &mut [u32], work: &mut [u32], out: &mut [u8]) -> usize
    ensures { Answers (some (inputs_of parts.entry)) (memories res.old work.old) out.old result (memories res.new work.new) out.new }
{
    let outcome = tamarind::run(
        parts.grammar,
        parts.rules,
        parts.slip,
        parts.budget,
        res,
        work,
    );
    print_outcome(outcome, res, out)
}

// Answers the numbers of a text.
fn answer_numbers(numbers: &[u32], res: &mut [u32], work: &mut [u32], out: &mut [u8]) -> usize
    ensures { Answers (input numbers.now) (memories res.old work.old) out.old result (memories res.new work.new) out.new }
{
    match decimal::input::find_parts(numbers) {
        Some(parts) => run_parts(parts, res, work, out),
        None => decimal::printed::print_unread(out),
    }
}

// Answers a text that was read to its end.
fn answer(
    read: Reading,
    numbers: &[u32],
    res: &mut [u32],
    work: &mut [u32],
    out: &mut [u8],
) -> usize
    ensures { Answers (input_of (read_as read numbers.now)) (memories res.old work.old) out.old result (memories res.new work.new) out.new }
{
    match read.place {
        Place::Between => {
            let count = read.count.min(numbers.len());
            answer_numbers(&numbers[..count], res, work, out)
        }
        Place::Unread | Place::Within(_) => decimal::printed::print_unread(out),
    }
}

// Answers it whole, over memories of the least lengths: if a text was read, as `bench` says.
fn answer_whole(
    read: Reading,
    numbers: &[u32; NUMBERS],
    res: &mut [u32; RESULT],
    work: &mut [u32; WORK],
    out: &mut [u8; OUT],
) -> usize
    ensures { AnswersWhole (read_as read numbers.now) (length numbers.now) result out.new }
{
    answer(read, numbers, res, work, out)
}

// Reads once, on from what was read before.
fn read_once(mut stdin: Stdin, before: Reading, numbers: &mut [u32]) -> Piece
    ensures { ReadsOnce before numbers.old result numbers.new }
{
    let mut buffer = [0u8; BUFFER];
    let got = stdin.read(&mut buffer).ok();
    before.read_piece(got, &buffer, numbers)
}

// Reads on to the end of standard input, or up to the first byte that makes it unread. A proved loop has to end, and nothing says that an input does: so the
// loop takes no more turns than a number that no run uses up.
fn read_on(stdin: Stdin, mut read: Reading, numbers: &mut [u32]) -> Reading
    ensures { ReadsOn read numbers.old result numbers.new }
{
    for _ in 0..u64::MAX {
        let piece = read_once(stdin, read, numbers);
        read = piece.read;
        if !piece.more {
            return read;
        }
    }
    Reading::unread()
}

// Reads standard input and answers it.
fn answer_input(
    stdin: Stdin,
    numbers: &mut [u32; NUMBERS],
    res: &mut [u32; RESULT],
    work: &mut [u32; WORK],
    out: &mut [u8; OUT],
) -> usize
    ensures { AnswersInput result out.new }
{
    let read = read_on(stdin, Reading::first(), numbers);
    answer_whole(read, numbers, res, work, out)
}

fn main(rt: HostRuntime) {
    let mut numbers = [0u32; NUMBERS];
    let mut result = [0u32; RESULT];
    let mut work = [0u32; WORK];
    let mut out = [0u8; OUT];
    let n = answer_input(rt.stdin(), &mut numbers, &mut result, &mut work, &mut out);
    if rt.stdout().write_all(&out[..n]).is_err() {
        let told = rt
            .stderr()
            .write_all(b"bench: the answer could not be written\n");
        drop(told);
    }
}
