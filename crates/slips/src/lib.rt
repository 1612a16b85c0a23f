// Slips: three words a node, the third the number of nodes in its tree. The counts are taken off, the tree is read and marked, and each count is held against
// its mark; a marked tree is written with its counts.
#![tactic(auto)]

ghost use Rattle.std.specs.Prelude.{◌≡◌, ◌++◌, false, ◌*◌, ◌/◌, ◌≤◌, length, drop};
ghost use Rattle.words.specs.Views.{answer};
ghost use Rattle.tree.specs.Limits.{most_tree_words};
ghost use Rattle.tree.specs.Slip.{place_in, uncounted, read_slip, read_edition, check_slip};
ghost use Rattle.slips.specs.Slips.{counts_as, ReadBeside, SlipRead, SlipWritten};

use tables::{AllTypes, GrammarTypes};
use tree::limits::{MOST_SLIP_WORDS, MOST_WORDS};
use words::{Fault, Refusal};

// Where a word of the tree stands in the slip.
#[tactic(auto, unfolding(tree::specs::Slip::place_in))]
fn place_in(p: usize) -> usize
    requires { p ≤ most_tree_words }
    ensures { result ≡ place_in p }
{
    p / 2 * 3 + p % 2
}

// Copies the slip's tree to the start of the buffer, without its counts.
#[tactic(auto, using(crate::proofs::Copying::uncount_more, crate::proofs::Copying::uncount_end))]
fn uncount(slip: &[u32], buffer: &mut [u32])
    requires { 2 * (length slip.now / 3) ≤ length buffer.old }
    ensures { buffer.new ≡ uncounted slip.now ++ drop (2 * (length slip.now / 3)) buffer.old }
{
    for i in 0..slip.len() / 3 {
        buffer[2 * i] = slip[3 * i];
        buffer[2 * i + 1] = slip[3 * i + 1];
    }
}

// Holds each count against the size in the mark of its node: 34 at the first that is wrong.
fn check_counts(slip: &[u32], part: &[u32]) -> Result<usize, Refusal>
    requires { 2 * (length slip.now / 3) ≤ length part.now }
    ensures { result ≡ answer (counts_as slip.now part.now 0) }
{
    for (i, (node, pair)) in slip.chunks_exact(3).zip(part.chunks_exact(2)).enumerate() {
        if node[2] as usize != marks::size_in(pair[0]) {
            return Err(Refusal::new(Fault::SlipCount, 3 * i + 2));
        }
    }
    Ok(3 * (slip.len() / 3))
}

// The check of a slip against the grammar whose types these are. Where nothing is refused, its tree stands at the start of the buffer, marked.
fn read_beside(
    types: &GrammarTypes,
    slip: &[u32],
    buffer: &mut [u32; MOST_WORDS],
) -> Result<usize, Refusal>
    ensures { ReadBeside (λ g. read_slip g slip.now) types.now.types buffer.old buffer.new result }
{
    if slip.is_empty() || MOST_SLIP_WORDS < slip.len() || slip.len() % 3 != 0 {
        return Err(Refusal::new(Fault::SlipLength, 0));
    }
    let end = 2 * (slip.len() / 3);
    uncount(slip, buffer);
    match tree::read_tree(types, &buffer[..end]) {
        Err(refusal) => Err(refusal.at(place_in(refusal.position()))),
        Ok(_) => {
            marks::mark_tree(&types.types, buffer, 0, end);
            check_counts(slip, &buffer[..end])
        }
    }
}

// Copies the words to the start of the memory. A loop, since `copy_from_slice` would have the archive need `memmove`.
fn load(ws: &[u32], memory: &mut [u32])
    requires { length ws.now ≤ length memory.old }
    ensures { memory.new ≡ ws.now ++ drop (length ws.now) memory.old }
{
    for i in 0..ws.len() {
        memory[i] = ws[i];
    }
}

// The check of a slip against the grammar whose types these are. Where nothing is refused and the memory has room for every tree, the slip's tree stands at its
// start, marked. A refusal changes nothing, so the tree is read in a buffer beside it, which is gone when this returns: the stack of a run's calls does not hold it.
#[tactic(auto, using(crate::proofs::Loading::beside_refused, crate::proofs::Loading::beside_short))]
pub fn read_slip(types: &GrammarTypes, slip: &[u32], memory: &mut [u32]) -> Result<usize, Refusal>
    ensures { SlipRead (λ g. read_slip g slip.now) types.now.types memory.old memory.new result }
{
    let mut buffer = [0u32; MOST_WORDS];
    let next = read_beside(types, slip, &mut buffer)?;
    if memory.len() < MOST_WORDS {
        return Ok(next);
    }
    load(&buffer[..2 * (slip.len() / 3)], memory);
    Ok(next)
}

// The same in the two-word edition, which has no counts and is read as it stands.
fn read_plain(types: &GrammarTypes, slip: &[u32], memory: &mut [u32]) -> Result<usize, Refusal>
    ensures { SlipRead (λ g. read_edition false g slip.now) types.now.types memory.old memory.new result }
{
    let next = tree::read_tree(types, slip)?;
    if memory.len() < MOST_WORDS {
        return Ok(next);
    }
    load(slip, memory);
    marks::mark_tree(&types.types, memory, 0, slip.len());
    Ok(next)
}

// The same in the three-word edition, or else in the two-word one.
#[tactic(auto, unfolding(tree::specs::Slip::read_edition))]
pub fn read_edition(
    types: &GrammarTypes,
    counted: bool,
    slip: &[u32],
    memory: &mut [u32],
) -> Result<usize, Refusal>
    ensures { SlipRead (λ g. read_edition counted g slip.now) types.now.types memory.old memory.new result }
{
    if counted {
        read_slip(types, slip, memory)
    } else {
        read_plain(types, slip, memory)
    }
}

// The single check of a slip: the grammar's check, then the slip's, which has no memory to put the tree in.
#[tactic(auto, using(crate::proofs::Reading::check_refused, crate::proofs::Reading::check_accepted, crate::proofs::Reading::check_read))]
pub fn check_slip(grammar: &[u32], slip: &[u32]) -> Result<usize, Refusal>
    ensures { result ≡ answer (check_slip grammar.now slip.now) }
{
    grammar::check_grammar(grammar)?;
    let mut types = AllTypes::none();
    types.fill(grammar);
    read_slip(&types.types, slip, &mut [])
}

// Writes the tree of the part, which is marked, to the result as a slip.
#[tactic(auto, using(crate::proofs::Copying::write_more, crate::proofs::Copying::write_end))]
pub fn write_slip(part: &[u32], res: &mut [u32])
    requires { 3 * (length part.now / 2) ≤ length res.old }
    ensures { SlipWritten part.now res.old res.new }
{
    for i in 0..part.len() / 2 {
        let mark = part[2 * i];
        res[3 * i] = marks::type_in(mark);
        res[3 * i + 1] = part[2 * i + 1];
        res[3 * i + 2] = marks::size_in(mark) as u32;
    }
}
