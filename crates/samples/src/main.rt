// Runs the checks of a grammar, a slip and a rule book on document 01's examples and on damaged ones, and prints each answer on a line.
#![tactic(auto)]

use std::io;
use words::Refusal;

// `accepted`, or the refusal.
fn print_answer(rt: &impl Print, answer: Result<usize, Refusal>) -> io::Result<()> {
    match answer {
        Ok(_) => println!(rt; "accepted"),
        Err(refusal) => println!(rt; "{refusal}"),
    }
}

fn check_grammar(rt: &impl Print, ws: &[u32]) -> io::Result<()> {
    print_answer(rt, grammar::check_grammar(ws))
}

// The paper's grammar, a program of a sequence of numbers, and damaged in each way that its rows name.
fn paper(rt: &impl Print) -> io::Result<()> {
    check_grammar(rt, &[3, 8, 1, 1, 1, 4, 2, 1, 2])?;
    check_grammar(rt, &[3, 8, 1, 1, 1, 4, 2, 1])?;
    check_grammar(rt, &[3, 8, 1, 1, 1, 4, 2, 1, 2, 0])?;
    check_grammar(rt, &[65, 8, 1, 1, 1, 4, 2, 1, 2])?;
    check_grammar(rt, &[3, 8, 17, 1, 1, 4, 2, 1, 2])?;
    check_grammar(rt, &[3, 8, 1, 1, 131072, 4, 2, 1, 2])?;
    check_grammar(rt, &[3, 8, 1, 1, 1, 4, 3, 1, 2])?;
    check_grammar(rt, &[3, 8, 1, 1, 1, 4, 2, 1, 4])
}

// A type of which no finite tree exists; one word more than a grammar may have.
fn others(rt: &impl Print) -> io::Result<()> {
    check_grammar(rt, &[1, 8, 1, 1, 0])?;
    let long = [1u32; 4097];
    check_grammar(rt, &long)
}

// A slip of the paper's grammar.
fn check_slip(rt: &impl Print, ws: &[u32]) -> io::Result<()> {
    print_answer(rt, slips::check_slip(&[3, 8, 1, 1, 1, 4, 2, 1, 2], ws))
}

// The paper's slips, and its variants of them; wrong counts.
fn papers_slips(rt: &impl Print) -> io::Result<()> {
    check_slip(
        rt,
        &[0, 0, 6, 1, 0, 5, 2, 200, 1, 1, 0, 3, 2, 500, 1, 1, 1, 1],
    )?;
    check_slip(rt, &[0, 0, 2, 1, 1, 1])?;
    check_slip(rt, &[0, 0, 1])?;
    check_slip(
        rt,
        &[
            0, 0, 6, 1, 0, 5, 2, 200, 1, 1, 0, 3, 2, 500, 1, 1, 1, 1, 1, 1, 1,
        ],
    )?;
    check_slip(rt, &[0, 0, 4, 1, 0, 3, 2, 4000000000, 1, 1, 1, 1])?;
    check_slip(rt, &[0, 0, 4, 1, 0, 3, 2, 4000000001, 1, 1, 1, 1])?;
    check_slip(rt, &[0, 0, 2, 1, 2, 1])?;
    check_slip(rt, &[])?;
    check_slip(rt, &[0, 0, 1, 1])?;
    check_slip(rt, &[0, 0, 3, 1, 1, 1])?;
    check_slip(rt, &[0, 0, 4, 1, 0, 2, 2, 200, 1, 1, 1, 0])
}

// Opt in opt, all counts 0: a slip of 64 nodes is as deep as a slip may be, so its first count is told; one of 65 is deeper, which is told before any count.
fn nested(rt: &impl Print) -> io::Result<()> {
    let mut ws = [0u32; 192];
    ws[190] = 1;
    print_answer(rt, slips::check_slip(&[1, 2, 0], &ws))?;
    let mut deeper = [0u32; 195];
    deeper[193] = 1;
    print_answer(rt, slips::check_slip(&[1, 2, 0], &deeper))
}

// A rule book for the paper's grammar.
fn check_rules(rt: &impl Print, ws: &[u32]) -> io::Result<()> {
    print_answer(rt, typing::check_rules(&[3, 8, 1, 1, 1, 4, 2, 1, 2], ws))
}

// The paper's rule book, which makes 42.00 of 2.00, and damaged in each way that its rows name; one word more than a rule book may have.
fn books(rt: &impl Print) -> io::Result<()> {
    check_rules(rt, &[1, 9, 2, 2, 1, 2, 200, 1, 2, 4200])?;
    check_rules(rt, &[1, 9, 2, 2, 1, 2, 200, 1, 1, 1])?;
    check_rules(rt, &[1, 9, 2, 2, 1, 2, 200, 1, 2])?;
    check_rules(rt, &[1, 1, 2, 2, 1, 2, 200])?;
    check_rules(rt, &[1, 9, 2, 2, 1, 64, 2, 1, 65, 1])?;
    check_rules(rt, &[1, 8, 2, 1, 2, 200, 1, 2, 4200])?;
    let long = [1u32; 16385];
    check_rules(rt, &long)
}

fn main(rt: HostRuntime) -> io::Result<()> {
    paper(&rt)?;
    others(&rt)?;
    papers_slips(&rt)?;
    nested(&rt)?;
    books(&rt)
}
