// Runs the factor list, the Lyndon suffix table and the left forest, in the default order, on worked
// examples of document 01, on inputs that are refused and on texts in mixed case; of the last the factor
// list in order 0 too. A line shows an answer's number, value and comparisons, and then each place of a
// buffer that held 99 everywhere. A write that fails ends the run with its error.
#![tactic(auto)]

use answer::Answer;
use factors::factorization::{factorization, factorization_ranked};
use factors::suffix_table::suffix_table;
use left_forest::left_forest;
use std::io;

// Writes an answer and the content of a buffer, in a line of its own.
fn print_line(rt: &impl Print, a: Answer, buffer: &[u32]) -> io::Result<()> {
    let number = a.number();
    let value = a.value();
    let comparisons = a.comparisons();
    print!(rt; "{number} {value} {comparisons}:")?;
    for n in buffer {
        print!(rt; " {n}")?;
    }
    println!(rt; "")
}

// Writes the line of a call that writes into one buffer.
fn print_call<F: Fn(&[u8], &mut [u32]) -> Answer>(
    rt: &impl Print,
    call: F,
    text: &[u8],
) -> io::Result<()>
    requires { F.IsAlwaysCallable call }
{
    let mut out = [99; 16];
    let a = call(text, &mut out);
    print_line(rt, a, &out)
}

// The factor list in order 0, which looks at no table.
fn rising_factorization(text: &[u8], out: &mut [u32]) -> Answer {
    factorization_ranked(text, 0, b"", out)
}

// Writes a line for either buffer of the left forest.
fn print_left_forest(rt: &impl Print, text: &[u8]) -> io::Result<()> {
    let mut first = [99; 6];
    let mut past = [99; 5];
    let a = left_forest(text, &mut first, &mut past);
    print_line(rt, a, &first)?;
    print_line(rt, a, &past)
}

fn main(rt: HostRuntime) -> io::Result<()> {
    print_call(&rt, factorization, b"abbababaababbaba")?;
    print_call(&rt, factorization, b"abab")?;
    print_call(&rt, factorization, b"")?;
    print_call(&rt, factorization, b"abbababaababbabaa")?;
    print_call(&rt, suffix_table, b"babbababbaabb")?;
    print_call(&rt, suffix_table, b"")?;
    print_call(&rt, suffix_table, b"abbababaababbabaa")?;
    print_left_forest(&rt, b"aabb")?;
    print_left_forest(&rt, b"aaaa")?;
    print_left_forest(&rt, b"")?;
    print_left_forest(&rt, b"aababb")?;
    print_left_forest(&rt, b"aababba")?;
    print_call(&rt, factorization, b"aB")?;
    print_call(&rt, rising_factorization, b"aB")?;
    print_call(&rt, factorization, b"TaTAt")?;
    print_call(&rt, rising_factorization, b"TaTAt")?;
    print_call(&rt, suffix_table, b"TaTAt")?;
    print_left_forest(&rt, b"TaTAt")
}
