// Two byte texts compared in infinite order.
ghost use Rattle.std.specs.Prelude.{◌≡◌, ◌+◌, ◌%◌, ◌<◌, length};
ghost use Rattle.words.specs.Decided.{decided_rising};
ghost use Rattle.words.specs.Compute.InfiniteOrder.{compare_infinite};
ghost use Rattle.answer.specs.Limits.{Sized};
ghost use Rattle.letters.specs.Compared.{comparison_of};
ghost use Rattle.infinite_order.specs.Answers.{count_of, compare_answer};

use answer::Answer;
use std::cmp::Ordering;

// The position behind i in endless copies of a word of n letters. Not by `%`: with its division at each letter a comparison took over ten times as long.
fn next(i: usize, n: usize) -> usize
    requires { i < n }
    ensures next { result ≡ (i + 1) % n }
{
    if i + 1 == n { 0 } else { i + 1 }
}

// Endless copies of u and of v, compared in rising order: the first letters that differ decide, and at
// most |u| + |v| of each are looked at; where they are the same, the longer text is below.
fn compare_copies(u: &[u8], v: &[u8]) -> Ordering
    requires first_sized { Sized (length u.now) }
    requires second_sized { Sized (length v.now) }
    ensures answer { result ≡ comparison_of (compare_infinite decided_rising 0 u.now v.now) }
{
    let most = u.len() + v.len();
    let mut i: usize = 0;
    let mut j: usize = 0;
    // Two positions that start again, and not `u.iter().cycle().zip(v.iter().cycle())`: that takes a quarter longer.
    for _ in 0..most {
        let a = u[i];
        let b = v[j];
        if a != b {
            return a.cmp(&b);
        }
        i = next(i, u.len());
        j = next(j, v.len());
    }
    v.len().cmp(&u.len())
}

// The count that stands for an answer: 0 for below, 1 for same, 2 for above, the numbers that C is given.
fn count_of(c: Ordering) -> u32
    ensures count { result ≡ count_of c }
{
    match c {
        Ordering::Less => 0,
        Ordering::Equal => 1,
        Ordering::Greater => 2,
    }
}

// Compares two texts in infinite order, letters in rising order: the count is 0 where u is before v,
// 1 where they are equal, 2 where v is before u.
pub fn compare_infinite(u: &[u8], v: &[u8]) -> Answer
    ensures answer { result ≡ compare_answer u.now v.now }
{
    if let Err(refusal) = checks::two_texts(u.len(), v.len()) {
        return Answer::from(refusal);
    }
    answer::accept(count_of(compare_copies(u, v)))
}
