// Letters of both widths: how two of them compare in an order, bytes by the rank that a table gives them.
//
// Contracts cite `specs/Compared.antt`, `specs/Keyed.antt`, `specs/Ranks.antt`, `specs/Keys.antt`, `specs/BuiltIn.antt`, `specs/Default.antt` and the orders
// of `words`.
// Nothing is assumed.
#![tactic(auto)]

pub mod built_in;

ghost use Rattle.std.specs.Prelude.{◌≡◌, length};
ghost use Rattle.words.specs.Decided.{decided_order};
ghost use Rattle.letters.specs.Compared.{comparison_of, order_number, numbered_order};
ghost use Rattle.letters.specs.Ranks.{rank_by, direction_of, rank_differs};
ghost use Rattle.letters.specs.Keyed.{row};
ghost use Rattle.letters.specs.Keys.{rank_table, turned_table, key_table};

use checks::limits;
use std::cmp::Ordering;

// The order that letters are compared in: in the falling one the greater number is the smaller letter.
#[derive(Clone, Copy, Debug, PartialEq, Eq)]
pub enum Order {
    Rising,
    Falling,
}

// A text of bytes with the table that its letters are compared by: each counts as its entry, its key.
#[derive(Clone, Copy)]
pub struct Keyed<'a> {
    pub text: &'a [u8],
    pub keys: &'a [u8; 256],
}

impl Keyed<'_> {
    // The number of letters.
    pub fn len(self) -> usize
        ensures { result ≡ length (row self.entry) }
    {
        self.text.len()
    }
}

impl Order {
    // The order of a number: 0 is rising, every other falling. No `From`: which order a number is depends on what is compared, 2 is that of ranks.
    pub fn numbered(order: u32) -> Order
        ensures order { result ≡ numbered_order order }
    {
        match order {
            0 => Order::Rising,
            _ => Order::Falling,
        }
    }

    // How two letters compare in it.
    pub fn compare(self, a: u32, b: u32) -> Ordering
        ensures answer { result ≡ comparison_of ((decided_order (order_number self)).compare a b) }
    {
        match self {
            Order::Rising => a.cmp(&b),
            Order::Falling => a.cmp(&b).reverse(),
        }
    }

    // How the ranks of two bytes compare in it.
    pub fn compare_ranks(self, table: &[u8; 256], a: u8, b: u8) -> Ordering
        ensures answer { result ≡ comparison_of ((decided_order (order_number self)).compare (rank_by table.now a) (rank_by table.now b)) }
    {
        if differ(table, a, b) {
            let (a, b) = (table[a as usize], table[b as usize]);
            self.compare(u32::from(a), u32::from(b))
        } else {
            Ordering::Equal
        }
    }
}

// The number of the order that ranks or letters are compared in: ranks, order 2, as in order 0. A number, as C gives the order; `Order::numbered` tells
// what it stands for.
pub fn direction(order: u32) -> u32
    ensures direction { result ≡ direction_of order }
{
    if order == limits::RANKED { 0 } else { order }
}

// How two letters compare in the order of a number.
pub fn compare(a: u32, b: u32, order: u32) -> Ordering
    ensures answer { result ≡ comparison_of ((decided_order order).compare a b) }
{
    Order::numbered(order).compare(a, b)
}

// The same of two bytes.
pub fn compare_bytes(a: u8, b: u8, order: u32) -> Ordering
    ensures answer { result ≡ comparison_of ((decided_order order).compare a b) }
{
    compare(u32::from(a), u32::from(b), order)
}

// Two bytes, of one text or of two, differ in rank. Equal bytes have one rank, so that the table is read only where they differ.
pub fn differ(table: &[u8; 256], a: u8, b: u8) -> bool
    ensures answer { result ≡ rank_differs table.now a b }
{
    a != b && table[a as usize] != table[b as usize]
}

// How the ranks of two bytes compare in the order of a number.
pub fn compare_ranks(table: &[u8; 256], a: u8, b: u8, order: u32) -> Ordering
    ensures answer { result ≡ comparison_of ((decided_order order).compare (rank_by table.now a) (rank_by table.now b)) }
{
    Order::numbered(order).compare_ranks(table, a, b)
}

// The ranks of all bytes in an order: those of the table in order 2, if it has 256 entries, else their own numbers.
// Order and table stand side by side, as C gives them; behind this one table stands for both.
#[tactic(auto, using(crate::proofs::Tables::by_table, crate::proofs::Tables::by_number, crate::proofs::Tables::by_length))]
pub fn rank_table(order: u32, table: &[u8]) -> [u8; 256]
    ensures content { result ≡ rank_table order table.now }
{
    if order != limits::RANKED || table.len() != limits::TABLE_LENGTH {
        return built_in::table(0);
    }
    let mut ranks = [0; 256];
    ranks.copy_from_slice(table);
    ranks
}

// A table turned round, for the falling order.
#[tactic(auto, using(crate::proofs::Tables::turned_made))]
pub fn turned_table(table: &[u8; 256]) -> [u8; 256]
    ensures content { result ≡ turned_table table.now }
{
    // A loop: the array's `map` took forty times as long.
    let mut keys = *table;
    for a in keys.iter_mut() {
        *a = 255 - *a;
    }
    keys
}

// The keys of an order: the smaller key is the smaller letter.
// Order and table stand side by side, as C gives them; behind this one table stands for both.
pub fn key_table(order: u32, table: &[u8]) -> [u8; 256]
    ensures content { result ≡ key_table order table.now }
{
    if order == 1 {
        turned_table(&rank_table(order, table))
    } else {
        rank_table(order, table)
    }
}
