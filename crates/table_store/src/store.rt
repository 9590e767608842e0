// The store: its layout, a new one, and its tables, written and read.
//
// Contracts cite `specs/Store.antt` and `specs/Calls.antt`; the clauses `step` and `next` say the same as a step of a series
// (`specs/Series.antt`). Nothing is assumed.
ghost use Rattle.std.specs.Prelude.{◌≡◌, [], ◌∷◌, length};
ghost use Rattle.table_store.specs.Store.{new_store, table_exists, own_place, is_usable, lookup};
ghost use Rattle.table_store.specs.Calls.{write_answer, store_after, read_answer, read_after};
ghost use Rattle.table_store.specs.Series.{result_with, result_of, store_of, write_table, use_table, read};

use answer::{Answer, Refused};
use checks::limits;

// The groups are 1 and 2.
const GROUPS: u32 = 2;

// The tables of each group's own, and the built-in ones.
const OWN_TABLES: u32 = 3;

const BUILT_IN_TABLES: u32 = 2;

// The places of all own tables, and their bytes.
const PLACES: usize = (GROUPS * OWN_TABLES) as usize;

const BYTES: usize = PLACES * limits::TABLE_LENGTH;

// The bytes of the six own tables, table after table, first those of group 1, and for each whether it is written: 0 where it is not, any
// other number where it is.
// Two arrays, one of them of all bytes, rather than one of tables: the C interface has this layout.
#[repr(C)]
#[derive(Clone, Copy, Debug, PartialEq, Eq)]
pub struct TableStore {
    pub tables: [u8; BYTES],
    pub written: [u8; PLACES],
}

// A table as a call names it: one of the group's own or, where the call says so, a built-in one.
// A flag beside the number, rather than an enum: the C interface names a table so.
#[derive(Clone, Copy, Debug, PartialEq, Eq)]
pub struct TableName {
    pub group: u32,
    pub builtin: bool,
    pub number: u32,
}

impl TableName {
    // The group, 1 or 2, has a table of this number: 0 to 2 of its own, 0 or 1 of the built-in ones.
    fn exists(self) -> bool
        ensures answer { result ≡ table_exists self }
    {
        let tables = if self.builtin {
            BUILT_IN_TABLES
        } else {
            OWN_TABLES
        };
        matches!(self.group, 1..=GROUPS) && self.number < tables
    }

    // The place among the six of a group's own table; a built-in one has none, nor has one that does not exist.
    fn own_place(self) -> Option<usize>
        ensures place { result ≡ own_place self }
    {
        if self.builtin || !self.exists() {
            return None;
        }
        Some(((self.group - 1) * OWN_TABLES + self.number) as usize)
    }
}

impl TableStore {
    // A store in which no table is written.
    pub fn new() -> TableStore
        ensures store { result ≡ new_store }
    {
        TableStore {
            tables: [0; BYTES],
            written: [0; PLACES],
        }
    }

    // A table can be used: it is a built-in one, or an own one that exists and was written.
    fn is_usable(&self, name: TableName) -> bool
        ensures answer { result ≡ is_usable self.now name }
    {
        name.builtin
            || name
                .own_place()
                .is_some_and(|place| self.written[place] != 0)
    }

    // A table, the group's own or a built-in one, or the refusal of its use.
    pub fn look_up(&self, name: TableName) -> Result<[u8; 256], Refused>
        ensures found { result ≡ lookup self.now name }
    {
        checks::table_use(name.exists(), self.is_usable(name))?;
        let Some(place) = name.own_place() else {
            return Ok(letters::built_in::table(name.number));
        };
        let start = place * limits::TABLE_LENGTH;
        let table = self.tables[start..start + limits::TABLE_LENGTH].as_array();
        Ok(*table.unwrap())
    }

    // Replaces a group's own table, number 0 to 2. Refused by document 02's checks 21 and 16; the count is 256.
    // Group and number, and no `TableName`: no call can ask for a built-in table to be replaced.
    #[tactic(auto, using(crate::proofs::StoreWrites::table_replaced))]
    pub fn write(&mut self, group: u32, number: u32, table: &[u8]) -> Answer
        ensures answer { result ≡ write_answer group number (length table.now) }
        ensures store { self.new ≡ store_after self.old group number table.now }
        ensures step { result_with result [] ≡ result_of self.old (write_table group number table.now) }
        ensures next { self.new ≡ store_of self.old (write_table group number table.now) }
    {
        let name = TableName {
            group,
            builtin: false,
            number,
        };
        let place = name.own_place();
        if let Err(refusal) = checks::table_write(place.is_some(), table.len()) {
            return Answer::from(refusal);
        }
        let place = place.unwrap();
        let start = place * limits::TABLE_LENGTH;
        self.tables[start..start + limits::TABLE_LENGTH].copy_from_slice(table);
        self.written[place] = 1;
        answer::accept(limits::TABLE_LENGTH as u32)
    }

    // Writes a table, the group's own or a built-in one, into the first 256 places of a buffer. Refused by document 02's checks 21 and 22
    // and by check 4; the count is 256.
    pub fn read(&self, name: TableName, out: &mut [u8]) -> Answer
        ensures answer { result ≡ read_answer (lookup self.now name) (length out.old) }
        ensures content { out.new ≡ read_after (lookup self.now name) out.old }
        ensures step { result_with result (out.new ∷ []) ≡ result_of self.now (use_table name (read out.old)) }
    {
        // A match and no `?`: an answer is a struct.
        let table = match self.look_up(name) {
            Ok(table) => table,
            Err(refusal) => return Answer::from(refusal),
        };
        if let Err(refusal) = checks::output(limits::TABLE_LENGTH, out.len()) {
            return Answer::from(refusal);
        }
        *out.first_chunk_mut().unwrap() = table;
        answer::accept(table.len() as u32)
    }
}
