// The name of a record. Contracts cite `specs/Name.antt`. Nothing is assumed.
ghost use Rattle.std.specs.Prelude.{◌≡◌, ◌+◌, ◌^◌, ◌<◌, length};
ghost use Rattle.fasta_record.specs.Name.{name_from, name_over};

use crate::Fault;
use crate::bytes::NameByte;
use answer::Reason;

// The most bytes of a name.
pub const MAX_NAME: usize = 60;

// A name of `count` bytes that is over at `position`: none is empty.
fn name_over(position: usize, count: usize) -> Result<usize, Fault>
    ensures result { result ≡ name_over position count }
{
    if count == 0 {
        Err(Fault {
            reason: Reason::BadName,
            position,
        })
    } else {
        Ok(position)
    }
}

// Where the name ends, past its last byte, that `rest` begins with. `rest` starts at position `from` of the input.
pub(crate) fn name_from(rest: &[u8], from: usize) -> Result<usize, Fault>
    requires { from + length rest.now < 2 ^ 64 }
    ensures result { result ≡ name_from from 0 rest.now }
{
    for (count, &byte) in rest.iter().enumerate() {
        let position = from + count;
        match NameByte::from(byte) {
            NameByte::Part if count < MAX_NAME => {}
            NameByte::Past => return name_over(position, count),
            _ => {
                return Err(Fault {
                    reason: Reason::BadName,
                    position,
                });
            }
        }
    }
    name_over(from + rest.len(), rest.len())
}
