// BED lines, written into a text that has places for them.
// Contracts cite `specs/Bed.antt` and `specs/Text.antt`. Nothing is assumed.
ghost use Rattle.std.specs.Prelude.{◌*◌, ◌≤◌, length, map};
ghost use Rattle.answer.specs.Content.{Written};
ghost use Rattle.fasta_record.specs.Name.{max_name};
ghost use Rattle.bed.specs.Bed.{bed_line, bed_lines, entry_with, entry_in};
ghost use Rattle.bed.specs.Limits.{max_line};
ghost use Rattle.bed.specs.Text.{Room, Wrote};

use crate::text::Text;
use fasta_record::bytes::LINE_END;

// Writes the line of the run with this start, last position and period: three numbers, as C's list has them.
fn write_line(name: &[u8], start: u32, last: u32, period: u32, text: &mut Text)
    requires { Room text.old (length (bed_line name.now (entry_with start last period))) }
    ensures wrote { Wrote text.old text.new (bed_line name.now (entry_with start last period)) }
{
    text.bytes(name);
    text.labelled(b"\t", start as usize);
    text.labelled(b"\t", last as usize + 1);
    text.labelled(b"\tp", period as usize);
    text.byte(LINE_END);
}

// Writes the lines of runs at the start of `out`, and returns how long they are. A run is a row of three numbers.
pub(crate) fn write_runs(name: &[u8], runs: &[[u32; 3]], out: &mut [u8]) -> usize
    requires name_fits { length name.now ≤ max_name }
    requires lines_fit { max_line * length runs.now ≤ length out.old }
    ensures content { Written out.old out.new 0 result (bed_lines name.now (map entry_in runs.now)) }
{
    let mut text = Text::new(out);
    for &[start, last, period] in runs {
        write_line(name, start, last, period, &mut text);
    }
    text.len
}
