// Reads the published streams by the library and writes each result on a line of its own: the values, or how many where they are more
// than 100, 12 where reading is stuck, behind a bar the bits that the values took, and behind another the structures compared; or 7 where
// Section 2 is not right. The last two lines are of the longest lead, 65,535 bytes: all switches, and all codes of one bit.
#![tactic(auto)]

ghost use Rattle.std.specs.Prelude.{◌≤◌, length};
ghost use Rattle.compiled.specs.InnerForm.{CompiledSomeOrNone};

use reading::Cursor;
use refusals::Refusal;
use std::io;

// Section 2's data, a structure to a line: the two example tables; the default table, named and spelled out; and a table of two codes
// of one bit, a switch to itself and the value 0.
const TWO_TABLES: [u8; 114] = *b"\
    \x02\x00\
    \x07\x00\
    \x01\x01\x01\x00\x00\x00\x00\x00\x00\
    \x03\x03\x01\x01\x00\x01\x00\x00\x00\
    \x03\x03\x01\xFF\xFF\x05\x00\x00\x00\
    \x04\x04\x01\x02\x00\x03\x00\x00\x00\
    \x04\x04\x01\xFE\xFF\x0B\x00\x00\x00\
    \x04\x04\x00\x02\x00\x07\x00\x00\x00\
    \x04\x0C\x01\x00\x00\x0F\x00\x00\x00\
    \x05\x00\
    \x01\x09\x01\x00\x00\x00\x00\x00\x00\
    \x03\x03\x01\x00\x00\x01\x00\x00\x00\
    \x03\x03\x01\x01\x00\x05\x00\x00\x00\
    \x03\x03\x01\xFF\xFF\x03\x00\x00\x00\
    \x03\x03\x00\x01\x00\x07\x00\x00\x00";

const NAMED: [u8; 2] = *b"\x1F\x4E";

const SPELLED: [u8; 175] = *b"\
    \x01\x00\
    \x13\x00\
    \x01\x01\x01\x00\x00\x00\x00\x00\x00\
    \x03\x03\x01\x01\x00\x01\x00\x00\x00\
    \x03\x03\x01\xFF\xFF\x05\x00\x00\x00\
    \x04\x04\x01\x02\x00\x03\x00\x00\x00\
    \x04\x04\x01\xFE\xFF\x0B\x00\x00\x00\
    \x05\x05\x01\x03\x00\x07\x00\x00\x00\
    \x05\x05\x01\xFD\xFF\x17\x00\x00\x00\
    \x06\x06\x01\x04\x00\x0F\x00\x00\x00\
    \x06\x06\x01\xFC\xFF\x2F\x00\x00\x00\
    \x07\x07\x01\x05\x00\x1F\x00\x00\x00\
    \x07\x07\x01\xFB\xFF\x5F\x00\x00\x00\
    \x08\x08\x01\x06\x00\x3F\x00\x00\x00\
    \x08\x08\x01\xFA\xFF\xBF\x00\x00\x00\
    \x09\x09\x01\x07\x00\x7F\x00\x00\x00\
    \x09\x09\x01\xF9\xFF\x7F\x01\x00\x00\
    \x0A\x0A\x01\x08\x00\xFF\x00\x00\x00\
    \x0A\x0A\x01\xF8\xFF\xFF\x02\x00\x00\
    \x0A\x12\x01\x00\x00\xFF\x01\x00\x00\
    \x0A\x1A\x01\x00\x00\xFF\x03\x00\x00";

const SWITCHES: [u8; 22] = *b"\
    \x01\x00\
    \x02\x00\
    \x01\x01\x00\x01\x00\x00\x00\x00\x00\
    \x01\x01\x01\x00\x00\x01\x00\x00\x00";

// The streams of the examples: 20 values with two switches, and these as they are misprinted, with 91 bits instead of 92: one of the six
// ones from bit 57 on is missing; 7 values; 28 values, and these as they are misprinted, the sixth byte wrong and the last one missing.
const TWENTY: [u8; 12] = *b"\x99\x5E\x06\xF0\x48\xDE\x80\xFD\x01\xBD\x36\xC0";

const NINETY_ONE: [u8; 12] = *b"\x99\x5E\x06\xF0\x48\xDE\x80\xFA\x03\x7A\x6D\x80";

const SEVEN: [u8; 9] = *b"\xFF\x83\xBF\xE1\x27\xBF\xF7\xBD\xF8";

const MANY: [u8; 15] = *b"\xFF\x83\x7F\xE0\xE6\xF1\x53\x65\x59\xB6\x5B\x96\x4B\x96\x00";

const MISPRINT: [u8; 14] = *b"\xFF\x83\x7F\xE0\xE6\xF5\x53\x65\x59\xB6\x5B\x96\x4B\x96";

// Room for the tables, and the longest lead, all zeros; without a clause, since the types say the lengths.
fn room() -> [u32; compiled::ROOM] {
    [0; compiled::ROOM]
}

fn zeros() -> [u8; 65535] {
    [0; 65535]
}

// Where there are more values, only how many they are is shown.
const MOST_SHOWN: usize = 100;

// So many values of a stream, by the tables held; then the bits used and the structures compared.
fn put_values(rt: &impl Print, stream: &[u8], tab: &[u32], count: usize) -> io::Result<()>
    requires { CompiledSomeOrNone tab.now × (length stream.now ≤ 1048576) }
{
    let mut c = Cursor::new();
    for _ in 0..count {
        let Some((x, next)) = c.value(stream, tab) else {
            print!(rt; "{} ", Refusal::NoValue.number())?;
            break;
        };
        if count <= MOST_SHOWN {
            print!(rt; "{} ", x as i64 - bits::VALUE_ZERO as i64)?;
        }
        c = next;
    }
    if MOST_SHOWN < count {
        print!(rt; "{count} ")?;
    }
    println!(rt; "| {} | {}", c.at, c.compared)
}

// So many values of a stream, by the tables of Section 2's data; without tables where these are empty.
fn show(rt: &impl Print, section2: &[u8], stream: &[u8], count: usize) -> io::Result<()> {
    if 1048576 < stream.len() {
        return Ok(());
    }
    let mut tab = room();
    if section2.len() == 0 {
        return put_values(rt, stream, &tab[..0], count);
    }
    if !tables::section2_right(section2, 0, 0) {
        return println!(rt; "{}", Refusal::CodeTables.number());
    }
    compiled::compile(section2, 0, 0, &mut tab);
    put_values(rt, stream, &tab, count)
}

// The examples, whole.
fn show_examples(rt: &impl Print) -> io::Result<()> {
    show(rt, &TWO_TABLES, &TWENTY, 20)?;
    show(rt, &TWO_TABLES, &NINETY_ONE, 20)?;
    show(rt, &NAMED, &SEVEN, 7)?;
    show(rt, &NAMED, &MANY, 28)?;
    show(rt, &NAMED, &MISPRINT, 27)?;
    show(rt, &SPELLED, &SEVEN, 7)
}

// Streams that end between two codes, in a prefix, in the bits behind a prefix; and none.
fn show_short(rt: &impl Print) -> io::Result<()> {
    show(rt, &NAMED, &SEVEN[..8], 7)?;
    show(rt, &NAMED, &MISPRINT, 28)?;
    show(rt, &NAMED, &SEVEN[..2], 7)?;
    show(rt, &NAMED, b"", 1)
}

// Section 2 with a byte too many, and with one too few.
fn show_wrong(rt: &impl Print) -> io::Result<()> {
    show(rt, b"\x1F\x4E\x00", &SEVEN, 7)?;
    show(rt, &SPELLED[..174], &SEVEN, 7)
}

// Two streams without tables, the second with half a value at its end.
fn show_plain(rt: &impl Print) -> io::Result<()> {
    show(rt, b"", b"\x01\x00\xFF\xFF\x00\x80\xFF\x7F\x34\x12", 5)?;
    show(rt, b"", b"\x01\x00\x02", 2)
}

// The longest lead: all switches, and all codes of one bit.
fn show_longest(rt: &impl Print) -> io::Result<()> {
    let lead = zeros();
    show(rt, &SWITCHES, &lead, 1)?;
    show(rt, &NAMED, &lead, 524280)
}

fn main(rt: HostRuntime) -> io::Result<()> {
    show_examples(&rt)?;
    show_short(&rt)?;
    show_wrong(&rt)?;
    show_plain(&rt)?;
    show_longest(&rt)
}
