// Encoding one lead: the shortest stream, packed at the front of the output (the third demand; refusals 7, 11 and 15 to 17).
#![tactic(auto)]

ghost use Rattle.std.specs.Prelude.{◌≡◌, true, List, [], ◌++◌, ℕ, suc, ◌+◌, ◌*◌, ◌/◌, ◌%◌, ◌^◌, ◌<◌, ◌≤◌, pos, length, get_or, take, drop, replicate, is_some, option_copied, if◌then◌else◌};
ghost use Rattle.std.specs.Option.{ForSome};
ghost use Rattle.std.proofs.Math.Option.{Option};
ghost use Rattle.packing.specs.Packing.{packed, bytes_for};
ghost use Rattle.packing.specs.InnerSink.{Holds, bits_put};
ghost use Rattle.refusals.specs.Refusals.{refusal_in};
ghost use Rattle.samples.specs.Differences.{differences};
ghost use Rattle.tables.specs.declared.Structure.{Structure};
ghost use Rattle.tables.specs.Section2.{section2_right};
ghost use Rattle.compiled.specs.InnerForm.{room_numbers, Compiled, CompiledOrNone, tables_held};
ghost use Rattle.shortest.specs.Shortest.{Shortest};
ghost use Rattle.shortest.specs.InnerRule.{plain_bytes};
ghost use Rattle.search.specs.InnerSearch.{CompiledCount, Planned};
ghost use Rattle.encode.specs.Encoding.{tables_given, asked_right, tables_given_right, asked_refusal, found_refusal, coded_as, LeadEncoding};
ghost use Rattle.encode.specs.InnerEncode.{code_of, PartWrittenBy, CompiledOrNoneCount, bits_found, coded_in, Sized, Laid, Written, cleared_if, held_for};

use compiled::Form;
use packing::Sink;
use refusals::Refusal;

// The answer of encoding a lead, as C reads it: 0 or a refusal number, and on a refusal nothing else; the stream's bytes and bits.
#[repr(C)]
#[derive(Clone, Copy)]
pub struct Coded {
    pub refusal: u8,
    pub bytes: u32,
    pub bits: u32,
}

impl From<Result<u32, Refusal>> for Coded {
    ghost use Rattle.encode.specs.InnerEncode.{coded_in};

    ghost from_gives = { λ answer coded. coded ≡ coded_in answer };

    fn from(answer: Result<u32, Refusal>) -> Coded {
        match answer {
            Ok(bits) => Coded {
                refusal: 0,
                bytes: bits.div_ceil(8),
                bits,
            },
            Err(e) => Coded {
                refusal: e.number(),
                bytes: 0,
                bits: 0,
            },
        }
    }
}

// A structure's code for the value at place i: the prefix, then the bits of the remainder. Most codes have none, and their value is
// not looked at.
fn put_code(sink: Sink, out: &mut [u8], f: Form, xs: &[i16], order: usize, i: usize) -> Sink
    requires prefix_bound { (f.prefix ≤ 32) × (f.remainder ≤ 16) × (f.word < 2 ^ f.prefix) × (i < length xs.now) }
    requires room { (bits_put sink + (f.prefix + f.remainder)) / 8 ≤ length out.old }
    ensures { ((bs : List ℕ) → Holds out.old sink bs
        → Holds out.new result (bs ++ code_of f (get_or (differences order xs.now) i (pos 0))))
        × (length out.new ≡ length out.old)
        × (drop result.at out.new ≡ drop result.at out.old) }
{
    let p = sink.put(out, f.word, f.prefix);
    if f.remainder == 0 {
        return p;
    }
    let v = samples::value_at(xs, order, i);
    p.put(out, v % bits::power(f.remainder), f.remainder)
}

// How far the walk of a stream has gone: what is written, the next sample, the table, and how many bits are left.
#[derive(Clone, Copy)]
struct Gone {
    sink: Sink,
    i: usize,
    t: usize,
    left: usize,
}

// The codes of the structures that the work space holds for the next samples, as far as they are of one table: to the end, or to a
// switch, which leads to another. In one table a sample's place does not wait for the form of the one before it.
fn run(
    tab: &[u32],
    n: usize,
    xs: &[i16],
    order: usize,
    work: &[u8],
    bits: usize,
    from: Gone,
    out: &mut [u8],
) -> Gone
    requires compiled_count { CompiledCount tab.now n × (length xs.now * n ≤ length work.now) × (bits < 524281) × (bytes_for bits ≤ length out.old) }
    requires planned { (tables : List (List Structure)) → Compiled tables tab.now → length tables ≡ n
        → Planned tables (differences order xs.now) work.now bits }
    requires part_written_by { PartWrittenBy tab.now n (differences order xs.now) bits out.old out.old from.sink from.i from.t from.left
        × (0 < from.left) }
    ensures { PartWrittenBy tab.now n (differences order xs.now) bits out.old out.new
        result.sink result.i result.t result.left × (result.left < from.left) }
{
    let t = from.t;
    let mut sink = from.sink;
    let mut i = from.i;
    let mut left = from.left;
    while 0 < left {
        let k = work[i * n + (t - 1)] as usize;
        let f = compiled::form_at(tab, t - 1, k);
        sink = put_code(sink, out, f, xs, order, i);
        left -= f.prefix + f.remainder;
        if f.to != 0 {
            return Gone {
                sink,
                i,
                t: f.to,
                left,
            };
        }
        i += 1;
    }
    Gone { sink, i, t, left }
}

// The stream whose way is in the work space, at the front of the output: from table 1 and the first sample on, one table after another.
fn walk(tab: &[u32], n: usize, xs: &[i16], order: usize, work: &[u8], bits: usize, out: &mut [u8])
    requires compiled_count { CompiledCount tab.now n × (length xs.now * n ≤ length work.now) × (bits < 524281) × (bytes_for bits ≤ length out.old) }
    requires planned { (tables : List (List Structure)) → Compiled tables tab.now → length tables ≡ n
        → Planned tables (differences order xs.now) work.now bits }
    ensures { (tables : List (List Structure)) → Compiled tables tab.now → length tables ≡ n
        → (bs : List ℕ) → Shortest tables (differences order xs.now) bs
        → out.new ≡ packed bs ++ drop (bytes_for (length bs)) out.old }
{
    let mut gone = Gone {
        sink: Sink::new(),
        i: 0,
        t: 1,
        left: bits,
    };
    while 0 < gone.left {
        gone = run(tab, n, xs, order, work, bits, gone, out);
    }
    gone.sink.end(out);
}

// Without Section 2: 16 bits a value, and no stream where a value has more.
fn plain_bits(xs: &[i16], order: usize) -> usize
    requires { length xs.now ≤ 65536 }
    ensures { Sized [] (differences order xs.now) result }
{
    for i in 0..xs.len() {
        let v = samples::value_at(xs, order, i);
        if v < 98304 || 163840 <= v {
            return search::NO_STREAM;
        }
    }
    (xs.len() * 16).min(search::TOO_LONG)
}

// Without Section 2: two bytes a value, the least first.
fn put_plain(xs: &[i16], order: usize, out: &mut [u8])
    requires { length xs.now * 2 ≤ length out.old }
    ensures { out.new
        ≡ plain_bytes (differences order xs.now) ++ drop (length xs.now * 2) out.old }
{
    for i in 0..xs.len() {
        let v = samples::value_at(xs, order, i);
        wire::put16(out, i * 2, v % 65536);
    }
}

// How many bits the shortest stream for the samples' differences has: 524,281 for that many and more, 524,282 for no stream. Where
// there are tables, its way is left in the work space, a byte for each sample and table.
pub fn stream_bits(tab: &[u32], n: usize, xs: &[i16], order: usize, work: &mut [u8]) -> usize
    requires { CompiledOrNoneCount tab.now n × (length xs.now ≤ 65536) × (length xs.now * n ≤ length work.old) }
    ensures { ((tables : List (List Structure)) → CompiledOrNone tables tab.now → length tables ≡ n
        → Sized tables (differences order xs.now) result
        × Laid tables (differences order xs.now) work.new result)
        × (length tab.now ≡ 0 → work.new ≡ work.old) }
{
    if tab.is_empty() {
        return plain_bits(xs, order);
    }
    search::plan(tab, n, xs, order, work)
}

// The shortest stream, at the front of the output: it has `bits` bits, as found, and its way is in the work space.
pub fn put_stream(
    tab: &[u32],
    n: usize,
    xs: &[i16],
    order: usize,
    work: &[u8],
    bits: usize,
    out: &mut [u8],
)
    requires compiled_or_none_count { CompiledOrNoneCount tab.now n × (length xs.now * n ≤ length work.now) × (bits < 524281) × (bytes_for bits ≤ length out.old) }
    requires sized { (tables : List (List Structure)) → CompiledOrNone tables tab.now → length tables ≡ n
        → Sized tables (differences order xs.now) bits × Laid tables (differences order xs.now) work.now bits }
    ensures { (tables : List (List Structure)) → CompiledOrNone tables tab.now → length tables ≡ n
        → (bs : List ℕ) → Shortest tables (differences order xs.now) bs
        → out.new ≡ packed bs ++ drop (bytes_for (length bs)) out.old }
{
    if tab.is_empty() {
        put_plain(xs, order, out);
        return;
    }
    walk(tab, n, xs, order, work, bits, out);
}

// 15, 16 or 11 for the output, where `bits` bits were found.
#[tactic(auto, unfolding(crate::specs::Encoding::found_refusal))]
fn judge_found(bits: usize, room: usize) -> Result<(), Refusal>
    ensures { (found : Option (List ℕ)) → bits ≡ bits_found found → refusal_in result ≡ found_refusal room found }
{
    Refusal::NoCode.unless(bits <= search::TOO_LONG)?;
    Refusal::TooLong.unless(bits <= search::MOST_BITS)?;
    Refusal::Room.unless(bits.div_ceil(8) <= room)
}

// The stream is looked for and, if nothing is refused, put at the front of the output. Answered is how many bits it has.
fn write_stream(
    tab: &[u32],
    n: usize,
    xs: &[i16],
    order: usize,
    work: &mut [u8],
    out: &mut [u8],
) -> Result<u32, Refusal>
    requires { CompiledOrNoneCount tab.now n × (length xs.now ≤ 65536) × (length xs.now * n ≤ length work.old) }
    ensures { ((tables : List (List Structure)) → CompiledOrNone tables tab.now → length tables ≡ n
        → Written tables (differences order xs.now) out.old (coded_in result) out.new)
        × (length tab.now ≡ 0 → work.new ≡ work.old) }
{
    let bits = stream_bits(tab, n, xs, order, work);
    judge_found(bits, out.len())?;
    put_stream(tab, n, xs, order, work, bits, out);
    Ok(bits as u32)
}

// The stream is written by the tables; where there are any, all of the work space is cleared.
fn encode_by(
    tab: &[u32],
    n: usize,
    xs: &[i16],
    order: usize,
    work: &mut [u8],
    out: &mut [u8],
) -> Result<u32, Refusal>
    requires { CompiledOrNoneCount tab.now n × (length xs.now ≤ 65536) × (length xs.now * n ≤ length work.old) }
    ensures { ((tables : List (List Structure)) → CompiledOrNone tables tab.now → length tables ≡ n
        → Written tables (differences order xs.now) out.old (coded_in result) out.new)
        × (work.new ≡ cleared_if (length tab.now) work.old) }
{
    let answer = write_stream(tab, n, xs, order, work, out);
    if !tab.is_empty() {
        work.fill(0);
    }
    answer
}

// 17: the count of samples and the order are asked right.
#[tactic(auto, unfolding(crate::specs::Encoding::asked_right))]
fn asked_right(count: usize, order: usize) -> bool
    ensures { result ≡ asked_right count order }
{
    (1..=wire::MOST_SAMPLES).contains(&count) && order <= 2
}

// Section 2's data, if there are any.
#[tactic(auto, unfolding(crate::specs::Encoding::tables_given, crate::specs::Encoding::tables_given_right))]
fn given(section2: &[u8]) -> Option<&[u8]>
    ensures right { tables_given_right section2.now ≡ true → ForSome result (λ s. section2_right 0 s.now 0 ≡ true) }
    ensures tables { tables_held 0 (option_copied result) ≡ tables_given section2.now }
    ensures there { (if is_some result then room_numbers else 0) ≡ held_for (length section2.now) }
{
    if section2.is_empty() {
        None
    } else {
        Some(section2)
    }
}

// 7: there is no Section 2, or its data are right.
#[tactic(auto, unfolding(crate::specs::Encoding::tables_given_right))]
pub fn given_right(section2: &[u8]) -> bool
    ensures { result ≡ tables_given_right section2.now }
{
    section2.is_empty() || tables::section2_right(section2, 0, 0)
}

// How many tables Section 2's data mean.
pub fn table_count(section2: &[u8]) -> usize
    requires { tables_given_right section2.now ≡ true }
    ensures { (result ≡ length (tables_given section2.now)) × (result ≤ 8) }
{
    let Some(s) = given(section2) else {
        return 0;
    };
    if tables::is_default(s, 0) {
        return 1;
    }
    wire::number16(s, 0)
}

// The first of 17, 7 and 11 for the work space that applies.
#[tactic(auto, unfolding(crate::specs::Encoding::asked_refusal, crate::specs::Encoding::work_right, crate::specs::Encoding::asked_right))]
fn judge_asked(section2: &[u8], count: usize, order: usize, work: usize) -> Result<(), Refusal>
    ensures { refusal_in result ≡ asked_refusal section2.now count order work }
{
    Refusal::Request.unless(asked_right(count, order))?;
    Refusal::CodeTables.unless(given_right(section2))?;
    Refusal::Room.unless(count * table_count(section2) <= work)
}

// Section 2's tables are taken apart into the room. Answered is the part of it that holds them: all of it, or nothing without Section 2.
pub fn hold<'t>(section2: &[u8], room: &'t mut [u32; compiled::ROOM]) -> &'t [u32]
    requires { tables_given_right section2.now ≡ true }
    ensures tables { CompiledOrNone (tables_given section2.now) result.now }
    ensures count { length result.now ≡ held_for (length section2.now) }
{
    compiled::hold(given(section2), 0, 0, room)
}

// A lead's samples become the shortest stream for their differences, at the front of the output. Answered is how many bits it has.
fn encode(
    section2: &[u8],
    xs: &[i16],
    order: usize,
    work: &mut [u8],
    out: &mut [u8],
) -> Result<u32, Refusal>
    ensures { LeadEncoding section2.now xs.now order work.old out.old
        (coded_in result) work.new out.new }
{
    judge_asked(section2, xs.len(), order, work.len())?;
    let mut room = compiled::room();
    let tab = hold(section2, &mut room);
    encode_by(tab, table_count(section2), xs, order, work, out)
}

// The same, answered as C reads it.
pub fn encode_lead(
    section2: &[u8],
    xs: &[i16],
    order: usize,
    work: &mut [u8],
    out: &mut [u8],
) -> Coded
    ensures { LeadEncoding section2.now xs.now order work.old out.old
        result work.new out.new }
{
    Coded::from(encode(section2, xs, order, work, out))
}
