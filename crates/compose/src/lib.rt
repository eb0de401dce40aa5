// Writing a record (01, Refusal numbers; refusals 6, 7, 11 and 15 to 17): all is judged and every stream is sized before a byte of the
// output is touched; then each section is written into its own part of it, in place.
#![tactic(auto)]

ghost use Rattle.std.specs.Prelude.{◌≡◌, true, List, [], ◌++◌, ℕ, ◌+◌, ◌*◌, ◌<◌, ◌≤◌, min, length, take, drop, IfOk, OnErr};
ghost use Rattle.wire.specs.RuleWords.{all_in};
ghost use Rattle.refusals.specs.Refusals.{refusal_in};
ghost use Rattle.samples.specs.Differences.{differences};
ghost use Rattle.compiled.specs.InnerForm.{CompiledOrNone};
ghost use Rattle.packing.specs.Packing.{packed};
ghost use Rattle.shortest.specs.Shortest.{Shortest};
ghost use Rattle.layout.specs.Layout.{section_length, section_bytes, zero_reserved, leads_data, joined, streams_data};
ghost use Rattle.layout.specs.Layout.{section2_size, section2_bytes, record_bytes};
ghost use Rattle.encode.specs.Encoding.{tables_given, tables_given_right, work_searched};
ghost use Rattle.compose.specs.Writing.{job_of, total, longest, lead_asked, job_right, job_refusal, cut, RecordWriting};
ghost use Rattle.compose.specs.InnerSizes.{number_at, SizedAs, StreamOf, StreamsFor};
ghost use Rattle.compose.specs.InnerJob.{lent, Sound, Listed, front_size, count6, size_with, size_refusal, Streamed, written};

use refusals::Refusal;

// The answer of writing a record, as C reads it: 0 or a refusal number, and on a refusal nothing else; the record's length.
#[repr(C)]
#[derive(Clone, Copy)]
pub struct Written {
    pub refusal: u8,
    pub bytes: u32,
}

// A refusal and nothing else, or the record's length.
impl From<Result<u32, Refusal>> for Written {
    ghost from_gives = { λ r w. w ≡ written r };

    fn from(answer: Result<u32, Refusal>) -> Written {
        match answer {
            Ok(bytes) => Written { refusal: 0, bytes },
            Err(refusal) => Written {
                refusal: refusal.number(),
                bytes: 0,
            },
        }
    }
}

// The numbers of a job that apply to all of its leads.
#[derive(Clone, Copy)]
pub struct Head {
    pub version: u8,
    pub flags: u8,
    pub step: u16,
    pub interval: u16,
    pub order: usize,
}

// A job as it is lent. Of its leads C lends three lists: the numbers of their first samples, their counts and their IDs.
#[derive(Clone, Copy)]
struct Job<'a> {
    section1: &'a [u8],
    section2: &'a [u8],
    head: Head,
    firsts: &'a [u32],
    counts: &'a [u32],
    ids: &'a [u8],
    samples: &'a [i16],
}

// 17 for one lead, from 0: its count, and the numbers of its first and last sample.
#[tactic(auto, unfolding(crate::specs::Writing::lead_asked))]
fn lead_asked(firsts: &[u32], counts: &[u32], k: usize) -> bool
    requires { (k < length firsts.now) × (k < length counts.now) }
    ensures { result ≡ lead_asked firsts.now counts.now k }
{
    let first = firsts[k] as usize;
    let count = counts[k] as usize;
    1 <= count && count <= wire::MOST_SAMPLES && 1 <= first && first + count <= 4294967296
}

// 17 for every lead.
fn leads_asked(firsts: &[u32], counts: &[u32]) -> bool
    requires { length firsts.now ≡ length counts.now }
    ensures { result ≡ all_in 0 (length counts.now) (lead_asked firsts.now counts.now) }
{
    (0..counts.len()).all(|k| lead_asked(firsts, counts, k))
}

// The counts together.
fn total_of(counts: &[u32]) -> usize
    requires { length counts.now ≤ 32 }
    ensures { (result ≡ total counts.now) × (result ≤ 137438953440) }
{
    counts.iter().map(|count| *count as usize).sum()
}

// The largest of the counts.
fn longest_of(counts: &[u32]) -> usize
    ensures { (result ≡ longest counts.now) × (result < 4294967296) }
{
    counts.iter().copied().max().unwrap_or(0) as usize
}

// 17: what is asked for is right.
#[tactic(auto, unfolding(crate::specs::Writing::job_right))]
fn job_right(job: &Job) -> bool
    ensures { result ≡ job_right (lent job.now) }
{
    let leads = job.counts.len();
    1 <= leads
        && leads <= 32
        && job.firsts.len() == leads
        && job.ids.len() == leads
        && leads_asked(job.firsts, job.counts)
        && job.head.order <= 2
        && job.head.step != 0
        && job.head.interval != 0
        && total_of(job.counts) == job.samples.len()
}

// The first of 17, 6, 7 and 11 for the work space refuses.
#[tactic(auto, unfolding(crate::specs::Writing::job_refusal, encode::specs::Encoding::work_right))]
fn judge_job(job: &Job, work: usize) -> Result<(), Refusal>
    ensures { refusal_in result ≡ job_refusal (lent job.now) work }
{
    Refusal::Request.unless(job_right(job))?;
    Refusal::HeaderFields.unless(header::section1_right(job.section1, 0, 0))?;
    Refusal::CodeTables.unless(encode::given_right(job.section2))?;
    let needed = longest_of(job.counts) * encode::table_count(job.section2);
    Refusal::Room.unless(needed <= work)
}

// 15 where some lead has no stream, else 16 where some stream is too long, by the most bits that were found for a lead.
fn judge_streams(most: usize) -> Result<(), Refusal>
    ensures { refusal_in result ≡ number_at most }
{
    Refusal::NoCode.unless(most <= search::TOO_LONG)?;
    Refusal::TooLong.unless(most < search::TOO_LONG)
}

// The functions below ask `Sound` of a job and of the work space beside it, which a call changes: a struct could keep the half on the job
// alone.

// Every lead's stream is looked for and sized, from the last lead back.
fn size_streams(job: &Job, tab: &[u32], work: &mut [u8], sizes: &mut [u32]) -> Result<(), Refusal>
    requires sound { Sound (lent job.now) (length work.old) × CompiledOrNone (tables_given job.now.section2.now) tab.now }
    requires counts_in_bounds { length job.now.counts.now ≤ length sizes.old }
    ensures { SizedAs job.now.section2.now job.now.head.order (cut job.now.counts.now job.now.samples.now) (refusal_in result)
        (take (length job.now.counts.now) sizes.new)
        × (length tab.now ≡ 0 → work.new ≡ work.old) }
{
    let tables = encode::table_count(job.section2);
    let mut at = job.samples.len();
    let mut most = 0usize;
    for k in (0..job.counts.len()).rev() {
        let end = at;
        at -= job.counts[k] as usize;
        let bits = encode::stream_bits(tab, tables, &job.samples[at..end], job.head.order, work);
        most = most.max(bits);
        sizes[k] = ((bits + 7) / 8) as u32;
    }
    judge_streams(most)
}

// One lead's stream, which was sized: it is looked for again, so that its way is in the work space when it is put.
fn put_lead(job: &Job, tab: &[u32], xs: &[i16], work: &mut [u8], part: &mut [u8])
    requires section2_value { (tables_given_right job.now.section2.now ≡ true) × CompiledOrNone (tables_given job.now.section2.now) tab.now }
    requires xs_len_bound { (length xs.now ≤ 65536) × (length xs.now * length (tables_given job.now.section2.now) ≤ length work.old)
        × StreamOf job.now.section2.now job.now.head.order xs.now (length part.old) }
    ensures { ((bs : List ℕ) → Shortest (tables_given job.now.section2.now) (differences job.now.head.order xs.now) bs
        → part.new ≡ packed bs)
        × (length tab.now ≡ 0 → work.new ≡ work.old) }
{
    let order = job.head.order;
    let tables = encode::table_count(job.section2);
    let bits = encode::stream_bits(tab, tables, xs, order, work);
    encode::put_stream(tab, tables, xs, order, work, bits, part);
}

// The streams that were sized, one behind another, from the last lead back.
fn put_streams(job: &Job, tab: &[u32], work: &mut [u8], sizes: &[u32], part: &mut [u8])
    requires sound { Sound (lent job.now) (length work.old) × CompiledOrNone (tables_given job.now.section2.now) tab.now }
    requires sizes_len { (length sizes.now ≡ length job.now.counts.now) × (total sizes.now ≡ length part.old)
        × SizedAs job.now.section2.now job.now.head.order (cut job.now.counts.now job.now.samples.now) 0 sizes.now }
    ensures { ((streams : List (List ℕ))
        → StreamsFor job.now.section2.now job.now.head.order (cut job.now.counts.now job.now.samples.now) streams
        → part.new ≡ joined streams)
        × (length tab.now ≡ 0 → work.new ≡ work.old) }
{
    let mut at = job.samples.len();
    let mut from = part.len();
    for k in (0..job.counts.len()).rev() {
        let end = at;
        at -= job.counts[k] as usize;
        let to = from;
        from -= sizes[k] as usize;
        put_lead(job, tab, &job.samples[at..end], work, &mut part[from..to]);
    }
}

// Section 6, of the streams that were sized.
fn write_streams(job: &Job, tab: &[u32], work: &mut [u8], sizes: &[u32], part: &mut [u8])
    requires sound { Sound (lent job.now) (length work.old) × CompiledOrNone (tables_given job.now.section2.now) tab.now }
    requires counts_len_bound { (length job.now.counts.now ≤ 32) × (job.now.head.order ≤ 2) × (length sizes.now ≡ length job.now.counts.now)
        × SizedAs job.now.section2.now job.now.head.order (cut job.now.counts.now job.now.samples.now) 0 sizes.now
        × (length part.old ≡ section_length (count6 sizes.now)) }
    ensures { ((streams : List (List ℕ))
        → StreamsFor job.now.section2.now job.now.head.order (cut job.now.counts.now job.now.samples.now) streams
        → part.new ≡ section_bytes 6 job.now.head.version zero_reserved (streams_data job.now.head.step job.now.head.interval job.now.head.order streams))
        × (length tab.now ≡ 0 → work.new ≡ work.old) }
{
    let head = job.head;
    let from = 22 + 2 * sizes.len();
    let end = from + total_of(sizes);
    layout::write_streams_head(part, head.step, head.interval, head.order, sizes);
    put_streams(job, tab, work, sizes, &mut part[from..end]);
    layout::put_spare(part, end);
    layout::seal(part, 6, head.version);
}

// A section's length, with its header and spare byte.
fn size_for(count: usize) -> usize
    requires { count ≤ 1099511627776 }
    ensures { result ≡ section_length count }
{
    16 + count + count % 2
}

// Section 2's length, 0 where it is not given.
fn given_size(count: usize) -> usize
    requires { count ≤ 1099511627776 }
    ensures { result ≡ section2_size count }
{
    if count == 0 { 0 } else { size_for(count) }
}

// Where Section 6 begins, by the lengths of Section 1's and 2's data and the count of leads.
fn front_size(count1: usize, count2: usize, leads: usize) -> usize
    requires { (count1 ≤ 1048576) × (count2 ≤ 1048576) × (leads ≤ 32) }
    ensures { (result ≡ front_size count1 count2 leads) × (result < 4194304) }
{
    142 + size_for(count1) + given_size(count2) + size_for(2 + 9 * leads)
}

// The record's length by those of its data, where it and the room for it are in bounds: else 16 or 11.
fn judge_size(count1: usize, count2: usize, sizes: &[u32], room: usize) -> Result<u32, Refusal>
    requires { length sizes.now ≤ 32 }
    ensures refusal { refusal_in result ≡ size_refusal (size_with count1 count2 sizes.now) room }
    ensures size { IfOk result (λ bytes. bytes ≡ size_with count1 count2 sizes.now) }
{
    Refusal::TooLong.unless(count1 <= wire::MOST_BYTES && count2 <= wire::MOST_BYTES)?;
    let front = front_size(count1, count2, sizes.len());
    let size = front + size_for(6 + 2 * sizes.len() + total_of(sizes));
    Refusal::TooLong.unless(size <= wire::MOST_BYTES)?;
    Refusal::Room.unless(size <= room)?;
    Ok(size as u32)
}

// Looks for the streams and, if nothing is refused, puts Section 6 where it will be in the record. There is no heap, so the sizes have room for
// the most leads that there can be.
fn write_found(job: &Job, tab: &[u32], work: &mut [u8], out: &mut [u8]) -> Result<u32, Refusal>
    requires sound { Sound (lent job.now) (length work.old) × CompiledOrNone (tables_given job.now.section2.now) tab.now }
    requires counts_len_bound { (length job.now.counts.now ≤ 32) × (job.now.head.order ≤ 2) }
    ensures { Streamed (lent job.now) out.old result out.new
        × (length tab.now ≡ 0 → work.new ≡ work.old) }
{
    let mut sizes: [u32; 32] = [0; 32];
    size_streams(job, tab, work, &mut sizes)?;
    let sized = &sizes[..job.counts.len()];
    let bytes = judge_size(job.section1.len(), job.section2.len(), sized, out.len())?;
    let from = front_size(job.section1.len(), job.section2.len(), job.counts.len());
    write_streams(job, tab, work, sized, &mut out[from..bytes as usize]);
    Ok(bytes)
}

// The same by Section 2's tables; where there are any, all of the work space is cleared.
fn write_by(job: &Job, work: &mut [u8], out: &mut [u8]) -> Result<u32, Refusal>
    requires { Sound (lent job.now) (length work.old) × (length job.now.counts.now ≤ 32) × (job.now.head.order ≤ 2) }
    ensures { Streamed (lent job.now) out.old result out.new
        × (work.new ≡ work_searched job.now.section2.now work.old) }
{
    let mut room = compiled::room();
    let tab = encode::hold(job.section2, &mut room);
    let answer = write_found(job, tab, work, out);
    if !tab.is_empty() {
        work.fill(0);
    }
    answer
}

// Section 2, where it is given.
fn write_given(part: &mut [u8], version: u8, section2: &[u8])
    requires { length part.old ≡ section2_size (length section2.now) }
    ensures { part.new ≡ section2_bytes version section2.now }
{
    if section2.len() != 0 {
        layout::write_section(part, 2, version, section2);
    }
}

// Sections 1 to 3, each in its own part.
fn write_sections(part: &mut [u8], job: &Job)
    requires { Listed (lent job.now) × (length part.old ≤ 1048576)
        × (142 + length part.old ≡ front_size (length job.now.section1.now) (length job.now.section2.now) (length job.now.counts.now)) }
    ensures { part.new
        ≡ section_bytes 1 job.now.head.version zero_reserved job.now.section1.now ++ (section2_bytes job.now.head.version job.now.section2.now
        ++ section_bytes 3 job.now.head.version zero_reserved
        (leads_data job.now.head.flags job.now.firsts.now job.now.counts.now job.now.ids.now)) }
{
    let head = job.head;
    let at2 = size_for(job.section1.len());
    let at3 = at2 + given_size(job.section2.len());
    layout::write_section(&mut part[..at2], 1, head.version, job.section1);
    write_given(&mut part[at2..at3], head.version, job.section2);
    layout::write_leads(
        &mut part[at3..],
        head.version,
        head.flags,
        job.firsts,
        job.counts,
        job.ids,
    );
}

// Puts all that comes before Section 6, and then the record's size and its check.
fn write_front(out: &mut [u8], job: &Job)
    requires { Listed (lent job.now) × (length out.old ≤ 1048576)
        × (front_size (length job.now.section1.now) (length job.now.section2.now) (length job.now.counts.now) ≤ length out.old) }
    ensures { (data6 : List ℕ)
        → drop (front_size (length job.now.section1.now) (length job.now.section2.now) (length job.now.counts.now))
        out.old ≡ section_bytes 6 job.now.head.version zero_reserved data6
        → out.new ≡ record_bytes job.now.head.version job.now.section1.now job.now.section2.now
        (leads_data job.now.head.flags job.now.firsts.now job.now.counts.now job.now.ids.now) data6 }
{
    let size1 = size_for(job.section1.len());
    let size2 = given_size(job.section2.len());
    let size3 = size_for(2 + 9 * job.counts.len());
    let at6 = 142 + size1 + size2 + size3;
    let size6 = out.len() - at6;
    layout::write_pointers(
        &mut out[6..142],
        job.head.version,
        size1,
        size2,
        size3,
        size6,
    );
    write_sections(&mut out[142..at6], job);
    layout::seal_record(out);
}

// A job becomes a record at the front of the output, or is refused.
fn write(job: &Job, work: &mut [u8], out: &mut [u8]) -> Result<u32, Refusal>
    ensures { RecordWriting (lent job.now) work.old out.old (written result) work.new out.new }
{
    judge_job(job, work.len())?;
    let bytes = write_by(job, work, out)?;
    write_front(&mut out[..bytes as usize], job);
    Ok(bytes)
}

// A job becomes a record at the front of the output. It is Section 1's data with their end mark, Section 2's with no spare byte (empty:
// none), and of each lead its first sample's number, its count of samples and its ID; the samples of all leads follow one another. Each
// is a parameter of its own, as C has them.
pub fn write_record(
    section1: &[u8],
    section2: &[u8],
    head: Head,
    firsts: &[u32],
    counts: &[u32],
    ids: &[u8],
    xs: &[i16],
    work: &mut [u8],
    out: &mut [u8],
) -> Written
    ensures { RecordWriting
        (job_of section1.now section2.now head firsts.now counts.now ids.now
        xs.now)
        work.old out.old result work.new out.new }
{
    let job = Job {
        section1,
        section2,
        head,
        firsts,
        counts,
        ids,
        samples: xs,
    };
    Written::from(write(&job, work, out))
}
