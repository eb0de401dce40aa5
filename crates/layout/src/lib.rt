// The writers of a record's sections, each into its own part of the output, in place (01, The record; 01, Refusal numbers, the
// paragraphs under the table).
#![tactic(auto)]

ghost use Rattle.std.specs.Prelude.{◌≡◌, List, ◌∷◌, ◌++◌, cond, ℕ, ◌+◌, ◌-◌, ◌*◌, ◌≤◌, ◌<◌, eqb, length, get_or, replicate, take, drop};
ghost use Rattle.wire.specs.Numbers.{bytes_of};
ghost use Rattle.layout.specs.Layout.{evened, section_length, checked, section_bytes, zero_reserved, letters};
ghost use Rattle.layout.specs.Layout.{entries_of, leads_data, pointer_bytes, pointers_data};
ghost use Rattle.layout.specs.InnerCounts.{byte_counts};
ghost use Rattle.layout.specs.InnerHeader.{headed};
ghost use Rattle.layout.specs.InnerPointers.{absents};
ghost use Rattle.layout.specs.InnerLeads.{entry_bytes};

// Bytes are put at a place.
pub fn put_bytes(part: &mut [u8], at: usize, bytes: &[u8])
    requires { at + length bytes.now ≤ length part.old }
    ensures { part.new
        ≡ take at part.old ++ (bytes.now ++ drop (at + length bytes.now) part.old) }
{
    wire::copy(bytes, &mut part[at..at + bytes.len()]);
}

// The check over all that follows it.
fn put_check(part: &mut [u8])
    requires { 2 < length part.old }
    ensures { part.new ≡ checked (drop 2 part.old) }
{
    let check = wire::crc(&part[2..]);
    wire::put16(part, 0, check as usize);
}

// Header and check around data that are there already.
fn seal_with(part: &mut [u8], id: usize, version: u8, reserved: &[u8])
    requires { (16 ≤ length part.old) × (length reserved.now ≡ 6) }
    ensures { part.new
        ≡ checked (headed id (length part.old) version reserved.now (drop 16 part.old)) }
{
    let size = part.len();
    wire::put16(part, 2, id);
    wire::put32(part, 4, size);
    part[8] = version;
    part[9] = version;
    put_bytes(part, 10, reserved);
    put_check(part);
}

// Header and check of a section other than 0, around data that are there already with their spare byte.
pub fn seal(part: &mut [u8], id: usize, version: u8)
    requires { 16 ≤ length part.old }
    ensures part_after { part.new
        ≡ checked (bytes_of 2 id ++ (bytes_of 4 (length part.old)
        ++ (version ∷ (version ∷ (zero_reserved ++ drop 16 part.old))))) }
    ensures by_index { (contents : List ℕ)
        → drop 16 part.old ≡ evened contents
        → length part.old ≡ section_length (length contents)
        → part.new ≡ section_bytes id version zero_reserved contents }
{
    seal_with(part, id, version, b"\x00\x00\x00\x00\x00\x00");
}

// The spare byte, where there is one behind the data, becomes 0.
pub fn put_spare(part: &mut [u8], end: usize)
    requires { (end ≤ length part.old) × (length part.old ≤ end + 1) }
    ensures { part.new ≡ take end part.old ++ replicate (length part.old - end) 0 }
{
    part[end..].fill(0);
}

// Section 1 or 2, of the data that it is given.
pub fn write_section(part: &mut [u8], id: usize, version: u8, contents: &[u8])
    requires { length part.old ≡ section_length (length contents.now) }
    ensures { part.new ≡ section_bytes id version zero_reserved contents.now }
{
    put_bytes(part, 16, contents);
    put_spare(part, 16 + contents.len());
    seal(part, id, version);
}

// The pointer of a section is put at its place.
fn put_pointer(part: &mut [u8], id: usize, size: usize, index: usize)
    requires { 26 + 10 * id ≤ length part.old }
    ensures { let at = 16 + 10 * id in
        part.new ≡ take at part.old ++ (pointer_bytes id size index ++ drop (at + 10) part.old) }
{
    let at = 16 + 10 * id;
    wire::put16(part, at, id);
    wire::put32(part, at + 2, size);
    wire::put32(part, at + 6, index);
}

// The pointers of absent sections, from an ID up to another, each at its place.
fn put_absent(part: &mut [u8], from: usize, to: usize)
    requires { (from ≤ to) × (to ≤ 12) × (length part.old ≡ 136) }
    ensures { part.new
        ≡ take (16 + 10 * from) part.old ++ (absents from (to - from) ++ drop (16 + 10 * to) part.old) }
{
    for id in from..to {
        put_pointer(part, id, 0, 0);
    }
}

// The index of a section that may be absent.
fn index_if(size: usize, index: usize) -> usize
    ensures { result ≡ cond (eqb size 0) 0 index }
{
    if size == 0 { 0 } else { index }
}

// The twelve pointers behind Section 0's header.
fn put_pointers(part: &mut [u8], size1: usize, size2: usize, size3: usize, size6: usize)
    requires { (length part.old ≡ 136) × (143 + size1 + size2 + size3 < 4294967296) }
    ensures { part.new ≡ take 16 part.old ++ pointers_data size1 size2 size3 size6 }
{
    put_pointer(part, 0, 136, 7);
    put_pointer(part, 1, size1, 143);
    put_pointer(part, 2, size2, index_if(size2, 143 + size1));
    put_pointer(part, 3, size3, 143 + size1 + size2);
    put_absent(part, 4, 6);
    put_pointer(part, 6, size6, 143 + size1 + size2 + size3);
    put_absent(part, 7, 12);
}

// Section 0, by the lengths of the others (0 for a Section 2 that is absent).
pub fn write_pointers(
    part: &mut [u8],
    version: u8,
    size1: usize,
    size2: usize,
    size3: usize,
    size6: usize,
)
    requires { (length part.old ≡ 136) × (143 + size1 + size2 + size3 < 4294967296) }
    ensures { part.new ≡ section_bytes 0 version letters (pointers_data size1 size2 size3 size6) }
{
    put_pointers(part, size1, size2, size3, size6);
    seal_with(part, 0, version, b"SCPECG");
}

// A lead's entry is put at a place.
fn put_entry(part: &mut [u8], at: usize, first: u32, count: u32, id: u8)
    requires { (at + 9 ≤ length part.old) × (1 ≤ count) }
    ensures { part.new ≡ take at part.old ++ (entry_bytes first count id ++ drop (at + 9) part.old) }
{
    wire::put32(part, at, first as usize);
    wire::put32(part, at + 4, first as usize + count as usize - 1);
    part[at + 8] = id;
}

// The entries of all leads, behind the flags. The three arrays are as the C interface lends them, and one place serves all of them.
fn put_entries(part: &mut [u8], firsts: &[u32], counts: &[u32], ids: &[u8])
    requires firsts_len { (length firsts.now ≡ length counts.now) × (length ids.now ≡ length counts.now)
        × (18 + 9 * length counts.now ≤ length part.old) }
    requires by_index { (k : ℕ) → k < length counts.now → 1 ≤ get_or counts.now k 0 }
    ensures { part.new
        ≡ take 18 part.old ++ (entries_of firsts.now counts.now ids.now
        ++ drop (18 + 9 * length counts.now) part.old) }
{
    for k in 0..counts.len() {
        put_entry(part, 18 + 9 * k, firsts[k], counts[k], ids[k]);
    }
}

// Section 3, of the leads' first sample numbers, sample counts and IDs.
pub fn write_leads(
    part: &mut [u8],
    version: u8,
    flags: u8,
    firsts: &[u32],
    counts: &[u32],
    ids: &[u8],
)
    requires firsts_len { (length firsts.now ≡ length counts.now) × (length ids.now ≡ length counts.now)
        × (length counts.now ≤ 32) × (length part.old ≡ section_length (2 + 9 * length counts.now)) }
    requires by_index { (k : ℕ) → k < length counts.now → 1 ≤ get_or counts.now k 0 }
    ensures { part.new
        ≡ section_bytes 3 version zero_reserved (leads_data flags firsts.now counts.now ids.now) }
{
    part[16] = counts.len() as u8;
    part[17] = flags - flags % 2;
    put_entries(part, firsts, counts, ids);
    put_spare(part, 18 + 9 * counts.len());
    seal(part, 3, version);
}

// The byte counts of the leads' streams, behind bimodal.
fn put_counts(part: &mut [u8], bytes: &[u32])
    requires { 22 + 2 * length bytes.now ≤ length part.old }
    ensures { part.new
        ≡ take 22 part.old ++ (byte_counts bytes.now
        ++ drop (22 + 2 * length bytes.now) part.old) }
{
    for (k, count) in bytes.iter().enumerate() {
        wire::put16(part, 22 + 2 * k, *count as usize);
    }
}

// Section 6's data up to the streams, by the streams' byte counts; streams and header are put by the caller.
pub fn write_streams_head(part: &mut [u8], step: u16, interval: u16, order: usize, bytes: &[u32])
    requires { (order < 256) × (22 + 2 * length bytes.now ≤ length part.old) }
    ensures { part.new
        ≡ take 16 part.old ++ (bytes_of 2 step ++ (bytes_of 2 interval ++ (order ∷ (0 ∷ (byte_counts bytes.now
        ++ drop (22 + 2 * length bytes.now) part.old))))) }
{
    wire::put16(part, 16, step as usize);
    wire::put16(part, 18, interval as usize);
    part[20] = order as u8;
    part[21] = 0;
    put_counts(part, bytes);
}

// The record's size and, before it, its check; the sections are there already.
pub fn seal_record(out: &mut [u8])
    requires { 6 ≤ length out.old }
    ensures { out.new ≡ checked (bytes_of 4 (length out.old) ++ drop 6 out.old) }
{
    let size = out.len();
    wire::put32(out, 2, size);
    put_check(out);
}
