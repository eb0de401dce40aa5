// Section 0's pointers, each as stored, and the sections that they point to (01, The record). Every byte string is answered: a
// record that is too short holds zeros where a number is wanted, and a section is what is there of it.
#![tactic(auto)]

ghost use Rattle.std.specs.Prelude.{◌≡◌, ◌++◌, ◌+◌, ◌*◌, ◌<◌, ◌≤◌, take, drop};
ghost use Rattle.pointers.specs.Pointers.{count_of, id_of, length_of, index_of, present, start_of, end_of, section_of, pointers_from};

// How many pointers Section 0 holds, at most 64.
#[tactic(auto, unfolding(crate::specs::Pointers::count_of))]
pub fn count_of(rec: &[u8]) -> u8
    ensures { (result ≡ count_of rec.now) × (result ≤ 64) }
{
    let size = wire::number32(rec, 10);
    (size.saturating_sub(16) / 10).min(64) as u8
}

// The ID of pointer k.
pub fn id_of(rec: &[u8], k: u8) -> usize
    ensures { (result ≡ id_of rec.now k) × (result < 65536) }
{
    wire::number16(rec, 22 + 10 * usize::from(k))
}

// The length in pointer k.
pub fn length_of(rec: &[u8], k: u8) -> usize
    ensures { (result ≡ length_of rec.now k) × (result < 4294967296) }
{
    wire::number32(rec, 24 + 10 * usize::from(k))
}

// The index in pointer k.
pub fn index_of(rec: &[u8], k: u8) -> usize
    ensures { (result ≡ index_of rec.now k) × (result < 4294967296) }
{
    wire::number32(rec, 28 + 10 * usize::from(k))
}

// The place of the first byte of section k.
pub fn start_of(rec: &[u8], k: u8) -> usize
    ensures { (result ≡ start_of rec.now k) × (result < 4294967296) }
{
    index_of(rec, k).saturating_sub(1)
}

// The place after the last byte of section k.
pub fn end_of(rec: &[u8], k: u8) -> usize
    ensures { (result ≡ end_of rec.now k) × (result < 8589934592) }
{
    start_of(rec, k) + length_of(rec, k)
}

// Section k is present.
pub fn is_present(rec: &[u8], k: u8) -> bool
    ensures { result ≡ present rec.now k }
{
    length_of(rec, k) != 0
}

// The bytes of section k, its header with them: that part of the record itself.
#[tactic(auto, unfolding(crate::specs::Pointers::section_of))]
pub fn section_of(rec: &[u8], k: u8) -> &[u8]
    ensures { result.now ≡ section_of rec.now k }
{
    wire::part_of(rec, start_of(rec, k), end_of(rec, k))
}

// Pointer k is put at its place among the numbers. (Within the loop of `put_pointers` its law does not close.)
#[tactic(auto, unfolding(crate::specs::Pointers::pointers_from))]
fn put_pointer(rec: &[u8], k: u8, pointers: &mut [u32; 192])
    requires { k < 64 }
    ensures { pointers.new ≡ take (3 * k) pointers.old ++
        (pointers_from rec.now k 1 ++ drop (3 * k + 3) pointers.old) }
{
    let at = 3 * usize::from(k);
    let pointer = [
        id_of(rec, k) as u32,
        length_of(rec, k) as u32,
        index_of(rec, k) as u32,
    ];
    pointers[at..at + 3].copy_from_slice(&pointer);
}

// All pointers are put, each as stored.
#[tactic(auto, using(crate::proofs::Laws::put_turn), unfolding(crate::specs::Pointers::pointers_from))]
pub fn put_pointers(rec: &[u8], count: u8, pointers: &mut [u32; 192])
    requires { count ≤ 64 }
    ensures { pointers.new ≡ pointers_from rec.now 0 count ++ drop (3 * count) pointers.old }
{
    for k in 0..count {
        put_pointer(rec, k, pointers);
    }
}
