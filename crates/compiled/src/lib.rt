// The code tables taken apart once for a lead, into the one form that reading and searching run on: 385 numbers a table (how many
// structures, then six numbers for each), so that matching a code is a shift and a comparison. The eight tables are followed by 256
// numbers a table: for each first eight bits of a stream, the structure to try first.
#![tactic(auto)]

ghost use Rattle.std.specs.Prelude.{if◌then◌else◌, is_some, replicate, ◌≡◌, true, [], ◌++◌, ℕ, ◌+◌, ◌*◌, ◌/◌, ◌^◌, ◌<◌, ◌≤◌, length, get_or, take, drop};
ghost use Rattle.std.specs.Option.{option_copied, ForSome};
ghost use Rattle.wire.specs.RuleWords.{every};
ghost use Rattle.tables.specs.Structures.{structure_right, structures_at};
ghost use Rattle.tables.specs.Default.{default_table};
ghost use Rattle.tables.specs.Section2.{section2_right, tables_in, tables_from, table_right};
ghost use Rattle.compiled.specs.InnerForm.{guesses_at, room_numbers, table_numbers, lowest, beyond, form_of, form_at, numbers_of, Says, Beside, SameTables, Compiled, CompiledOrNone, tables_held};

use tables::Structure;

// How many numbers a table takes: its number of structures, then six for each of up to 64.
pub const TABLE: usize = 385;

// The guesses begin behind the eight tables, 256 for each table: one for each first eight bits.
const GUESSES: usize = 3080;

const GUESSES_OF_A_TABLE: usize = 256;

// How many numbers all of that takes.
pub const ROOM: usize = 5128;

// A structure as the engines hold it.
#[derive(Clone, Copy)]
pub struct Form {
    pub prefix: usize,
    pub remainder: usize,
    pub to: usize,
    pub lo: usize,
    pub hi: usize,
    pub word: usize,
}

// The least value that a value's structure serves, 131,072 added.
fn lowest_of(base: usize, remainder: usize) -> usize
    requires { (base < 65536) × (remainder ≤ 16) }
    ensures { result ≡ lowest base remainder }
{
    if remainder == 0 {
        (base + bits::SAMPLE_ZERO) % 65536 + 98304
    } else {
        bits::VALUE_ZERO - bits::power(remainder - 1)
    }
}

// The first value past those that it serves, 131,072 added.
fn beyond_of(base: usize, remainder: usize) -> usize
    requires { (base < 65536) × (remainder ≤ 16) }
    ensures { result ≡ beyond base remainder }
{
    if remainder == 0 {
        (base + bits::SAMPLE_ZERO) % 65536 + 98305
    } else {
        bits::VALUE_ZERO + bits::power(remainder - 1)
    }
}

// A structure's form.
#[tactic(auto, unfolding(crate::specs::InnerForm::form_of))]
fn form_of(c: Structure) -> Form
    requires { (c.prefix ≤ 32) × (c.prefix ≤ c.whole) × (c.whole ≤ c.prefix + 16) × (c.base < 65536) }
    ensures { result ≡ form_of c }
{
    let prefix = c.prefix;
    let remainder = c.whole - prefix;
    let (to, lo, hi) = if c.mode == 0 {
        (c.base, 0, 0)
    } else {
        (
            0,
            lowest_of(c.base, remainder),
            beyond_of(c.base, remainder),
        )
    };
    Form {
        prefix,
        remainder,
        to,
        lo,
        hi,
        word: bits::turn(prefix, c.code),
    }
}

// The form at place k of table t.
#[tactic(auto, unfolding(crate::specs::InnerForm::form_at))]
pub fn form_at(tab: &[u32], t: usize, k: usize) -> Form
    requires { (length tab.now ≡ room_numbers) × (t < 8) × (k < 64) }
    ensures { result ≡ form_at tab.now t k }
{
    let o = t * TABLE + k * 6;
    Form {
        prefix: tab[o + 1] as usize,
        remainder: tab[o + 2] as usize,
        to: tab[o + 3] as usize,
        lo: tab[o + 4] as usize,
        hi: tab[o + 5] as usize,
        word: tab[o + 6] as usize,
    }
}

// A form is put at place k of table t.
#[tactic(auto, unfolding(crate::specs::InnerForm::numbers_of))]
fn put_form(tab: &mut [u32; ROOM], t: usize, k: usize, f: Form)
    requires tab_len { (t < 8) × (k < 64) }
    requires prefix_bound { (f.prefix < 4294967296) × (f.remainder < 4294967296) × (f.to < 4294967296) }
    requires lo_bound { (f.lo < 4294967296) × (f.hi < 4294967296) × (f.word < 4294967296) }
    ensures { tab.new ≡ take (t * table_numbers + 1 + k * 6) tab.old ++
        (numbers_of f ++ drop (t * table_numbers + 7 + k * 6) tab.old) }
{
    let numbers = [
        f.prefix as u32,
        f.remainder as u32,
        f.to as u32,
        f.lo as u32,
        f.hi as u32,
        f.word as u32,
    ];
    let o = t * TABLE + 1 + k * 6;
    tab[o..o + 6].copy_from_slice(&numbers);
}

// The n structures from a place of Section 2's data on are put as table t.
fn put_table(s: &[u8], o: usize, n: usize, tables: usize, tab: &mut [u32; ROOM], t: usize)
    requires tab_len { (t < 8) × (n ≤ 64) × (o < 8388608) × (tables ≤ 8) }
    requires n_value { every (structure_right tables) (structures_at s.now o n) ≡ true }
    ensures { Says (structures_at s.now o n) tab.new t × Beside tab.old tab.new t }
{
    tab[t * TABLE] = n as u32;
    for k in 0..n {
        put_form(tab, t, k, form_of(tables::structure_at(s, o + 9 * k)));
    }
}

// The default table is put as the first. (One function with `put_table` would take a closure that makes the structures, and its
// contract would say of each what `structures_right` and `default_structure` say: more than the loop that it saves.)
fn put_default(tab: &mut [u32; ROOM])
    ensures { Says default_table tab.new 0 }
{
    tab[0] = 19;
    for k in 0..19 {
        put_form(tab, 0, k, form_of(tables::default_structure(k)));
    }
}

// The tables from n on have no structure.
fn put_none(tab: &mut [u32; ROOM], n: usize)
    requires { (n ≤ 8) }
    ensures { ((t : ℕ) → n ≤ t → t < 8 → Says [] tab.new t)
        × ((i : ℕ) → i < n * table_numbers → get_or tab.new i 0 ≡ get_or tab.old i 0) }
{
    for t in n..8 {
        tab[t * TABLE] = 0;
    }
}

// The n tables from a place of Section 2's data on are put as the first n.
fn put_tables(s: &[u8], o: usize, n: usize, tab: &mut [u32; ROOM])
    requires tab_len { (n ≤ 8) × (o < 2097152) }
    requires n_value { every (table_right n) (tables_from s.now o n) ≡ true }
    ensures { (t : ℕ) → t < n → Says (get_or (tables_from s.now o n) t []) tab.new t }
{
    let mut from = o;
    for t in 0..n {
        put_table(s, from + 2, wire::number16(s, from), n, tab, t);
        from = tables::after_table(s, from);
    }
}

// The tables of Section 2's data, which start at place `at` and were judged to be right, are put as forms.
fn put_all(s: &[u8], at: usize, spare: usize, tab: &mut [u32; ROOM])
    requires { (at ≤ 1048576) × (section2_right spare s.now at ≡ true) }
    ensures { Compiled (tables_in s.now at) tab.new }
{
    if tables::is_default(s, at) {
        put_default(tab);
        put_none(tab, 1);
    } else {
        let n = wire::number16(s, at);
        put_tables(s, at + 2, n, tab);
        put_none(tab, n);
    }
}

// Structure k of table t is what to try first wherever its prefix begins the first eight bits, unless it is longer than these. The
// number put is its place, and 64 times its prefix's length.
fn put_guess(tab: &mut [u32; ROOM], t: usize, k: usize)
    requires { (t < 8) × (k < 64) }
    ensures { SameTables tab.old tab.new }
{
    let f = form_at(tab, t, k);
    if 8 < f.prefix {
        return;
    }
    let mark = (k + 64 * f.prefix) as u32;
    let width = 8 - f.prefix;
    let many = bits::power(width);
    let from = f.word << width;
    if 256 - many < from {
        return;
    }
    let o = GUESSES + t * GUESSES_OF_A_TABLE + from;
    tab[o..o + many].fill(mark);
}

// Puts the guesses of table t, by its structures.
fn put_guesses(tab: &mut [u32; ROOM], t: usize)
    requires { (t < 8) }
    ensures { SameTables tab.old tab.new }
{
    let n = tab[t * TABLE].min(64) as usize;
    for k in 0..n {
        put_guess(tab, t, k);
    }
}

// The tables of Section 2's data, which start at place `at` and were judged to be right, are put as forms, with what to try first.
pub fn compile(s: &[u8], at: usize, spare: usize, tab: &mut [u32; ROOM])
    requires { (at ≤ 1048576) × (section2_right spare s.now at ≡ true) }
    ensures { Compiled (tables_in s.now at) tab.new }
{
    put_all(s, at, spare, tab);
    for t in 0..8 {
        put_guesses(tab, t);
    }
}

// Room of its own for the numbers of the code tables, all of them 0.
pub fn room() -> [u32; ROOM]
    ensures { result ≡ replicate room_numbers 0 }
{
    [0; ROOM]
}

// The tables of Section 2's data, which start at place `at` and were judged to be right, are taken apart into the room. Answered is the
// part of it that holds them: all of it, or nothing without Section 2.
pub fn hold<'t>(
    section2: Option<&[u8]>,
    at: usize,
    spare: usize,
    room: &'t mut [u32; ROOM],
) -> &'t [u32]
    requires { (at ≤ 1048576) × ForSome section2 (λ s. section2_right spare s.now at ≡ true) }
    ensures tables { CompiledOrNone (tables_held at (option_copied section2.entry)) result.now }
    ensures count { length result.now ≡ (if is_some section2.entry then room_numbers else 0) }
{
    let Some(s) = section2 else {
        return &room[..0];
    };
    compile(s, at, spare, room);
    room
}

// The number that the row has for the first eight bits of a window.
fn pointed(row: &[u32], w: u64) -> usize
    requires { length row.now ≡ 256 }
    ensures { result ≡ get_or row.now (w / 2 ^ 56) 0 }
{
    let first = bits::top(w, 8) as usize;
    row[first] as usize
}

// The structure of table t to try first for the bits of a window: its place, and 64 times its prefix's length, in one number so that it
// is read at once. The answer is the number found there; nothing says that it is right, and whoever takes it tests it.
pub fn guess(tab: &[u32], t: usize, w: u64) -> usize
    requires { (length tab.now ≡ room_numbers) × (t < 8) }
    ensures { result ≡ get_or tab.now (guesses_at + t * 256 + w / 2 ^ 56) 0 }
{
    let from = GUESSES + t * GUESSES_OF_A_TABLE;
    pointed(&tab[from..from + 256], w)
}
