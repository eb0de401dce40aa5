// Section 2's data judged whole (01, Code tables; refusal 7), and the default table.
#![tactic(auto)]

ghost use Rattle.std.specs.Prelude.{◌≡◌, ◌+◌, ◌*◌, ◌<◌, ◌≤◌, get_or};
ghost use Rattle.tables.specs.Structures.{structure_at, structures_at, mode_right, structure_right, apart, prefix_free, no_structure};
ghost use Rattle.tables.specs.Default.{default_table};
ghost use Rattle.wire.specs.RuleWords.{every};
ghost use Rattle.tables.specs.Section2.{is_default, table_at, after_table, tables_from, after_tables, table_right, section2_right};

// A code structure; the base value without its sign. The mode is the number of its byte, since the rule judges that byte
// (`mode_right`).
#[derive(Clone, Copy)]
pub struct Structure {
    pub prefix: usize,
    pub whole: usize,
    pub mode: usize,
    pub base: usize,
    pub code: usize,
}

// The structure in the nine bytes from a place on.
#[tactic(auto, unfolding(crate::specs::Structures::structure_at))]
pub fn structure_at(s: &[u8], o: usize) -> Structure
    requires { o < 16777216 }
    ensures { result ≡ structure_at s.now o }
{
    Structure {
        prefix: wire::byte(s, o),
        whole: wire::byte(s, o + 1),
        mode: wire::byte(s, o + 2),
        base: wire::number16(s, o + 3),
        code: wire::number32(s, o + 5),
    }
}

// The mode is a value's or a switch's, and a switch leads to a table that exists.
#[tactic(auto, unfolding(crate::specs::Structures::mode_right))]
fn mode_right(c: Structure, tables: usize) -> bool
    ensures { result ≡ mode_right tables c }
{
    if c.mode == 0 {
        c.whole == c.prefix && 1 <= c.base && c.base <= tables
    } else {
        c.mode == 1
    }
}

// The lengths, the bits above the prefix and the mode of a structure.
#[tactic(auto, unfolding(crate::specs::Structures::structure_right))]
fn structure_right(c: Structure, tables: usize) -> bool
    ensures { result ≡ structure_right tables c }
{
    let p = c.prefix;
    1 <= p
        && p <= 32
        && p <= c.whole
        && c.whole - p <= 16
        && c.code < bits::power(p)
        && mode_right(c, tables)
}

// Neither prefix begins the other: their bits differ before one of them ends.
fn is_apart(c: Structure, d: Structure) -> bool
    ensures { result ≡ apart c d }
{
    let mut x = c.code;
    let mut y = d.code;
    for _ in 0..c.prefix.min(d.prefix) {
        if x % 2 != y % 2 {
            return true;
        }
        x /= 2;
        y /= 2;
    }
    false
}

// A prefix is apart from those of n structures.
fn apart_from(s: &[u8], o: usize, n: usize, c: Structure) -> bool
    requires { (o < 8388608) × (n ≤ 64) }
    ensures { result ≡ every (apart c) (structures_at s.now o n) }
{
    (0..n).all(|k| is_apart(c, structure_at(s, o + 9 * k)))
}

// No prefix of n structures begins another.
fn is_prefix_free(s: &[u8], o: usize, n: usize) -> bool
    requires { (o < 4194304) × (n ≤ 64) }
    ensures { result ≡ prefix_free (structures_at s.now o n) }
{
    (0..n).all(|k| apart_from(s, o + 9 * k + 9, n - 1 - k, structure_at(s, o + 9 * k)))
}

// Every one of n structures is right.
fn structures_right(s: &[u8], o: usize, n: usize, tables: usize) -> bool
    requires { (o < 8388608) × (n ≤ 64) }
    ensures { result ≡ every (structure_right tables) (structures_at s.now o n) }
{
    (0..n).all(|k| structure_right(structure_at(s, o + 9 * k), tables))
}

// The table at a place is right.
#[tactic(auto, using(crate::proofs::Laws::length_structures_at), unfolding(crate::specs::Section2::table_right, crate::specs::Section2::table_at))]
fn table_right(s: &[u8], o: usize, tables: usize) -> bool
    requires { o < 4000000 }
    ensures { result ≡ table_right tables (table_at s.now o) }
{
    let n = wire::number16(s, o);
    1 <= n && n <= 64 && structures_right(s, o + 2, n, tables) && is_prefix_free(s, o + 2, n)
}

// The place after the table at a place.
#[tactic(auto, unfolding(crate::specs::Section2::after_table))]
pub fn after_table(s: &[u8], o: usize) -> usize
    requires { o < 16777216 }
    ensures { (result ≡ after_table s.now o) × (result ≤ o + 589817) }
{
    o + 2 + 9 * wire::number16(s, o)
}

// Every one of n tables is right.
fn all_tables_right(s: &[u8], o: usize, n: usize, tables: usize) -> bool
    requires { (o < 2097152) × (n ≤ 8) }
    ensures { result ≡ every (table_right tables) (tables_from s.now o n) }
{
    let mut from = o;
    for _ in 0..n {
        if !table_right(s, from, tables) {
            return false;
        }
        from = after_table(s, from);
    }
    true
}

// The place after n tables.
fn after_tables(s: &[u8], o: usize, n: usize) -> usize
    requires { (o < 2097152) × (n ≤ 8) }
    ensures { (result ≡ after_tables s.now o n) × (result < 8388608) }
{
    let mut from = o;
    for _ in 0..n {
        from = after_table(s, from);
    }
    from
}

// 19999: the default table alone.
#[tactic(auto, unfolding(crate::specs::Section2::is_default))]
pub fn is_default(s: &[u8], at: usize) -> bool
    ensures { result ≡ is_default s.now at }
{
    wire::number16(s, at) == 19999
}

// The data, which start at place `at`, keep their rule: refusal 7 is not due.
#[tactic(auto, unfolding(crate::specs::Section2::section2_right))]
pub fn section2_right(s: &[u8], at: usize, spare: usize) -> bool
    requires { (at ≤ 1048576) × (spare ≤ 1) }
    ensures { result ≡ section2_right spare s.now at }
{
    if is_default(s, at) {
        return wire::ends_by(s, at + 2, spare);
    }
    let n = wire::number16(s, at);
    1 <= n
        && n <= 8
        && all_tables_right(s, at + 2, n, n)
        && wire::ends_by(s, after_tables(s, at + 2, n), spare)
}

// Structures of values, a row each: the prefix's bits, the whole code's, the base value and the base code.
macro_rules! values {
    ($(($prefix:expr, $whole:expr, $base:expr, $code:expr),)*) => {
        [$(
            Structure {
                prefix: $prefix,
                whole: $whole,
                mode: 1,
                base: $base,
                code: $code,
            },
        )*]
    };
}

const DEFAULT: [Structure; 19] = values![
    (1, 1, 0, 0),
    (3, 3, 1, 1),
    (3, 3, 65535, 5),
    (4, 4, 2, 3),
    (4, 4, 65534, 11),
    (5, 5, 3, 7),
    (5, 5, 65533, 23),
    (6, 6, 4, 15),
    (6, 6, 65532, 47),
    (7, 7, 5, 31),
    (7, 7, 65531, 95),
    (8, 8, 6, 63),
    (8, 8, 65530, 191),
    (9, 9, 7, 127),
    (9, 9, 65529, 383),
    (10, 10, 8, 255),
    (10, 10, 65528, 767),
    (10, 18, 0, 511),
    (10, 26, 0, 1023),
];

// The structure at a place of the default table, counted from 0.
pub fn default_structure(k: usize) -> Structure
    requires { k < 19 }
    ensures { result ≡ get_or default_table k no_structure }
{
    DEFAULT[k]
}
