// Reading values from a stream of bits by code tables (01, Code tables; refusal 12). The bit cursor goes by value with the current
// table's number, and its methods hand back the moved cursor, which has also summed up the structures compared (Q-6). Reading a value
// and following a switch call each other; the bits left fall at each code, and the depth is bounded, with a loop around it, so that no
// stream can exhaust the stack.
#![tactic(auto)]

ghost use Rattle.std.specs.Prelude.{◌≡◌, true, List, [], ℕ, suc, ◌+◌, ◌*◌, ◌^◌, ◌<◌, ◌≤◌, length, get_or, drop};
ghost use Rattle.wire.specs.Bounds.{most_structures};
ghost use Rattle.bits.specs.Bits.{bits_in, signed, begins};
ghost use Rattle.bits.specs.InnerRaised.{value_zero, from_zero};
ghost use Rattle.tables.specs.declared.Structure.{Structure};
ghost use Rattle.tables.specs.Structures.{prefix_of, remainder_of, structure_right};
ghost use Rattle.compiled.specs.InnerForm.{form_of, Compiled, CompiledSome, CompiledOrNone, CompiledSomeOrNone};
ghost use Rattle.reading.specs.Reading.{read_coded, read_plain, read_next, matching, value_of};
ghost use Rattle.reading.specs.Compared.{compared_in, compared_coded, compared_next};
ghost use Rattle.reading.specs.InnerCursor.{Seen, found_in, formed, Placed, told, told_of, Summed, SummedOf, Within, Reads, Leads, Onward, OnwardOf};

use compiled::Form;
use std::ops::ControlFlow;

// A place in a stream of bits, the number of the current table, and how many structures were compared on the way: for each code as many
// as the place of the matched structure in its table.
// The bytes and the tables go beside it: a struct of the two could not keep what `Reads` says of them, since a ghost field holds a
// proposition, and `CompiledSome` names the tables that the numbers say (`IsProp` of it is refused).
#[derive(Clone, Copy)]
pub struct Cursor {
    pub at: usize,
    pub table: usize,
    pub compared: usize,
}

// The result of a burst of codes: an answer, or the place where reading goes on.
type Burst = ControlFlow<Option<(usize, Cursor)>, Cursor>;

// The window begins with a form's prefix, where `left` bits are left.
fn begins_with(f: Form, w: u64, left: usize) -> bool
    requires { (1 ≤ f.prefix) × (f.prefix ≤ 32) }
    ensures { (c : Structure) (bs : List ℕ) → form_of c ≡ f → Seen bs w left → result ≡ begins (prefix_of c) bs }
{
    f.prefix <= left && bits::top(w, f.prefix) == f.word as u64
}

// The form of the structure of table t, counted from 0, whose prefix the window begins with, and its place, from 1: the first such.
fn walk(tab: &[u32], t: usize, w: u64, left: usize) -> Option<(Form, usize)>
    requires { CompiledSome tab.now × (t < 8) }
    ensures found { (tables : List (List Structure)) (bs : List ℕ) → Compiled tables tab.now → Seen bs w left
        → found_in result ≡ formed (matching (get_or tables t []) bs) }
    ensures placed { (tables : List (List Structure)) (bs : List ℕ) → Compiled tables tab.now → Seen bs w left
        → Placed (compared_in (get_or tables t []) bs) result }
{
    let n = tab[t * compiled::TABLE] as usize;
    for k in 0..n {
        let f = compiled::form_at(tab, t, k);
        if begins_with(f, w, left) {
            return Some((f, k + 1));
        }
    }
    None
}

// The window begins with a form's prefix, and that is p bits long. Since p is known before the form is, the next code's place does not
// wait for it.
fn fits_guess(f: Form, p: usize, w: u64, left: usize) -> bool
    requires { (1 ≤ f.prefix) × (f.prefix ≤ 32) }
    ensures { (c : Structure) (bs : List ℕ) → form_of c ≡ f → Seen bs w left → result ≡ true → begins (prefix_of c) bs ≡ true }
{
    f.prefix == p && begins_with(f, w, left)
}

// The form that `walk` finds, most often at once: in a right table no other structure matches if the one that the first bits point to
// does.
fn find(tab: &[u32], t: usize, w: u64, left: usize) -> Option<(Form, usize)>
    requires { CompiledSome tab.now × (t < 8) }
    ensures found { (tables : List (List Structure)) (bs : List ℕ) → Compiled tables tab.now → Seen bs w left
        → found_in result ≡ formed (matching (get_or tables t []) bs) }
    ensures placed { (tables : List (List Structure)) (bs : List ℕ) → Compiled tables tab.now → Seen bs w left
        → Placed (compared_in (get_or tables t []) bs) result }
{
    let guess = compiled::guess(tab, t, w);
    let p = guess / 64;
    let k = guess % 64;
    if k < tab[t * compiled::TABLE] as usize {
        let guessed = compiled::form_at(tab, t, k);
        if fits_guess(guessed, p, w, left) {
            return Some((guessed, k + 1));
        }
    }
    walk(tab, t, w, left)
}

// A number in two's complement of one bit more than `half` has noughts, 131,072 added.
fn raised(n: usize, half: usize) -> usize
    requires { (1 ≤ half) × (half ≤ 32768) × (n < 2 * half) }
    ensures { ((w : ℕ) → half ≡ 2 ^ w → from_zero value_zero result ≡ signed (suc w) n) × (result < 262144) }
{
    if n < half {
        bits::VALUE_ZERO + n
    } else {
        bits::VALUE_ZERO + n - 2 * half
    }
}

// The value of a form that is no switch and was matched at a place of its table, 131,072 added, and the cursor behind its code; none
// where the code runs out.
fn value_of(f: Form, place: usize, w: u64, left: usize, c: Cursor) -> Option<(usize, Cursor)>
    requires { ((d : Structure) × (form_of d ≡ f) × (structure_right 8 d ≡ true) × (f.to ≡ 0)) × (f.prefix ≤ left) × (c.at ≤ 8388608)
        × (place ≤ most_structures) × Within (c.at + left) c }
    ensures told { (d : Structure) (bs : List ℕ) → form_of d ≡ f → structure_right 8 d ≡ true → d.base < 65536
        → Seen (drop c.at bs) w left → told bs result ≡ value_of (remainder_of d) d.base c.table (drop d.prefix (drop c.at bs)) }
    ensures onward { Onward c.at (c.at + left) result }
    ensures summed { Summed (c.compared + place) result }
{
    let compared = c.compared + place;
    let p = f.prefix;
    let q = f.remainder;
    if q == 0 {
        let at = c.at + p;
        return Some((f.lo, Cursor { at, compared, ..c }));
    }
    if left < p + q {
        return None;
    }
    let n = bits::after(w, p, q) as usize;
    let at = c.at + p + q;
    Some((
        raised(n, bits::VALUE_ZERO - f.lo),
        Cursor { at, compared, ..c },
    ))
}

impl Cursor {
    // Where a lead starts: its first bit, in table 1.
    pub fn new() -> Self
        ensures { (result.at ≡ 0) × (result.table ≡ 1) × (result.compared ≡ 0) }
    {
        Cursor {
            at: 0,
            table: 1,
            compared: 0,
        }
    }

    // A code is matched in the current table: a value ends the step, a switch is followed.
    #[cycle(burst_follow)]
    fn burst(self, s: &[u8], tab: &[u32], depth: usize) -> Burst
        requires { Reads tab.now s.now self }
        ensures told { (tables : List (List Structure)) → Compiled tables tab.now
            → told_of tables (bits_in s.now) result ≡ read_coded tables self.table (drop self.at (bits_in s.now)) }
        ensures onward { OnwardOf self.at (length s.now * 8) result }
        ensures summed { (tables : List (List Structure)) → Compiled tables tab.now
            → SummedOf tables (bits_in s.now)
            (self.compared + compared_coded tables self.table (drop self.at (bits_in s.now))) result }
    {
        let t = self.table - 1;
        let left = s.len() * 8 - self.at;
        let w = bits::window(s, self.at);
        let Some((f, place)) = find(tab, t, w, left) else {
            return ControlFlow::Break(None);
        };
        if f.to == 0 {
            return ControlFlow::Break(value_of(f, place, w, left, self));
        }
        self.follow(s, tab, depth, f, place)
    }

    // A switch gives no value: reading carries on in the table that it leads to, or hands back the cursor where the depth is used up.
    #[cycle(burst_follow)]
    fn follow(self, s: &[u8], tab: &[u32], depth: usize, f: Form, place: usize) -> Burst
        requires { Reads tab.now s.now self × Leads self.at (length s.now * 8) f
            × (place ≤ most_structures) }
        ensures told { (tables : List (List Structure)) → Compiled tables tab.now
            → told_of tables (bits_in s.now) result ≡ read_coded tables f.to (drop (self.at + f.prefix) (bits_in s.now)) }
        ensures onward { OnwardOf self.at (length s.now * 8) result }
        ensures summed { (tables : List (List Structure)) → Compiled tables tab.now
            → SummedOf tables (bits_in s.now)
            (self.compared + place + compared_coded tables f.to (drop (self.at + f.prefix) (bits_in s.now))) result }
    {
        let next = Cursor {
            at: self.at + f.prefix,
            table: f.to,
            compared: self.compared + place,
        };
        if depth == 0 {
            return ControlFlow::Continue(next);
        }
        next.burst(s, tab, depth - 1)
    }

    // The next value, by bursts: the loop around the bounded depth.
    fn by_bursts(self, s: &[u8], tab: &[u32]) -> Option<(usize, Cursor)>
        requires { Reads tab.now s.now self }
        ensures told { (tables : List (List Structure)) → Compiled tables tab.now
            → told (bits_in s.now) result ≡ read_coded tables self.table (drop self.at (bits_in s.now)) }
        ensures onward { Onward self.at (length s.now * 8) result }
        ensures summed { (tables : List (List Structure)) → Compiled tables tab.now
            → Summed (self.compared + compared_coded tables self.table (drop self.at (bits_in s.now))) result }
    {
        let mut c = self;
        loop {
            match c.burst(s, tab, 64) {
                ControlFlow::Break(r) => return r,
                ControlFlow::Continue(d) => c = d,
            }
        }
    }

    // The next value of a stream that is coded by tables. Most often it is the first code's: that is tried here, so that the functions
    // that call each other run only where it is a switch's. (By `by_bursts` alone, which answers the same, reading takes 2.4 times as long.)
    fn coded(self, s: &[u8], tab: &[u32]) -> Option<(usize, Cursor)>
        requires { Reads tab.now s.now self }
        ensures told { (tables : List (List Structure)) → Compiled tables tab.now
            → told (bits_in s.now) result ≡ read_coded tables self.table (drop self.at (bits_in s.now)) }
        ensures onward { Onward self.at (length s.now * 8) result }
        ensures summed { (tables : List (List Structure)) → Compiled tables tab.now
            → Summed (self.compared + compared_coded tables self.table (drop self.at (bits_in s.now))) result }
    {
        let t = self.table - 1;
        let left = s.len() * 8 - self.at;
        let w = bits::window(s, self.at);
        let (first, place) = find(tab, t, w, left)?;
        if first.to == 0 {
            return value_of(first, place, w, left, self);
        }
        match self.follow(s, tab, 64, first, place) {
            ControlFlow::Break(r) => r,
            ControlFlow::Continue(d) => d.by_bursts(s, tab),
        }
    }

    // The next value of a stream without tables: two signed bytes.
    fn plain(self, s: &[u8]) -> Option<(usize, Cursor)>
        requires { (length s.now ≤ 1048576) × Within (length s.now * 8) self }
        ensures told { told (bits_in s.now) result ≡ read_plain self.table (drop self.at (bits_in s.now)) }
        ensures onward { Onward self.at (length s.now * 8) result }
        ensures summed { Summed self.compared result }
    {
        if s.len() * 8 - self.at < 16 {
            return None;
        }
        let w = bits::window(s, self.at);
        let n = bits::top(w, 8) as usize + bits::after(w, 8, 8) as usize * 256;
        let at = self.at + 16;
        Some((raised(n, bits::SAMPLE_ZERO), Cursor { at, ..self }))
    }

    // The next value of a stream, 131,072 added, and the moved cursor; none where the bits match no code or run out. It is read by the
    // tables held, or, where none are (no Section 2), in two signed bytes.
    pub fn value(self, s: &[u8], tab: &[u32]) -> Option<(usize, Cursor)>
        requires { CompiledSomeOrNone tab.now × (length s.now ≤ 1048576) × Within (length s.now * 8) self }
        ensures told { (tables : List (List Structure)) → CompiledOrNone tables tab.now
            → told (bits_in s.now) result ≡ read_next tables self.table (drop self.at (bits_in s.now)) }
        ensures onward { Onward self.at (length s.now * 8) result }
        ensures summed { (tables : List (List Structure)) → CompiledOrNone tables tab.now
            → Summed (self.compared + compared_next tables self.table (drop self.at (bits_in s.now))) result }
    {
        if tab.is_empty() {
            self.plain(s)
        } else {
            self.coded(s, tab)
        }
    }
}
