// The search for the shortest stream (the third demand; 01, Refusal numbers 15 and 16): from the last sample to the first, what the
// values from there on cost from each table on, and the structure with which the best stream begins.
#![tactic(auto)]

ghost use Rattle.std.specs.Prelude.{◌≡◌, true, false, List, ◌⊎◌, ℕ, suc, ◌+◌, ◌-◌, ◌*◌, ◌<◌, ◌≤◌, ℤ, length, get_or, IfSome};
ghost use Rattle.std.specs.Option.{SomeIff};
ghost use Rattle.bits.specs.InnerRaised.{value_zero, from_zero};
ghost use Rattle.samples.specs.Differences.{differences};
ghost use Rattle.tables.specs.declared.Structure.{Structure};
ghost use Rattle.tables.specs.Structures.{structure_right};
ghost use Rattle.compiled.specs.InnerForm.{room_numbers, form_of, Compiled};
ghost use Rattle.paths.specs.InnerPaths.{gives, join as join_of, Exact};
ghost use Rattle.shortest.specs.InnerRule.{kind_of, structure_of, rule};
ghost use Rattle.search.specs.InnerSearch.{CompiledCount, cap, Planned, count_of, form_in, bits_of, rank_in, Small, NoSwitch, Place, at, leap_of, Served, IsNearest, Known, ValuedTo, LeastOf, Settled, Smaller, Picked, PickedFrom, Layer, NineCosts};

use compiled::Form;

// The bits of 65,535 bytes, the most that a stream may have; one more, where costs stop; and a number that says that there is no
// stream. These are costs: the search takes the least of them, whether there is a stream or not.
pub const MOST_BITS: usize = 524280;

pub const TOO_LONG: usize = 524281;

pub const NO_STREAM: usize = 524282;

// No structure. The marks lent for the plan have a byte for each sample and table.
const NONE: usize = 64;

// Room for what is known of the values from -128 to 127: 256 places for each of up to eight tables, each with a structure or `NONE`. Only
// `place_of` knows that order, so that a row for each table would make nothing plainer.
const PLACES: usize = 2048;

// The cost of a code of `bits` bits, where what is left costs a.
fn join(bits: usize, a: usize) -> usize
    requires { bits ≤ 48 }
    ensures { result ≡ join_of cap bits a }
{
    if TOO_LONG < a {
        return NO_STREAM;
    }
    (bits + a).min(TOO_LONG)
}

// A structure's form has a code for the value, 131,072 added.
fn serves(f: Form, v: usize) -> bool
    ensures { (n : ℕ) (c : Structure) → structure_right n c ≡ true → c.base < 65536 → form_of c ≡ f
        → (result ≡ true → kind_of c (from_zero value_zero v) ≡ gives) × (result ≡ false → kind_of c (from_zero value_zero v) ≡ gives → ⊥) }
{
    f.to == 0 && f.lo <= v && v < f.hi
}

// Table t of the code tables, taken apart: it may be one of eight, and the forms of its structures are small.
#[derive(Clone, Copy)]
struct Table<'a> {
    numbers: &'a [u32],
    t: usize,
    ghost room: { length numbers.now ≡ room_numbers },
    ghost one_of_eight: { (1 ≤ t) × (t ≤ 8) },
    ghost few: { count_of numbers.now t ≤ 64 },
    ghost small: { (k : ℕ) → k < count_of numbers.now t → Small (form_in numbers.now t k) },
}

impl<'a> Table<'a> {
    // How many structures it has.
    fn count(self) -> usize
        ensures { (result ≡ count_of self.entry.numbers.now self.entry.t) × (result ≤ 64) }
    {
        self.numbers[(self.t - 1) * compiled::TABLE] as usize
    }

    // The form of structure k.
    fn form(self, k: usize) -> Form
        requires { k < count_of self.numbers.now self.t }
        ensures { (result ≡ form_in self.entry.numbers.now self.entry.t k) × Small result }
    {
        compiled::form_at(self.numbers, self.t - 1, k)
    }

    // The bits of a code of structure k.
    fn bits(self, k: usize) -> usize
        requires { k < count_of self.numbers.now self.t }
        ensures { (result ≡ bits_of self.entry.numbers.now self.entry.t k) × (result ≤ 48) }
    {
        let f = self.form(k);
        f.prefix + f.remainder
    }

    // The place of a word among those of the table.
    fn rank(self, k: usize) -> usize
        requires { k < count_of self.numbers.now self.t }
        ensures { result ≡ rank_in self.entry.numbers.now self.entry.t k }
    {
        let f = self.form(k);
        f.word * bits::power(32 - f.prefix)
    }

    // The structure with the smaller word: k, or `best`, which may be none.
    fn smaller(self, k: usize, best: usize) -> usize
        requires { (k < count_of self.numbers.now self.t) × Place self.numbers.now self.t best }
        ensures { Smaller self.entry.numbers.now self.entry.t k best result }
    {
        if best == NONE || self.rank(k) < self.rank(best) {
            k
        } else {
            best
        }
    }

    // Structure k, which serves the value, against the nearest of those before it.
    fn nearer(self, k: usize, best: usize) -> usize
        requires { (k < count_of self.numbers.now self.t) × Place self.numbers.now self.t best }
        ensures { ((tables : List (List Structure)) (x : ℕ) → Compiled tables self.entry.numbers.now
            → kind_of (structure_of tables self.entry.t k) (from_zero value_zero x) ≡ gives → Served tables x self.entry.t k best
            → Served tables x self.entry.t (k + 1) result)
            × Place self.entry.numbers.now self.entry.t result }
    {
        if best == NONE {
            return k;
        }
        let a = self.bits(k);
        let b = self.bits(best);
        if a < b {
            return k;
        }
        if b < a {
            return best;
        }
        self.smaller(k, best)
    }

    // The structure that serves the value, 131,072 added, with the shortest code, and of those the smallest; or `NONE`.
    fn nearest(self, v: usize) -> usize
        ensures { IsNearest self.entry.numbers.now self.entry.t v result }
    {
        let mut best = NONE;
        for k in 0..self.count() {
            if serves(self.form(k), v) {
                best = self.nearer(k, best);
            }
        }
        best
    }

    // Where it is known what structure is a value's, if it is one from -128 to 127. By two comparisons: this is asked for every sample
    // and table, and `contains` goes by an order.
    fn place_of(self, v: usize) -> Option<usize>
        ensures { SomeIff result ((130944 ≤ v) × (v < 131200)) ((self.entry.t - 1) * 256 + (v - 130944)) }
    {
        if 130944 <= v && v < 131200 {
            Some((self.t - 1) * 256 + (v - 130944))
        } else {
            None
        }
    }

    // The structure that is known for the value, or `NONE`, without looking for it.
    fn recall(self, v: usize, known: &[u8; PLACES]) -> Option<usize>
        ensures { Known self.entry.numbers.now known.now → IfSome result (λ k. IsNearest self.entry.numbers.now self.entry.t v k) }
    {
        let k = known[self.place_of(v)?];
        if usize::from(k) <= NONE {
            Some(usize::from(k))
        } else {
            None
        }
    }

    // The value's structure, looked for, and known from then on if the value is one from -128 to 127. Apart from `recall`, so that what
    // is done once for a value stays out of the way of what is done for every sample.
    fn learn(self, v: usize, known: &mut [u8; PLACES]) -> usize
        requires { Known self.numbers.now known.old }
        ensures { IsNearest self.entry.numbers.now self.entry.t v result × Known self.entry.numbers.now known.new }
    {
        let k = self.nearest(v);
        if let Some(place) = self.place_of(v) {
            known[place] = k as u8;
        }
        k
    }

    // The cost of structure k for the value, where what is left costs a.
    fn value_cost(self, k: usize, a: usize) -> usize
        requires { Place self.numbers.now self.t k }
        ensures { (k ≡ 64 → result ≡ suc cap) × (k < 64 → result ≡ join_of cap (bits_of self.entry.numbers.now self.entry.t k) a)
            × (result ≤ suc cap) }
    {
        if k == NONE {
            return NO_STREAM;
        }
        join(self.bits(k), a)
    }

    // The cost of structure k as a switch.
    fn leap(self, k: usize, cur: &[usize; 9]) -> usize
        requires { k < count_of self.numbers.now self.t }
        ensures { result ≡ leap_of self.entry.numbers.now cur.now self.entry.t k }
    {
        let f = self.form(k);
        if f.to == 0 {
            return NO_STREAM;
        }
        join(f.prefix + f.remainder, cur[f.to])
    }

    // The least that a switch costs.
    fn relax(self, cur: &[usize; 9]) -> usize
        ensures { LeastOf (leap_of self.entry.numbers.now cur.now self.entry.t) (count_of self.entry.numbers.now self.entry.t) result }
    {
        let mut least = NO_STREAM;
        for k in 0..self.count() {
            least = least.min(self.leap(k, cur));
        }
        least
    }

    // The structure with the smallest word, among `start`, or none, and the switches that cost what the table does.
    fn choose(self, start: usize, cur: &[usize; 9]) -> usize
        requires { Place self.numbers.now self.t start }
        ensures { Picked self.entry.numbers.now cur.now self.entry.t start (count_of self.entry.numbers.now self.entry.t) result }
    {
        let mut best = start;
        for k in 0..self.count() {
            if self.leap(k, cur) == cur[self.t] {
                best = self.smaller(k, best);
            }
        }
        best
    }

    // The structure with which the table's best stream begins, where the value's is `near`.
    fn pick(self, near: usize, first: &[usize; 9], cur: &[usize; 9]) -> usize
        requires { Place self.numbers.now self.t near }
        ensures { PickedFrom self.entry.numbers.now first.now cur.now self.entry.t near result }
    {
        if first[self.t] == cur[self.t] {
            return self.choose(near, cur);
        }
        self.choose(NONE, cur)
    }

    // Whether it has a switch.
    fn switches(self) -> bool
        ensures { result ≡ false → (k : ℕ) → k < count_of self.entry.numbers.now self.entry.t
            → (form_in self.entry.numbers.now self.entry.t k).to ≡ 0 }
    {
        (0..self.count()).any(|k| self.form(k).to != 0)
    }
}

// Nothing is known yet of the structures of the values from -128 to 127: 255, a byte above every structure and `NONE`.
fn unknown() -> [u8; PLACES]
    ensures { (tab : List ℕ) → Known tab result }
{
    [255; PLACES]
}

// The value's structure of each of the n tables goes to the marks; what it costs is given back. The numbers and n go beside each other,
// here and below: a struct of the two cannot keep `CompiledCount`, which names the tables, since a ghost field holds a proposition.
fn values(
    tab: &[u32],
    n: usize,
    v: usize,
    next: &[usize; 9],
    known: &mut [u8; PLACES],
    marks: &mut [u8],
) -> [usize; 9]
    requires { CompiledCount tab.now n × Known tab.now known.old × (length marks.old ≡ n) }
    ensures { ((tables : List (List Structure)) → Compiled tables tab.now
        → ValuedTo tables next.now v marks.new result (n + 1))
        × NineCosts result × Known tab.now known.new }
{
    let mut cur = [NO_STREAM; 9];
    for t in 1..n + 1 {
        let table = Table { numbers: tab, t };
        let k = match table.recall(v, known) {
            Some(k) => k,
            None => table.learn(v, known),
        };
        cur[t] = table.value_cost(k, next[t]);
        marks[t - 1] = k as u8;
    }
    cur
}

// The table after t, round the n tables.
fn following(t: usize, n: usize) -> usize
    requires { (1 ≤ t) × (t ≤ n) × (n ≤ 8) }
    ensures { (((t < n) × (result ≡ t + 1)) ⊎ ((t ≡ n) × (result ≡ 1))) × (1 ≤ result) × (result ≤ n) }
{
    if t < n { t + 1 } else { 1 }
}

// Switches make costs smaller, in rounds, until n tables in a row do not change. After m rounds every table is settled whose cheapest
// way has m switches, and a cheapest way visits no table twice: so n rounds are enough, the last of them to see it.
fn settle(tab: &[u32], n: usize, first: [usize; 9]) -> [usize; 9]
    requires { CompiledCount tab.now n × (length first ≡ 9) }
    ensures { Settled tab.now n first result }
{
    let mut cur = first;
    let mut t = 1;
    let mut quiet = 0usize;
    while quiet < n {
        let here = t;
        let r = Table {
            numbers: tab,
            t: here,
        }
        .relax(&cur);
        t = following(here, n);
        if r < cur[here] {
            cur[here] = r;
            quiet = 0;
        } else {
            quiet += 1;
        }
    }
    cur
}

// Among the marks of the n tables, the value's structures, those of the settled costs.
fn mark(tab: &[u32], n: usize, first: &[usize; 9], cur: &[usize; 9], marks: &mut [u8])
    requires { CompiledCount tab.now n × (length marks.old ≡ n) × ((t : ℕ) → 1 ≤ t → t ≤ n → Place tab.now t (get_or marks.old (t - 1) 0)) }
    ensures { (t : ℕ) → 1 ≤ t → t ≤ n → PickedFrom tab.now first.now cur.now t
        (get_or marks.old (t - 1) 0) (get_or marks.new (t - 1) 0) }
{
    for t in 1..n + 1 {
        let table = Table { numbers: tab, t };
        marks[t - 1] = table.pick(usize::from(marks[t - 1]), first, cur) as u8;
    }
}

// Whether any of the n tables has a switch. A loop, since a closure over the numbers of the tables does not know that they are of one
// to n.
fn has_switch(tab: &[u32], n: usize) -> bool
    requires { CompiledCount tab.now n }
    ensures { result ≡ false → NoSwitch tab.now n }
{
    for t in 1..n + 1 {
        let table = Table { numbers: tab, t };
        if table.switches() {
            return true;
        }
    }
    false
}

// The costs from a value on, from those behind it, and the marks of its n tables. Without switches the value's structures are all.
fn layer(
    tab: &[u32],
    n: usize,
    v: usize,
    any: bool,
    next: &[usize; 9],
    known: &mut [u8; PLACES],
    marks: &mut [u8],
) -> [usize; 9]
    requires { CompiledCount tab.now n × Known tab.now known.old × (length marks.old ≡ n) × (any ≡ false → NoSwitch tab.now n) }
    ensures { ((tables : List (List Structure)) (vs : List ℤ) → Compiled tables tab.now → length tables ≡ n
        → Exact (rule tables) cap vs (at next.now) → Layer tables (from_zero value_zero v) vs result marks.new)
        × NineCosts result × Known tab.now known.new }
{
    let first = values(tab, n, v, next, known, marks);
    if any {
        let cur = settle(tab, n, first);
        mark(tab, n, &first, &cur, marks);
        return cur;
    }
    first
}

// The search, a layer for each value.
fn all_layers(tab: &[u32], n: usize, any: bool, xs: &[i16], order: usize, work: &mut [u8]) -> usize
    requires { CompiledCount tab.now n × (any ≡ false → NoSwitch tab.now n) × (length xs.now * n ≤ length work.old) }
    ensures { ((tables : List (List Structure)) → Compiled tables tab.now → length tables ≡ n
        → Planned tables (differences order xs.now) work.new result) × (result ≤ 524282) }
{
    let mut known = unknown();
    let mut next = [0usize; 9];
    for i in (0..xs.len()).rev() {
        let v = samples::value_at(xs, order, i);
        let from = i * n;
        let to = from + n;
        next = layer(tab, n, v, any, &next, &mut known, &mut work[from..to]);
    }
    next[1]
}

// The search where there is one table, and no switch: each value's structure is its first step, and their bits add up. Apart from
// `all_layers`, since one cost goes from sample to sample here, and nine there.
fn one_table(tab: &[u32], xs: &[i16], order: usize, work: &mut [u8]) -> usize
    requires { CompiledCount tab.now 1 × NoSwitch tab.now 1 × (length xs.now ≤ length work.old) }
    ensures { ((tables : List (List Structure)) → Compiled tables tab.now → length tables ≡ 1
        → Planned tables (differences order xs.now) work.new result) × (result ≤ 524282) }
{
    let table = Table { numbers: tab, t: 1 };
    let mut known = unknown();
    let mut cost = 0usize;
    for i in (0..xs.len()).rev() {
        let v = samples::value_at(xs, order, i);
        let k = match table.recall(v, &known) {
            Some(k) => k,
            None => table.learn(v, &mut known),
        };
        cost = table.value_cost(k, cost);
        work[i] = k as u8;
    }
    cost
}

// The bits of the shortest stream for the samples' differences: 524,281 means that many and more, 524,282 no stream. The first steps
// of the best streams go to the work space, a byte for each sample and table.
pub fn plan(tab: &[u32], n: usize, xs: &[i16], order: usize, work: &mut [u8]) -> usize
    requires { CompiledCount tab.now n × (length xs.now ≤ 65536) × (length xs.now * n ≤ length work.old) }
    ensures { ((tables : List (List Structure)) → Compiled tables tab.now → length tables ≡ n
        → Planned tables (differences order xs.now) work.new result)
        × (length work.new ≡ length work.old) × (result ≤ 524282) }
{
    let any = has_switch(tab, n);
    if n == 1 && !any {
        return one_table(tab, xs, order, work);
    }
    all_layers(tab, n, any, xs, order, work)
}
