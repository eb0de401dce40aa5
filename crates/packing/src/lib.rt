// Bits packed into bytes, in place (01, Leads and samples): a sink goes by value, with the bits that do not fill a byte yet.
#![tactic(auto)]

ghost use Rattle.std.specs.Prelude.{◌≡◌, List, [], ◌++◌, ℕ, ◌+◌, ◌*◌, ◌/◌, ◌%◌, ◌^◌, ◌<◌, ◌≤◌, length, drop};
ghost use Rattle.bits.specs.Bits.{high_first};
ghost use Rattle.packing.specs.Packing.{packed, bytes_for};

// A place in the output, and the bits before it that do not fill a byte yet.
#[derive(Clone, Copy)]
pub struct Sink {
    pub at: usize,
    pub acc: u64,
    pub part: usize,
    pub ghost open_byte: { part < 8 },
    pub ghost bits_fit: { acc < 2 ^ part },
}

// The eight lowest bits of a number.
fn low_byte(x: u64) -> u8
    ensures { result ≡ x % 256 }
{
    (x % 256) as u8
}

impl Sink {
    ghost use Rattle.packing.specs.InnerSink.{Holds, bits_put};

    // Nothing is written yet.
    pub fn new() -> Self
        ensures { (out : List ℕ) → Holds out result [] }
    {
        Sink {
            at: 0,
            acc: 0,
            part: 0,
        }
    }

    // The n lowest bits of a number are put behind what was written, the most significant first.
    pub fn put(self, out: &mut [u8], word: usize, n: usize) -> Self
        requires { (n ≤ 32) × (word < 2 ^ n) × ((bits_put self + n) / 8 ≤ length out.old) }
        ensures { ((bs : List ℕ) → Holds out.old self bs → Holds out.new result (bs ++ high_first n word))
            × (length out.new ≡ length out.old)
            × (drop result.at out.new ≡ drop result.at out.old)
            × (bits_put result ≡ bits_put self + n) }
    {
        let mut at = self.at;
        let mut part = self.part + n;
        let acc = (self.acc << n) + word as u64;
        while 8 <= part {
            part -= 8;
            out[at] = low_byte(acc >> part);
            at += 1;
        }
        Sink {
            at,
            acc: acc % (1 << part),
            part,
        }
    }

    // The last byte is filled up with 0; answered is how many bytes were written.
    pub fn end(self, out: &mut [u8]) -> usize
        requires { bytes_for (bits_put self) ≤ length out.old }
        ensures { ((bs : List ℕ) → Holds out.old self bs
            → out.new ≡ packed bs ++ drop (length (packed bs)) out.old)
            × (result ≡ bytes_for (bits_put self)) }
    {
        let at = self.at;
        if self.part == 0 {
            return at;
        }
        out[at] = low_byte(self.acc << (8 - self.part));
        at + 1
    }
}
