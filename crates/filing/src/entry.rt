// What an entry says of a record.

ghost use Rattle.std.specs.Prelude.{◌<◌, length};

use index::Date;

// Each number fits in the bits that the entry has for it.
#[derive(Clone, Copy)]
pub struct Filed<'a> {
    pub identifier: &'a [u8],
    pub date: Date,
    pub leads: u8,
    ghost identifier_fits: { length identifier.now < 64 },
    ghost month_fits: { date.month < 16 },
    ghost day_fits: { date.day < 32 },
}
