// A handle on a sheet's bytes, which gives row after row, and an iterator over the rows. The handle's own functions only
// take it apart and put it together; the work is done on plain slices and numbers.
#![tactic(auto)]

ghost use Rattle.std.specs.Prelude.{◌≡◌};
ghost use Rattle.std.specs.Iterator.{YieldsFirstRef, item_count};
ghost use Rattle.sheet.specs.Checker.{row_part};
ghost use Rattle.sheet_handle.specs.RowAfterRow.{row_count, next_row_of, part_after, rows_from};

use sheet_readers::Sheet;

// It stands at row `at` of `sheet`.
#[derive(Clone, Copy)]
pub struct Rows<'a> {
    pub sheet: &'a [u8],
    pub at: usize,
}

// The rows from the one at which it stands to the last.
impl<'a> Iterator for Rows<'a> {
    type Item = &'a [u8];

    ghost next_gives = { YieldsFirstRef (λ h. rows_from h.sheet.now h.at) };

    ghost remaining = { item_count (λ h. rows_from h.sheet.now h.at) };

    fn next(&mut self) -> Option<&'a [u8]> {
        if row_count(self.sheet) <= self.at {
            return None;
        }
        let part = sheet_readers::sheet_row(self.sheet, self.at);
        self.at += 1;
        Some(part)
    }
}

// How many rows readers are handed: none where 16, 1 or 2 refuses.
#[tactic(auto, using(crate::specs::Laws::no_count, crate::specs::Laws::counted))]
pub fn row_count(sheet: &[u8]) -> usize
    ensures { result ≡ row_count sheet.now }
{
    match Sheet::open(sheet) {
        Ok(opened) => opened.trailer.stations as usize,
        Err(_) => 0,
    }
}

// The number after `at`; past the last row it stays, so that no number overflows.
pub fn next_row(sheet: &[u8], at: usize) -> usize
    ensures { result ≡ next_row_of sheet.now at }
{
    if at < row_count(sheet) {
        return at + 1;
    }
    at
}

// The handle at the first row.
pub fn new<'a>(sheet: &'a [u8]) -> Rows<'a>
    ensures { (result.sheet ≡ sheet.entry) × (result.at ≡ 0) }
{
    Rows { sheet, at: 0 }
}

// The row at which it stands, as a part of the sheet; nothing past the last, or where 16, 1 or 2
// refuses.
pub fn row<'a>(h: Rows<'a>) -> &'a [u8]
    ensures { result.now ≡ row_part h.entry.sheet.now h.entry.at }
{
    sheet_readers::sheet_row(h.sheet, h.at)
}

// The handle at the next row.
pub fn next<'a>(h: Rows<'a>) -> Rows<'a>
    ensures { (result.sheet ≡ h.entry.sheet) × (result.at ≡ next_row_of h.entry.sheet.now h.entry.at) }
{
    let at = next_row(h.sheet, h.at);
    Rows { sheet: h.sheet, at }
}

// The row at which the handle stands after n moves from the first. Move by move, and not by the iterator's `nth`, whose every move opens the sheet twice, for the count and for
// the row that it passes over, where a move opens it once.
fn row_after(sheet: &[u8], n: usize) -> &[u8]
    ensures { result.now ≡ part_after sheet.now n }
{
    let mut h = new(sheet);
    for _i in 0..n {
        h = next(h);
    }
    row(h)
}

// Row n, by n moves of the handle: for callers that hold no handle. Nothing past the last, or where
// 16, 1 or 2 refuses.
pub fn nth_row(sheet: &[u8], n: usize) -> &[u8]
    ensures { result.now ≡ row_part sheet.now n }
{
    if row_count(sheet) <= n {
        return &sheet[0..0];
    }
    row_after(sheet, n)
}
