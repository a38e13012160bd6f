// `check_sheet`: is every byte of a sheet what the definitions give? The opening here; the lists, the body and the stations in `checker_rooms`, in room for the body's size.
#![tactic(auto)]

ghost use Rattle.std.specs.Prelude.{◌≡◌, ℕ};
ghost use Rattle.sheet.specs.Checker.{verdict_answer, check_sheet};
ghost use Rattle.sheet.specs.Promises.{Right};

use refusals::Refusal;
use sheet::Accepted;
use sheet_readers::Sheet;

// Checks a sheet: accepted, with the kind and S that stand in its trailer, or refused by the first cause of document 01's order. An accepted sheet is closed, of a
// volume above 0, and in every byte what the definitions give.
pub fn check_sheet(sheet: &[u8]) -> Result<Accepted, Refusal>
    ensures result_value { verdict_answer result ≡ check_sheet sheet.now }
    ensures by_index { (k n : ℕ) → result ≡ Ok (record { kind = k; stations = n }) → Right sheet.now k n }
{
    let opened = Sheet::open(sheet)?;
    checker_rooms::rooms::in_smallest_room(opened)?;
    Ok(Accepted {
        kind: opened.trailer.kind,
        stations: opened.trailer.stations,
    })
}
