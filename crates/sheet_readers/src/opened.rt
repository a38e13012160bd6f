// A sheet that the causes 16, 1 and 2 do not refuse.
ghost use Rattle.std.specs.Prelude.{◌≡◌, ◌≤◌, Ok, Err, MatchResult};
ghost use Rattle.refusals.specs.Answer.{or_answer};
ghost use Rattle.sheet.specs.Checker.{stations_start, row_start, wrong_length, opening_cause, rows_part, row_part};
ghost use Rattle.sheet_readers.specs.Opened.{Opened};
ghost use Rattle.sheet_readers.specs.Parts.{InTrailer, station_start, station_part, trailer_fields};

use crate::{TrailerFields, pointer_of, rows_length};
use refusals::Refusal;
use sheet::{FACE_LENGTH, STATION_LENGTH, TRAILER_LENGTH, VERTEX_LENGTH};
use sheet_layout::{u32_at, u64_at};

// The bytes, and what stands in their trailer.
#[derive(Clone, Copy)]
pub struct Sheet<'a> {
    pub bytes: &'a [u8],
    pub trailer: TrailerFields,
    pub ghost opened: { Opened bytes.now },
    pub ghost read: { InTrailer bytes.now trailer },
}

// The trailer, or cause 16. The numbers are read last, so that bytes that 16 refuses do not pay for them.
#[inline(always)]
fn whole_trailer(bytes: &[u8]) -> Result<TrailerFields, Refusal>
    ensures { result ≡ or_answer (wrong_length bytes.now) (Ok (trailer_fields bytes.now)) }
{
    let n = bytes.len();
    if n < TRAILER_LENGTH {
        return Err(Refusal::WrongLength);
    }
    let at = n - TRAILER_LENGTH;
    let before = pointer_of(
        u32_at(bytes, at),
        u32_at(bytes, at + 4),
        u32_at(bytes, at + 8),
        u32_at(bytes, at + 12),
    );
    if u64_at(bytes, at + 72) != before as u64 {
        return Err(Refusal::WrongLength);
    }
    if n != before + TRAILER_LENGTH {
        return Err(Refusal::WrongLength);
    }
    Ok(TrailerFields::read(bytes))
}

impl<'a> Sheet<'a> {
    // Or the cause 16, 1 or 2. Inlined, so that who needs the counts alone does not pay for the numbers.
    #[inline(always)]
    pub fn open(bytes: &'a [u8]) -> Result<Self, Refusal>
        ensures { MatchResult result (λ s. (s.bytes.now ≡ bytes.now) × (opening_cause bytes.now ≡ Ok tt)) (λ r. opening_cause bytes.now ≡ Err r) }
    {
        let trailer = whole_trailer(bytes)?;
        let v = trailer.vertices as usize;
        let f = trailer.faces as usize;
        if !sheet_rows::kinds::known_kind(trailer.kind, v, f) {
            return Err(Refusal::Malformed);
        }
        if !sheet_rows::kinds::within_counts(v, f, trailer.stations as usize) {
            return Err(Refusal::TooMany);
        }
        Ok(Sheet { bytes, trailer })
    }

    // Where the stations begin.
    pub fn stations_start(self) -> usize
        ensures { result ≡ stations_start self.entry.bytes.now }
    {
        VERTEX_LENGTH * (self.trailer.vertices as usize)
            + FACE_LENGTH * (self.trailer.faces as usize)
    }

    // Where station i begins.
    pub fn station_start(self, i: u32) -> usize
        ensures { result ≡ station_start self.entry.bytes.now i }
    {
        self.stations_start() + STATION_LENGTH * (i as usize)
    }

    // Where row i begins.
    pub fn row_start(self, i: u32) -> usize
        ensures { result ≡ row_start self.entry.bytes.now i }
    {
        self.station_start(self.trailer.stations) + rows_length(self.trailer.kind, i)
    }

    // Here and below, that 16, 1 and 2 let the bytes pass is asked for: as a fact of the struct it would be asked of the methods before this one too, which need less.
    // Station i; nothing past the last.
    #[tactic(auto, using(crate::proofs::Handed::past_stations, crate::proofs::Handed::station_from))]
    pub fn station(self, i: usize) -> &'a [u8]
        requires { opening_cause self.bytes.now ≡ Ok tt }
        ensures { result.now ≡ station_part self.entry.bytes.now i }
    {
        let count = self.trailer.stations as usize;
        if count <= i {
            return &self.bytes[0..0];
        }
        let start = self.station_start(i as u32);
        let end = start + STATION_LENGTH;
        &self.bytes[start..end]
    }

    // The rows, from the first's first byte to the trailer.
    #[tactic(auto, using(crate::proofs::Opening::rows_from))]
    pub fn rows(self) -> &'a [u8]
        requires { opening_cause self.bytes.now ≡ Ok tt }
        ensures { result.now ≡ rows_part self.entry.bytes.now }
    {
        let start = self.row_start(0);
        let end = self.bytes.len() - TRAILER_LENGTH;
        &self.bytes[start..end]
    }

    // Row i; nothing past the last.
    #[tactic(auto, using(crate::proofs::Opening::past_rows, crate::proofs::Opening::row_from))]
    pub fn row(self, i: usize) -> &'a [u8]
        requires { opening_cause self.bytes.now ≡ Ok tt }
        ensures { result.now ≡ row_part self.entry.bytes.now i }
    {
        if self.trailer.stations as usize <= i {
            return &self.bytes[0..0];
        }
        let start = self.row_start(i as u32);
        let end = start + rows_length(self.trailer.kind, 1);
        &self.bytes[start..end]
    }
}
