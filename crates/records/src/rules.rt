// Counts, masks and rows.
ghost use Rattle.std.specs.Prelude.{◌≡◌, ◌+◌, ◌==◌, length, if◌then◌else◌, Some, None, nat_le};
ghost use Rattle.records.specs.Masks.{mask_at, in_range as within_of, mask_fits, links_fit};
ghost use Rattle.records.specs.Tables.{row_fits, hop_fits};

// What a row has in place of a next hop.
const NO_HOP: u8 = 255;

// Whether a count is from 1 to most.
pub fn within(most: u8, count: u8) -> bool
    ensures { result ≡ within_of most count }
{
    (1..=most).contains(&count)
}

// The mask at a place of a sheet, or none where its eight bytes are not all there.
pub fn mask_at(sheet: &[u8], place: usize) -> Option<u64>
    ensures { result ≡ (if nat_le (place + 8) (length sheet.now) then Some (mask_at sheet.now place) else None) }
{
    let rest = sheet.get(place..)?;
    rest.first_chunk().map(|bytes| u64::from_be_bytes(*bytes))
}

// Whether each switch of the set m is below n: as a sheet's test says it, where `sets::below` speaks of members.
#[tactic(auto, using(sets::proofs::Laws::below_ltb))]
pub fn mask_fits(m: u64, n: u8) -> bool
    ensures { result ≡ mask_fits n m }
{
    sets::below(m, n)
}

// Whether switch s of n may have the links m: not to itself, and to none that is not below n.
pub fn links_fit(m: u64, n: u8, s: u8) -> bool
    ensures { result ≡ links_fit n s m }
{
    !sets::has(m, s) && mask_fits(m, n)
}

// The switch that an entry of a row names, if it names one.
fn next_hop(entry: u8) -> Option<u8>
    ensures { result ≡ (if entry == 255 then None else Some entry) }
{
    (entry != NO_HOP).then_some(entry)
}

// Whether an entry at a switch with the links m names no switch, or a linked one.
fn hop_fits(m: u64, entry: u8) -> bool
    ensures { result ≡ hop_fits m entry }
{
    next_hop(entry).is_none_or(|s| sets::has(m, s))
}

// Whether each hop of a row fits.
pub fn row_fits(m: u64, row: &[u8]) -> bool
    ensures { result ≡ row_fits m row.now }
{
    row.iter().all(|&entry| hop_fits(m, entry))
}
