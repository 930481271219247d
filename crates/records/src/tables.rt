// Rows of a table, and the movers between two tables.
ghost use Rattle.std.specs.Prelude.{◌≡◌, ◌+◌, ◌*◌, ◌<◌, ◌≤◌, length, MatchOption};
ghost use Rattle.records.specs.Tables.{row_size, table_row, rows_differ, WholeTables};

// The old and the new table of a network: a row for each switch, and in it an entry for each flow.
#[derive(Clone, Copy, Debug, PartialEq, Eq, Hash)]
pub struct Tables<'a> {
    pub old: &'a [u8],
    pub new: &'a [u8],
    pub switches: u8,
    pub flows: u8,
    ghost whole: { WholeTables switches flows old.now new.now },
}

// Row s of a table for so many flows.
fn row(table: &[u8], flows: u8, s: u8) -> &[u8]
    requires { s * row_size flows + row_size flows ≤ length table.now }
    ensures { result.now ≡ table_row flows table.now s }
{
    let size = usize::from(flows);
    let from = usize::from(s) * size;
    &table[from..from + size]
}

impl<'a> Tables<'a> {
    ghost use Rattle.records.specs.Between.{MoversBetween};

    // Two tables with rows for n switches and f flows. None where there are more switches than a set can have, or a table is shorter than that.
    pub fn new(old: &'a [u8], new: &'a [u8], n: u8, f: u8) -> Option<Tables<'a>>
        ensures { MatchOption result (WholeTables n f old.now new.now → ⊥) (λ t. (t.old.now ≡ old.now) × (t.new.now ≡ new.now) × (t.switches ≡ n) × (t.flows ≡ f)) }
    {
        let size = usize::from(n) * usize::from(f);
        if n > sets::WIDTH || old.len() < size || new.len() < size {
            return None;
        }
        Some(Tables {
            old,
            new,
            switches: n,
            flows: f,
        })
    }

    // Whether the two rows of switch s differ.
    fn moves(&self, s: u8) -> bool
        requires { s < self.now.switches }
        ensures { result ≡ rows_differ self.now.flows self.now.old.now self.now.new.now s }
    {
        row(self.old, self.flows, s) != row(self.new, self.flows, s)
    }

    // The set of the switches whose rows differ.
    pub fn movers(&self) -> u64
        ensures { MoversBetween self.now result }
    {
        // A loop, since no proof closed for `filter` and `fold`, nor for `fold` with the `if` in it: what they return stays open.
        let mut set = 0;
        for s in 0..self.switches {
            if self.moves(s) {
                set = sets::with(set, s);
            }
        }
        set
    }
}
