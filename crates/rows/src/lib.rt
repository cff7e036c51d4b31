// The rows of a month's table, one for each class.
#![tactic(auto)]

ghost use Rattle.std.specs.Prelude.{◌≡◌, cond, min, max, ◌≤◌, ◌<◌, eqb, length};
ghost use Rattle.rows.specs.Rows.{with_map, row_in, any_over};
ghost use Rattle.rows.specs.Growing.{put_row, grow_rows, Fits, AllFit};

// The least number of pixels, with a map more that has n. The first map sets it: the contract is about that, and so this and the next are no plain `min` and `max`.
fn least(first: bool, old: u64, n: u64) -> u64
    ensures { result ≡ cond first n (min old n) }
{
    if first { n } else { old.min(n) }
}

fn greatest(first: bool, old: u64, n: u64) -> u64
    ensures { result ≡ cond first n (max old n) }
{
    if first { n } else { old.max(n) }
}

// A map more in the row of class k, of which it has n pixels.
fn add_row(table: &mut [u64], k: usize, first: bool, n: u64)
    requires { (1030 ≤ length table.old) × (k < 256) × (n ≤ 16777216) × Fits (row_in table.old k) }
    ensures { table.new ≡ put_row k (with_map first n (row_in table.old k)) table.old }
{
    let at = 6 + 4 * k;
    table[at] = least(first, table[at], n);
    table[at + 1] = greatest(first, table[at + 1], n);
    table[at + 2] += n;
    table[at + 3] += u64::from(n != 0);
}

// A map more in the rows of all classes, by its pixels of each.
pub fn add_rows(table: &mut [u64], counts: &[u32; 256], first: bool)
    requires { AllFit counts.now table.old }
    ensures { table.new ≡ grow_rows first counts.now table.old }
{
    for (k, n) in counts.iter().enumerate() {
        add_row(table, k, first, u64::from(*n));
    }
}

// Whether some class has a sum over `most`, or more than so many maps.
pub fn any_over(most: u64, maps: u64, table: &[u64]) -> bool
    requires { 1030 ≤ length table.now }
    ensures { result ≡ any_over most maps table.now }
{
    for row in table[6..1030].chunks_exact(4) {
        if most < row[2] || maps < row[3] {
            return true;
        }
    }
    false
}
