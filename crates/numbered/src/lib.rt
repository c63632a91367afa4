//! Tables of rows that have a number: finding, adding and removing by it, with the order kept.
//! A table is a slice and a count: its first `count` places are in use. A count past the end of
//! the slice means that every place is.
#![tactic(auto)]

ghost use Rattle.std.specs.Prelude.{◌≡◌, ℕ, ◌-◌, ◌<◌, ◌≤◌, ◌++◌, length, take, drop, IfSome, OnErr, ◌==◌, nat_lt};
ghost use Rattle.numbered.specs.Rows.{Rises, place_of, row_of, without, before};
ghost use Rattle.numbered.specs.Answers.{insertion, after_insertion, KeptIfNone, PutLaws, WithoutLaws};

/// What has a number.
pub trait Numbered {
    ghost label: { Self → ℕ };

    fn number(&self) -> u32
        ensures { result ≡ label self.now };
}

/// Why a row was not added; nothing is altered then.
#[derive(Clone, Copy, Debug, PartialEq, Eq)]
pub enum NotAdded {
    /// A row of that number was there already.
    Taken,
    /// Every place is in use.
    Full,
}

fn is_numbered<T: Numbered>(row: &T, n: u32) -> bool
    ensures { result ≡ (T.label row.now == n) }
{
    row.number() == n
}

fn is_below<T: Numbered>(row: &T, n: u32) -> bool
    ensures { result ≡ nat_lt (T.label row.now) n }
{
    row.number() < n
}

/// The last row comes first, the others one place later.
fn last_to_front<T: Copy>(rows: &mut [T])
    requires { 0 < length rows.old }
    ensures { rows.new ≡ drop (length rows.old - 1) rows.old ++ take (length rows.old - 1) rows.old }
{
    rows.rotate_right(1);
}

/// The first row comes last, the others one place earlier.
fn front_to_last<T: Copy>(rows: &mut [T])
    requires { 0 < length rows.old }
    ensures { rows.new ≡ drop 1 rows.old ++ take 1 rows.old }
{
    rows.rotate_left(1);
}

/// The place of the first row numbered `n`.
pub fn find<T: Numbered>(rows: &[T], n: u32) -> Option<usize>
    ensures is { result ≡ place_of T.label n rows.now }
    ensures within { IfSome result (λ i. i < length rows.now) }
{
    for (i, row) in rows.iter().enumerate() {
        if is_numbered(row, n) {
            return Some(i);
        }
    }
    None
}

/// How many places of `rows` are in use.
fn in_use<T>(rows: &[T], count: usize) -> usize
    ensures is { result ≡ length (take count rows.now) }
    ensures within { result ≤ length rows.now }
{
    if count < rows.len() {
        count
    } else {
        rows.len()
    }
}

/// How many rows at the front have a number below `n`.
fn rank<T: Numbered>(rows: &[T], n: u32) -> usize
    ensures is { result ≡ before T.label n rows.now }
    ensures within { result ≤ length rows.now }
{
    for (i, row) in rows.iter().enumerate() {
        if !is_below(row, n) {
            return i;
        }
    }
    rows.len()
}

/// Adds `row` in its place among the first `count` rows.
pub fn insert<T: Numbered + Copy>(rows: &mut [T], count: &mut usize, row: T) -> Result<(), NotAdded>
    ensures is { result ≡ insertion T.label row (length rows.old) (take count.old rows.old) }
    ensures after { take count.new rows.new ≡ after_insertion T.label row (take count.old rows.old) result }
    ensures within { count.old ≤ length rows.old → count.new ≤ length rows.old }
    ensures rises { Rises T.label (take count.old rows.old) → Rises T.label (take count.new rows.new) }
    ensures refused { OnErr result ((rows.new ≡ rows.old) × (count.new ≡ count.old)) }
    ensures law { PutLaws T.label row (take count.old rows.old) }
{
    let n = row.number();
    let used = in_use(rows, *count);
    if find(&rows[0..used], n).is_some() {
        return Err(NotAdded::Taken);
    }
    if used == rows.len() {
        return Err(NotAdded::Full);
    }
    let at = rank(&rows[0..used], n);
    rows[used] = row;
    last_to_front(&mut rows[at..used + 1]);
    *count = used + 1;
    Ok(())
}

/// Takes the row numbered `n` out of the first `count` rows, and answers it; the later rows move up.
pub fn remove<T: Numbered + Copy>(rows: &mut [T], count: &mut usize, n: u32) -> Option<T>
    ensures is { result ≡ row_of T.label n (take count.old rows.old) }
    ensures after { take count.new rows.new ≡ without T.label n (take count.old rows.old) }
    ensures within { count.old ≤ length rows.old → count.new ≤ length rows.old }
    ensures rises { Rises T.label (take count.old rows.old) → Rises T.label (take count.new rows.new) }
    ensures refused { KeptIfNone result ((rows.new ≡ rows.old) × (count.new ≡ count.old)) }
    ensures law { WithoutLaws T.label n (take count.old rows.old) }
{
    let used = in_use(rows, *count);
    let at = find(&rows[0..used], n)?;
    let row = rows[at];
    front_to_last(&mut rows[at..used]);
    *count = used - 1;
    Some(row)
}
