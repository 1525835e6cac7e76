//! Marks of cells that have to be computed: a bit for each place of the netlist's order.
ghost use Rattle.std.specs.Prelude.{◌≡◌, ℕ, ◌*◌, ◌≤◌, ◌<◌, ◌^◌, length};
ghost use Rattle.std.specs.List.{All, Contains};
ghost use Rattle.cycle_sim.specs.Marks.{mark_at};

/// Marks a place.
fn mark(marks: &mut Vec<u64>, place: usize)
    requires { place < 64 * length marks.old.items }
    ensures long { length marks.new.items ≡ length marks.old.items }
    ensures here { mark_at marks.new.items place ≡ 1 }
    ensures others { (k : ℕ) → ¬ (k ≡ place) → mark_at marks.new.items k ≡ mark_at marks.old.items k }
{
    marks[place / 64] |= 1 << (place % 64);
}

/// Marks places.
pub(crate) fn mark_all(marks: &mut Vec<u64>, places: &[usize])
    requires { All (λ k. k < 64 * length marks.old.items) places.now }
    ensures long { length marks.new.items ≡ length marks.old.items }
    ensures marked { (k : ℕ) → Contains places.now k → mark_at marks.new.items k ≡ 1 }
    ensures others { (k : ℕ) → ¬ Contains places.now k → mark_at marks.new.items k ≡ mark_at marks.old.items k }
{
    for place in places {
        mark(marks, *place);
    }
}

/// Takes the mark from a place.
pub(crate) fn unmark(marks: &mut Vec<u64>, place: usize)
    requires { place < 64 * length marks.old.items }
    ensures long { length marks.new.items ≡ length marks.old.items }
    ensures here { mark_at marks.new.items place ≡ 0 }
    ensures others { (k : ℕ) → ¬ (k ≡ place) → mark_at marks.new.items k ≡ mark_at marks.old.items k }
{
    marks[place / 64] &= !(1 << (place % 64));
}

/// The first marked place in the words from this one on, or one past all words.
fn first_marked(marks: &[u64], word: usize) -> usize
    requires inside { word ≤ length marks.now }
    requires small { 64 * length marks.now < 2 ^ 64 }
    ensures range { (64 * word ≤ result) × (result ≤ 64 * length marks.now) }
    ensures between { (k : ℕ) → 64 * word ≤ k → k < result → mark_at marks.now k ≡ 0 }
    ensures marked { result < 64 * length marks.now → mark_at marks.now result ≡ 1 }
{
    for at in word..marks.len() {
        if marks[at] != 0 {
            return 64 * at + marks[at].trailing_zeros() as usize;
        }
    }
    64 * marks.len()
}

/// The first marked place from this one on, or one past all words.
pub(crate) fn next_marked(marks: &[u64], from: usize) -> usize
    requires inside { from ≤ 64 * length marks.now }
    requires small { 64 * length marks.now < 2 ^ 64 }
    ensures range { (from ≤ result) × (result ≤ 64 * length marks.now) }
    ensures between { (k : ℕ) → from ≤ k → k < result → mark_at marks.now k ≡ 0 }
    ensures marked { result < 64 * length marks.now → mark_at marks.now result ≡ 1 }
{
    let word = from / 64;
    if word >= marks.len() {
        return from;
    }
    let rest = marks[word] >> (from % 64);
    if rest != 0 {
        return from + rest.trailing_zeros() as usize;
    }
    first_marked(marks, word + 1)
}
