//! Unions of rows.
ghost use Rattle.std.specs.Prelude.{ℕ, ◌≡◌, ◌≤◌, ◌<◌, ◌^◌, ◌||◌, ◌&&◌, not, length};
ghost use Rattle.std.specs.List.{list_all, range_with_len};
ghost use Rattle.sv_mask.specs.Sets.{has};
ghost use Rattle.sv_expand.specs.Rows.{in_rows};

/// The union of the rows of a set's members.
pub(crate) fn union_of_rows(set: u32, rows: &[u64]) -> u64
    requires { length rows.now ≤ 32 }
    ensures { (k : ℕ) → has result k ≡ in_rows set rows.now k }
{
    let mut all = 0;
    for (member, row) in rows.iter().enumerate() {
        all = with_flag(all, (set >> member) & 1 == 1, *row);
    }
    all
}

/// A set, with the members of another where a flag is given.
pub(crate) fn with_flag(set: u64, flag: bool, more: u64) -> u64
    ensures { (k : ℕ) → has result k ≡ (has set k || (flag && has more k)) }
{
    if flag { set | more } else { set }
}

/// Whether each member of the other set is in the set.
pub(crate) fn holds(set: u64, other: u64) -> bool
    ensures { (n : ℕ) → other < 2 ^ n
        → result ≡ list_all (λ k. not (has other k) || has set k) (range_with_len 0 n) }
{
    set & other == other
}
