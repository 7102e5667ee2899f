ghost use Rattle.std.specs.Prelude.{◌≡◌, ◌≤◌};
ghost use Rattle.tree_defs.specs.Budgets.{Enough};

/// So many words of derived clauses are enough to refute a miter of two circuits with `n` inputs, which
/// has `v` variables, or to find an input at which they differ.
pub fn enough(n: u32, v: u32) -> u128
    requires { n ≤ 64 }
    ensures { result ≡ Enough n v }
{
    (1_u128 << (n + 1)) * (u128::from(v) + u128::from(n) + 5)
}
