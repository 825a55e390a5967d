ghost use Rattle.fst_basis.specs.Basis.{RewriteLaw};

/// Law: words that rewrites of a basis join perform the same traces.
pub fn rewrite_law()
    ensures { RewriteLaw }
{}
