ghost use Rattle.fst_module_grammar.specs.Derives.{OneModule};

/// A list of tokens is at most one module, and a text has at most one answer.
pub fn one_module()
    ensures { OneModule }
{}
