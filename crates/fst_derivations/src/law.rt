ghost use Rattle.fst_derivations.specs.Laws.{PlainTypesAreUnique, PlainTypesHaveTexts, PlainIsDerived, DerivedIsShaped, DerivedIsPlain};

/// A term has at most one plain type in a context, and has the same linear variables in all plain derivations.
pub fn plain_types_are_unique()
    ensures { PlainTypesAreUnique }
{}

/// Where the types of a module and of the variables in scope can be written as texts, so can the type of a plain derivation.
pub fn plain_types_have_texts()
    ensures { PlainTypesHaveTexts }
{}

/// A plain derivation is a derivation; and a derivation stays one where types that aren't equal may be turned into one
/// another as well.
pub fn derivations_law()
    ensures plain { PlainIsDerived }
    ensures shaped { DerivedIsShaped }
{}

/// Where equality of types is what it has to be, a term that has a derivation has a plain one, at an equal type and with
/// the same linear variables.
pub fn plain_derivation_law()
    ensures { DerivedIsPlain }
{}
