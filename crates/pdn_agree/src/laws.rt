//! What is equal in two unions that agree for a site.
ghost use Rattle.pdn_agree.specs.EqualShapes.{ShapesLaw};
ghost use Rattle.pdn_agree.specs.OwnWords.{OwnWordsLaw};

/// Whatever the query: in two unions that agree for a site the directories of each segment are equal,
/// and so are the units that the root takes, and the units that are compiled with their kinds, values,
/// lengths and circuits, or the first limit that is passed.
pub fn agreeing_unions_have_equal_shapes()
    ensures { ShapesLaw }
{}

/// In two unions that agree for a site it puts the same words into each secure unit and into the root.
pub fn agreeing_unions_have_equal_own_words()
    ensures { OwnWordsLaw }
{}
