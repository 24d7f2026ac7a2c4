//! What holds of spellings. Each function does nothing: its contract is the law.
ghost use Rattle.js_tree.specs.SpellingLaws.{TextIsSpelled, SpelledHasSpelling, PlacesHaveNoSay};

/// The canonical text of a tree that has a spelling is a spelling of that tree, with the places of this text.
pub fn text_is_spelled()
    ensures { TextIsSpelled }
{}

/// A tree that bytes spell has a spelling.
pub fn spelled_has_spelling()
    ensures { SpelledHasSpelling }
{}

/// Trees that differ in their places alone have the same canonical text.
pub fn places_have_no_say()
    ensures { PlacesHaveNoSay }
{}
