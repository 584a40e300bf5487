//! Laws of the spelling. Each function is its contract alone.
ghost use Rattle.gx_record.specs.Laws.{NoSpellingBeginsAnother, SpellingsBegin, SpellingsTell, SpellingsJoin};
ghost use Rattle.gx_record.specs.Laws.{SpellingsHaveSizes, SpellingsAreShort, ImagesAreOfPages};

/// No spelling of a record in range begins another's, so that bytes are whole records in one way only; and whatever a
/// spelling begins has that record at its front. Records are spelled one after the other. How long a spelling is
/// follows from its kind, how many pages or slots it has, and its key: 7 to 12,314 bytes, not counting the key's. What
/// a record calls an image of a page is the image of well-formed contents with that number.
pub fn format()
    ensures no_spelling_begins_another { NoSpellingBeginsAnother }
    ensures spellings_begin { SpellingsBegin }
    ensures spellings_tell { SpellingsTell }
    ensures spellings_join { SpellingsJoin }
    ensures spellings_have_sizes { SpellingsHaveSizes }
    ensures spellings_are_short { SpellingsAreShort }
    ensures images_are_of_pages { ImagesAreOfPages }
{}
