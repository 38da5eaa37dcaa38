//! Laws of rewritten texts, as functions with nothing to run.

ghost use Rattle.sb_origin_text.specs.Codes.{TextIsMade, RewritingListed};
ghost use Rattle.sb_origin_text.specs.Fetched.{FetchedBytes, SameFetches, CodesAreFetched, TextsGiveCodes};

/// What `rewrite` makes of a text is made by the table of forms, instruction by instruction, with a position for each address.
pub fn text_is_made()
    ensures made { TextIsMade }
    ensures listed { RewritingListed }
{}

/// A code of what is fetched has what bytes spell that stand in the memory. Beside a text and its area the same is fetched from
/// memories that give the same bytes there, where nothing is fetched right before these.
pub fn codes_fetched()
    ensures bytes { FetchedBytes }
    ensures beside { SameFetches }
    ensures codes { CodesAreFetched }
{}

/// Where a rewritten text and its area stand in one memory and the original text in another, their codes are such that the
/// one is made of the other.
pub fn texts_give_codes()
    ensures { TextsGiveCodes }
{}
