ghost use Rattle.ap_exec.specs.WordLaws.{EqualsIsEquality, BeginsIsAFront, EndsIsABack, ContainsIsWithin, SomeIsAnItem, WholeIsRead, LemmaIsRead, HeadIsRead, QueueIsRead, TagsAreRead, AttributeIsRead, WrittenIsRead, OtherSideStays};

/// The law of how the conditions of rules compare words: as lists of symbols, with all letters in
/// lower case first where case doesn't count. It is a statement alone and does nothing.
pub fn words_are_compared()
    ensures equals { EqualsIsEquality }
    ensures begins { BeginsIsAFront }
    ensures ends { EndsIsABack }
    ensures contains { ContainsIsWithin }
    ensures some { SomeIsAnItem }
{}

/// The law of writing to a part of a word with its queue. What was written is read again there: to
/// a whole word, whatever it is; to `lem`, where it has no tag; to `lemh`, where it has neither a
/// queue nor a tag; to a `lemq` that wasn't empty, where it begins with a queue and has no tag; to
/// `tags` that weren't empty, where it is tags; and to an attribute of which an item was found,
/// where each item is one tag and it is one of them. With other values the part is sought anew in
/// the word that came out, and may be found elsewhere, longer or nowhere; an empty `lemq`, `tags` or
/// attribute isn't written to, and is read as nothing. The value stands in the place of what was
/// written over, and nothing outside of it changes; and the border of a target parts it as before.
/// It is a statement alone and does nothing.
pub fn written_parts_are_read()
    ensures whole { WholeIsRead }
    ensures lemma { LemmaIsRead }
    ensures head { HeadIsRead }
    ensures queue { QueueIsRead }
    ensures tags { TagsAreRead }
    ensures attribute { AttributeIsRead }
    ensures stretch { WrittenIsRead }
    ensures other_side { OtherSideStays }
{}
