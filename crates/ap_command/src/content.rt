//! What is kept of files, and how it is taken.
ghost use Rattle.std.specs.Prelude.{◌≡◌, [], ◌∷◌};
ghost use Rattle.ap_dix.specs.Soundness.{IsSound};
ghost use Rattle.ap_command.specs.declared.content.Content.TheVariants.{Entries, Sections, Pairs as KeptPairs, Rules as KeptRules};
ghost use Rattle.ap_command.specs.Reading.{StartsCompiled, StartsPaired, StartsSound, StartsRuled, AreTranslation};

use ap_choose::Forbidden;
use ap_dix::Dictionary;
use ap_fst::Compiled;
use ap_rules::Rules;

/// What is kept of a file.
#[derive(Drop)]
pub(crate) enum Content {
    /// The entries of a dictionary, as they stand.
    Entries(Dictionary),
    /// The sections of a compiled dictionary, as they stand in a file or as they were compiled.
    Sections(Compiled),
    /// The rules of a rule file.
    Rules(Rules),
    /// Forbidden pairs of tags.
    Pairs(Forbidden),
}

/// What is kept of the seven files of a whole translation, in the order of the words.
#[derive(Drop)]
pub(crate) struct Translation {
    pub(crate) analyser: Compiled,
    pub(crate) bilingual: Compiled,
    pub(crate) transfer: Rules,
    pub(crate) interchunk: Rules,
    pub(crate) postchunk: Rules,
    pub(crate) generator: Compiled,
    pub(crate) post_generator: Compiled,
}

/// The compiled file that is kept first.
pub(crate) fn next_compiled(kept: &mut Vec<Content>) -> Compiled
    requires { StartsCompiled kept.old.items }
    ensures { kept.old.items ≡ Sections result ∷ kept.new.items }
{
    match kept.remove(0) {
        Content::Sections(compiled) => compiled,
        _ => unreachable!(),
    }
}

/// The dictionary that is kept first.
pub(crate) fn next_dictionary(kept: &mut Vec<Content>) -> Dictionary
    requires { StartsSound kept.old.items }
    ensures first { kept.old.items ≡ Entries result ∷ kept.new.items }
    ensures sound { IsSound result }
{
    match kept.remove(0) {
        Content::Entries(dictionary) => dictionary,
        _ => unreachable!(),
    }
}

/// The pairs that are kept first.
pub(crate) fn next_pairs(kept: &mut Vec<Content>) -> Forbidden
    requires { StartsPaired kept.old.items }
    ensures { kept.old.items ≡ KeptPairs result ∷ kept.new.items }
{
    match kept.remove(0) {
        Content::Pairs(pairs) => pairs,
        _ => unreachable!(),
    }
}

/// The rules that are kept first.
pub(crate) fn next_rules(kept: &mut Vec<Content>) -> Rules
    requires { StartsRuled kept.old.items }
    ensures { kept.old.items ≡ KeptRules result ∷ kept.new.items }
{
    match kept.remove(0) {
        Content::Rules(rules) => rules,
        _ => unreachable!(),
    }
}

/// The files of a whole translation, which are all that is kept.
pub(crate) fn next_translation(kept: &mut Vec<Content>) -> Translation
    requires { AreTranslation kept.old.items }
    ensures { kept.old.items ≡ Sections result.analyser ∷ Sections result.bilingual
        ∷ KeptRules result.transfer ∷ KeptRules result.interchunk ∷ KeptRules result.postchunk
        ∷ Sections result.generator ∷ Sections result.post_generator ∷ [] }
{
    let analyser = next_compiled(kept);
    let bilingual = next_compiled(kept);
    let transfer = next_rules(kept);
    let interchunk = next_rules(kept);
    let postchunk = next_rules(kept);
    let generator = next_compiled(kept);
    let post_generator = next_compiled(kept);
    Translation {
        analyser,
        bilingual,
        transfer,
        interchunk,
        postchunk,
        generator,
        post_generator,
    }
}
