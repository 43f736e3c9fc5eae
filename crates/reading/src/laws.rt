// The laws of reading, each on the contract of a function, so that the check asks for its proof.
ghost use Rattle.reading.specs.Examples.{Examples};
ghost use Rattle.reading.specs.PlainWords.{KeptBytesTellTheWord};
ghost use Rattle.reading.specs.Laws.{FormIsOneWordsLetters, ScriptReadsAsTemplateFilled, ScriptsDifferInHolesAlone};

// A lawful form of a text, read where a hole is taken, adds the text's bytes to the word as quoted letters,
// and leaves all else as the hole leaves it.
pub fn forms_are_letters()
    ensures { FormIsOneWordsLetters }
{}

// A rendered script reads without fault, to the template's items with every hole filled.
pub fn scripts_are_filled_templates()
    ensures { ScriptReadsAsTemplateFilled }
{}

// Two scripts of one template are listed alike but for the holes, each of which shows its own text.
pub fn scripts_differ_in_holes()
    ensures { ScriptsDifferInHolesAlone }
{}

// Examples of the rules, as one fact.
pub fn examples()
    ensures { Examples }
{}

// The 33 bytes that are kept of a plain word, and how it opens, tell what the whole word would tell.
pub fn kept_bytes_tell_the_word()
    ensures { KeptBytesTellTheWord }
{}
