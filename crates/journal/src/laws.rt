// Laws of a journal's text.
ghost use Rattle.journal.specs.Escapes.{EscapesComeBack};
ghost use Rattle.journal.specs.Numbers.{KindsComeBack, LettersComeBack};

// The bytes of a word that was escaped are given back.
pub fn escapes_come_back()
    ensures { EscapesComeBack }
{}

// The kind and the letters of an item are told by their numbers on a sheet.
pub fn numbers_come_back()
    ensures kinds { KindsComeBack }
    ensures letters { LettersComeBack }
{}
