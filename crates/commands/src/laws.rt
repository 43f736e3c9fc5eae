// Laws of commands.
ghost use Rattle.commands.specs.Lines.{BodiesGoByLines};

// Reading a here-document's body byte by byte gives the lines before the first that is the delimiter.
pub fn bodies_go_by_lines()
    ensures { BodiesGoByLines }
{}
