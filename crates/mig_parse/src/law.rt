//! The laws of the grammar, each as a function of its own.
ghost use Rattle.mig_parse.specs.Law.{HasOneDeclaration, HasOneSyntax, FaultExcludes, HasOneFault, TextsAreSpelled};

/// A law: the grammar gives tokens at most one declaration.
pub fn one_declaration()
    ensures { HasOneDeclaration }
{}

/// A law: a text is one list of declarations at most.
pub fn one_syntax()
    ensures { HasOneSyntax }
{}

/// A law: a text with a fault other than want of memory gives no declarations.
pub fn fault_excludes()
    ensures { FaultExcludes }
{}

/// A law: a text has one fault at most, beside want of memory.
pub fn one_fault()
    ensures { HasOneFault }
{}

/// A law: the names and texts of a declaration are spelled, so that a chain can have them.
pub fn texts_are_spelled()
    ensures { TextsAreSpelled }
{}
