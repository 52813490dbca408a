//! Laws of scripts. Each function does nothing; its contract is the law.

ghost use Rattle.rewrite_script.specs.Laws.{HasOneRewriting, HasScriptOrFault, OneScript, OneScriptFault, NoFaultOfScript};

/// A line is that of at most one rewriting.
pub fn a_line_has_one_rewriting()
    ensures { HasOneRewriting }
{}

/// A text is a script or has a fault, not both, and is one script, or has one fault.
pub fn a_text_is_a_script_or_has_a_fault()
    ensures some { HasScriptOrFault }
    ensures script { OneScript }
    ensures fault { OneScriptFault }
    ensures either { NoFaultOfScript }
{}
