//! What holds of the grammar of files and of its parser. Each function does nothing: its contract is the law.
ghost use Rattle.decl_parser.specs.Parsed.{OneFile};
ghost use Rattle.decl_parser.specs.ParsingLaws.{FilesAreDerived, FilesAreParsed};
ghost use Rattle.decl_parser.specs.Example.{EachFormStands};
ghost use Rattle.decl_parser.specs.LookAhead.{LibrariesAreSeen, ImportsAreSeen, ClassesAreSeen, GettersAreSeen, SettersAreSeen, OperatorsAreSeen, FunctionsAreSeen, VariablesAreSeen, ConstructorsAreSeen, StaticIsSeen, LocalVariablesAreSeen, TypedFunctionsAreSeen, LoopVariablesAreSeen, ClausesAreSeen};

/// Tokens are those of at most one file.
pub fn one_file()
    ensures { OneFile }
{}

/// What the parser answers is derived, and what is derived is what the parser answers.
pub fn the_parser_and_the_grammar_agree()
    ensures derived { FilesAreDerived }
    ensures parsed { FilesAreParsed }
{}

/// The choices that look ahead take no form away: what stands somewhere is seen there. But where `get` or `set` stands before
/// a name, or `operator` before a sign, an accessor or an operator begins and nothing else.
pub fn what_stands_is_seen()
    ensures libraries { LibrariesAreSeen }
    ensures imports { ImportsAreSeen }
    ensures classes { ClassesAreSeen }
    ensures getters { GettersAreSeen }
    ensures setters { SettersAreSeen }
    ensures operators { OperatorsAreSeen }
    ensures functions { FunctionsAreSeen }
    ensures variables { VariablesAreSeen }
    ensures constructors { ConstructorsAreSeen }
    ensures statics { StaticIsSeen }
    ensures local_variables { LocalVariablesAreSeen }
    ensures typed_functions { TypedFunctionsAreSeen }
    ensures loop_variables { LoopVariablesAreSeen }
    ensures clauses { ClausesAreSeen }
{}

/// No form of the grammar is empty: there is a file in which each stands.
pub fn each_form_stands()
    ensures { EachFormStands }
{}
