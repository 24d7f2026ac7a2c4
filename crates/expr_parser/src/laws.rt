//! What holds of the grammar and of its parser. Each function does nothing: its contract is the law.
ghost use Rattle.expr_parser.specs.ParsingLaws.{OneExpression, OneStatement, ExpressionsAreDerived, StatementsAreDerived, ExpressionsAreParsed, StatementsAreParsed};
ghost use Rattle.expr_parser.specs.Expressions.{OneExpressionAt};

/// Tokens begin with at most one expression that no joining token follows.
pub fn one_expression()
    ensures { OneExpression }
{}

/// A token of a file begins at most one expression that no joining token follows, and its end is one.
pub fn one_expression_at()
    ensures { OneExpressionAt }
{}

/// Tokens begin with at most one statement.
pub fn one_statement()
    ensures { OneStatement }
{}

/// What the parser answers is derived.
pub fn what_is_parsed_is_derived()
    ensures expressions { ExpressionsAreDerived }
    ensures statements { StatementsAreDerived }
{}

/// What is derived is what the parser answers.
pub fn what_is_derived_is_parsed()
    ensures expressions { ExpressionsAreParsed }
    ensures statements { StatementsAreParsed }
{}
