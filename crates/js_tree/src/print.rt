//! The canonical spelling of a tree, appended to bytes.
ghost use Rattle.std.specs.Prelude.{◌≡◌, ◌++◌, map, IfOk, OnOk, ◌<◌, if◌then◌else◌, codes};
ghost use Rattle.std.specs.Fmt.{decimal};
ghost use Rattle.js_tree.specs.Text.{joined, separated, unit_text, hex_digit, unicode_escape, string_text, arguments_text, block_text, line, text_of_expr, text_of_head, text_of_selector, text_of_primary, text_of_entry, text_of_function, text_of_stmt, text_of_item, file_text};
ghost use Rattle.js_tree.specs.Tokens.{is_plain};
ghost use Rattle.js_tree.specs.Prints.{Prints};
ghost use Rattle.js_tree.specs.Words.{member_text, operator_text};

use crate::tree::{
    JsEntry, JsExpr, JsFile, JsFunction, JsHead, JsItem, JsPrimary, JsSelector, JsStmt,
};
use crate::words::{JsMember, JsOperator};
use code_units::Bytes;
use itoa::Buffer;
use sqlite_items::Items;
use std::alloc::{AllocError, Global};

fn push_number(out: &mut Bytes, number: u64) -> Result<(), AllocError>
    ensures { OnOk result (out.new ≡ out.old ++ decimal number) }
{
    let mut buffer = Buffer::new();
    out.extend(buffer.format(number).as_bytes())
}

fn push_negative(out: &mut Bytes, number: u64) -> Result<(), AllocError>
    ensures { OnOk result (out.new ≡ out.old ++ (codes "-" ++ decimal number)) }
{
    out.extend(b"-")?;
    push_number(out, number)
}

// ---- strings

fn is_plain(unit: u16) -> bool
    ensures { result ≡ is_plain unit }
{
    32 <= unit && unit <= 126 && unit != 34 && unit != 92
}

fn hex_digit(digit: u16) -> u8
    requires { digit < 16 }
    ensures { result ≡ hex_digit digit }
{
    if digit < 10 {
        48 + digit as u8
    } else {
        87 + digit as u8
    }
}

fn push_escape(out: &mut Bytes, unit: u16) -> Result<(), AllocError>
    ensures { OnOk result (out.new ≡ out.old ++ unicode_escape unit) }
{
    out.extend(b"\\u")?;
    out.push(hex_digit(unit / 4096 % 16))?;
    out.push(hex_digit(unit / 256 % 16))?;
    out.push(hex_digit(unit / 16 % 16))?;
    out.push(hex_digit(unit % 16))
}

fn push_unit(out: &mut Bytes, unit: u16) -> Result<(), AllocError>
    ensures { OnOk result (out.new ≡ out.old ++ unit_text unit) }
{
    if is_plain(unit) {
        return out.push(unit as u8);
    }
    match unit {
        34 => out.extend(b"\\\""),
        92 => out.extend(b"\\\\"),
        _ => push_escape(out, unit),
    }
}

fn push_units(out: &mut Bytes, units: &[u16]) -> Result<(), AllocError>
    ensures { OnOk result (out.new ≡ out.old ++ joined (map unit_text units.now)) }
{
    for unit in units {
        push_unit(out, *unit)?;
    }
    Ok(())
}

fn push_string(out: &mut Bytes, units: &[u16]) -> Result<(), AllocError>
    ensures { OnOk result (out.new ≡ out.old ++ string_text units.now) }
{
    out.extend(b"\"")?;
    push_units(out, units)?;
    out.extend(b"\"")
}

// ---- names

// `, ` before each but the first
fn push_separator(out: &mut Bytes, is_first: bool) -> Result<(), AllocError>
    ensures { OnOk result (out.new ≡ (if is_first then out.old else out.old ++ codes ", ")) }
{
    if is_first { Ok(()) } else { out.extend(b", ") }
}

fn push_names(out: &mut Bytes, names: &[Items<u8>]) -> Result<(), AllocError>
    ensures { OnOk result (out.new ≡ out.old ++ separated names.now) }
{
    let mut is_first = true;
    for name in names {
        push_separator(out, is_first)?;
        out.extend(name.as_slice())?;
        is_first = false;
    }
    Ok(())
}

fn push_parameters(out: &mut Bytes, names: &[Items<u8>]) -> Result<(), AllocError>
    ensures { OnOk result (out.new ≡ out.old ++ arguments_text names.now) }
{
    out.extend(b"(")?;
    push_names(out, names)?;
    out.extend(b")")
}

// ---- words and signs

fn push_operator(out: &mut Bytes, operator: JsOperator) -> Result<(), AllocError>
    ensures { OnOk result (out.new ≡ out.old ++ (codes " " ++ (operator_text operator ++ codes " "))) }
{
    out.extend(b" ")?;
    out.extend(operator.text())?;
    out.extend(b" ")
}

fn push_member(out: &mut Bytes, member: JsMember) -> Result<(), AllocError>
    ensures { OnOk result (out.new ≡ out.old ++ (codes "." ++ member_text member)) }
{
    out.extend(b".")?;
    out.extend(member.text())
}

fn push_break(out: &mut Bytes, label: &[u8]) -> Result<(), AllocError>
    ensures { OnOk result (out.new ≡ out.old ++ line (codes "break " ++ (label.now ++ codes ";"))) }
{
    out.extend(b"break ")?;
    out.extend(label)?;
    out.extend(b";\n")
}

fn push_catch(out: &mut Bytes, name: &[u8]) -> Result<(), AllocError>
    ensures { OnOk result (out.new ≡ out.old ++ (codes " catch (" ++ (name.now ++ codes ") "))) }
{
    out.extend(b" catch (")?;
    out.extend(name)?;
    out.extend(b") ")
}

// ---- forms

/// Prints forms by functions that print the expressions and statements in them.
#[derive(Clone, Copy)]
pub struct Printer<E, S> {
    depth: usize,
    expr: E,
    stmt: S,
}

impl<
    E: Fn(usize, &mut Bytes, &JsExpr) -> Result<(), AllocError>,
    S: Fn(usize, &mut Bytes, &JsStmt) -> Result<(), AllocError>,
> Printer<E, S> {
    fn push_expr(&self, out: &mut Bytes, expr: &JsExpr) -> Result<(), AllocError>
        requires { Prints self.now.depth (E.pre self.now.expr) (E.post self.now.expr) (S.pre self.now.stmt) (S.post self.now.stmt) }
        ensures { OnOk result (out.new ≡ out.old ++ text_of_expr expr.now) }
    {
        (self.expr)(self.depth, out, expr)
    }

    fn push_stmt(&self, out: &mut Bytes, stmt: &JsStmt) -> Result<(), AllocError>
        requires { Prints self.now.depth (E.pre self.now.expr) (E.post self.now.expr) (S.pre self.now.stmt) (S.post self.now.stmt) }
        ensures { OnOk result (out.new ≡ out.old ++ text_of_stmt stmt.now) }
    {
        (self.stmt)(self.depth, out, stmt)
    }

    fn expr_form(&self, out: &mut Bytes, expr: &JsExpr) -> Result<(), AllocError>
        requires { Prints self.now.depth (E.pre self.now.expr) (E.post self.now.expr) (S.pre self.now.stmt) (S.post self.now.stmt) }
        ensures { OnOk result (out.new ≡ out.old ++ text_of_expr expr.now) }
    {
        match expr {
            JsExpr::Primary(primary) => self.push_primary(out, primary),
            JsExpr::Binary(operator, left, right) => self.push_binary(
                out,
                *operator,
                left.get(),
                right.get(),
            ),
            JsExpr::TypeOf(operand) => self.push_type_of(out, operand),
            JsExpr::Function(function) => self.push_function_expr(out, function),
            JsExpr::NewMap => out.extend(b"new Map()"),
            JsExpr::Array(items) => self.push_array(out, items.as_slice()),
            JsExpr::Object(entries) => self.push_object(out, entries.as_slice()),
        }
    }

    fn push_binary(
        &self,
        out: &mut Bytes,
        operator: JsOperator,
        left: &JsPrimary,
        right: &JsPrimary,
    ) -> Result<(), AllocError>
        requires { Prints self.now.depth (E.pre self.now.expr) (E.post self.now.expr) (S.pre self.now.stmt) (S.post self.now.stmt) }
        ensures { OnOk result (out.new ≡ out.old ++ (text_of_primary left.now ++ (codes " " ++ (operator_text operator ++ (codes " " ++ text_of_primary right.now))))) }
    {
        self.push_primary(out, left)?;
        push_operator(out, operator)?;
        self.push_primary(out, right)
    }

    fn push_type_of(&self, out: &mut Bytes, operand: &JsPrimary) -> Result<(), AllocError>
        requires { Prints self.now.depth (E.pre self.now.expr) (E.post self.now.expr) (S.pre self.now.stmt) (S.post self.now.stmt) }
        ensures { OnOk result (out.new ≡ out.old ++ (codes "typeof " ++ text_of_primary operand.now)) }
    {
        out.extend(b"typeof ")?;
        self.push_primary(out, operand)
    }

    fn push_function_expr(&self, out: &mut Bytes, function: &JsFunction) -> Result<(), AllocError>
        requires { Prints self.now.depth (E.pre self.now.expr) (E.post self.now.expr) (S.pre self.now.stmt) (S.post self.now.stmt) }
        ensures { OnOk result (out.new ≡ out.old ++ (codes "function " ++ text_of_function function.now)) }
    {
        out.extend(b"function ")?;
        self.push_function(out, function)
    }

    fn push_array(&self, out: &mut Bytes, items: &[JsExpr]) -> Result<(), AllocError>
        requires { Prints self.now.depth (E.pre self.now.expr) (E.post self.now.expr) (S.pre self.now.stmt) (S.post self.now.stmt) }
        ensures { OnOk result (out.new ≡ out.old ++ (codes "[" ++ (separated (map text_of_expr items.now) ++ codes "]"))) }
    {
        out.extend(b"[")?;
        self.push_exprs(out, items)?;
        out.extend(b"]")
    }

    fn push_object(&self, out: &mut Bytes, entries: &[JsEntry]) -> Result<(), AllocError>
        requires { Prints self.now.depth (E.pre self.now.expr) (E.post self.now.expr) (S.pre self.now.stmt) (S.post self.now.stmt) }
        ensures { OnOk result (out.new ≡ out.old ++ (codes "{" ++ (separated (map text_of_entry entries.now) ++ codes "}"))) }
    {
        out.extend(b"{")?;
        self.push_entries(out, entries)?;
        out.extend(b"}")
    }

    fn push_exprs(&self, out: &mut Bytes, exprs: &[JsExpr]) -> Result<(), AllocError>
        requires { Prints self.now.depth (E.pre self.now.expr) (E.post self.now.expr) (S.pre self.now.stmt) (S.post self.now.stmt) }
        ensures { OnOk result (out.new ≡ out.old ++ separated (map text_of_expr exprs.now)) }
    {
        let mut is_first = true;
        for expr in exprs {
            push_separator(out, is_first)?;
            self.push_expr(out, expr)?;
            is_first = false;
        }
        Ok(())
    }

    fn push_entries(&self, out: &mut Bytes, entries: &[JsEntry]) -> Result<(), AllocError>
        requires { Prints self.now.depth (E.pre self.now.expr) (E.post self.now.expr) (S.pre self.now.stmt) (S.post self.now.stmt) }
        ensures { OnOk result (out.new ≡ out.old ++ separated (map text_of_entry entries.now)) }
    {
        let mut is_first = true;
        for entry in entries {
            push_separator(out, is_first)?;
            self.push_entry(out, entry)?;
            is_first = false;
        }
        Ok(())
    }

    fn push_entry(&self, out: &mut Bytes, entry: &JsEntry) -> Result<(), AllocError>
        requires { Prints self.now.depth (E.pre self.now.expr) (E.post self.now.expr) (S.pre self.now.stmt) (S.post self.now.stmt) }
        ensures { OnOk result (out.new ≡ out.old ++ text_of_entry entry.now) }
    {
        push_string(out, entry.key.as_slice())?;
        out.extend(b": ")?;
        self.push_expr(out, &entry.value)
    }

    fn push_arguments(&self, out: &mut Bytes, arguments: &[JsExpr]) -> Result<(), AllocError>
        requires { Prints self.now.depth (E.pre self.now.expr) (E.post self.now.expr) (S.pre self.now.stmt) (S.post self.now.stmt) }
        ensures { OnOk result (out.new ≡ out.old ++ arguments_text (map text_of_expr arguments.now)) }
    {
        out.extend(b"(")?;
        self.push_exprs(out, arguments)?;
        out.extend(b")")
    }

    fn push_primary(&self, out: &mut Bytes, primary: &JsPrimary) -> Result<(), AllocError>
        requires { Prints self.now.depth (E.pre self.now.expr) (E.post self.now.expr) (S.pre self.now.stmt) (S.post self.now.stmt) }
        ensures { OnOk result (out.new ≡ out.old ++ text_of_primary primary.now) }
    {
        self.push_head(out, &primary.head)?;
        self.push_selectors(out, primary.selectors.as_slice())
    }

    fn push_head(&self, out: &mut Bytes, head: &JsHead) -> Result<(), AllocError>
        requires { Prints self.now.depth (E.pre self.now.expr) (E.post self.now.expr) (S.pre self.now.stmt) (S.post self.now.stmt) }
        ensures { OnOk result (out.new ≡ out.old ++ text_of_head head.now) }
    {
        match head {
            JsHead::Name(name) => out.extend(name.as_slice()),
            JsHead::Digits(number) => push_number(out, *number),
            JsHead::Negative(number) => push_negative(out, *number),
            JsHead::Str(units) => push_string(out, units.as_slice()),
            JsHead::Null => out.extend(b"null"),
            JsHead::Undefined => out.extend(b"undefined"),
            JsHead::True => out.extend(b"true"),
            JsHead::False => out.extend(b"false"),
            JsHead::StringOf(arguments) => self.push_call(out, b"String", arguments.as_slice()),
            JsHead::IsArray(arguments) => self.push_call(
                out,
                b"Array.isArray",
                arguments.as_slice(),
            ),
            JsHead::ArrayFrom(arguments) => self.push_call(
                out,
                b"Array.from",
                arguments.as_slice(),
            ),
        }
    }

    fn push_call(
        &self,
        out: &mut Bytes,
        callee: &[u8],
        arguments: &[JsExpr],
    ) -> Result<(), AllocError>
        requires { Prints self.now.depth (E.pre self.now.expr) (E.post self.now.expr) (S.pre self.now.stmt) (S.post self.now.stmt) }
        ensures { OnOk result (out.new ≡ out.old ++ (callee.now ++ arguments_text (map text_of_expr arguments.now))) }
    {
        out.extend(callee)?;
        self.push_arguments(out, arguments)
    }

    fn push_selectors(&self, out: &mut Bytes, selectors: &[JsSelector]) -> Result<(), AllocError>
        requires { Prints self.now.depth (E.pre self.now.expr) (E.post self.now.expr) (S.pre self.now.stmt) (S.post self.now.stmt) }
        ensures { OnOk result (out.new ≡ out.old ++ joined (map text_of_selector selectors.now)) }
    {
        for selector in selectors {
            self.push_selector(out, selector)?;
        }
        Ok(())
    }

    fn push_selector(&self, out: &mut Bytes, selector: &JsSelector) -> Result<(), AllocError>
        requires { Prints self.now.depth (E.pre self.now.expr) (E.post self.now.expr) (S.pre self.now.stmt) (S.post self.now.stmt) }
        ensures { OnOk result (out.new ≡ out.old ++ text_of_selector selector.now) }
    {
        match selector {
            JsSelector::Index(index) => self.push_index(out, index.get()),
            JsSelector::Call(arguments) => self.push_arguments(out, arguments.as_slice()),
            JsSelector::Member(member) => push_member(out, *member),
            JsSelector::Method(member, arguments) => self.push_method(
                out,
                *member,
                arguments.as_slice(),
            ),
        }
    }

    fn push_index(&self, out: &mut Bytes, index: &JsExpr) -> Result<(), AllocError>
        requires { Prints self.now.depth (E.pre self.now.expr) (E.post self.now.expr) (S.pre self.now.stmt) (S.post self.now.stmt) }
        ensures { OnOk result (out.new ≡ out.old ++ (codes "[" ++ (text_of_expr index.now ++ codes "]"))) }
    {
        out.extend(b"[")?;
        self.push_expr(out, index)?;
        out.extend(b"]")
    }

    fn push_method(
        &self,
        out: &mut Bytes,
        member: JsMember,
        arguments: &[JsExpr],
    ) -> Result<(), AllocError>
        requires { Prints self.now.depth (E.pre self.now.expr) (E.post self.now.expr) (S.pre self.now.stmt) (S.post self.now.stmt) }
        ensures { OnOk result (out.new ≡ out.old ++ (codes "." ++ (member_text member ++ arguments_text (map text_of_expr arguments.now)))) }
    {
        push_member(out, member)?;
        self.push_arguments(out, arguments)
    }

    // ---- statements

    fn push_function(&self, out: &mut Bytes, function: &JsFunction) -> Result<(), AllocError>
        requires { Prints self.now.depth (E.pre self.now.expr) (E.post self.now.expr) (S.pre self.now.stmt) (S.post self.now.stmt) }
        ensures { OnOk result (out.new ≡ out.old ++ text_of_function function.now) }
    {
        push_parameters(out, function.parameters.as_slice())?;
        out.extend(b" ")?;
        self.push_block(out, function.body.as_slice())
    }

    fn push_block(&self, out: &mut Bytes, body: &[JsStmt]) -> Result<(), AllocError>
        requires { Prints self.now.depth (E.pre self.now.expr) (E.post self.now.expr) (S.pre self.now.stmt) (S.post self.now.stmt) }
        ensures { OnOk result (out.new ≡ out.old ++ block_text (map text_of_stmt body.now)) }
    {
        out.extend(b"{\n")?;
        self.push_stmts(out, body)?;
        out.extend(b"}")
    }

    fn push_stmts(&self, out: &mut Bytes, stmts: &[JsStmt]) -> Result<(), AllocError>
        requires { Prints self.now.depth (E.pre self.now.expr) (E.post self.now.expr) (S.pre self.now.stmt) (S.post self.now.stmt) }
        ensures { OnOk result (out.new ≡ out.old ++ joined (map text_of_stmt stmts.now)) }
    {
        for stmt in stmts {
            self.push_stmt(out, stmt)?;
        }
        Ok(())
    }

    fn stmt_form(&self, out: &mut Bytes, stmt: &JsStmt) -> Result<(), AllocError>
        requires { Prints self.now.depth (E.pre self.now.expr) (E.post self.now.expr) (S.pre self.now.stmt) (S.post self.now.stmt) }
        ensures { OnOk result (out.new ≡ out.old ++ text_of_stmt stmt.now) }
    {
        match stmt {
            JsStmt::Let { name, value, .. } => self.push_defined(
                out,
                b"let ",
                name.as_slice(),
                value,
            ),
            JsStmt::Assign { name, value, .. } => self.push_assign(out, name.as_slice(), value),
            JsStmt::Store {
                object,
                index,
                value,
                ..
            } => self.push_store(out, object.get(), index.get(), value),
            JsStmt::Perform { primary, .. } => self.push_perform(out, primary),
            JsStmt::If { test, holds, .. } => self.push_if(out, test.get(), holds.as_slice()),
            JsStmt::IfElse {
                test,
                holds,
                fails,
                ..
            } => self.push_if_else(out, test.get(), holds.as_slice(), fails.as_slice()),
            JsStmt::Loop { body, .. } => self.push_loop(out, body.as_slice()),
            JsStmt::Labelled { label, body, .. } => self.push_labelled(
                out,
                label.as_slice(),
                body.as_slice(),
            ),
            JsStmt::Break { label, .. } => push_break(out, label.as_slice()),
            JsStmt::Return { value, .. } => self.push_jump(out, b"return ", value),
            JsStmt::Throw { value, .. } => self.push_jump(out, b"throw ", value),
            JsStmt::TryCatch {
                body,
                name,
                handler,
                ..
            } => self.push_try_catch(out, body.as_slice(), name.as_slice(), handler.as_slice()),
            JsStmt::TryFinally { body, last, .. } => self.push_try_finally(
                out,
                body.as_slice(),
                last.as_slice(),
            ),
        }
    }

    fn push_defined(
        &self,
        out: &mut Bytes,
        word: &[u8],
        name: &[u8],
        value: &JsExpr,
    ) -> Result<(), AllocError>
        requires { Prints self.now.depth (E.pre self.now.expr) (E.post self.now.expr) (S.pre self.now.stmt) (S.post self.now.stmt) }
        ensures { OnOk result (out.new ≡ out.old ++ line (word.now ++ (name.now ++ (codes " = " ++ (text_of_expr value.now ++ codes ";"))))) }
    {
        out.extend(word)?;
        self.push_assign(out, name, value)
    }

    fn push_assign(&self, out: &mut Bytes, name: &[u8], value: &JsExpr) -> Result<(), AllocError>
        requires { Prints self.now.depth (E.pre self.now.expr) (E.post self.now.expr) (S.pre self.now.stmt) (S.post self.now.stmt) }
        ensures { OnOk result (out.new ≡ out.old ++ line (name.now ++ (codes " = " ++ (text_of_expr value.now ++ codes ";")))) }
    {
        out.extend(name)?;
        out.extend(b" = ")?;
        self.push_expr(out, value)?;
        out.extend(b";\n")
    }

    fn push_store(
        &self,
        out: &mut Bytes,
        object: &JsPrimary,
        index: &JsExpr,
        value: &JsExpr,
    ) -> Result<(), AllocError>
        requires { Prints self.now.depth (E.pre self.now.expr) (E.post self.now.expr) (S.pre self.now.stmt) (S.post self.now.stmt) }
        ensures { OnOk result (out.new ≡ out.old ++ line (text_of_primary object.now ++ (codes "[" ++ (text_of_expr index.now ++ (codes "] = " ++ (text_of_expr value.now ++ codes ";")))))) }
    {
        self.push_primary(out, object)?;
        self.push_index(out, index)?;
        out.extend(b" = ")?;
        self.push_expr(out, value)?;
        out.extend(b";\n")
    }

    fn push_perform(&self, out: &mut Bytes, primary: &JsPrimary) -> Result<(), AllocError>
        requires { Prints self.now.depth (E.pre self.now.expr) (E.post self.now.expr) (S.pre self.now.stmt) (S.post self.now.stmt) }
        ensures { OnOk result (out.new ≡ out.old ++ line (text_of_primary primary.now ++ codes ";")) }
    {
        self.push_primary(out, primary)?;
        out.extend(b";\n")
    }

    fn push_test(&self, out: &mut Bytes, test: &JsExpr, holds: &[JsStmt]) -> Result<(), AllocError>
        requires { Prints self.now.depth (E.pre self.now.expr) (E.post self.now.expr) (S.pre self.now.stmt) (S.post self.now.stmt) }
        ensures { OnOk result (out.new ≡ out.old ++ (codes "if (" ++ (text_of_expr test.now ++ (codes ") " ++ block_text (map text_of_stmt holds.now))))) }
    {
        out.extend(b"if (")?;
        self.push_expr(out, test)?;
        out.extend(b") ")?;
        self.push_block(out, holds)
    }

    fn push_if(&self, out: &mut Bytes, test: &JsExpr, holds: &[JsStmt]) -> Result<(), AllocError>
        requires { Prints self.now.depth (E.pre self.now.expr) (E.post self.now.expr) (S.pre self.now.stmt) (S.post self.now.stmt) }
        ensures { OnOk result (out.new ≡ out.old ++ line (codes "if (" ++ (text_of_expr test.now ++ (codes ") " ++ block_text (map text_of_stmt holds.now))))) }
    {
        self.push_test(out, test, holds)?;
        out.extend(b"\n")
    }

    fn push_if_else(
        &self,
        out: &mut Bytes,
        test: &JsExpr,
        holds: &[JsStmt],
        fails: &[JsStmt],
    ) -> Result<(), AllocError>
        requires { Prints self.now.depth (E.pre self.now.expr) (E.post self.now.expr) (S.pre self.now.stmt) (S.post self.now.stmt) }
        ensures { OnOk result (out.new ≡ out.old ++ line (codes "if (" ++ (text_of_expr test.now ++ (codes ") " ++ (block_text (map text_of_stmt holds.now) ++ (codes " else " ++ block_text (map text_of_stmt fails.now))))))) }
    {
        self.push_test(out, test, holds)?;
        out.extend(b" else ")?;
        self.push_block(out, fails)?;
        out.extend(b"\n")
    }

    fn push_loop(&self, out: &mut Bytes, body: &[JsStmt]) -> Result<(), AllocError>
        requires { Prints self.now.depth (E.pre self.now.expr) (E.post self.now.expr) (S.pre self.now.stmt) (S.post self.now.stmt) }
        ensures { OnOk result (out.new ≡ out.old ++ line (codes "while (true) " ++ block_text (map text_of_stmt body.now))) }
    {
        out.extend(b"while (true) ")?;
        self.push_block(out, body)?;
        out.extend(b"\n")
    }

    fn push_labelled(
        &self,
        out: &mut Bytes,
        label: &[u8],
        body: &[JsStmt],
    ) -> Result<(), AllocError>
        requires { Prints self.now.depth (E.pre self.now.expr) (E.post self.now.expr) (S.pre self.now.stmt) (S.post self.now.stmt) }
        ensures { OnOk result (out.new ≡ out.old ++ line (label.now ++ (codes ": " ++ block_text (map text_of_stmt body.now)))) }
    {
        out.extend(label)?;
        out.extend(b": ")?;
        self.push_block(out, body)?;
        out.extend(b"\n")
    }

    fn push_jump(&self, out: &mut Bytes, word: &[u8], value: &JsExpr) -> Result<(), AllocError>
        requires { Prints self.now.depth (E.pre self.now.expr) (E.post self.now.expr) (S.pre self.now.stmt) (S.post self.now.stmt) }
        ensures { OnOk result (out.new ≡ out.old ++ line (word.now ++ (text_of_expr value.now ++ codes ";"))) }
    {
        out.extend(word)?;
        self.push_expr(out, value)?;
        out.extend(b";\n")
    }

    fn push_try_catch(
        &self,
        out: &mut Bytes,
        body: &[JsStmt],
        name: &[u8],
        handler: &[JsStmt],
    ) -> Result<(), AllocError>
        requires { Prints self.now.depth (E.pre self.now.expr) (E.post self.now.expr) (S.pre self.now.stmt) (S.post self.now.stmt) }
        ensures { OnOk result (out.new ≡ out.old ++ line (codes "try " ++ (block_text (map text_of_stmt body.now) ++ (codes " catch (" ++ (name.now ++ (codes ") " ++ block_text (map text_of_stmt handler.now))))))) }
    {
        out.extend(b"try ")?;
        self.push_block(out, body)?;
        push_catch(out, name)?;
        self.push_block(out, handler)?;
        out.extend(b"\n")
    }

    fn push_try_finally(
        &self,
        out: &mut Bytes,
        body: &[JsStmt],
        last: &[JsStmt],
    ) -> Result<(), AllocError>
        requires { Prints self.now.depth (E.pre self.now.expr) (E.post self.now.expr) (S.pre self.now.stmt) (S.post self.now.stmt) }
        ensures { OnOk result (out.new ≡ out.old ++ line (codes "try " ++ (block_text (map text_of_stmt body.now) ++ (codes " finally " ++ block_text (map text_of_stmt last.now))))) }
    {
        out.extend(b"try ")?;
        self.push_block(out, body)?;
        out.extend(b" finally ")?;
        self.push_block(out, last)?;
        out.extend(b"\n")
    }

    // ---- items

    fn push_declared(
        &self,
        out: &mut Bytes,
        name: &[u8],
        function: &JsFunction,
    ) -> Result<(), AllocError>
        requires { Prints self.now.depth (E.pre self.now.expr) (E.post self.now.expr) (S.pre self.now.stmt) (S.post self.now.stmt) }
        ensures { OnOk result (out.new ≡ out.old ++ line (codes "function " ++ (name.now ++ text_of_function function.now))) }
    {
        out.extend(b"function ")?;
        out.extend(name)?;
        self.push_function(out, function)?;
        out.extend(b"\n")
    }

    fn push_item(&self, out: &mut Bytes, item: &JsItem) -> Result<(), AllocError>
        requires { Prints self.now.depth (E.pre self.now.expr) (E.post self.now.expr) (S.pre self.now.stmt) (S.post self.now.stmt) }
        ensures { OnOk result (out.new ≡ out.old ++ text_of_item item.now) }
    {
        match item {
            JsItem::Declared { name, function } => self.push_declared(
                out,
                name.as_slice(),
                function,
            ),
            JsItem::Var { name, value, .. } => self.push_defined(
                out,
                b"var ",
                name.as_slice(),
                value,
            ),
            JsItem::Statement(stmt) => self.push_stmt(out, stmt),
        }
    }
}

// ---- trees, to a depth that no memory holds

#[cycle(print)]
fn expr_to(depth: usize, out: &mut Bytes, expr: &JsExpr) -> Result<(), AllocError>
    ensures { OnOk result (out.new ≡ out.old ++ text_of_expr expr.now) }
{
    if depth == 0 {
        return Err(AllocError);
    }
    let printer = Printer {
        depth: depth - 1,
        expr: expr_to,
        stmt: stmt_to,
    };
    printer.expr_form(out, expr)
}

#[cycle(print)]
fn stmt_to(depth: usize, out: &mut Bytes, stmt: &JsStmt) -> Result<(), AllocError>
    ensures { OnOk result (out.new ≡ out.old ++ text_of_stmt stmt.now) }
{
    if depth == 0 {
        return Err(AllocError);
    }
    let printer = Printer {
        depth: depth - 1,
        expr: expr_to,
        stmt: stmt_to,
    };
    printer.stmt_form(out, stmt)
}

// ---- files

/// The canonical spelling of a file, all ASCII: a line for each item and statement, ended by LF, with one blank where the
/// language's printing rules have one, and no indents. It is defined for every tree; it is a spelling of the tree where the
/// tree has one.
pub fn print_file(alloc: Global, file: &JsFile) -> Result<Bytes, AllocError>
    ensures { IfOk result (λ bytes. bytes ≡ file_text file.now) }
{
    let mut out = Bytes::new(alloc);
    let printer = Printer {
        depth: usize::MAX,
        expr: expr_to,
        stmt: stmt_to,
    };
    for item in file.items.as_slice() {
        printer.push_item(&mut out, item)?;
    }
    Ok(out)
}
