//! The run of a list of files.

ghost use Rattle.std.specs.Prelude.{◌≡◌, ◌<◌, ◌-◌, ◌^◌, [], length, codes, IfOk, OnOk};
ghost use Rattle.meanings.specs.Act.{add_text};
ghost use Rattle.js_tree.specs.declared.tree.JsStmt.{out-JsStmt};
ghost use Rattle.js_meaning.specs.Machine as machine;
ghost use Rattle.js_meaning.specs.Prog as prog;
ghost use Rattle.js_meaning.specs.Trees as trees;
ghost use Rattle.js_meaning.specs.Calls as calls;
ghost use Rattle.js_meaning.specs.Files as spec;
ghost use Rattle.js_meaning.specs.Stored as stored;
ghost use Rattle.js_meaning.specs.Meaning.{js_to};
ghost use Rattle.js_meaning.specs.Laws.{HaveOwnNames};
ghost use Rattle.js_meaning.specs.Conclusions as spec_ends;
ghost use Rattle.js_meaning.specs.Nests.{IsOutcome, Nests, at};

use crate::calls::argument;
use crate::forms::{Forms, Level, stuck};
use crate::state::{Around, Callee, Here, Jump, Leave, Realm, Spot, State, Stop};
use bumpalo::Bump;
use code_units::{End, Lines, RunEnd, Shown, Text};
use js_store::{Env, Host, Load, Name, Pairs, Share, SharedText, Slots, Store, Value};
use js_tree::{JsExpr, JsFunction, JsItem, JsMember, JsStmt, NamedTree, TreeList};
use std::alloc::{AllocError, Global};

/// How many steps may be nested: a step that is nested deeper is not begun.
pub const MAX_DEPTH: usize = 3999;

/// How many files there may be: a spot names its file by a `u32`.
const MOST_FILES: usize = 4_294_967_295;

// ---- what begins as a step

#[cycle(run)]
fn eval_to<'a>(
    level: Level<'a>,
    room: usize,
    here: &Here<'a>,
    state: &mut State<'a>,
    e: &'a JsExpr,
) -> Result<Value<'a>, Jump<'a>>
    ensures { IsOutcome (at ((trees.expr e.now).does here.now) level.entry.depth state.old) result state.new }
{
    if room == 0 {
        return Err(Jump::Stop(Stop::Memory));
    }
    let forms = Forms {
        level,
        room: room - 1,
        eval: eval_to,
        exec: exec_to,
        turn: turn_to,
        call: call_to,
    };
    forms.expr(here, state, e)
}

#[cycle(run)]
#[tactic(auto, using(crate::proofs::Depth::spent_plain, crate::proofs::Depth::deep_plain, crate::proofs::Depth::some_statement))]
fn exec_to<'a>(
    level: Level<'a>,
    room: usize,
    around: &Around<'a>,
    labels: &[Name<'a>],
    state: &mut State<'a>,
    c: &'a JsStmt,
) -> Result<(), Jump<'a>>
    ensures { IsOutcome (at (prog.perform around.now labels.now c.now) level.entry.depth state.old) result state.new }
{
    if room == 0 {
        return Err(Jump::Stop(Stop::Memory));
    }
    if state.steps == 0 {
        return Err(Jump::Stop(Stop::Steps));
    }
    if level.depth == 0 {
        return Err(Jump::Stop(Stop::Depth));
    }
    state.steps -= 1;
    let forms = Forms {
        level: inner(level),
        room: room - 1,
        eval: eval_to,
        exec: exec_to,
        turn: turn_to,
        call: call_to,
    };
    forms.statement(around, labels, state, c)
}

#[cycle(run)]
#[tactic(auto, using(crate::proofs::Depth::spent_plain, crate::proofs::Depth::deep_plain, crate::proofs::Depth::some_turn))]
fn turn_to<'a>(
    level: Level<'a>,
    room: usize,
    around: &Around<'a>,
    labels: &[Name<'a>],
    state: &mut State<'a>,
    body: &'a [JsStmt],
) -> Result<(), Jump<'a>>
    ensures { IsOutcome (at (prog.does (machine.Turn around.now labels.now body.now)) level.entry.depth state.old) result state.new }
{
    if room == 0 {
        return Err(Jump::Stop(Stop::Memory));
    }
    if state.steps == 0 {
        return Err(Jump::Stop(Stop::Steps));
    }
    if level.depth == 0 {
        return Err(Jump::Stop(Stop::Depth));
    }
    state.steps -= 1;
    let forms = Forms {
        level: inner(level),
        room: room - 1,
        eval: eval_to,
        exec: exec_to,
        turn: turn_to,
        call: call_to,
    };
    forms.block(around, labels, state, body)
}

#[cycle(run)]
#[tactic(auto, using(crate::proofs::Depth::spent_value, crate::proofs::Depth::deep_value, crate::proofs::Depth::some_call))]
fn call_to<'a>(
    level: Level<'a>,
    room: usize,
    spot: Spot,
    state: &mut State<'a>,
    f: Callee<'a>,
    vs: Slots<Value<'a>>,
) -> Result<Value<'a>, Jump<'a>>
    ensures { IsOutcome (at (prog.call spot f.entry vs.entry) level.entry.depth state.old) result state.new }
{
    if room == 0 {
        return Err(Jump::Stop(Stop::Memory));
    }
    if state.steps == 0 {
        return Err(Jump::Stop(Stop::Steps));
    }
    if level.depth == 0 {
        return Err(Jump::Stop(Stop::Depth));
    }
    state.steps -= 1;
    prints(level.alloc, &f, vs.as_slice(), &mut state.output)?;
    let forms = Forms {
        level: inner(level),
        room: room - 1,
        eval: eval_to,
        exec: exec_to,
        turn: turn_to,
        call: call_to,
    };
    forms.called(spot, state, &f, vs.as_slice())
}

/// One step deeper.
pub fn inner<'a>(level: Level<'a>) -> Level<'a>
    requires { 0 < level.depth }
    ensures { result.depth ≡ level.entry.depth - 1 }
{
    Level {
        alloc: level.alloc,
        arena: level.arena,
        depth: level.depth - 1,
    }
}

/// What is printed as the step of a call begins.
#[inline(never)]
pub fn prints<'a>(
    alloc: Global,
    f: &Callee<'a>,
    vs: &[Value<'a>],
    output: &mut Lines,
) -> Result<(), AllocError>
    ensures { OnOk result (output.new ≡ add_text output.old (calls.prints f.now vs.now)) }
{
    match (f, &argument(vs, 0)) {
        (Callee::Method(Value::Host, JsMember::Print), Value::Str(text)) => output.push(
            text.to_text(alloc)?,
        ),
        _ => Ok(()),
    }
}

/// One step: a `var` of a file.
#[tactic(auto, using(crate::proofs::Depth::spent_plain, crate::proofs::Depth::deep_plain, crate::proofs::Depth::some_variable))]
fn var_to<'a>(
    level: Level<'a>,
    here: &Here<'a>,
    state: &mut State<'a>,
    x: &'a [u8],
    e: &'a JsExpr,
) -> Result<(), Jump<'a>>
    ensures { IsOutcome (at (prog.does (machine.Variable here.now x.now e.now)) level.entry.depth state.old) result state.new }
{
    if state.steps == 0 {
        return Err(Jump::Stop(Stop::Steps));
    }
    if level.depth == 0 {
        return Err(Jump::Stop(Stop::Depth));
    }
    state.steps -= 1;
    variable(inner(level), here, state, x, e)
}

#[tactic(auto, unfolding(crate::specs::Files::variable))]
fn variable<'a>(
    level: Level<'a>,
    here: &Here<'a>,
    state: &mut State<'a>,
    x: &'a [u8],
    e: &'a JsExpr,
) -> Result<(), Jump<'a>>
    ensures { IsOutcome (at (spec.variable here.now x.now e.now) level.entry.depth state.old) result state.new }
{
    let v = eval_to(level, usize::MAX, here, state, e)?;
    level.give(&Env::top(), state, x, v)
}

// ---- a file

fn at_top<'a>(file: u32) -> Around<'a>
    ensures { result ≡ spec.at_top file }
{
    Around {
        file,
        env: Env::top(),
        in_function: false,
    }
}

fn top_here<'a>(file: u32, at: u64) -> Here<'a>
    ensures { result ≡ spec.top_here file at }
{
    Here {
        spot: Spot { file, at },
        env: Env::top(),
    }
}

fn let_name<'a>(c: &'a JsStmt) -> Option<Name<'a>>
    ensures { result ≡ spec.let_name (out-JsStmt c.now) }
{
    match c {
        JsStmt::Let { name, .. } => Some(Name::new(name.as_slice())),
        _ => None,
    }
}

/// The name that an item declares.
fn item_name<'a>(item: &'a JsItem) -> Option<Name<'a>>
    ensures { result ≡ spec.item_name item.now }
{
    match item {
        JsItem::Declared { name, .. } => Some(Name::new(name.as_slice())),
        JsItem::Var { name, .. } => Some(Name::new(name.as_slice())),
        JsItem::Statement(c) => let_name(c),
    }
}

#[tactic(auto, unfolding(crate::specs::Files::is_new))]
fn is_new<'a>(
    level: Level<'a>,
    file: u32,
    state: &mut State<'a>,
    name: Option<Name<'a>>,
) -> Result<(), Jump<'a>>
    ensures { IsOutcome (at (spec.is_new file name.entry) level.entry.depth state.old) result state.new }
{
    match name {
        Some(x) => {
            if level.is_declared(state, &x)? {
                Err(stuck(Spot { file, at: 0 }))
            } else {
                Ok(())
            }
        }
        None => Ok(()),
    }
}

#[tactic(auto, unfolding(crate::specs::Files::are_new))]
fn are_new<'a>(
    level: Level<'a>,
    file: u32,
    state: &mut State<'a>,
    items: &'a [JsItem],
) -> Result<(), Jump<'a>>
    ensures { IsOutcome (at (spec.are_new file items.now) level.entry.depth state.old) result state.new }
{
    for item in items {
        is_new(level, file, state, item_name(item))?;
    }
    Ok(())
}

fn absent<'a>(
    level: Level<'a>,
    state: &mut State<'a>,
    name: Option<Name<'a>>,
) -> Result<(), Jump<'a>>
    ensures { IsOutcome (at (spec.absent name.entry) level.entry.depth state.old) result state.new }
{
    match name {
        Some(x) => level.declare(state, x, None),
        None => Ok(()),
    }
}

fn opens_function<'a>(
    level: Level<'a>,
    file: u32,
    state: &mut State<'a>,
    x: Name<'a>,
    f: &'a JsFunction,
) -> Result<(), Jump<'a>>
    ensures { IsOutcome (at (spec.opens_function file x.entry f.now) level.entry.depth state.old) result state.new }
{
    let v = level.function_value(file, &Env::top(), state, f)?;
    level.declare(state, x, Some(v))
}

fn opens<'a>(
    level: Level<'a>,
    file: u32,
    state: &mut State<'a>,
    item: &'a JsItem,
) -> Result<(), Jump<'a>>
    ensures { IsOutcome (at (spec.opens file item.now) level.entry.depth state.old) result state.new }
{
    match item {
        JsItem::Declared { name, function } => opens_function(
            level,
            file,
            state,
            Name::new(name.as_slice()),
            function,
        ),
        JsItem::Var { name, .. } => level.declare(
            state,
            Name::new(name.as_slice()),
            Some(Value::Undefined),
        ),
        JsItem::Statement(c) => absent(level, state, let_name(c)),
    }
}

#[tactic(auto, unfolding(crate::specs::Files::opened))]
fn opened<'a>(
    level: Level<'a>,
    file: u32,
    state: &mut State<'a>,
    items: &'a [JsItem],
) -> Result<(), Jump<'a>>
    ensures { IsOutcome (at (spec.opened file items.now) level.entry.depth state.old) result state.new }
{
    for item in items {
        opens(level, file, state, item)?;
    }
    Ok(())
}

fn performs<'a>(
    level: Level<'a>,
    file: u32,
    state: &mut State<'a>,
    item: &'a JsItem,
) -> Result<(), Jump<'a>>
    ensures { IsOutcome (at (spec.performs file item.now) level.entry.depth state.old) result state.new }
{
    match item {
        JsItem::Declared { .. } => Ok(()),
        JsItem::Var { at, name, value } => var_to(
            level,
            &top_here(file, *at),
            state,
            name.as_slice(),
            value,
        ),
        JsItem::Statement(c) => exec_to(level, usize::MAX, &at_top(file), &[], state, c),
    }
}

#[tactic(auto, unfolding(crate::specs::Files::performed))]
fn performed<'a>(
    level: Level<'a>,
    file: u32,
    state: &mut State<'a>,
    items: &'a [JsItem],
) -> Result<(), Jump<'a>>
    ensures { IsOutcome (at (spec.performed file items.now) level.entry.depth state.old) result state.new }
{
    for item in items {
        performs(level, file, state, item)?;
    }
    Ok(())
}

#[tactic(auto, unfolding(crate::specs::Files::runs))]
fn runs<'a>(
    level: Level<'a>,
    file: u32,
    state: &mut State<'a>,
    named: &'a NamedTree,
) -> Result<(), Jump<'a>>
    ensures { IsOutcome (at (spec.runs file named.now) level.entry.depth state.old) result state.new }
{
    let items = named.tree.items.as_slice();
    level.starts(state, SharedText::new(named.name.as_slice()))?;
    are_new(level, file, state, items)?;
    opened(level, file, state, items)?;
    performed(level, file, state, items)
}

// ---- loads

fn runs_once<'a>(
    level: Level<'a>,
    file: u32,
    state: &mut State<'a>,
    named: &'a NamedTree,
    ran: bool,
) -> Result<(), Jump<'a>>
    ensures { IsOutcome (at (spec.runs_once file named.now ran) level.entry.depth state.old) result state.new }
{
    if ran {
        Ok(())
    } else {
        runs(level, file, state, named)
    }
}

#[tactic(auto, unfolding(crate::specs::Files::wanted))]
fn wanted<'a>(
    level: Level<'a>,
    files: &'a [NamedTree],
    spot: Spot,
    state: &mut State<'a>,
    name: &SharedText<'a>,
) -> Result<(), Jump<'a>>
    requires { length files.now < 2 ^ 32 }
    ensures { IsOutcome (at (spec.wanted files.now spot name.now) level.entry.depth state.old) result state.new }
{
    let Some(file) = level.file_number(state, name)? else {
        return Err(stuck(spot));
    };
    let Some(named) = files.get(file) else {
        return Err(stuck(spot));
    };
    let ran = level.has_run(state, name)?;
    runs_once(level, file as u32, state, named, ran)
}

#[tactic(auto, unfolding(crate::specs::Files::all_wanted))]
fn all_wanted<'a>(
    level: Level<'a>,
    files: &'a [NamedTree],
    spot: Spot,
    state: &mut State<'a>,
    names: &[SharedText<'a>],
) -> Result<(), Jump<'a>>
    requires { length files.now < 2 ^ 32 }
    ensures { IsOutcome (at (spec.all_wanted files.now spot names.now) level.entry.depth state.old) result state.new }
{
    for name in names {
        wanted(level, files, spot, state, name)?;
    }
    Ok(())
}

fn asker(load: &Load) -> Spot
    ensures { result ≡ spec.asker load.now }
{
    Spot {
        file: load.file(),
        at: load.at(),
    }
}

#[tactic(auto, unfolding(crate::specs::Files::completed))]
fn completed<'a>(
    level: Level<'a>,
    files: &'a [NamedTree],
    state: &mut State<'a>,
    load: &Load<'a>,
) -> Result<(), Jump<'a>>
    requires { length files.now < 2 ^ 32 }
    ensures { IsOutcome (at (spec.completed files.now load.now) level.entry.depth state.old) result state.new }
{
    let spot = asker(load);
    all_wanted(level, files, spot, state, load.names())?;
    let f = Callee::Applied(load.done().share());
    call_to(level, usize::MAX, spot, state, f, Slots::new(level.alloc))?;
    Ok(())
}

#[tactic(auto, unfolding(crate::specs::Files::event))]
fn event<'a>(
    level: Level<'a>,
    files: &'a [NamedTree],
    state: &mut State<'a>,
) -> Result<bool, Jump<'a>>
    requires { length files.now < 2 ^ 32 }
    ensures { IsOutcome (at (spec.event files.now) level.entry.depth state.old) result state.new }
{
    match level.completes(state)? {
        Some(load) => {
            completed(level, files, state, &load)?;
            Ok(true)
        }
        None => Ok(false),
    }
}

#[tactic(auto, using(crate::proofs::Events::last_event, crate::proofs::Events::more_events))]
fn events<'a>(
    level: Level<'a>,
    files: &'a [NamedTree],
    state: &mut State<'a>,
    most: u64,
) -> Result<(), Jump<'a>>
    requires { length files.now < 2 ^ 32 }
    ensures { IsOutcome (at (spec.events files.now most) level.entry.depth state.old) result state.new }
{
    for turn in 0..most {
        if !event(level, files, state)? {
            return Ok(());
        }
    }
    event(level, files, state)?;
    Ok(())
}

// ---- the run

#[tactic(auto, using(crate::proofs::Whole::last_runs))]
fn main<'a>(level: Level<'a>, files: &'a [NamedTree], state: &mut State<'a>) -> Result<(), Jump<'a>>
    requires some { 0 < length files.now }
    requires numbered { length files.now < 2 ^ 32 }
    ensures { IsOutcome (at (spec.main 0 files.now) level.entry.depth state.old) result state.new }
{
    let last = files.len() - 1;
    runs(level, last as u32, state, &files[last])
}

#[tactic(auto, unfolding(crate::specs::Files::whole))]
fn whole<'a>(
    level: Level<'a>,
    files: &'a [NamedTree],
    state: &mut State<'a>,
    most: u64,
) -> Result<(), Jump<'a>>
    requires some { 0 < length files.now }
    requires numbered { length files.now < 2 ^ 32 }
    ensures { IsOutcome (at (spec.whole files.now most) level.entry.depth state.old) result state.new }
{
    main(level, files, state)?;
    events(level, files, state, most)
}

fn class_name(alloc: Global, v: &Value) -> Result<Option<Shown>, AllocError>
    ensures { IfOk result (λ shown. shown ≡ stored.class_name v.now) }
{
    match v {
        Value::Str(t) => Ok(Some(Shown::Class(t.to_text(alloc)?))),
        _ => Ok(None),
    }
}

fn class_of<'a>(
    alloc: Global,
    store: &Store<'a>,
    v: &Value<'a>,
) -> Result<Option<Shown>, AllocError>
    ensures { IfOk result (λ shown. shown ≡ stored.class_of store.now v.now) }
{
    match v {
        Value::Object(a) => class_name(
            alloc,
            &store.read_property(*a, &SharedText::new(&[110, 36])),
        ),
        _ => Ok(None),
    }
}

fn list_text(alloc: Global) -> Result<Text, AllocError>
    ensures { IfOk result (λ text. text ≡ codes "List") }
{
    Text::from_slice(alloc, &[76, 105, 115, 116])
}

/// What is shown of a value that nothing caught.
fn shown_as<'a>(
    alloc: Global,
    store: &Store<'a>,
    v: &Value<'a>,
) -> Result<Option<Shown>, AllocError>
    ensures { IfOk result (λ shown. shown ≡ stored.shown_as store.now v.now) }
{
    match v {
        Value::Null => Ok(Some(Shown::Null)),
        Value::Bool(b) => Ok(Some(Shown::Bool(*b))),
        Value::Number(z) => Ok(Some(Shown::Int(*z))),
        Value::Str(t) => Ok(Some(Shown::Str(t.to_text(alloc)?))),
        Value::Array(_) => Ok(Some(Shown::Class(list_text(alloc)?))),
        Value::Object(a) => class_of(
            alloc,
            store,
            &store.read_property(*a, &SharedText::new(&[99, 36])),
        ),
        _ => Ok(None),
    }
}

fn stuck_end(spot: Spot) -> End
    ensures { result ≡ spec_ends.stuck_end spot }
{
    End::Stuck {
        file: spot.file,
        at: spot.at,
    }
}

fn threw<'a>(alloc: Global, store: &Store<'a>, v: &Value<'a>, from: Spot) -> Result<End, AllocError>
    ensures { IfOk result (λ end. end ≡ spec_ends.threw from (stored.shown_as store.now v.now)) }
{
    match shown_as(alloc, store, v)? {
        Some(shown) => Ok(End::Threw(shown)),
        None => Ok(stuck_end(from)),
    }
}

/// How the run ends.
fn end_of<'a>(
    alloc: Global,
    store: &Store<'a>,
    outcome: Result<(), Jump<'a>>,
) -> Result<End, AllocError>
    ensures { IfOk result (λ end. spec_ends.IsEnd store.now outcome.entry end) }
{
    match outcome {
        Ok(()) => Ok(End::Done),
        Err(Jump::Stop(Stop::Memory)) => Err(AllocError),
        Err(Jump::Stop(Stop::Range)) => Ok(End::Left),
        Err(Jump::Stop(Stop::NoRule(spot))) => Ok(stuck_end(spot)),
        Err(Jump::Stop(Stop::Steps)) => Ok(End::Spent),
        Err(Jump::Stop(Stop::Depth)) => Ok(End::Deep),
        Err(Jump::Leave(Leave::Throw(v, from))) => threw(alloc, store, &v, from),
        Err(Jump::Leave(Leave::Return(_))) => Ok(End::Done),
        Err(Jump::Leave(Leave::Break(_))) => Ok(End::Done),
    }
}

/// The files by their names, of which none has run.
fn with_files<'a>(
    alloc: Global,
    files: &'a [NamedTree],
) -> Result<Pairs<SharedText<'a>, bool>, AllocError>
    ensures { IfOk result (λ made. made ≡ spec.with_files [] files.now) }
{
    let mut made = Pairs::new(alloc);
    for named in files {
        made.put(SharedText::new(named.name.as_slice()), false)?;
    }
    Ok(made)
}

fn begins<'a>(
    alloc: Global,
    files: &'a [NamedTree],
    order: &'a [u32],
) -> Result<Realm<'a>, AllocError>
    ensures { IfOk result (λ realm. realm ≡ spec.begins files.now order.now) }
{
    Ok(Realm {
        store: Store::new(alloc),
        host: Host::new(alloc, with_files(alloc, files)?, order),
    })
}

#[tactic(auto, using(crate::proofs::Whole::whole_run))]
fn run_in<'a>(
    level: Level<'a>,
    files: &'a [NamedTree],
    order: &'a [u32],
    steps: u64,
) -> Result<RunEnd, AllocError>
    requires some { 0 < length files.now }
    requires numbered { length files.now < 2 ^ 32 }
    ensures { IfOk result (λ run. run ≡ js_to files.now level.entry.depth order.now steps) }
{
    let mut state = State {
        steps,
        realm: begins(level.alloc, files, order)?,
        output: Lines::new(level.alloc),
    };
    let outcome = whole(level, files, &mut state, steps);
    let end = end_of(level.alloc, &state.realm.store, outcome)?;
    let State {
        steps: _,
        realm: _,
        output,
    } = state;
    Ok(RunEnd { output, end })
}

/// The run of the files, of so many steps at most, of which so many at most may be nested. The last file runs first; the
/// order tells which load completes. Asks at least one file, and that the names of the files differ. Of more files than a
/// `u32` counts it answers want of memory.
pub fn run_to(
    alloc: Global,
    files: &TreeList,
    depth: usize,
    order: &[u32],
    steps: u64,
) -> Result<RunEnd, AllocError>
    requires some { 0 < length files.now }
    requires own_names { HaveOwnNames files.now }
    ensures { IfOk result (λ run. run ≡ js_to files.now depth order.now steps) }
{
    if files.as_slice().len() > MOST_FILES {
        return Err(AllocError);
    }
    let arena = Bump::new(alloc);
    let level = Level {
        alloc,
        arena: &arena,
        depth,
    };
    run_in(level, files.as_slice(), order, steps)
}

/// The run of the files, of so many steps at most, of which at most 3,999 may be nested: Deep comes exactly where another
/// would be. Asks at least one file, and that the names of the files differ. Of more files than a `u32` counts it answers
/// want of memory.
pub fn run_js(
    alloc: Global,
    files: &TreeList,
    order: &[u32],
    steps: u64,
) -> Result<RunEnd, AllocError>
    requires some { 0 < length files.now }
    requires own_names { HaveOwnNames files.now }
    ensures { IfOk result (λ run. run ≡ js_to files.now 3999 order.now steps) }
{
    run_to(alloc, files, MAX_DEPTH, order, steps)
}
