//! Functions, and the scopes around them.

ghost use Rattle.std.specs.Prelude.{◌≡◌, [], ◌∷◌, IfOk};

use bumpalo::Bump;
use bumpalo::collections::into_bump_slice;
use js_tree::JsFunction;
use std::alloc::AllocError;
use std::marker::Model;
use store_lists::Share;

/// The scopes around what runs, seen as the list of their addresses, the innermost first. The top scope, which is around
/// them all, is not in it.
#[derive(Drop)]
pub struct Env<'a> {
    scopes: &'a [usize],
}

impl<'a> Model for Env<'a> {
    ghost use Rattle.std.specs.Prelude.{List, ℕ};

    ghost Value = { List ℕ };

    ghost view = { λ env. env.scopes.now };
}

impl<'a> Env<'a> {
    /// The top scope alone.
    pub fn top() -> Env<'a>
        ensures { result ≡ [] }
    {
        Env { scopes: &[] }
    }

    /// One scope more, inside of all.
    pub fn with(&self, arena: &'a Bump, scope: usize) -> Result<Env<'a>, AllocError>
        ensures { IfOk result (λ env. env ≡ scope ∷ self.now) }
    {
        let mut scopes = Vec::new(arena);
        scopes.push(scope)?;
        scopes.extend_from_slice(self.scopes)?;
        Ok(Env {
            scopes: into_bump_slice(scopes),
        })
    }

    /// The addresses of the scopes, the innermost first.
    pub fn scopes(&self) -> &'a [usize]
        ensures { result.now ≡ self.now }
    {
        self.scopes
    }
}

impl<'a> Share for Env<'a> {
    fn share(&self) -> Env<'a> {
        Env {
            scopes: self.scopes,
        }
    }
}

/// A function of the program: its tree, the scopes around the place where it was made, and the number of its file.
#[derive(Drop)]
pub struct Closure<'a> {
    function: &'a JsFunction,
    around: Env<'a>,
    file: u32,
}

impl<'a> Model for Closure<'a> {
    ghost use Rattle.js_store.specs.Closure.{Closure};
    ghost use Rattle.js_tree.specs.contracts.tree.JsFunction as e;
    ghost use Rattle.std.specs.Coded.{codes};

    ghost Value = { Closure };

    ghost coded = { Prim.hlevel (codes, e.the_row.coded) };

    ghost view = { λ it. record { function = it.function.now; around = it.around; file = it.file } };
}

impl<'a> Closure<'a> {
    /// A function of these parts.
    pub fn new(function: &'a JsFunction, around: Env<'a>, file: u32) -> Closure<'a>
        ensures { result ≡ record { function = function.now; around = around.entry; file = file } }
    {
        Closure {
            function,
            around,
            file,
        }
    }

    /// Its tree.
    pub fn function(&self) -> &'a JsFunction
        ensures { result.now ≡ self.now.function }
    {
        self.function
    }

    /// The scopes around the place where it was made.
    pub fn around(&self) -> &Env<'a>
        ensures { result.now ≡ self.now.around }
    {
        &self.around
    }

    /// The number of its file.
    pub fn file(&self) -> u32
        ensures { result ≡ self.now.file }
    {
        self.file
    }
}
