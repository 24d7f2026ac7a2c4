//! Calls on the store's callbacks and loads.

use crate::arguments::Arguments;
use crate::values::shown;
use anyhow::Result;
use dart_store::{Asked, Store};

/// So many callbacks were made ready before.
pub fn set_readied<'a>(store: &mut Store<'a>, args: &Arguments<'a, '_>) -> Result<String> {
    store.readied = args.count(0)?;
    Ok(format!(in args.alloc; "done")?)
}

/// The callback that is ready first.
pub fn take_ready<'a>(store: &mut Store<'a>, args: &Arguments<'a, '_>) -> Result<String> {
    match store.take_ready() {
        Some(callback) => Ok(shown(args.alloc, &callback)?),
        None => Ok(format!(in args.alloc; "none")?),
    }
}

/// Asks for the load of an import, which is to complete a future.
pub fn ask<'a>(store: &mut Store<'a>, args: &Arguments<'a, '_>) -> Result<String> {
    store.ask(Asked {
        import: args.number(0)?,
        future: args.value(1)?,
    })?;
    Ok(format!(in args.alloc; "done")?)
}

/// The import whose load completes.
pub fn complete<'a>(store: &mut Store<'a>, args: &Arguments<'a, '_>) -> Result<String> {
    match store.complete()? {
        Some(load) => Ok(format!(in args.alloc; "{}", load.import)?),
        None => Ok(format!(in args.alloc; "none")?),
    }
}

/// Whether a load of an import has completed.
pub fn is_loaded<'a>(store: &Store<'a>, args: &Arguments<'a, '_>) -> Result<String> {
    let loaded = store.is_loaded(args.number(0)?);
    Ok(format!(in args.alloc; "{loaded}")?)
}
